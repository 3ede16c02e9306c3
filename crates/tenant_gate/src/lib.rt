//! Which tenants a silo serves, who may call whom, and how long an activation may be idle.
//!
//! A layer above may rely on this: a table is seen as the list that it was made of, which has 1 to
//! 1,000 tenants, none twice, with limits in their ranges; a tenant is found by its whole name; and
//! a call passes exactly where the caller's tenant is known and is the grain's tenant. The gate's rule is
//! `specs/Gate.antt`, which the table and a layer above share by `judge`; what a table is stands in
//! `specs/Table.antt`. An age is in its range by its type.
#![tactic(auto)]

mod age;
mod fault;
mod gate;
mod limits;
mod table;

pub use age::{Age, MAX_AGE_MILLISECONDS, MIN_AGE_MILLISECONDS};
pub use fault::{GateFault, TableFault};
pub use gate::{GateRefusal, judge};
pub use limits::{Limits, MAX_ACTIVATIONS, MAX_MAILBOX, MAX_TENANTS};
pub use table::TenantTable;
