//! A silo of virtual actors, shared by tenants: grains that are activated, loaded, given one turn at a
//! time, and dropped from memory when they are idle.
//!
//! A layer above may rely on this: what a silo shows is where its journal leads from its opening,
//! each step is the machine's on the part of each tenant that it concerns and leaves every other
//! part as it was, and after `NotNow` and after a fault nothing has changed. A silo is seen as the
//! `History` of `specs/History.antt`; what a step does is defined in the crate `silo_model`.
#![tactic(auto)]

pub mod laws;
mod replies;
mod rows;
mod setup;
mod silo;

pub use rows::stored_of;
pub use setup::Setup;
pub use silo::{RunReport, Silo};
pub use silo_state::PossibleStep;
