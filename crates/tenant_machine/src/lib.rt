//! The machine of one tenant, which runs: a plain one, over one ordered map.
//!
//! A layer above may rely on this: a [`TenantMachine`] is seen as the machine of `silo_model`, and each
//! step of it is a step of that one (`specs/Machines.antt`).
#![tactic(auto)]

mod account;
mod by_grain;
mod closing;
mod entries;
mod machine;

pub use machine::TenantMachine;
