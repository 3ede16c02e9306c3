//! Workers that serve lanes, over any silo.
//!
//! A layer above may rely on this: how many answers each client is owed is counted exactly (`owed`), up when it asks
//! and down when a reply to it is looked at; `work_lanes` changes a silo by the calls of `ServedSilo`, and by nothing
//! else; two lists that `are_same` are equal. How many workers go on at once is a hint (`Pace`). What is meant is in
//! `specs/Owing.antt`, `specs/Turns.antt`, `specs/Served.antt` and `specs/Batches.antt`.
#![tactic(auto)]

mod bodies;
mod gate;
pub mod owed;
mod pace;
mod same;
mod schedule;
mod served;
mod worker;
mod workers;

pub use gate::{FreeGate, TurnGate};
pub use same::{SameAs, are_same};
pub use served::{NextStep, ServedSilo};
pub use workers::{Crew, WorkFault, work_lanes};
