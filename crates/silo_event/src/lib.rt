//! Steps, replies and faults: the plain data that goes into a silo and comes out of it.
//!
//! A layer above may rely on this: the generated types of `Step`, `Reply` and `Fault` are the
//! definitions' own types, so two steps are equal exactly if their parts are, and a clone equals
//! its source; a fault's code and text, and the fault of a refused line, are those of
//! `specs/Fault.antt`; a step's owner and the tenant of a party are those of `specs/Owner.antt`, who
//! asks by a step is that of `specs/Asker.antt`, and the grain that it names that of
//! `specs/inside/Named.antt`; a step whose storage call failed is that of `specs/Failed.antt`, and
//! [`same_but_failed`] leaves that mark aside; a fault's text is visible ASCII and spaces (`specs/Visible.antt`).
//! An `OpenedTurn` is what a silo hands out for a turn's plan to be made.
#![tactic(auto)]

mod copies;
mod fault;
pub mod laws;
mod moment;
mod opened_turn;
mod refusal;
mod reply;
mod step;

pub use copies::{copy_of_fault, copy_of_party, copy_of_reply, copy_of_step};
pub use fault::Fault;
pub use moment::Moment;
pub use opened_turn::OpenedTurn;
pub use refusal::Refusal;
pub use reply::{Party, Reply};
pub use step::{Answer, Step, StepFault, same_but_failed};
