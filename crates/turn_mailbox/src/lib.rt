//! The requests of a grain: those that wait, and the open turns.
//!
//! A layer above may rely on this: a mailbox is seen as the list of the requests that wait, the open
//! turns as a finite map by number, and how many may wait; only the first that waits begins, as the
//! turn rule allows. What a mailbox holds and what its calls do is in `specs/Contents.antt`,
//! `specs/Kept.antt` says how its parts stay together, and `specs/inside/Beside.antt` how one open turn
//! stands beside the others.
#![tactic(auto)]

mod mailbox;
mod request;
mod turns;

pub use mailbox::{Mailbox, NoTurn};
pub use request::Request;
