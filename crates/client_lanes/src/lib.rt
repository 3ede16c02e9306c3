//! Lanes: what clients ask in order, and what is looked at once they were served.
//!
//! A layer above may rely on this: a lane has only steps that its client may give; `lanes_stand` finds
//! out in one pass whether lanes stand in a journal, as the crate `lane_model` defines it; and
//! `answers` gives each lane the replies to its client. How the pass keeps what is left of each lane is
//! in `specs/inside/Passing.antt`.
#![tactic(auto)]

mod check;
mod giving;
mod lane;
mod replies_by_client;

pub use check::{failed_in, lanes_stand};
pub use lane::{Lane, LaneFault, distinct};
pub use replies_by_client::answers;
