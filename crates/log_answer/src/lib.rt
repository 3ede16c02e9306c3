//! A silo that lasts: each line that it answers is in a log, and on the disk, before any reply to it is written.
//!
//! A layer above may rely on this: at every moment of `answer_logged`, whatever a crash leaves of the log, the replies
//! written so far are the beginning of what that log answers; and `answer_again` makes a silo that is where the lines
//! of a log lead, of which each tenant's part is its own machine's. What a log answers is in `specs/Answers.antt`, what
//! a start makes of it in `specs/Starts.antt`, and what a run leaves in `specs/Runs.antt`.
#![tactic(auto)]

mod answering;
mod batch;
pub mod laws;
mod running;
mod starting;
mod well;

pub use log_host::LogPlace;
pub use running::{LogFault, Ran, RunFrom, answer_logged};
pub use starting::{Again, AgainFault, answer_again};
