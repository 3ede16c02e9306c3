//! The command of the program `silo` that keeps what it answered: `silo answer --data`.
//!
//! A layer above may rely on this: `answer_data` opens a folder of data, goes on from its checkpoint, answers the lines of the log
//! after it again, and then answers each line of an input, which is in the log before any reply to it is written. A checkpoint
//! takes the place of a log that is long, and in the end. What this results in is defined in `specs/Data.antt` and `Passing.antt`,
//! how a folder opens in `specs/Folder.antt`, and what a log's head says in `specs/Words.antt`.
#![tactic(auto)]

mod answering;
mod fault;
mod found;
mod head;
pub mod laws;
mod left;
mod opening;
mod ready;
mod replacing;
mod reworded;
mod starting;

pub use answering::answer_data;
pub use fault::{DataFault, explain_data};
pub use opening::DataOpening;
