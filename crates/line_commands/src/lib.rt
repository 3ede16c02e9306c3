//! The commands of the program `silo` that read, work and write line by line: `silo steps` and `silo answer`.
//!
//! A layer above may rely on this: `answer_steps` takes the steps of an input and writes what they answer, and
//! `answer_input` answers each line before the next is read, and keeps the journal. What comes of them stands in
//! `specs/Steps.antt` and in `specs/Answering.antt`. `laws` says of the journal what `specs/Laws.antt` states.
#![tactic(auto)]

mod answering;
pub mod laws;
mod stepping;

pub use answering::answer_input;
pub use stepping::answer_steps;
