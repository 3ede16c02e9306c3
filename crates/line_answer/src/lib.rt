//! Lines that are answered at once: what a line asks is answered before the next line is read.
//!
//! A layer above may rely on this: between two lines no request waits and no turn is open; each client's
//! line is answered by one reply to it, first of all that its line brings; and each tenant is answered as
//! if it were alone. What is done for a line is in `specs/` of `answer_model`, and what is written in
//! `specs/Texts.antt`. The silo's journal is its own.
#![tactic(auto)]

mod answering;
mod bringing;
pub mod laws;
mod lines;
mod runner;
mod serving;

pub use answering::AnsweringSilo;
pub use line_text::{Input, LineFault, Output};
pub use lines::answer_line;
pub use runner::{ANSWERED_LIMIT, answer_lines};
