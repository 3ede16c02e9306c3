//! The lines of an input, the lines of replies, and what reads and writes them.
//!
//! A layer above may rely on this: `reply_text` is the exact text of a reply, each line of an input is taken
//! once and in order, and a fault has its cause. The texts are in `specs/Text.antt`, what is written for an input in
//! `specs/LineTexts.antt`, and what was taken of an input in `specs/Reading.antt`. What one line says is
//! `line_parser`'s, whose `read_line`, `Line` and `LineRefusal` stand here too, so that a user of lines needs one crate.
#![tactic(auto)]

mod buffer;
mod calls;
mod fault;
mod gather;
mod line_reader;
mod replies;
mod streams;
mod text;
mod value_text;
mod written;

pub use calls::ReaderCalls;
pub use fault::LineFault;
pub use gather::{LINES_LIMIT, read_all};
pub use line_parser::{Line, LineRefusal, LineScratch, read_line};
pub use line_reader::LineReader;
pub use replies::{push_not_now, push_refusal, push_replies, push_reply, refusal_text, reply_text};
pub use streams::{Input, Output};
pub use written::WriterCalls;
