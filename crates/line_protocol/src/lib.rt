//! Lines of JSON in, lines of JSON out.
//!
//! A layer above may rely on this: `run_lines` writes exactly what the silo replies to the lines of its
//! input, each tenant's part as its own machine replies. What a run leaves is in `specs/LineRuns.antt`.
//! The texts, the readers and the writers are `line_text`'s, whose names stand here too, so that a user
//! of a silo's lines needs one crate.
#![tactic(auto)]

mod answers;
mod runner;

pub use line_text::{
    Input, LINES_LIMIT, Line, LineFault, LineReader, LineRefusal, LineScratch, Output, ReaderCalls,
    WriterCalls, push_not_now, push_refusal, push_replies, push_reply, read_all, read_line,
    refusal_text, reply_text,
};
pub use runner::run_lines;
