//! The text of a log: what a silo was asked, in batches, each closed by a mark.
//!
//! A layer above may rely on this: what was written whole is read, whatever a crash left after it; the first bytes of a
//! log read as its first batches; and a batch that doesn't fit, followed by another one, is refused, with the number of
//! lines before the one at fault. What is written is in `specs/Batches.antt`, what is read in `specs/Reading.antt`, and
//! the laws of both in `specs/Laws.antt`.
#![tactic(auto)]

mod cuts;
mod head;
pub mod laws;
mod reader;
mod sum;
mod words;
mod writer;

pub use head::{cut_head, is_log, push_head};
pub use reader::{NextBatch, fault_behind, next_asked, next_batch};
pub use sum::{spell, sum_after};
pub use words::{push_kind, push_number, push_tenant};
pub use writer::{push_line, push_mark};
