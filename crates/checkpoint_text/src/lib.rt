//! The text of a checkpoint: what is kept of a silo where it is left, written whole and read whole.
//!
//! A layer above may rely on this: what is written is read as the same checkpoint, no two checkpoints have one text, and
//! nothing else is read as one, so a text without its last line isn't. The text of a checkpoint is in `specs/Text.antt`,
//! and what may stand in one in `specs/Rules.antt`.
#![tactic(auto)]

mod checkpoint;
mod checks;
mod fault;
mod field_reader;
pub mod laws;
mod line_writer;
mod reader;
mod writer;

pub use checkpoint::{Checkpoint, CheckpointParts};
pub use checks::may_stand;
pub use fault::CheckpointFault;
pub use reader::read_checkpoint;
pub use writer::checkpoint_of;
