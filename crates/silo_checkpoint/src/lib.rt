//! What a silo saves in a checkpoint, and what a checkpoint says.
//!
//! A layer above may rely on this: a checkpoint of a silo has all that the silo opened with, it is read as that again, and
//! nothing else is read as one. What that is stands in `specs/Saved.antt`, and the text in `checkpoint_text`.
#![tactic(auto)]

pub mod laws;
mod reader;
mod saved;
mod sum;
mod told;
mod writer;

pub use checkpoint_text::CheckpointFault;
pub use reader::read_saved;
pub use saved::Saved;
pub use sum::sum_of;
pub use writer::save;
