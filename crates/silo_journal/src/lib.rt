//! The journal of a silo as text, under the number by which journals name its logic.
//!
//! A layer above may rely on this: `write_journal` writes the text of a silo's own journal, which is read as that journal again
//! and in which no tenant differs from its machine. It knows no kind of grain: its caller gives the number. Which journal that is
//! stands in `specs/SiloJournal.antt`.
#![tactic(auto)]

mod writing;

pub use writing::write_journal;
