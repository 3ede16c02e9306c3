//! Checkpoints.

use silo_state::KeptParts;
use std::marker::Model;

/// What is kept of a silo where it is left, as it is read: the sum of the checkpoint before, as it is spelled; how many calls that
/// grains sent are delivered after a line; the clock, what is kept of each tenant, in the order of the table, and the grains that are
/// active, ascending; and the text of the journal that has the kinds' version, the ages, the tenants and the rows, and no step.
#[derive(Drop)]
pub struct Checkpoint<'a> {
    pub follows: &'a str,
    pub sends: u64,
    pub kept: KeptParts,
    pub journal: &'a str,
}

/// The same, to be written.
#[derive(Clone, Copy)]
pub struct CheckpointParts<'a> {
    pub follows: &'a str,
    pub sends: u64,
    pub kept: &'a KeptParts,
    pub journal: &'a [u8],
}

impl Checkpoint<'_> {
    ghost use Rattle.std.specs.Prelude.{◌≡◌};
    ghost use Rattle.checkpoint_text.specs.Answers.{checkpoint_in, parts_in};

    /// What its text is made of.
    pub fn parts(&self) -> CheckpointParts<'_>
        ensures { parts_in result ≡ checkpoint_in self.now }
    {
        CheckpointParts {
            follows: self.follows,
            sends: self.sends,
            kept: &self.kept,
            journal: self.journal.as_bytes(),
        }
    }
}
