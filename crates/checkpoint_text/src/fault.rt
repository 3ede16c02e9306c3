//! Why bytes were not read.

ghost use Rattle.std.specs.Prelude.{◌≡◌};

use journal_text::LineFault;
use std::alloc::AllocError;
use thiserror::Error;

/// Why bytes were not read as a checkpoint.
#[derive(Clone, Copy, Debug, PartialEq, Eq, Error)]
pub enum CheckpointFault {
    /// They are the text of none.
    #[error("the bytes are no checkpoint's")]
    NoCheckpoint,
    /// Memory was refused.
    #[error("out of memory")]
    Memory,
}

impl From<AllocError> for CheckpointFault {
    ghost use Rattle.checkpoint_text.specs.declared.fault.CheckpointFault.TheVariants as faults;

    ghost from_gives = { λ _ e. e ≡ faults.Memory };

    fn from(_refused: AllocError) -> CheckpointFault {
        CheckpointFault::Memory
    }
}

impl From<LineFault> for CheckpointFault {
    ghost use Rattle.checkpoint_text.specs.inside.Reading.{fault_of_line};

    ghost from_gives = { λ why e. e ≡ fault_of_line why };

    fn from(why: LineFault) -> CheckpointFault {
        match why {
            LineFault::NoForm => CheckpointFault::NoCheckpoint,
            LineFault::Memory => CheckpointFault::Memory,
        }
    }
}
