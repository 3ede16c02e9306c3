//! Why a line, or a whole journal, was not read.

ghost use Rattle.std.specs.Prelude.{◌≡◌};

use std::alloc::AllocError;
use thiserror::Error;

/// Why bytes are no journal.
#[derive(Clone, Copy, Debug, PartialEq, Eq, Error)]
pub enum JournalFault {
    /// The first line that fits no form in its place, counted from 1, or one past the last line if
    /// the end is missing.
    #[error("line {line} fits no form in its place")]
    At { line: usize },
    /// Memory was refused.
    #[error("out of memory")]
    Memory,
}

impl From<AllocError> for JournalFault {
    ghost use Rattle.journal_text.specs.declared.fault.JournalFault.TheVariants as faults;

    ghost from_gives = { λ _ e. e ≡ faults.Memory };

    fn from(_refused: AllocError) -> JournalFault {
        JournalFault::Memory
    }
}

/// Why a line, or a field of one, was not read.
#[derive(Clone, Copy, Debug, PartialEq, Eq, Error)]
pub enum LineFault {
    /// It has no form that a line or the field may have.
    #[error("the text has no form that a line or a field may have")]
    NoForm,
    /// Memory was refused.
    #[error("out of memory")]
    Memory,
}

impl From<AllocError> for LineFault {
    ghost use Rattle.journal_text.specs.declared.fault.LineFault.TheVariants as faults;

    ghost from_gives = { λ _ e. e ≡ faults.Memory };

    fn from(_refused: AllocError) -> LineFault {
        LineFault::Memory
    }
}
