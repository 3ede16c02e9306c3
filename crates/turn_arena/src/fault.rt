//! Why nothing was read into an arena.

ghost use Rattle.std.specs.Prelude.{◌≡◌};
ghost use Rattle.turn_arena.specs.declared.fault.ArenaFault.TheVariants as faults;

use std::alloc::{AllocError, AllocFailed};
use thiserror::Error;

/// Why there is no tree.
#[derive(Clone, Copy, Debug, PartialEq, Eq, Error)]
pub enum ArenaFault {
    /// Nothing spells the bytes.
    #[error("nothing spells the bytes")]
    NotAMessage,
    /// Memory was refused.
    #[error("out of memory")]
    Memory,
}

impl From<AllocError> for ArenaFault {
    ghost from_gives = { λ _ e. e ≡ faults.Memory };

    fn from(_refused: AllocError) -> ArenaFault {
        ArenaFault::Memory
    }
}

impl<T: Drop> From<AllocFailed<T>> for ArenaFault {
    ghost from_gives = { λ _ e. e ≡ faults.Memory };

    fn from(_refused: AllocFailed<T>) -> ArenaFault {
        ArenaFault::Memory
    }
}
