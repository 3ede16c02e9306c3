//! Why a storage has no answer.

ghost use Rattle.std.specs.Prelude.{◌≡◌};
ghost use Rattle.grain_storage.specs.declared.fault.StoreFault.TheVariants as faults;

use std::alloc::AllocError;
use thiserror::Error;

/// Why a call of a storage was refused. The rows are then as before.
#[derive(Clone, Copy, Debug, PartialEq, Eq, Error)]
pub enum StoreFault {
    /// The storage failed.
    #[error("the storage failed")]
    Failed,
    /// The row has this version, or there is no row, where another one was expected.
    #[error("the stored row has another version")]
    Stale(Option<u64>),
    /// The row has the last version, 18,446,744,073,709,551,615.
    #[error("the versions of the row are spent")]
    Spent,
    /// Memory was refused.
    #[error("out of memory")]
    Memory,
}

impl From<AllocError> for StoreFault {
    ghost from_gives = { λ _ fault. fault ≡ faults.Memory };

    fn from(_refused: AllocError) -> StoreFault {
        StoreFault::Memory
    }
}
