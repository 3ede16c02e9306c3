//! Why a text is no name.

ghost use Rattle.std.specs.Prelude.{◌≡◌, ◌↔◌, IsTrue};
ghost use Rattle.grain_id.specs.declared.fault.IdFault.TheVariants as faults;

use std::alloc::AllocError;
use thiserror::Error;

/// The first part from the left that isn't well formed, or that memory was refused.
#[derive(Clone, Copy, Debug, PartialEq, Eq, Error)]
pub enum IdFault {
    #[error("the kind isn't well formed")]
    Kind,
    #[error("the tenant isn't well formed")]
    Tenant,
    #[error("the name isn't well formed")]
    Name,
    #[error("the client isn't well formed")]
    Client,
    #[error("out of memory")]
    Memory,
}

impl IdFault {
    /// Whether memory was refused; otherwise the text is at fault.
    pub fn is_memory(&self) -> bool
        ensures { IsTrue result ↔ (self.now ≡ faults.Memory) }
    {
        matches!(self, IdFault::Memory)
    }
}

impl From<AllocError> for IdFault {
    ghost from_gives = { λ _ e. e ≡ faults.Memory };

    fn from(_refused: AllocError) -> IdFault {
        IdFault::Memory
    }
}
