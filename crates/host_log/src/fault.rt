//! Why the folder of data isn't had, or a call at it failed.

ghost use Rattle.std.specs.Prelude.{◌≡◌, ◌≢◌, IfErr};

use std::alloc::AllocError;
use std::io::{self, ErrorKind};

/// Why a call at the folder of data failed.
#[derive(Clone, Copy, Debug, PartialEq, Eq)]
pub enum FolderFault {
    /// Memory was refused.
    Memory,

    /// Another process holds the folder.
    InUse,

    /// The log wasn't read.
    Read,

    /// The folder, its lock or its log wasn't made, written, cut or synced.
    Write,
}

impl From<AllocError> for FolderFault {
    ghost use Rattle.host_log.specs.declared.fault.FolderFault.TheVariants as faults;

    ghost from_gives = { λ _ e. e ≡ faults.Memory };

    fn from(_: AllocError) -> FolderFault {
        FolderFault::Memory
    }
}

/// The fault of an error while the log was read.
pub fn reading_fault(error: io::Error) -> FolderFault
    ensures { result ≢ FolderFault.InUse }
{
    match error.kind() {
        ErrorKind::OutOfMemory => FolderFault::Memory,
        _ => FolderFault::Read,
    }
}

/// What became of a call that makes, writes, cuts or syncs.
pub fn written<T: Drop>(done: io::Result<T>) -> Result<T, FolderFault>
    ensures ok { (kept : T) → done ≡ Ok kept → result ≡ Ok kept }
    ensures err { IfErr result (λ why. why ≡ FolderFault.Write) }
{
    match done {
        Ok(kept) => Ok(kept),
        Err(_) => Err(FolderFault::Write),
    }
}
