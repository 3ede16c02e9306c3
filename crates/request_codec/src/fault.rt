//! Why a value was not read or written.

ghost use Rattle.std.specs.Prelude.{◌≡◌};
ghost use Rattle.request_codec.specs.declared.fault.CodecFault.TheVariants as faults;

use std::alloc::{AllocError, AllocFailed};
use thiserror::Error;

/// Why there is no value, no message or no state.
#[derive(Clone, Copy, Debug, PartialEq, Eq, Error)]
pub enum CodecFault {
    /// The value is deeper than 32.
    #[error("the value is deeper than 32")]
    TooDeep,
    /// A message above 65,536 bytes, or a state above 262,144.
    #[error("the message or the state is too long")]
    TooLong,
    /// Some number of the JSON isn't a whole number of 64 bits.
    #[error("a number isn't a whole number of 64 bits")]
    NotWhole,
    /// Bytes of the JSON aren't well formed: beside `$hex` there is no even number of lower case
    /// hexadecimal digits.
    #[error("bytes are not well formed")]
    NotHex,
    /// Nothing spells the bytes.
    #[error("nothing spells the bytes")]
    NotAMessage,
    /// Memory was refused.
    #[error("out of memory")]
    Memory,
}

impl From<AllocError> for CodecFault {
    ghost from_gives = { λ _ e. e ≡ faults.Memory };

    fn from(_refused: AllocError) -> CodecFault {
        CodecFault::Memory
    }
}

impl<T: Drop> From<AllocFailed<T>> for CodecFault {
    ghost from_gives = { λ _ e. e ≡ faults.Memory };

    fn from(_refused: AllocFailed<T>) -> CodecFault {
        CodecFault::Memory
    }
}
