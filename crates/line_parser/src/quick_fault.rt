//! Why the quick reader has no answer.

ghost use Rattle.std.specs.Prelude.{◌≡◌};
ghost use Rattle.line_parser.specs.inside.QuickFault.{quick_fault_of};
ghost use Rattle.line_parser.specs.declared.quick_fault.QuickFault.TheVariants as fault;

use json::Invalid;
use request_codec::CodecFault;
use std::alloc::AllocError;

/// `LeftToTree`: the line is left to the reader of any line. `Memory`: memory was refused.
#[derive(Clone, Copy, Debug, PartialEq, Eq)]
pub(crate) enum QuickFault {
    LeftToTree,
    Memory,
}

impl From<AllocError> for QuickFault {
    ghost from_gives = { λ _ why. why ≡ fault.Memory };

    fn from(_refused: AllocError) -> QuickFault {
        QuickFault::Memory
    }
}

impl From<Invalid> for QuickFault {
    ghost from_gives = { λ _ why. why ≡ fault.LeftToTree };

    fn from(_invalid: Invalid) -> QuickFault {
        QuickFault::LeftToTree
    }
}

impl From<CodecFault> for QuickFault {
    ghost from_gives = { λ fault why. why ≡ quick_fault_of fault };

    fn from(fault: CodecFault) -> QuickFault {
        match fault {
            CodecFault::Memory => QuickFault::Memory,
            _ => QuickFault::LeftToTree,
        }
    }
}
