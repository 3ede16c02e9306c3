//! Why a line's request is invalid.

ghost use Rattle.std.specs.Prelude.{◌≡◌};
ghost use Rattle.silo_event.specs.Fault.{refusal_fault};

use crate::fault::Fault;

/// Why a client's line is no call and no poke.
#[derive(Clone, Copy, Debug, PartialEq, Eq)]
pub enum Refusal {
    /// The message would be too long.
    TooLong,
    /// The arguments or the state are deeper than 32.
    TooDeep,
    /// A number in them isn't a whole number of 64 bits.
    NotWhole,
    /// Bytes in them aren't well formed.
    NotHex,
    /// The text is no grain's name.
    NotWellFormed,
    /// The state would be too large.
    TooLarge,
}

impl Refusal {
    /// The fault in the reply to the client.
    pub fn fault(self) -> Fault
        ensures { result ≡ refusal_fault self }
    {
        match self {
            Refusal::TooLong => Fault::TooLong,
            Refusal::TooDeep => Fault::TooDeep,
            Refusal::NotWhole => Fault::NotWhole,
            Refusal::NotHex => Fault::NotHex,
            Refusal::NotWellFormed => Fault::NotWellFormed,
            Refusal::TooLarge => Fault::TooLarge,
        }
    }
}
