//! Why a value is no argument and no state: it is too deep, or a number of it isn't whole. Bytes that aren't well formed
//! are never met here: a line with these is left to the reader of any line.

ghost use Rattle.std.specs.Prelude.{◌≡◌, false};
ghost use Rattle.line_parser.specs.inside.Argument.{why_of};

use silo_event::Refusal;

/// What was found of a value so far, in any of its parts.
#[derive(Clone, Copy)]
pub(crate) struct Faults {
    /// It has more than 32 levels.
    pub(crate) too_deep: bool,
    /// A number of it isn't a whole number of 64 bits.
    pub(crate) not_whole: bool,
}

impl Faults {
    /// Nothing was found yet.
    #[inline(always)]
    pub(crate) fn none() -> Faults
        ensures deep { result.too_deep ≡ false }
        ensures whole { result.not_whole ≡ false }
    {
        Faults {
            too_deep: false,
            not_whole: false,
        }
    }

    /// Why the value is refused, if it is: its depth is looked at before its numbers.
    #[inline(always)]
    pub(crate) fn refusal(self) -> Option<Refusal>
        ensures { result ≡ why_of self }
    {
        if self.too_deep {
            Some(Refusal::TooDeep)
        } else if self.not_whole {
            Some(Refusal::NotWhole)
        } else {
            None
        }
    }
}
