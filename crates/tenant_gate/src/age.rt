//! How long an activation is idle before it may go.

ghost use Rattle.std.specs.Prelude.{◌≡◌, SomeIff};
ghost use Rattle.tenant_gate.specs.Age.{IsAge};

use std::marker::Model;

/// The shortest age, in milliseconds.
pub const MIN_AGE_MILLISECONDS: u64 = 1;

/// The longest age, in milliseconds: a day.
pub const MAX_AGE_MILLISECONDS: u64 = 86_400_000;

/// The milliseconds after which an idle activation may go, 1 to 86,400,000.
#[derive(Clone, Copy, Debug, PartialEq, Eq, PartialOrd, Ord)]
pub struct Age {
    milliseconds: u64,
}

impl Model for Age {
    ghost use Rattle.std.specs.Prelude.{ℕ};
    ghost use Rattle.tenant_gate.specs.Age.{IsAge};

    ghost Value = { ℕ };

    ghost view = { λ age. age.milliseconds };

    ghost invariant = { λ age. IsAge age.milliseconds };

    ghost inverse = { λ age. record { milliseconds = age } };
}

impl Age {
    /// The age of this many milliseconds, or nothing if they are 0 or above 86,400,000.
    pub fn new(milliseconds: u64) -> Option<Age>
        ensures { SomeIff result (IsAge milliseconds) milliseconds }
    {
        if MIN_AGE_MILLISECONDS <= milliseconds && milliseconds <= MAX_AGE_MILLISECONDS {
            Some(Age { milliseconds })
        } else {
            None
        }
    }

    /// The milliseconds.
    pub fn millis(self) -> u64
        ensures value { result ≡ self }
        ensures in_range { IsAge result }
    {
        self.milliseconds
    }
}
