//! The place at the end of a log.

ghost use Rattle.std.specs.Prelude.{◌≡◌, ◌≤◌, length, take};
ghost use Rattle.log_text.specs.Sums.{after};

use log_text::sum_after;

/// Where a log goes on: its name, the sum after its last batch, and the sum of all replies that went out.
#[derive(Clone, Copy, Debug, PartialEq, Eq)]
pub struct LogPlace {
    /// The first eight digits of its number.
    pub name: [u8; 8],
    pub sum: u64,
    pub told: u64,
}

impl LogPlace {
    /// The place after a head that has this number, of at least eight digits. No reply went out yet.
    pub fn behind_head(number: &[u8], head: &[u8]) -> LogPlace
        requires { 8 ≤ length number.now }
        ensures name { result.name ≡ take 8 number.now }
        ensures sum { result.sum ≡ after 0 head.now }
        ensures told { result.told ≡ 0 }
    {
        let mut name = [0; 8];
        name.copy_from_slice(&number[..8]);
        LogPlace {
            name,
            sum: sum_after(0, head),
            told: 0,
        }
    }
}
