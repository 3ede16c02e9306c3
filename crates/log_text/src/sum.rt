//! Sums of bytes, and their spelling.

ghost use Rattle.std.specs.Prelude.{◌≡◌, ◌++◌};
ghost use Rattle.log_text.specs.Sums.{after, spelled};

use std::hash::{DefaultHasher, Hasher};

/// The sum after the bytes, by the sum before them. It detects accidents, and isn't meant to detect a forger.
#[tactic(auto, unfolding(crate::specs::Sums::after))]
pub fn sum_after(sum: u64, bytes: &[u8]) -> u64
    ensures { result ≡ after sum bytes.now }
{
    let mut hasher = DefaultHasher::new();
    hasher.write(&sum.to_le_bytes());
    hasher.write(bytes);
    hasher.finish()
}

/// The sum after two parts, by the sum before them.
#[tactic(auto, using(crate::proofs::Sums::written_both), unfolding(crate::specs::Sums::after))]
pub(crate) fn sum_after_both(sum: u64, first: &[u8], second: &[u8]) -> u64
    ensures { result ≡ after sum (first.now ++ second.now) }
{
    let mut hasher = DefaultHasher::new();
    hasher.write(&sum.to_le_bytes());
    hasher.write(first);
    hasher.write(second);
    hasher.finish()
}

/// The sixteen digits of a sum.
#[tactic(auto, unfolding(crate::specs::Sums::spelled))]
pub fn spell(sum: u64) -> [u8; 16]
    ensures { result ≡ spelled sum }
{
    let mut digits = [0; 16];
    if hex::encode_to_slice(sum.to_be_bytes(), &mut digits).is_err() {
        unreachable!();
    }
    digits
}
