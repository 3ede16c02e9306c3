//! The sum of a checkpoint.

ghost use Rattle.std.specs.Prelude.{◌≡◌};
ghost use Rattle.silo_checkpoint.specs.Saved.{sum_in};

use log_text::sum_after;

/// Bytes of the last line.
const SUM_LINE: usize = 21;

/// The sum of all lines but the last, which is of this sum.
pub fn sum_of(bytes: &[u8]) -> u64
    ensures { result ≡ sum_in bytes.now }
{
    let end = bytes.len().saturating_sub(SUM_LINE);
    sum_after(0, &bytes[..end])
}
