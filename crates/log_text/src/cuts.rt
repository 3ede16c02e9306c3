//! Bytes that are cut in two, or compared.

ghost use Rattle.std.specs.Prelude.{◌≡◌, ◌≢◌, ◌<◌, ℕ, IfSome, None, length, option_map, slice_index, take};
ghost use Rattle.log_text.specs.Answers.{CutsLine, Strips};
ghost use Rattle.log_text.specs.Reading.{same_text};

use memchr::memchr;

/// The place of the first LF.
fn break_at(bytes: &[u8]) -> Option<usize>
    ensures none { result ≡ None → (k : ℕ) → k < length bytes.now → slice_index bytes.now k ≢ 10 }
    ensures some { IfSome result (λ at. (at < length bytes.now)
        × ((k : ℕ) → k < length (take at bytes.now) → slice_index (take at bytes.now) k ≢ 10) × (slice_index bytes.now at ≡ 10)) }
{
    memchr(b'\n', bytes)
}

/// The first line, and what follows its LF.
pub(crate) fn cut_line(bytes: &[u8]) -> Option<(&[u8], &[u8])>
    ensures { CutsLine bytes.now (option_map (λ cut. (cut.0.now, cut.1.now)) result) }
{
    let Some(at) = break_at(bytes) else {
        return None;
    };
    Some((&bytes[..at], &bytes[at + 1..]))
}

/// What follows the prefix.
pub(crate) fn behind<'a>(prefix: &[u8], bytes: &'a [u8]) -> Option<&'a [u8]>
    ensures { Strips prefix.now bytes.now (option_map (λ rest. rest.now) result) }
{
    bytes.strip_prefix(prefix)
}

/// Whether the bytes are the same.
pub(crate) fn is_same(one: &[u8], other: &[u8]) -> bool
    ensures { result ≡ same_text one.now other.now }
{
    one == other
}
