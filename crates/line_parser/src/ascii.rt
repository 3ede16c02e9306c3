//! Whether bytes are ASCII.

ghost use Rattle.std.specs.Prelude.{◌≡◌, ℕ, ◌+◌, ◌<◌, ◌≤◌, length, map, slice_index, IsTrue, IsAscii};
ghost use Rattle.std.specs.Simd.Lanes.{mask_l, chunk};
ghost use Rattle.line_parser.specs.inside.Plain.{is_high};

use std::simd::prelude::*;

/// Which of 16 bytes are no ASCII, a bit each.
#[inline(always)]
fn highs(bytes: u8x16) -> u64
    ensures { result ≡ mask_l (map is_high bytes) }
{
    bytes.simd_ge(u8x16::splat(0x80)).to_bitmask()
}

/// Whether the 16 bytes from a place on are ASCII.
#[inline(always)]
fn is_low_chunk(bytes: &[u8], at: usize) -> bool
    requires { at + 16 ≤ length bytes.now }
    ensures { IsTrue result → (k : ℕ) → at ≤ k → k < at + 16 → slice_index bytes.now k < 128 }
{
    highs(u8x16::from_slice(&bytes[at..])) == 0
}

/// Whether at least 16 bytes are ASCII alone.
#[inline(always)]
pub(crate) fn is_ascii(bytes: &[u8]) -> bool
    ensures { IsTrue result → IsAscii bytes.now }
{
    if bytes.len() < 16 {
        return false;
    }
    let last = bytes.len() - 16;
    let mut at = 0;
    while at < last {
        if !is_low_chunk(bytes, at) {
            return false;
        }
        at += 16;
    }
    is_low_chunk(bytes, last)
}
