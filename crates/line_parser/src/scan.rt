//! How far a text is plain, how many digits it begins with, and whether it begins with another.

ghost use Rattle.std.specs.Prelude.{◌≡◌, ◌+◌, ◌≤◌, length, drop, map, nat_eq, IsTrue};
ghost use Rattle.std.specs.List.{prefix_len, starts_with};
ghost use Rattle.std.specs.Char.{is_ascii_digit};
ghost use Rattle.std.specs.Simd.Lanes.{mask_l};
ghost use Rattle.json.specs.Run.{is_plain, is_stop};

use std::simd::prelude::*;

/// Which of 16 bytes are a quote, a backslash or a control byte, a bit each.
#[inline(always)]
fn stops(bytes: u8x16) -> u64
    ensures { result ≡ mask_l (map is_stop bytes) }
{
    (bytes.simd_eq(u8x16::splat(b'"'))
        | bytes.simd_eq(u8x16::splat(b'\\'))
        | bytes.simd_lt(u8x16::splat(0x20))).to_bitmask()
}

/// The first quote, backslash or control byte from a place on, or the length, byte by byte.
#[inline(never)]
fn plain_end_slowly(bytes: &[u8], from: usize) -> usize
    requires { from ≤ length bytes.now }
    ensures value { result ≡ from + prefix_len is_plain (drop from bytes.now) }
    ensures bound { result ≤ length bytes.now }
{
    let mut i = from;
    while i < bytes.len() && bytes[i] != b'"' && bytes[i] != b'\\' && bytes[i] >= 0x20 {
        i += 1;
    }
    i
}

/// How many bytes stand before the first quote, backslash or control byte.
#[inline(always)]
pub(crate) fn plain_len(text: &str) -> usize
    ensures value { result ≡ prefix_len is_plain text.now }
    ensures bound { result ≤ length text.now }
{
    let bytes = text.as_bytes();
    let mut i = 0;
    while bytes.len() - i >= 16 {
        let found = stops(u8x16::from_slice(&bytes[i..]));
        if found != 0 {
            return i + found.trailing_zeros() as usize;
        }
        i += 16;
    }
    plain_end_slowly(bytes, i)
}

/// How many digits stand at the front.
#[inline(always)]
pub(crate) fn digits_len(text: &str) -> usize
    ensures value { result ≡ prefix_len is_ascii_digit text.now }
    ensures bound { result ≤ length text.now }
{
    let bytes = text.as_bytes();
    let mut i = 0;
    while i < bytes.len() && bytes[i].is_ascii_digit() {
        i += 1;
    }
    i
}

/// Whether the bytes begin with others: one comparison, where those are a literal.
#[inline(always)]
pub(crate) fn begins_with(bytes: &[u8], front: &[u8]) -> bool
    ensures { result ≡ starts_with nat_eq bytes.now front.now }
{
    if bytes.len() < front.len() {
        return bytes.starts_with(front);
    }
    let mut same = true;
    let mut i = front.len();
    while i > 0 {
        i -= 1;
        same = (front[i] == bytes[i]) & same;
    }
    same
}

/// Whether two texts are the same: one comparison, where the second is a literal.
#[inline(always)]
pub(crate) fn same_text(text: &str, other: &str) -> bool
    ensures { IsTrue result → text.now ≡ other.now }
{
    text.len() == other.len() && begins_with(text.as_bytes(), other.as_bytes())
}
