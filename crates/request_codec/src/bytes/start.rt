//! The start of a value: a whole one, or how many members follow.

ghost use Rattle.std.specs.Prelude.{◌≡◌, option_map};
ghost use Rattle.std.specs.Int.{w32, w64};
ghost use Rattle.request_codec.specs.Reading.{number_at, bytes_at, text_at, is_above};
ghost use Rattle.request_codec.specs.Start.{begun, count_at, start_at};

use std::str;

/// The start of a value. A list or a map says how many members follow it.
#[derive(Clone, Copy)]
pub enum Start<'a> {
    Null,
    Bool(bool),
    Int(i64),
    Text(&'a str),
    List(u32),
    Map(u32),
    Bytes(&'a [u8]),
}

/// The number of four bytes at the front, high first, and the bytes after it.
#[tactic(auto, unfolding(crate::specs::Reading::number_at))]
#[inline(always)]
pub fn u32_of(bytes: &[u8]) -> Option<(u32, &[u8])>
    ensures { option_map (λ x. (x.0, x.1.now)) result ≡ number_at w32 bytes.now }
{
    if bytes.len() < 4 {
        return None;
    }
    let (front, rest) = bytes.split_at(4);
    let number = u32::from_be_bytes([front[0], front[1], front[2], front[3]]);
    Some((number, rest))
}

#[tactic(auto, unfolding(crate::specs::Reading::number_at))]
#[inline(always)]
fn u64_of(bytes: &[u8]) -> Option<(u64, &[u8])>
    ensures { option_map (λ x. (x.0, x.1.now)) result ≡ number_at w64 bytes.now }
{
    if bytes.len() < 8 {
        return None;
    }
    let (front, rest) = bytes.split_at(8);
    let number = u64::from_be_bytes([
        front[0], front[1], front[2], front[3], front[4], front[5], front[6], front[7],
    ]);
    Some((number, rest))
}

/// The count of a list's or a map's members. Each member takes a byte at least, so a count above
/// the number of bytes that are left is refused here, before anything grows for it.
#[tactic(auto, unfolding(crate::specs::Start::count_at))]
#[inline(always)]
fn count_of(bytes: &[u8]) -> Option<(u32, &[u8])>
    ensures { option_map (λ x. (x.0, x.1.now)) result ≡ count_at bytes.now }
{
    let (count, rest) = u32_of(bytes)?;
    if rest.len() < count as usize {
        return None;
    }
    Some((count, rest))
}

/// The bytes that follow their count at the front, and the bytes after them.
#[tactic(auto, unfolding(crate::specs::Reading::bytes_at))]
#[inline(always)]
pub fn bytes_of(bytes: &[u8]) -> Option<(&[u8], &[u8])>
    ensures { option_map (λ x. (x.0.now, x.1.now)) result ≡ bytes_at bytes.now }
{
    let (count, rest) = u32_of(bytes)?;
    let count = count as usize;
    if rest.len() < count {
        return None;
    }
    let (front, rest) = rest.split_at(count);
    Some((front, rest))
}

/// The text at the front, and the bytes after it.
#[tactic(auto, using(crate::proofs::Characters::utf8_tests), unfolding(crate::specs::Reading::text_at))]
#[inline(always)]
pub fn text_of(bytes: &[u8]) -> Option<(&str, &[u8])>
    ensures { option_map (λ x. (x.0.now, x.1.now)) result ≡ text_at bytes.now }
{
    let (front, rest) = bytes_of(bytes)?;
    match str::from_utf8(front) {
        Ok(text) => Some((text, rest)),
        Err(_) => None,
    }
}

/// Whether a name may follow the one before it: names ascend strictly by their bytes.
#[inline(always)]
pub fn may_follow(last: Option<&str>, name: &str) -> bool
    ensures { result ≡ is_above (option_map (λ s. s.now) last.entry) name.now }
{
    match last {
        None => true,
        Some(last) => last < name,
    }
}

/// The start of the value at the front, and the bytes after it.
#[tactic(auto, unfolding(crate::specs::Start::start_at))]
#[inline(always)]
pub fn start_of(bytes: &[u8]) -> Option<(Start<'_>, &[u8])>
    ensures { option_map (λ x. (begun x.0, x.1.now)) result ≡ start_at bytes.now }
{
    match bytes {
        [] => None,
        [0, rest @ ..] => Some((Start::Null, rest)),
        [1, rest @ ..] => Some((Start::Bool(false), rest)),
        [2, rest @ ..] => Some((Start::Bool(true), rest)),
        [3, rest @ ..] => {
            let (number, rest) = u64_of(rest)?;
            Some((Start::Int(number.cast_signed()), rest))
        }
        [4, rest @ ..] => {
            let (text, rest) = text_of(rest)?;
            Some((Start::Text(text), rest))
        }
        [5, rest @ ..] => {
            let (count, rest) = count_of(rest)?;
            Some((Start::List(count), rest))
        }
        [6, rest @ ..] => {
            let (count, rest) = count_of(rest)?;
            Some((Start::Map(count), rest))
        }
        [7, rest @ ..] => {
            let (bytes, rest) = bytes_of(rest)?;
            Some((Start::Bytes(bytes), rest))
        }
        [_, ..] => None,
    }
}
