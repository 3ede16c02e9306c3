//! Bytes that are being written, up to a limit.

ghost use Rattle.std.specs.Prelude.{◌≡◌, ◌<◌, ◌≤◌, ◌^◌, ◌∷◌, length, MatchResult, OnErr};
ghost use Rattle.std.specs.Int.{w32, to_be_bytes};
ghost use Rattle.request_codec.specs.Tree.{integer};
ghost use Rattle.request_codec.specs.Written.{Puts, text_spelling, spelling, start_spelling};
ghost use Rattle.request_codec.specs.Start.{begun};
ghost use Rattle.request_codec.specs.declared.fault.CodecFault.TheVariants as faults;

use crate::bytes::start::Start;
use crate::fault::CodecFault;

/// Puts the bytes at the end, if they fit below the limit; otherwise nothing changes.
#[inline(always)]
pub fn put(out: &mut Vec<u8>, limit: usize, bytes: &[u8]) -> Result<(), CodecFault>
    requires { length out.old.items ≤ limit }
    ensures puts { Puts limit out.old.items out.new.items result bytes.now }
    ensures unchanged { OnErr result (out.new.items ≡ out.old.items) }
{
    if bytes.len() > limit - out.len() {
        return Err(CodecFault::TooLong);
    }
    out.extend_from_slice(bytes)?;
    Ok(())
}

/// A count of members or bytes, each of which takes a byte at least: `TooLong` above the limit.
#[inline(always)]
pub fn counted(count: usize, limit: usize) -> Result<u32, CodecFault>
    requires { limit < 2 ^ 32 }
    ensures { MatchResult result (λ n. n ≡ count) (λ e. (e ≡ faults.TooLong) × (limit < count)) }
{
    if count > limit {
        return Err(CodecFault::TooLong);
    }
    Ok(count as u32)
}

/// Puts a text at the end: its length and its bytes. After a fault a part of them may stand there.
#[inline(always)]
pub fn put_text(out: &mut Vec<u8>, limit: usize, text: &str) -> Result<(), CodecFault>
    requires room { length out.old.items ≤ limit }
    requires small { limit < 2 ^ 32 }
    ensures { Puts limit out.old.items out.new.items result (text_spelling text.now) }
{
    let count = counted(text.len(), limit)?;
    put(out, limit, &count.to_be_bytes())?;
    put(out, limit, text.as_bytes())
}

/// Puts the first byte of a value and a count at the end, in one go.
#[inline(always)]
pub(crate) fn put_counted(
    out: &mut Vec<u8>,
    limit: usize,
    first: u8,
    count: u32,
) -> Result<(), CodecFault>
    requires { length out.old.items ≤ limit }
    ensures { Puts limit out.old.items out.new.items result (first ∷ to_be_bytes w32 count) }
{
    let mut front = [first; 5];
    front[1..].copy_from_slice(&count.to_be_bytes());
    put(out, limit, &front)
}

/// Puts a number that is a value at the end, in one go.
#[tactic(auto, unfolding(crate::specs::Written::spelling))]
#[inline(always)]
fn put_number(out: &mut Vec<u8>, limit: usize, number: i64) -> Result<(), CodecFault>
    requires { length out.old.items ≤ limit }
    ensures { Puts limit out.old.items out.new.items result (spelling (integer number)) }
{
    let mut bytes = [3; 9];
    bytes[1..].copy_from_slice(&number.to_be_bytes());
    put(out, limit, &bytes)
}

/// Puts at the end the first byte of a value, the length of its content, and the content.
#[inline(always)]
fn put_content(out: &mut Vec<u8>, limit: usize, first: u8, content: &[u8]) -> Result<(), CodecFault>
    requires room { length out.old.items ≤ limit }
    requires small { limit < 2 ^ 32 }
    ensures { Puts limit out.old.items out.new.items result (first ∷ text_spelling content.now) }
{
    let count = counted(content.len(), limit)?;
    put_counted(out, limit, first, count)?;
    put(out, limit, content)
}

/// Puts the start of a value at the end. After a fault a part of it may stand there.
#[tactic(auto, unfolding(crate::specs::Written::spelling))]
#[inline(always)]
pub fn put_start(out: &mut Vec<u8>, limit: usize, start: Start<'_>) -> Result<(), CodecFault>
    requires room { length out.old.items ≤ limit }
    requires small { limit < 2 ^ 32 }
    ensures { Puts limit out.old.items out.new.items result (start_spelling (begun start.entry)) }
{
    match start {
        Start::Null => put(out, limit, &[0]),
        Start::Bool(false) => put(out, limit, &[1]),
        Start::Bool(true) => put(out, limit, &[2]),
        Start::Int(number) => put_number(out, limit, number),
        Start::Text(text) => put_content(out, limit, 4, text.as_bytes()),
        Start::List(count) => put_counted(out, limit, 5, count),
        Start::Map(count) => put_counted(out, limit, 6, count),
        Start::Bytes(bytes) => put_content(out, limit, 7, bytes),
    }
}
