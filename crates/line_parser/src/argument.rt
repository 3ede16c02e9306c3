//! An argument, written from the tokens of a line as the bytes that spell it. If it is too deep or a number of it isn't
//! whole, that is noted, and null stands for the number. A map that stands for bytes is put as these, if it is spelled
//! plainly; a line with another whose only name is `$hex` is left. `limit` is a number of bytes: what is appended to
//! has at most that many, with what it had before.

ghost use Rattle.std.specs.Prelude.{◌≡◌, ◌<◌, ◌≤◌, ◌^◌, ◌+◌, ◌++◌, ◌∷◌, [], ℕ, List, length, OnOk, IsSome, IsTrue, IsUtf8, true, false};
ghost use Rattle.std.specs.Int.{w32, to_be_bytes};
ghost use Rattle.serde_json.specs.Read.{number_of};
ghost use Rattle.request_codec.specs.Tree.{null};
ghost use Rattle.request_codec.specs.Hex.{bytes_of_digits};
ghost use Rattle.request_codec.specs.Lenient.{bytes_or_null};
ghost use Rattle.request_codec.specs.Written.{spelling};
ghost use Rattle.line_parser.specs.inside.Argument.{too_deep, is_deep, AddsFaults, PutsValue, PutsItems, PutsFields};
ghost use Rattle.line_parser.specs.inside.Number.{IsNotWhole};

use crate::faults::Faults;
use crate::fields::Fields;
use crate::number::{is_not_whole, whole_number};
use crate::quick_fault::QuickFault;
use crate::tokens::Tokens;
use json::Token;
use request_codec::bytes::{Start, are_digits, put_digits, put_start, put_text};

/// How many levels are left for a value right below an argument's 32nd level, counted down from `MEMBER_DEPTH`.
const TOO_DEEP: usize = 94;

/// The same text; the proof sees that its bytes are UTF-8.
#[inline(always)]
pub(crate) fn known<'t>(text: &'t str) -> &'t str
    ensures same { result.now ≡ text.now }
    ensures utf8 { IsUtf8 text.now }
{
    text
}

/// Puts a count over the four bytes at a place.
fn set_count(out: &mut Vec<u8>, at: usize, count: u32)
    requires { at + 4 ≤ length out.old.items }
    ensures len { length out.new.items ≡ length out.old.items }
    ensures bytes { (front rest : List ℕ) → length front ≡ at → out.old.items ≡ front ++ (0 ∷ 0 ∷ 0 ∷ 0 ∷ rest)
        → out.new.items ≡ front ++ (to_be_bytes w32 count ++ rest) }
{
    let bytes = count.to_be_bytes();
    out[at] = bytes[0];
    out[at + 1] = bytes[1];
    out[at + 2] = bytes[2];
    out[at + 3] = bytes[3];
}

/// Notes that the argument is too deep, if a value with `depth` levels left lies below its 32nd level.
#[inline(always)]
fn note_depth(faults: &mut Faults, depth: usize)
    ensures { AddsFaults faults.old faults.new (is_deep depth 1) false }
{
    if depth <= TOO_DEEP {
        faults.too_deep = true;
    }
}

/// Puts null for a number that isn't a whole one of 64 bits, and notes it. One past a float's range is left.
#[cold]
#[inline(never)]
fn put_not_whole(
    out: &mut Vec<u8>,
    limit: usize,
    text: &str,
    faults: &mut Faults,
) -> Result<(), QuickFault>
    requires room { length out.old.items ≤ limit }
    requires small { limit < 2 ^ 32 }
    ensures number { OnOk result (IsNotWhole (number_of text.now)) }
    ensures bytes { OnOk result (out.new.items ≡ out.old.items ++ spelling null) }
    ensures within { OnOk result (length out.new.items ≤ limit) }
    ensures faults { OnOk result (AddsFaults faults.old faults.new false true) }
{
    if !is_not_whole(text) {
        return Err(QuickFault::LeftToTree);
    }
    put_start(out, limit, Start::Null)?;
    faults.not_whole = true;
    Ok(())
}

/// Puts the bytes of the digits. A line in which they are no digits of bytes is left.
#[inline(never)]
fn put_hex(out: &mut Vec<u8>, limit: usize, digits: &str) -> Result<(), QuickFault>
    requires room { length out.old.items ≤ limit }
    requires small { limit < 2 ^ 32 }
    ensures hex { OnOk result (IsSome (bytes_of_digits digits.now)) }
    ensures bytes { OnOk result (out.new.items ≡ out.old.items ++ spelling (bytes_or_null (bytes_of_digits digits.now))) }
    ensures within { OnOk result (length out.new.items ≤ limit) }
{
    if !are_digits(digits) {
        return Err(QuickFault::LeftToTree);
    }
    put_digits(out, limit, digits)?;
    Ok(())
}

/// Puts the value that the tokens begin with, and notes its faults.
#[cycle(argument)]
#[inline(always)]
pub(crate) fn put_value(
    out: &mut Vec<u8>,
    limit: usize,
    reader: &mut Tokens<'_>,
    depth: usize,
    faults: &mut Faults,
) -> Result<(), QuickFault>
    requires room { length out.old.items ≤ limit }
    requires small { limit < 2 ^ 32 }
    ensures value { OnOk result (PutsValue depth reader.old reader.new out.old.items out.new.items faults.old faults.new) }
    ensures within { OnOk result (length out.new.items ≤ limit) }
{
    note_depth(faults, depth);
    if let Some(n) = reader.take_natural() {
        put_start(out, limit, Start::Int(n as i64))?;
        return Ok(());
    }
    let token = reader.next()?;
    match token {
        Token::Null => put_start(out, limit, Start::Null)?,
        Token::Bool(b) => put_start(out, limit, Start::Bool(b))?,
        Token::Number(text) => match whole_number(text) {
            Some(number) => put_start(out, limit, Start::Int(number))?,
            None => return put_not_whole(out, limit, text, faults),
        },
        Token::String(text) => put_start(out, limit, Start::Text(known(text)))?,
        Token::BeginArray if depth > 0 => return put_items(out, limit, reader, depth - 1, faults),
        Token::BeginObject if depth > 0 => match reader.take_hex() {
            Some(digits) => return put_hex(out, limit, digits),
            None => return put_fields(out, limit, reader, depth - 1, faults),
        },
        _ => return Err(QuickFault::LeftToTree),
    }
    Ok(())
}

/// Puts the list whose bracket was read.
#[cycle(argument)]
#[inline(never)]
fn put_items(
    out: &mut Vec<u8>,
    limit: usize,
    reader: &mut Tokens<'_>,
    depth: usize,
    faults: &mut Faults,
) -> Result<(), QuickFault>
    requires room { length out.old.items ≤ limit }
    requires small { limit < 2 ^ 32 }
    requires noted { depth < too_deep → IsTrue faults.old.too_deep }
    ensures value { OnOk result (PutsItems depth reader.old reader.new out.old.items out.new.items faults.old faults.new) }
    ensures within { OnOk result (length out.new.items ≤ limit) }
{
    put_start(out, limit, Start::List(0))?;
    let at = out.len() - 4;
    let mut count = 0usize;
    'items: while !reader.take_end_array()? {
        put_value(out, limit, reader, depth, faults)?;
        count += 1;
    }
    set_count(out, at, count as u32);
    Ok(())
}

/// Puts the map whose bracket was read. A line in which its only name is `$hex` is left.
#[cycle(argument)]
#[inline(never)]
fn put_fields(
    out: &mut Vec<u8>,
    limit: usize,
    reader: &mut Tokens<'_>,
    depth: usize,
    faults: &mut Faults,
) -> Result<(), QuickFault>
    requires room { length out.old.items ≤ limit }
    requires small { limit < 2 ^ 32 }
    requires noted { depth < too_deep → IsTrue faults.old.too_deep }
    ensures value { OnOk result (PutsFields depth reader.old reader.new out.old.items out.new.items faults.old faults.new) }
    ensures within { OnOk result (length out.new.items ≤ limit) }
{
    put_start(out, limit, Start::Map(0))?;
    let start = out.len();
    let mut fields = Fields::new(*out.allocator());
    'fields: while let Some(name) = reader.next_key()? {
        let from = out.len();
        put_text(out, limit, known(name))?;
        put_value(out, limit, reader, depth, faults)?;
        let count = out.len() - from;
        fields.add(name, from, count)?;
    }
    let count = fields.count();
    if fields.is_hex() {
        return Err(QuickFault::LeftToTree);
    }
    fields.sort(out, start)?;
    set_count(out, start - 4, count as u32);
    Ok(())
}
