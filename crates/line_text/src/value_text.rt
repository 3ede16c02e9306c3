//! A value as JSON, straight from the bytes that spell it.

ghost use Rattle.std.specs.Prelude.{◌≡◌, ◌++◌, None, IfOk, IfErr, OnOk, string_bytes};
ghost use Rattle.request_codec.specs.Tree as tree;
ghost use Rattle.request_codec.specs.Tree.{truth};
ghost use Rattle.request_codec.specs.Reading.{value_at, members_at, fields_at};
ghost use Rattle.line_text.specs.Text.{text_of};
ghost use Rattle.line_text.specs.inside.ValueText.{AddsValue, AddsMembers, AddsFields, AddsNone};

use crate::text::{push, push_quoted, push_whole};
use request_codec::bytes::{Start, may_follow, push_digits, start_of, text_of};
use request_codec::limits::MAX_DEPTH;
use request_codec::{CodecFault, StateBytes};
use std::alloc::{AllocError, Global};

/// Adds a truth value.
fn push_truth(text: &mut String, b: bool) -> Result<(), AllocError>
    ensures { OnOk result (string_bytes text.new ≡ string_bytes text.old ++ text_of (truth b)) }
{
    if b {
        push(text, "true")
    } else {
        push(text, "false")
    }
}

/// Adds bytes: an object of their digits. They need no quoting.
fn push_bytes(text: &mut String, bytes: &[u8]) -> Result<(), AllocError>
    ensures { OnOk result (string_bytes text.new ≡ string_bytes text.old ++ text_of (tree.bytes bytes.now)) }
{
    push(text, "{\"$hex\":\"")?;
    push_digits(text, bytes)?;
    push(text, "\"}")
}

/// Adds the value at the front, no deeper than the limit, and gives the bytes after it.
#[cycle(printing)]
fn push_value<'b>(
    alloc: Global,
    text: &mut String,
    bytes: &'b [u8],
    limit: u8,
) -> Result<&'b [u8], CodecFault>
    ensures ok { IfOk result (λ rest. AddsValue (value_at limit bytes.now) rest.now (string_bytes text.old) (string_bytes text.new)) }
    ensures err { IfErr result (λ e. AddsNone e (value_at limit bytes.now)) }
{
    if limit == 0 {
        return Err(CodecFault::NotAMessage);
    }
    let Some((start, rest)) = start_of(bytes) else {
        return Err(CodecFault::NotAMessage);
    };
    match start {
        Start::Null => push(text, "null")?,
        Start::Bool(b) => push_truth(text, b)?,
        Start::Int(n) => push_whole(text, n)?,
        Start::Text(part) => push_quoted(alloc, text, part)?,
        Start::Bytes(part) => push_bytes(text, part)?,
        Start::List(count) => {
            let rest = push_members(alloc, text, rest, count, limit - 1)?;
            return Ok(rest);
        }
        Start::Map(count) => {
            let rest = push_fields(alloc, text, rest, count, limit - 1)?;
            return Ok(rest);
        }
    }
    Ok(rest)
}

/// Adds a list of `count` members, and returns the bytes after it.
#[cycle(printing)]
fn push_members<'b>(
    alloc: Global,
    text: &mut String,
    bytes: &'b [u8],
    count: u32,
    limit: u8,
) -> Result<&'b [u8], CodecFault>
    ensures ok { IfOk result (λ rest. AddsMembers (members_at (value_at limit) count bytes.now) rest.now (string_bytes text.old)
        (string_bytes text.new)) }
    ensures err { IfErr result (λ e. AddsNone e (members_at (value_at limit) count bytes.now)) }
{
    push(text, "[")?;
    let mut rest = bytes;
    let mut comma = "";
    'items: for _ in 0..count {
        push(text, comma)?;
        comma = ",";
        rest = push_value(alloc, text, rest, limit)?;
    }
    push(text, "]")?;
    Ok(rest)
}

/// Adds a map of `count` fields, and returns the bytes after it.
#[cycle(printing)]
fn push_fields<'b>(
    alloc: Global,
    text: &mut String,
    bytes: &'b [u8],
    count: u32,
    limit: u8,
) -> Result<&'b [u8], CodecFault>
    ensures ok { IfOk result (λ rest. AddsFields (fields_at (value_at limit) count None bytes.now) rest.now (string_bytes text.old)
        (string_bytes text.new)) }
    ensures err { IfErr result (λ e. AddsNone e (fields_at (value_at limit) count None bytes.now)) }
{
    push(text, "{")?;
    let mut rest = bytes;
    let mut last = None;
    let mut comma = "";
    'fields: for _ in 0..count {
        let Some((name, behind)) = text_of(rest) else {
            return Err(CodecFault::NotAMessage);
        };
        if !may_follow(last, name) {
            return Err(CodecFault::NotAMessage);
        }
        push(text, comma)?;
        comma = ",";
        push_quoted(alloc, text, name)?;
        push(text, ":")?;
        rest = push_value(alloc, text, behind, limit)?;
        last = Some(name);
    }
    push(text, "}")?;
    Ok(rest)
}

/// Adds a state's value.
pub(crate) fn push_state(
    alloc: Global,
    text: &mut String,
    state: &StateBytes,
) -> Result<(), AllocError>
    ensures { OnOk result (string_bytes text.new ≡ string_bytes text.old ++ text_of state.now) }
{
    match push_value(alloc, text, state.bytes(), MAX_DEPTH) {
        Ok(rest) => match rest {
            [] => Ok(()),
            [_, ..] => unreachable!(),
        },
        Err(CodecFault::Memory) => Err(AllocError),
        Err(CodecFault::NotAMessage) => unreachable!(),
        Err(CodecFault::TooDeep | CodecFault::TooLong) => unreachable!(),
        Err(CodecFault::NotWhole | CodecFault::NotHex) => unreachable!(),
    }
}
