//! Reading a value, whatever is made of it.

ghost use Rattle.std.specs.Prelude.{None};
ghost use Rattle.request_codec.specs.Tree.{members_of, fields_of};
ghost use Rattle.request_codec.specs.Reading.{value_at, members_at, fields_at};
ghost use Rattle.request_codec.specs.Answers.{Reads};

use crate::builder::Builder;
use crate::bytes::{Start, may_follow, start_of, text_of};
use crate::fault::CodecFault;

/// The value at the front, no deeper than the limit, and the bytes after it.
/// `NotAMessage` if no value is there, `Memory` if memory was refused.
#[cycle(reading)]
pub fn read_value<'b, B: Builder>(
    builder: &B,
    bytes: &'b [u8],
    limit: u8,
) -> Result<(B::Made, &'b [u8]), CodecFault>
    ensures { Reads (λ x. (B.made x.0, x.1.now)) result (value_at limit bytes.now) }
{
    if limit == 0 {
        return Err(CodecFault::NotAMessage);
    }
    let Some((start, rest)) = start_of(bytes) else {
        return Err(CodecFault::NotAMessage);
    };
    match start {
        Start::Null => Ok((builder.null(), rest)),
        Start::Bool(b) => Ok((builder.truth(b), rest)),
        Start::Int(n) => Ok((builder.integer(n), rest)),
        Start::Text(text) => Ok((builder.text(text)?, rest)),
        Start::List(count) => {
            let (items, rest) = read_items(builder, rest, count, limit - 1)?;
            Ok((builder.list(items), rest))
        }
        Start::Map(count) => {
            let (fields, rest) = read_fields(builder, rest, count, limit - 1)?;
            Ok((builder.map(fields), rest))
        }
        Start::Bytes(bytes) => Ok((builder.bytes(bytes)?, rest)),
    }
}

#[cycle(reading)]
fn read_items<'b, B: Builder>(
    builder: &B,
    bytes: &'b [u8],
    count: u32,
    limit: u8,
) -> Result<(B::Items, &'b [u8]), CodecFault>
    ensures { Reads (λ x. (members_of (B.listed x.0), x.1.now)) result
        (members_at (value_at limit) count bytes.now) }
{
    let mut items = builder.no_items();
    let mut rest = bytes;
    'items: for _ in 0..count {
        let (item, after) = read_value(builder, rest, limit)?;
        builder.push(&mut items, item)?;
        rest = after;
    }
    Ok((items, rest))
}

#[cycle(reading)]
fn read_fields<'b, B: Builder>(
    builder: &B,
    bytes: &'b [u8],
    count: u32,
    limit: u8,
) -> Result<(B::Fields, &'b [u8]), CodecFault>
    ensures { Reads (λ x. (fields_of (B.named x.0), x.1.now)) result
        (fields_at (value_at limit) count None bytes.now) }
{
    let mut fields = builder.no_fields();
    let mut rest = bytes;
    let mut last = None;
    'fields: for _ in 0..count {
        let Some((name, after_name)) = text_of(rest) else {
            return Err(CodecFault::NotAMessage);
        };
        if !may_follow(last, name) {
            return Err(CodecFault::NotAMessage);
        }
        let (field, after) = read_value(builder, after_name, limit)?;
        builder.add(&mut fields, name, field)?;
        rest = after;
        last = Some(name);
    }
    Ok((fields, rest))
}
