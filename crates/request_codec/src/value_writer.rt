//! Writing a value, whatever shows it.

ghost use Rattle.std.specs.Prelude.{◌<◌, ◌≤◌, ◌^◌, length};
ghost use Rattle.request_codec.specs.Call.{asks};
ghost use Rattle.request_codec.specs.Limits.{message_limit, state_limit};
ghost use Rattle.request_codec.specs.Tree.{members_of, fields_of};
ghost use Rattle.request_codec.specs.Written.{Puts, WritesAll, spelling, members_spelling, fields_spelling, message_spelling};

use crate::bytes::{Start, counted, put, put_digits, put_start, put_text};
use crate::fault::CodecFault;
use crate::limits::{MAX_MESSAGE_BYTES, MAX_STATE_BYTES, MESSAGE_ROOM, MESSAGE_VERSION};
use crate::shown::{Level, Shown};
use std::alloc::Global;

/// Puts the value at the end, if it fits below the limit. After a fault a part of it may stand there.
#[cycle(writing)]
#[inline(always)]
pub fn put_value<V: Shown>(out: &mut Vec<u8>, limit: usize, value: V) -> Result<(), CodecFault>
    requires room { length out.old.items ≤ limit }
    requires small { limit < 2 ^ 32 }
    ensures { Puts limit out.old.items out.new.items result (spelling (V.value value)) }
{
    match value.level() {
        Level::Null => put_start(out, limit, Start::Null),
        Level::Bool(truth) => put_start(out, limit, Start::Bool(truth)),
        Level::Int(number) => put_start(out, limit, Start::Int(number)),
        Level::Text(text) => put_start(out, limit, Start::Text(text)),
        Level::List(count, items) => {
            let count = counted(count, limit)?;
            put_start(out, limit, Start::List(count))?;
            put_items::<V>(out, limit, items)
        }
        Level::Map(count, fields) => {
            let count = counted(count, limit)?;
            put_start(out, limit, Start::Map(count))?;
            put_fields::<V>(out, limit, fields)
        }
        Level::Bytes(bytes) => put_start(out, limit, Start::Bytes(bytes)),
        Level::Hex(digits) => put_digits(out, limit, digits),
    }
}

#[cycle(writing)]
fn put_items<V: Shown>(out: &mut Vec<u8>, limit: usize, items: V::Items) -> Result<(), CodecFault>
    requires room { length out.old.items ≤ limit }
    requires small { limit < 2 ^ 32 }
    ensures { Puts limit out.old.items out.new.items result (members_spelling (members_of (V.listed items))) }
{
    let mut items = items;
    'items: while let Some(item) = V::next_item(&mut items) {
        put_value(out, limit, item)?;
    }
    Ok(())
}

#[cycle(writing)]
fn put_fields<V: Shown>(
    out: &mut Vec<u8>,
    limit: usize,
    fields: V::Fields,
) -> Result<(), CodecFault>
    requires room { length out.old.items ≤ limit }
    requires small { limit < 2 ^ 32 }
    ensures { Puts limit out.old.items out.new.items result (fields_spelling (fields_of (V.named fields))) }
{
    let mut fields = fields;
    'fields: while let Some(field) = V::next_field(&mut fields) {
        let (name, value) = V::parts(&field);
        put_text(out, limit, name)?;
        put_value(out, limit, value)?;
    }
    Ok(())
}

/// The bytes of a message of the method and what is shown: its version, the method, and the value.
pub fn message_bytes<V: Shown>(
    alloc: Global,
    method: &str,
    argument: V,
) -> Result<Vec<u8>, CodecFault>
    ensures { WritesAll message_limit result (message_spelling (asks method.now (V.value argument))) }
{
    let mut out = Vec::with_capacity(alloc, MESSAGE_ROOM)?;
    put(&mut out, MAX_MESSAGE_BYTES, &[MESSAGE_VERSION])?;
    put_text(&mut out, MAX_MESSAGE_BYTES, method)?;
    put_value(&mut out, MAX_MESSAGE_BYTES, argument)?;
    Ok(out)
}

/// The bytes of a state of what is shown. There is room for `room` bytes at once, and for more when they come.
pub fn state_bytes<V: Shown>(alloc: Global, room: usize, value: V) -> Result<Vec<u8>, CodecFault>
    ensures { WritesAll state_limit result (spelling (V.value value)) }
{
    let mut out = Vec::with_capacity(alloc, room)?;
    put_value(&mut out, MAX_STATE_BYTES, value)?;
    Ok(out)
}
