//! Passing over what is known to stand in a state's or a message's bytes: nothing of that is tested again.

ghost use Rattle.std.specs.Prelude.{◌≡◌, Some, None, IsSome};
ghost use Rattle.request_codec.specs.Reading.{value_at, members_at, fields_at};
ghost use Rattle.request_codec.specs.inside.Ends.{end_of};

use crate::formed::{known_start, known_text};
use request_codec::bytes::Start;

/// The bytes after the value that is known to stand at the front, no deeper than the limit.
#[cycle(passing)]
pub(crate) fn known_end(bytes: &[u8], limit: u8) -> &[u8]
    requires { IsSome (value_at limit bytes.now) }
    ensures { Some result.now ≡ end_of (value_at limit bytes.now) }
{
    if limit == 0 {
        unreachable!();
    }
    let Some((start, rest)) = known_start(bytes) else {
        unreachable!();
    };
    match start {
        Start::Null => rest,
        Start::Bool(_) => rest,
        Start::Int(_) => rest,
        Start::Text(_) => rest,
        Start::List(count) => known_members_end(rest, count, limit - 1),
        Start::Map(count) => known_fields_end(rest, count, limit - 1),
        Start::Bytes(_) => rest,
    }
}

#[cycle(passing)]
fn known_members_end(bytes: &[u8], count: u32, limit: u8) -> &[u8]
    requires { IsSome (members_at (value_at limit) count bytes.now) }
    ensures { Some result.now ≡ end_of (members_at (value_at limit) count bytes.now) }
{
    let mut rest = bytes;
    'items: for _ in 0..count {
        rest = known_end(rest, limit);
    }
    rest
}

#[cycle(passing)]
fn known_fields_end(bytes: &[u8], count: u32, limit: u8) -> &[u8]
    requires { IsSome (fields_at (value_at limit) count None bytes.now) }
    ensures { Some result.now ≡ end_of (fields_at (value_at limit) count None bytes.now) }
{
    let mut rest = bytes;
    'fields: for _ in 0..count {
        let Some((_, behind)) = known_text(rest) else {
            unreachable!();
        };
        rest = known_end(behind, limit);
    }
    rest
}
