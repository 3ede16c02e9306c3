//! Setting one field of a state that is a map, by its bytes: the fields before it and after it keep their bytes.

ghost use Rattle.std.specs.Prelude.{◌≡◌, ◌≤◌, ◌∷◌, ◌++◌, ◌-◌, Some, None, IfOk};
ghost use Rattle.std.specs.Prelude.{option_map, length, take, nat_lt, if◌then◌else◌};
ghost use Rattle.std.specs.Int.{w32, to_be_bytes};
ghost use Rattle.request_codec.specs.Answers.{spelled_length};
ghost use Rattle.request_codec.specs.Formed.{IsFormed};
ghost use Rattle.request_codec.specs.Limits.{depth_limit, state_limit};
ghost use Rattle.request_codec.specs.Spelling.{SpellFields};
ghost use Rattle.request_codec.specs.Tree.{depth, fields_count, fields_depth};
ghost use Rattle.request_codec.specs.Written.{WritesAll, text_spelling, spelling};
ghost use Rattle.turn_arena.specs.Fields.{fields_in, value_put};
ghost use Rattle.turn_arena.specs.NodeValue.{node_value};
ghost use Rattle.turn_arena.specs.inside.Places.{IsPlaceIn, behind_map};

use crate::formed::known_text;
use crate::node::Node;
use crate::node_shown::ShownNode;
use crate::passing::known_end;
use request_codec::bytes::{Start, put, put_start, put_text, put_value, u32_of};
use request_codec::limits::{MAX_DEPTH, MAX_STATE_BYTES};
use request_codec::{CodecFault, StateBytes};
use std::alloc::{AllocError, Global};
use std::cmp::Ordering;

/// Where the field of a name stands in a map, or would.
#[derive(Clone, Copy)]
struct Place<'a> {
    /// The bytes of the fields in front of it.
    front: &'a [u8],
    /// The bytes of the fields after it.
    behind: &'a [u8],
    /// How many fields the map has once the name is set.
    count: u32,
}

/// The bytes after the first byte of a map.
fn behind_map(bytes: &[u8]) -> Option<&[u8]>
    ensures { option_map (λ behind. behind.now) result ≡ behind_map bytes.now }
{
    match bytes {
        [6, behind @ ..] => Some(behind),
        _ => None,
    }
}

/// How many fields a state has, and their bytes. A state that is no map has none.
fn fields_of(state: &StateBytes) -> (u32, &[u8])
    ensures count { result.0 ≡ fields_count (fields_in state.now) }
    ensures few { result.0 ≤ state_limit }
    ensures spelled { SpellFields (fields_in state.now) result.1.now }
    ensures shallow { fields_depth (fields_in state.now) ≤ 31 }
{
    let Some(behind) = behind_map(state.bytes()) else {
        return (0, &[]);
    };
    let Some((count, fields)) = u32_of(behind) else {
        unreachable!();
    };
    (count, fields)
}

/// The bytes in front of those that are left.
fn front_of<'a>(bytes: &'a [u8], left: &[u8]) -> &'a [u8]
    requires { length left.now ≤ length bytes.now }
    ensures { result.now ≡ take (length bytes.now - length left.now) bytes.now }
{
    &bytes[..bytes.len() - left.len()]
}

/// Where the field of the name stands in a state, or would.
fn place_of<'a>(state: &'a StateBytes, name: &str) -> Place<'a>
    ensures { IsPlaceIn name.now (fields_in state.now) result }
{
    let (count, fields) = fields_of(state);
    let mut left = fields;
    'fields: for _ in 0..count {
        let Some((other, value)) = known_text(left) else {
            unreachable!();
        };
        let after = known_end(value, MAX_DEPTH - 1);
        let front = front_of(fields, left);
        match name.cmp(other) {
            Ordering::Less => return Place {
                front,
                behind: left,
                count: count + 1,
            },
            Ordering::Equal => return Place {
                front,
                behind: after,
                count,
            },
            Ordering::Greater => left = after,
        }
    }
    Place {
        front: fields,
        behind: left,
        count: count + 1,
    }
}

/// The bytes of a map with the field of the name at its place. There is room for `room` bytes at once.
fn joined(
    alloc: Global,
    room: usize,
    place: Place<'_>,
    name: &str,
    value: Node<'_>,
) -> Result<Vec<u8>, CodecFault>
    ensures { WritesAll state_limit result (6 ∷ (to_be_bytes w32 place.entry.count
        ++ (place.entry.front.now ++ (text_spelling name.now ++ (spelling (node_value value.entry) ++ place.entry.behind.now))))) }
{
    let mut out = Vec::with_capacity(alloc, room)?;
    put_start(&mut out, MAX_STATE_BYTES, Start::Map(place.count))?;
    put(&mut out, MAX_STATE_BYTES, place.front)?;
    put_text(&mut out, MAX_STATE_BYTES, name)?;
    put_value(&mut out, MAX_STATE_BYTES, ShownNode { node: value })?;
    put(&mut out, MAX_STATE_BYTES, place.behind)?;
    Ok(out)
}

/// The state's map with the field of the name set to the value: in place of the one of that name, else between its
/// neighbours. A state that is no map counts as the empty one. `None` says that it would be longer than a state may be.
/// Only the value is written; the bytes of the other fields are copied as they stand. There is room for `room` bytes at
/// once, and for more when they come. The only error: out of memory.
pub fn put_spelled(
    alloc: Global,
    room: usize,
    state: &StateBytes,
    name: &str,
    value: Node<'_>,
) -> Result<Option<StateBytes>, AllocError>
    requires formed { IsFormed (value_put name.now (node_value value) state.now) }
    requires shallow { depth (value_put name.now (node_value value) state.now) ≤ depth_limit }
    ensures { IfOk result (λ made. made ≡ (if nat_lt state_limit (spelled_length (value_put name.now (node_value value.entry) state.now))
        then None else Some (value_put name.now (node_value value.entry) state.now))) }
{
    let place = place_of(state, name);
    match joined(alloc, room, place, name, value) {
        Ok(bytes) => Ok(Some(StateBytes::from_spelling(bytes)?)),
        Err(CodecFault::TooLong) => Ok(None),
        Err(CodecFault::Memory) => Err(AllocError),
        Err(CodecFault::TooDeep) => unreachable!(),
        Err(CodecFault::NotWhole) => unreachable!(),
        Err(CodecFault::NotHex) => unreachable!(),
        Err(CodecFault::NotAMessage) => unreachable!(),
    }
}
