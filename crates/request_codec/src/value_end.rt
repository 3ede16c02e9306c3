//! Whether bytes spell something, which takes no memory.

ghost use Rattle.std.specs.Prelude.{◌≡◌, None, option_map, is_some};
ghost use Rattle.request_codec.specs.Limits.{message_version, depth_limit};
ghost use Rattle.request_codec.specs.Reading.{value_at, members_at, fields_at, if_ended};
ghost use Rattle.request_codec.specs.Call.{message_call, state_value, behind_version};
ghost use Rattle.request_codec.specs.inside.Ends.{end_of};

use crate::bytes::{Start, may_follow, start_of, text_of};
use crate::limits::{MAX_DEPTH, MAX_MESSAGE_BYTES, MAX_STATE_BYTES, MESSAGE_VERSION};

/// The bytes after the value at the front, which is no deeper than the limit.
#[cycle(ends)]
pub fn value_end(bytes: &[u8], limit: u8) -> Option<&[u8]>
    ensures { option_map (λ rest. rest.now) result ≡ end_of (value_at limit bytes.now) }
{
    if limit == 0 {
        return None;
    }
    let Some((start, rest)) = start_of(bytes) else {
        return None;
    };
    match start {
        Start::Null => Some(rest),
        Start::Bool(_) => Some(rest),
        Start::Int(_) => Some(rest),
        Start::Text(_) => Some(rest),
        Start::List(count) => members_end(rest, count, limit - 1),
        Start::Map(count) => fields_end(rest, count, limit - 1),
        Start::Bytes(_) => Some(rest),
    }
}

#[cycle(ends)]
fn members_end(bytes: &[u8], count: u32, limit: u8) -> Option<&[u8]>
    ensures { option_map (λ rest. rest.now) result ≡ end_of (members_at (value_at limit) count bytes.now) }
{
    let mut rest = bytes;
    'items: for _ in 0..count {
        let Some(after) = value_end(rest, limit) else {
            return None;
        };
        rest = after;
    }
    Some(rest)
}

#[cycle(ends)]
fn fields_end(bytes: &[u8], count: u32, limit: u8) -> Option<&[u8]>
    ensures { option_map (λ rest. rest.now) result ≡ end_of (fields_at (value_at limit) count None bytes.now) }
{
    let mut rest = bytes;
    let mut last = None;
    'fields: for _ in 0..count {
        let Some((name, behind)) = text_of(rest) else {
            return None;
        };
        if !may_follow(last, name) {
            return None;
        }
        let Some(after) = value_end(behind, limit) else {
            return None;
        };
        rest = after;
        last = Some(name);
    }
    Some(rest)
}

/// Whether all of the bytes spell one value.
fn is_one_value(bytes: &[u8]) -> bool
    ensures { result ≡ is_some (if_ended (value_at depth_limit bytes.now)) }
{
    match value_end(bytes, MAX_DEPTH) {
        Some([]) => true,
        Some([_, ..]) => false,
        None => false,
    }
}

/// Whether the bytes are a state's.
#[tactic(auto, unfolding(crate::specs::Call::state_value))]
pub fn is_state(bytes: &[u8]) -> bool
    ensures { result ≡ is_some (state_value bytes.now) }
{
    if bytes.len() > MAX_STATE_BYTES {
        return false;
    }
    is_one_value(bytes)
}

/// Whether the first byte is a message's, and those after it are a method and one value.
fn is_call(bytes: &[u8]) -> bool
    ensures { result ≡ is_some (behind_version message_version bytes.now) }
{
    let [MESSAGE_VERSION, behind @ ..] = bytes else {
        return false;
    };
    let Some((_, rest)) = text_of(behind) else {
        return false;
    };
    is_one_value(rest)
}

/// Whether the bytes are a message's.
#[tactic(auto, unfolding(crate::specs::Call::versioned_call))]
pub fn is_message(bytes: &[u8]) -> bool
    ensures { result ≡ is_some (message_call bytes.now) }
{
    if bytes.len() > MAX_MESSAGE_BYTES {
        return false;
    }
    is_call(bytes)
}
