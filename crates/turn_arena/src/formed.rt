//! Reading a state or a message, whose bytes are known to spell one: nothing of that is tested again, and texts and bytes are lent.

ghost use Rattle.std.specs.Prelude.{ℕ, ◌≡◌, List, Some, None, IsSome, IfOk, option_map};
ghost use Rattle.request_codec.specs.Call.{message_call, asks};
ghost use Rattle.request_codec.specs.Limits.{depth_limit};
ghost use Rattle.request_codec.specs.Reading.{text_at, value_at, members_at, fields_at};
ghost use Rattle.request_codec.specs.Spelling.{SpellsMessage, SpellsState};
ghost use Rattle.request_codec.specs.Start.{begun, start_at};
ghost use Rattle.request_codec.specs.Tree.{Tree};
ghost use Rattle.request_codec.specs.Written.{message_spelling, spelling};
ghost use Rattle.turn_arena.specs.NodeValue.{node_value, node_values, field_values};

use crate::node::{Field, Node};
use bumpalo::Bump;
use bumpalo::collections::into_bump_slice;
use request_codec::bytes::{Start, bytes_of, start_of};
use request_codec::limits::MAX_DEPTH;
use request_codec::{Message, StateBytes};
use std::alloc::AllocError;
use std::str;

/// The text that is known to stand at the front, and the bytes after it. That it is UTF-8 is known too.
#[tactic(auto, unfolding(request_codec::specs::Reading::text_at))]
#[inline(always)]
pub(crate) fn known_text(bytes: &[u8]) -> Option<(&str, &[u8])>
    requires { IsSome (text_at bytes.now) }
    ensures { option_map (λ x. (x.0.now, x.1.now)) result ≡ text_at bytes.now }
{
    let (front, rest) = bytes_of(bytes)?;
    Some((unsafe { str::from_utf8_unchecked(front) }, rest))
}

/// The start of a value that is known to stand at the front, and the bytes after it.
#[tactic(auto, unfolding(request_codec::specs::Start::start_at))]
#[inline(always)]
pub(crate) fn known_start(bytes: &[u8]) -> Option<(Start<'_>, &[u8])>
    requires { IsSome (start_at bytes.now) }
    ensures { option_map (λ x. (begun x.0, x.1.now)) result ≡ start_at bytes.now }
{
    match bytes {
        [4, rest @ ..] => {
            let (text, rest) = known_text(rest)?;
            Some((Start::Text(text), rest))
        }
        _ => start_of(bytes),
    }
}

/// The value that is known to stand at the front, no deeper than the limit, and the bytes after it.
#[cycle(lending)]
#[inline(always)]
fn formed_node<'a>(
    bump: &'a Bump,
    bytes: &'a [u8],
    limit: u8,
) -> Result<(Node<'a>, &'a [u8]), AllocError>
    requires { IsSome (value_at limit bytes.now) }
    ensures { IfOk result (λ x. value_at limit bytes.now ≡ Some (node_value x.0, x.1.now)) }
{
    if limit == 0 {
        unreachable!();
    }
    let Some((start, rest)) = known_start(bytes) else {
        unreachable!();
    };
    match start {
        Start::Null => Ok((Node::Null, rest)),
        Start::Bool(truth) => Ok((Node::Bool(truth), rest)),
        Start::Int(number) => Ok((Node::Int(number), rest)),
        Start::Text(text) => Ok((Node::Text(text), rest)),
        Start::List(count) => {
            let (nodes, rest) = formed_nodes(bump, rest, count, limit - 1)?;
            Ok((Node::List(nodes), rest))
        }
        Start::Map(count) => {
            let (fields, rest) = formed_fields(bump, rest, count, limit - 1)?;
            Ok((Node::Map(fields), rest))
        }
        Start::Bytes(bytes) => Ok((Node::Bytes(bytes), rest)),
    }
}

#[cycle(lending)]
fn formed_nodes<'a>(
    bump: &'a Bump,
    bytes: &'a [u8],
    count: u32,
    limit: u8,
) -> Result<(&'a [Node<'a>], &'a [u8]), AllocError>
    requires { IsSome (members_at (value_at limit) count bytes.now) }
    ensures { IfOk result (λ x. members_at (value_at limit) count bytes.now ≡ Some (node_values x.0.now, x.1.now)) }
{
    let mut nodes = Vec::with_capacity(bump, count as usize)?;
    let mut rest = bytes;
    'nodes: for _ in 0..count {
        let (node, after) = formed_node(bump, rest, limit)?;
        nodes.push(node)?;
        rest = after;
    }
    Ok((into_bump_slice(nodes), rest))
}

#[cycle(lending)]
fn formed_fields<'a>(
    bump: &'a Bump,
    bytes: &'a [u8],
    count: u32,
    limit: u8,
) -> Result<(&'a [Field<'a>], &'a [u8]), AllocError>
    requires { IsSome (fields_at (value_at limit) count None bytes.now) }
    ensures { IfOk result (λ x. fields_at (value_at limit) count None bytes.now ≡ Some (field_values x.0.now, x.1.now)) }
{
    let mut fields = Vec::with_capacity(bump, count as usize)?;
    let mut rest = bytes;
    'fields: for _ in 0..count {
        let Some((name, behind)) = known_text(rest) else {
            unreachable!();
        };
        let (node, after) = formed_node(bump, behind, limit)?;
        fields.push(Field { name, node })?;
        rest = after;
    }
    Ok((into_bump_slice(fields), rest))
}

/// The value of a state. Its texts, bytes and names are lent from the state, and its lists and maps lie in the arena. The
/// only error: the arena can't grow.
#[inline(always)]
pub fn formed_in<'a>(bump: &'a Bump, state: &'a StateBytes) -> Result<Node<'a>, AllocError>
    ensures value { IfOk result (λ node. node_value node ≡ state.now) }
    ensures spelled { IfOk result (λ node. SpellsState (node_value node) (spelling (node_value node))) }
{
    let (node, _) = formed_node(bump, state.bytes(), MAX_DEPTH)?;
    Ok(node)
}

/// The method of bytes that are known to be a message's, and the bytes that spell its argument.
#[inline(always)]
pub(crate) fn known_call(bytes: &[u8]) -> (&str, &[u8])
    requires { IsSome (message_call bytes.now) }
    ensures stands { IsSome (value_at depth_limit result.1.now) }
    ensures asked { (argument : Tree) → (rest : List ℕ) → value_at depth_limit result.1.now ≡ Some (argument, rest)
        → message_call bytes.now ≡ Some (asks result.0.now argument) }
{
    let [_, behind @ ..] = bytes else {
        unreachable!();
    };
    let Some((method, argument)) = known_text(behind) else {
        unreachable!();
    };
    (method, argument)
}

/// The method and the argument of a message. The method, texts, bytes and names are lent from the message, and lists and
/// maps lie in the arena. The only error: the arena can't grow.
#[inline(always)]
pub fn formed_call_in<'a>(
    bump: &'a Bump,
    message: &'a Message,
) -> Result<(&'a str, Node<'a>), AllocError>
    ensures value { IfOk result (λ found. asks found.0.now (node_value found.1) ≡ message.now) }
    ensures spelled { IfOk result (λ found. SpellsMessage found.0.now (node_value found.1)
        (message_spelling (asks found.0.now (node_value found.1)))) }
{
    let (method, spelled) = known_call(message.bytes());
    let (argument, _) = formed_node(bump, spelled, MAX_DEPTH)?;
    Ok((method, argument))
}
