//! How many bytes spell a value, counted without writing them.

ghost use Rattle.std.specs.Prelude.{◌≡◌, nat_lt};
ghost use Rattle.request_codec.specs.Answers.{spelled_length, members_length, fields_length};
ghost use Rattle.request_codec.specs.Limits.{state_limit};
ghost use Rattle.turn_arena.specs.NodeValue.{node_value, node_values, field_values};
ghost use Rattle.grain_logic.specs.inside.Room.{Leaves};

use request_codec::limits::MAX_STATE_BYTES;
use turn_arena::{Field, Node};

/// Whether the value's spelling is longer than that of a state may be.
pub fn is_too_large(value: Node<'_>) -> bool
    ensures { result ≡ nat_lt state_limit (spelled_length (node_value value.entry)) }
{
    after_node(value, MAX_STATE_BYTES).is_none()
}

/// What the value's spelling leaves of the room, in bytes. It looks no further than the room goes.
#[cycle(counting)]
#[inline(always)]
fn after_node(node: Node<'_>, room: usize) -> Option<usize>
    ensures { Leaves result room (spelled_length (node_value node.entry)) }
{
    match node {
        Node::Null => room.checked_sub(1),
        Node::Bool(_) => room.checked_sub(1),
        Node::Int(_) => room.checked_sub(9),
        Node::Text(text) => room.checked_sub(5)?.checked_sub(text.len()),
        Node::List(nodes) => after_nodes(nodes, room.checked_sub(5)?),
        Node::Map(fields) => after_fields(fields, room.checked_sub(5)?),
        Node::Bytes(bytes) => room.checked_sub(5)?.checked_sub(bytes.len()),
    }
}

#[cycle(counting)]
fn after_nodes(nodes: &[Node<'_>], room: usize) -> Option<usize>
    ensures { Leaves result room (members_length (node_values nodes.now)) }
{
    let mut left = room;
    'nodes: for node in nodes {
        left = after_node(*node, left)?;
    }
    Some(left)
}

#[cycle(counting)]
fn after_fields(fields: &[Field<'_>], room: usize) -> Option<usize>
    ensures { Leaves result room (fields_length (field_values fields.now)) }
{
    let mut left = room;
    'fields: for field in fields {
        let Field { name, node } = *field;
        left = after_node(node, left.checked_sub(4)?.checked_sub(name.len())?)?;
    }
    Some(left)
}
