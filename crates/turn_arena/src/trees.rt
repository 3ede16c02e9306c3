//! Texts, bytes, lists and maps made in an arena. An `Err` says that memory was refused.

ghost use Rattle.std.specs.Prelude.{◌≡◌, IfOk};
ghost use Rattle.request_codec.specs.Tree as tree;
ghost use Rattle.turn_arena.specs.Ascending.{NamesAscend};
ghost use Rattle.turn_arena.specs.inside.Made.{IsListOf, IsMapOf};
ghost use Rattle.turn_arena.specs.NodeValue.{node_value, node_values, field_values};

use crate::node::{Field, Node};
use bumpalo::Bump;
use std::alloc::AllocError;

/// A text, which is copied into the arena.
pub fn text_in<'a>(bump: &'a Bump, content: &str) -> Result<Node<'a>, AllocError>
    ensures { IfOk result (λ n. node_value n ≡ tree.text content.now) }
{
    Ok(Node::Text(bump.try_alloc_str(content)?))
}

/// Bytes, which are copied into the arena.
pub fn bytes_in<'a>(bump: &'a Bump, content: &[u8]) -> Result<Node<'a>, AllocError>
    ensures { IfOk result (λ n. node_value n ≡ tree.bytes content.now) }
{
    Ok(Node::Bytes(bump.try_alloc_slice_copy(content)?))
}

/// A list of the nodes. What they hold is shared.
pub fn list_in<'a>(bump: &'a Bump, items: &[Node<'a>]) -> Result<Node<'a>, AllocError>
    ensures value { IfOk result (λ n. node_value n ≡ tree.list (node_values items.now)) }
    ensures exact { IfOk result (IsListOf items.now) }
{
    Ok(Node::List(bump.try_alloc_slice_copy(items)?))
}

/// A map of the fields. What they hold is shared.
pub fn map_in<'a>(bump: &'a Bump, members: &[Field<'a>]) -> Result<Node<'a>, AllocError>
    requires { NamesAscend members.now }
    ensures value { IfOk result (λ n. node_value n ≡ tree.map (field_values members.now)) }
    ensures exact { IfOk result (IsMapOf members.now) }
{
    Ok(Node::Map(bump.try_alloc_slice_copy(members)?))
}
