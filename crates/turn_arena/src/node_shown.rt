//! The value that a node shows, level by level.

ghost use Rattle.std.specs.Prelude.{map};
ghost use Rattle.std.specs.Slice.Iter.{iter_rest};
ghost use Rattle.turn_arena.specs.Ascending.{MapsAscend, FieldsAscend};
ghost use Rattle.turn_arena.specs.NodeValue.{node_value, field_value, field_values};

use crate::node::{Field, Node};
use request_codec::{Level, Shown};
use std::slice;

/// A node, for what writes values. Nothing outside names it: an `impl` of `Shown` at `Node` itself would stand in the
/// crate's interface, and with `Shown` all that `request_codec` shows, `serde_json`'s values too. Each crate above would load them.
#[derive(Clone, Copy)]
pub struct ShownNode<'a> {
    pub node: Node<'a>,
}

impl<'a> Shown for ShownNode<'a> {
    type Items = slice::Iter<'a, Node<'a>>;

    type Fields = slice::Iter<'a, Field<'a>>;

    type Field = &'a Field<'a>;

    ghost value = { λ shown. node_value shown.node };

    ghost listed = { λ items. map node_value (iter_rest items) };

    ghost named = { λ fields. map field_value (iter_rest fields) };

    ghost parted = { λ field. field_value field.now };

    ghost kept = { MapsAscend };

    ghost ascend = { λ fields. FieldsAscend (field_values (iter_rest fields)) };

    #[tactic(auto, using(crate::proofs::Levels::node_levels))]
    #[inline(always)]
    fn level(&self) -> Level<'_, slice::Iter<'a, Node<'a>>, slice::Iter<'a, Field<'a>>> {
        match self.node {
            Node::Null => Level::Null,
            Node::Bool(truth) => Level::Bool(truth),
            Node::Int(number) => Level::Int(number),
            Node::Text(text) => Level::Text(text),
            Node::List(nodes) => Level::List(nodes.len(), nodes.iter()),
            Node::Map(fields) => Level::Map(fields.len(), fields.iter()),
            Node::Bytes(bytes) => Level::Bytes(bytes),
        }
    }

    #[inline(always)]
    fn next_item(items: &mut slice::Iter<'a, Node<'a>>) -> Option<ShownNode<'a>> {
        match items.next() {
            Some(node) => Some(ShownNode { node: *node }),
            None => None,
        }
    }

    #[inline(always)]
    fn next_field(fields: &mut slice::Iter<'a, Field<'a>>) -> Option<&'a Field<'a>> {
        match fields.next() {
            Some(field) => Some(field),
            None => None,
        }
    }

    #[inline(always)]
    fn parts<'f>(field: &'f &'a Field<'a>) -> (&'f str, ShownNode<'a>) {
        let Field { name, node } = **field;
        (name, ShownNode { node })
    }
}
