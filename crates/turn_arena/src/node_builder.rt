//! Making a value whose parts are put into an arena.

ghost use Rattle.std.specs.Prelude.{map};
ghost use Rattle.turn_arena.specs.NodeValue.{node_value, field_value};

use crate::node::{Field, Node};
use bumpalo::Bump;
use bumpalo::collections::into_bump_slice;
use request_codec::Builder;
use std::alloc::AllocError;

/// Makes a `Node` in an arena.
#[derive(Clone, Copy)]
pub struct NodeBuilder<'a> {
    pub bump: &'a Bump,
}

impl<'a> Builder for NodeBuilder<'a> {
    type Made = Node<'a>;

    type Items = Vec<Node<'a>, &'a Bump>;

    type Fields = Vec<Field<'a>, &'a Bump>;

    ghost made = { node_value };

    ghost listed = { λ v. map node_value v.items };

    ghost named = { λ v. map field_value v.items };

    fn null(&self) -> Node<'a> {
        Node::Null
    }

    fn truth(&self, truth: bool) -> Node<'a> {
        Node::Bool(truth)
    }

    fn integer(&self, number: i64) -> Node<'a> {
        Node::Int(number)
    }

    fn text(&self, text: &str) -> Result<Node<'a>, AllocError> {
        Ok(Node::Text(self.bump.try_alloc_str(text)?))
    }

    fn bytes(&self, bytes: &[u8]) -> Result<Node<'a>, AllocError> {
        Ok(Node::Bytes(self.bump.try_alloc_slice_copy(bytes)?))
    }

    fn no_items(&self) -> Vec<Node<'a>, &'a Bump> {
        Vec::new(self.bump)
    }

    fn push(&self, items: &mut Vec<Node<'a>, &'a Bump>, item: Node<'a>) -> Result<(), AllocError> {
        Ok(items.push(item)?)
    }

    fn list(&self, items: Vec<Node<'a>, &'a Bump>) -> Node<'a> {
        Node::List(into_bump_slice(items))
    }

    fn no_fields(&self) -> Vec<Field<'a>, &'a Bump> {
        Vec::new(self.bump)
    }

    fn add(
        &self,
        fields: &mut Vec<Field<'a>, &'a Bump>,
        name: &str,
        field: Node<'a>,
    ) -> Result<(), AllocError> {
        let name = self.bump.try_alloc_str(name)?;
        Ok(fields.push(Field { name, node: field })?)
    }

    fn map(&self, fields: Vec<Field<'a>, &'a Bump>) -> Node<'a> {
        Node::Map(into_bump_slice(fields))
    }
}
