//! Whether two nodes show the same value.

ghost use Rattle.std.specs.Prelude.{◌≡◌, IsTrue};
ghost use Rattle.turn_arena.specs.NodeValue.{node_value, node_values, field_values};

use turn_arena::{Field, Node};

/// Whether the nodes show the same value. It looks no further than the first part that differs. That they don't if it says
/// so isn't claimed: a caller then only makes twice what it might share.
#[cycle(comparing)]
#[inline(always)]
pub(crate) fn is_same(node: Node<'_>, other: Node<'_>) -> bool
    ensures { IsTrue result → node_value node.entry ≡ node_value other.entry }
{
    match (node, other) {
        (Node::Null, Node::Null) => true,
        (Node::Bool(truth), Node::Bool(second)) => truth == second,
        (Node::Int(number), Node::Int(second)) => number == second,
        (Node::Text(text), Node::Text(second)) => text == second,
        (Node::List(nodes), Node::List(others)) => are_same(nodes, others),
        (Node::Map(fields), Node::Map(others)) => are_same_fields(fields, others),
        (Node::Bytes(bytes), Node::Bytes(second)) => bytes == second,
        _ => false,
    }
}

#[cycle(comparing)]
fn are_same(nodes: &[Node<'_>], others: &[Node<'_>]) -> bool
    ensures { IsTrue result → node_values nodes.now ≡ node_values others.now }
{
    let mut rest = others;
    'nodes: for node in nodes {
        let [other, behind @ ..] = rest else {
            return false;
        };
        if !is_same(*node, *other) {
            return false;
        }
        rest = behind;
    }
    rest.is_empty()
}

#[cycle(comparing)]
fn are_same_fields(fields: &[Field<'_>], others: &[Field<'_>]) -> bool
    ensures { IsTrue result → field_values fields.now ≡ field_values others.now }
{
    let mut rest = others;
    'fields: for field in fields {
        let [other, behind @ ..] = rest else {
            return false;
        };
        if field.name != other.name {
            return false;
        }
        if !is_same(field.node, other.node) {
            return false;
        }
        rest = behind;
    }
    rest.is_empty()
}
