//! The shapes of arguments. `None` says that an argument has another one.

ghost use Rattle.std.specs.Prelude.{◌≡◌, Some, None, option_map, if◌then◌else◌};
ghost use Rattle.grain_id.specs.Names.{same_text};
ghost use Rattle.turn_arena.specs.NodeValue.{node_value};
ghost use Rattle.grain_logic.specs.Shared as shared;

use turn_arena::{Field, Node};

/// Whether an argument is null.
pub fn is_null(argument: Node<'_>) -> bool
    ensures { result ≡ shared.is_null (node_value argument.entry) }
{
    match argument {
        Node::Null => true,
        Node::Bool(_) => false,
        Node::Int(_) => false,
        Node::Text(_) => false,
        Node::List(_) => false,
        Node::Map(_) => false,
        Node::Bytes(_) => false,
    }
}

/// The whole number that a value is.
pub fn integer_value(value: Node<'_>) -> Option<i64>
    ensures { result ≡ shared.integer_value (node_value value.entry) }
{
    match value {
        Node::Int(number) => Some(number),
        Node::Null => None,
        Node::Bool(_) => None,
        Node::Text(_) => None,
        Node::List(_) => None,
        Node::Map(_) => None,
        Node::Bytes(_) => None,
    }
}

/// The text that a value is.
pub fn text_value<'a>(value: Node<'a>) -> Option<&'a str>
    ensures { option_map (λ s. s.now) result ≡ shared.text_value (node_value value.entry) }
{
    match value {
        Node::Text(text) => Some(text),
        Node::Null => None,
        Node::Bool(_) => None,
        Node::Int(_) => None,
        Node::List(_) => None,
        Node::Map(_) => None,
        Node::Bytes(_) => None,
    }
}

/// The value of a field, if it has this name.
fn named<'a>(field: &Field<'a>, name: &str) -> Option<Node<'a>>
    ensures { option_map node_value result ≡ (if same_text field.now.name.now name.now then Some (node_value field.now.node) else None) }
{
    if field.name == name {
        return Some(field.node);
    }
    None
}

/// The value of the only field, if it has this name.
pub fn only_field<'a>(argument: Node<'a>, name: &str) -> Option<Node<'a>>
    ensures { option_map node_value result ≡ shared.only_field name.now (node_value argument.entry) }
{
    let Node::Map(fields) = argument else {
        return None;
    };
    match fields {
        [field] => named(field, name),
        [] => None,
        [_, _, ..] => None,
    }
}

/// The values of the only two fields, if they have these names.
pub fn only_fields<'a>(
    argument: Node<'a>,
    first: &str,
    second: &str,
) -> Option<(Node<'a>, Node<'a>)>
    ensures { option_map (λ values. (node_value values.0, node_value values.1)) result
        ≡ shared.only_fields first.now second.now (node_value argument.entry) }
{
    let Node::Map(fields) = argument else {
        return None;
    };
    match fields {
        [one, other] => Some((named(one, first)?, named(other, second)?)),
        [] => None,
        [_] => None,
        [_, _, _, ..] => None,
    }
}

/// The number in `{"name": int}`.
pub fn integer_field(argument: Node<'_>, name: &str) -> Option<i64>
    ensures { result ≡ shared.integer_field name.now (node_value argument.entry) }
{
    integer_value(only_field(argument, name)?)
}

/// The text in `{"name": text}`.
pub fn text_field<'a>(argument: Node<'a>, name: &str) -> Option<&'a str>
    ensures { option_map (λ s. s.now) result ≡ shared.text_field name.now (node_value argument.entry) }
{
    text_value(only_field(argument, name)?)
}

/// The text and the value in `{first: text, second: any}`.
pub fn text_and_value<'a>(
    argument: Node<'a>,
    first: &str,
    second: &str,
) -> Option<(&'a str, Node<'a>)>
    ensures { option_map (λ held. (held.0.now, node_value held.1)) result
        ≡ shared.text_and_value first.now second.now (node_value argument.entry) }
{
    let (text, value) = only_fields(argument, first, second)?;
    Some((text_value(text)?, value))
}
