//! The kind `sheet`.

ghost use Rattle.std.specs.Prelude.{◌≡◌, option_map, IfOk};
ghost use Rattle.request_codec.specs.Tree as tree;
ghost use Rattle.request_codec.specs.Tree.{Tree};
ghost use Rattle.turn_arena.specs.Ascending.{NamesAscend, MapsAscend};
ghost use Rattle.turn_arena.specs.Fields.{fields_in};
ghost use Rattle.turn_arena.specs.NodeValue.{node_value, field_values};
ghost use Rattle.grain_logic.specs.Tables.{method_in, plan_by, reads_by, since_of};
ghost use Rattle.grain_logic.specs.Planned.{plan_shown};
ghost use Rattle.grain_logic.specs.Shared.{for_null, for_shape, text_field};
ghost use Rattle.grain_kinds.specs.Kinds.Sheet as sheet;
ghost use Rattle.grain_kinds.specs.Kinds.Sheet.{value_in, names_in, sheet_methods};
ghost use Rattle.grain_logic.specs.Setting.{set_to, sets_field};
ghost use Rattle.grain_logic.specs.Shortcuts.{IsShortcut};

use super::every_kind;
use bumpalo::Bump;
use bumpalo::collections::into_bump_slice;
use grain_logic::arguments::{is_null, text_and_value, text_field};
use grain_logic::length::is_too_large;
use grain_logic::{MethodFault, Plan, Shortcut};
use std::alloc::{AllocError, Global};
use turn_arena::{Field, Node, drop_in, put_in};

/// Whether the method only reads.
#[tactic(auto, unfolding(crate::specs::Kinds::Sheet::sheet_methods))]
pub(crate) fn only_reads(method: &str) -> bool
    ensures { result ≡ reads_by (method_in sheet_methods method.now) }
{
    if method == "put" {
        return false;
    }
    if method == "get" {
        return true;
    }
    if method == "drop" {
        return false;
    }
    method == "list" || every_kind::only_reads(method)
}

/// The version since which the method stands: 1 if there is none of the word.
#[tactic(auto, unfolding(crate::specs::Kinds::Sheet::sheet_methods))]
pub(crate) fn since(method: &str) -> u8
    ensures { result ≡ since_of (method_in sheet_methods method.now) }
{
    if method == "put" {
        return 1;
    }
    if method == "get" {
        return 1;
    }
    if method == "drop" {
        return 1;
    }
    if method == "list" {
        return 1;
    }
    every_kind::since(method)
}

/// The plan of a turn of a sheet.
#[tactic(auto, unfolding(crate::specs::Kinds::Sheet::sheet_methods))]
pub(crate) fn plan_of<'a>(
    alloc: Global,
    bump: &'a Bump,
    method: &str,
    state: Node<'a>,
    args: Node<'a>,
) -> Result<Plan<'a>, AllocError>
    requires { MapsAscend (node_value state) }
    ensures { IfOk result
        (λ plan. plan_shown (node_value state.entry) plan
        ≡ plan_by (method_in sheet_methods method.now) (node_value state.entry) (node_value args.entry)) }
{
    let fields = fields_of(state);
    if method == "put" {
        return put_value(alloc, bump, fields, put_argument(args));
    }
    if method == "get" {
        return Ok(get_value(alloc, fields, text_field(args, "name")));
    }
    if method == "drop" {
        return drop_name(alloc, bump, fields, text_field(args, "name"));
    }
    if method == "list" {
        return list_names(alloc, bump, fields, args);
    }
    Ok(every_kind::plan_of(alloc, method, args))
}

/// `put` sets a field, if its argument has the shape.
pub(crate) fn shortcut(method: &str) -> Shortcut
    ensures { IsShortcut (plan_by (method_in sheet_methods method.now)) result }
{
    if method == "put" {
        return Shortcut::Sets("name", "value");
    }
    Shortcut::None
}

/// The fields of a sheet. A state that is no map counts as the empty one.
#[tactic(auto, using(turn_arena::proofs::FieldPlaces::none_ascend, turn_arena::proofs::FieldPlaces::names_ascend))]
fn fields_of<'a>(state: Node<'a>) -> &'a [Field<'a>]
    requires { MapsAscend (node_value state) }
    ensures same { field_values result.now ≡ fields_in (node_value state.entry) }
    ensures ascends { NamesAscend result.now }
{
    match state {
        Node::Map(fields) => fields,
        Node::Null => &[],
        Node::Bool(_) => &[],
        Node::Int(_) => &[],
        Node::Text(_) => &[],
        Node::List(_) => &[],
        Node::Bytes(_) => &[],
    }
}

/// The name and the value in `{"name": text, "value": any}`.
fn put_argument<'a>(args: Node<'a>) -> Option<(&'a str, Node<'a>)>
    ensures { option_map (λ put. (put.0.now, node_value put.1)) result ≡ sheet.put_argument (node_value args.entry) }
{
    text_and_value(args, "name", "value")
}

/// The sheet is the new state, if it is not too large.
fn set_to<'a>(alloc: Global, made: Node<'a>) -> Plan<'a>
    ensures { (state : Tree) → plan_shown state result ≡ set_to state (node_value made.entry) }
{
    if is_too_large(made) {
        return Plan::keeps(alloc, Err(MethodFault::TooLarge));
    }
    Plan::becomes(alloc, made, Node::Null)
}

/// The name is set to the value.
fn put_value<'a>(
    alloc: Global,
    bump: &'a Bump,
    fields: &'a [Field<'a>],
    put: Option<(&'a str, Node<'a>)>,
) -> Result<Plan<'a>, AllocError>
    requires { NamesAscend fields.now }
    ensures { IfOk result (λ plan. (state : Tree) → field_values fields.now ≡ fields_in state
        → plan_shown state plan ≡ for_shape state (option_map (λ put. (put.0.now, node_value put.1)) put.entry) (sets_field state)) }
{
    let Some((name, value)) = put else {
        return Ok(Plan::keeps(alloc, Err(MethodFault::Misfit)));
    };
    let fields = put_in(bump, fields, name, value)?;
    Ok(set_to(alloc, Node::Map(fields)))
}

/// The value of a name, or null.
fn get_value<'a>(alloc: Global, fields: &'a [Field<'a>], name: Option<&str>) -> Plan<'a>
    ensures { (state : Tree) → field_values fields.now ≡ fields_in state
        → plan_shown state result ≡ for_shape state (option_map (λ s. s.now) name.entry) (sheet.get_plan state) }
{
    let Some(name) = name else {
        return Plan::keeps(alloc, Err(MethodFault::Misfit));
    };
    match value_of(fields, name) {
        Some(value) => Plan::keeps(alloc, Ok(value)),
        None => Plan::keeps(alloc, Ok(Node::Null)),
    }
}

/// The name is left out.
fn drop_name<'a>(
    alloc: Global,
    bump: &'a Bump,
    fields: &'a [Field<'a>],
    name: Option<&str>,
) -> Result<Plan<'a>, AllocError>
    requires { NamesAscend fields.now }
    ensures { IfOk result (λ plan. (state : Tree) → field_values fields.now ≡ fields_in state
        → plan_shown state plan ≡ for_shape state (option_map (λ s. s.now) name.entry) (sheet.drop_plan state)) }
{
    let Some(name) = name else {
        return Ok(Plan::keeps(alloc, Err(MethodFault::Misfit)));
    };
    let was_there = value_of(fields, name).is_some();
    let fields = drop_in(bump, fields, name)?;
    Ok(Plan::becomes(alloc, Node::Map(fields), Node::Bool(was_there)))
}

/// The names are the answer.
fn list_names<'a>(
    alloc: Global,
    bump: &'a Bump,
    fields: &'a [Field<'a>],
    args: Node<'a>,
) -> Result<Plan<'a>, AllocError>
    ensures { IfOk result (λ plan. (state : Tree) → field_values fields.now ≡ fields_in state
        → plan_shown state plan ≡ for_null state (node_value args.entry) (sheet.list_plan state)) }
{
    if is_null(args) {
        return Ok(Plan::keeps(alloc, Ok(names_of(bump, fields)?)));
    }
    Ok(Plan::keeps(alloc, Err(MethodFault::Misfit)))
}

/// The value of a name, if there is one.
fn value_of<'a>(fields: &'a [Field<'a>], name: &str) -> Option<Node<'a>>
    ensures { option_map node_value result ≡ value_in name.now (field_values fields.now) }
{
    'fields: for field in fields {
        if field.name == name {
            return Some(field.node);
        }
    }
    None
}

/// The names, in their order.
#[tactic(auto, using(crate::proofs::Fields::texts_are_names))]
fn names_of<'a>(bump: &'a Bump, fields: &'a [Field<'a>]) -> Result<Node<'a>, AllocError>
    ensures { IfOk result (λ names. node_value names ≡ tree.list (names_in (field_values fields.now))) }
{
    let mut names = Vec::with_capacity(bump, fields.len())?;
    'fields: for field in fields {
        names.push(Node::Text(field.name))?;
    }
    Ok(Node::List(into_bump_slice(names)))
}
