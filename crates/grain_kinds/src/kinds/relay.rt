//! The kind `relay`.

ghost use Rattle.std.specs.Prelude.{◌≡◌, ◌≤◌, length, map, option_map, IfOk};
ghost use Rattle.grain_id.specs.Names.{Grain};
ghost use Rattle.request_codec.specs.Tree.{Tree};
ghost use Rattle.turn_arena.specs.NodeValue.{node_value, node_values};
ghost use Rattle.grain_logic.specs.Tables.{method_in, plan_by, reads_by, since_of};
ghost use Rattle.grain_logic.specs.Planned.{plan_shown, send_shown};
ghost use Rattle.grain_kinds.specs.Kinds.Relay as relay;
ghost use Rattle.grain_kinds.specs.Kinds.Relay.{member_limit, grains_in, grain_value, members_in, relay_of, sends_to};
ghost use Rattle.grain_kinds.specs.Kinds.Relay.{join_plan, joined_plan, leave_plan, send_plan, relay_methods};
ghost use Rattle.grain_logic.specs.Shared.{for_shape};

use super::every_kind;
use bumpalo::Bump;
use bumpalo::collections::into_bump_slice;
use grain_id::{GrainId, IdFault};
use grain_logic::arguments::{only_fields, text_field, text_value};
use grain_logic::{Keep, MethodFault, Plan, Send, StoreCall};
use std::alloc::{AllocError, Global};
use turn_arena::{Node, text_in};

/// How many members a relay may have.
const MAX_MEMBERS: usize = 4;

/// Whether the method only reads.
#[tactic(auto, unfolding(crate::specs::Kinds::Relay::relay_methods))]
pub(crate) fn only_reads(method: &str) -> bool
    ensures { result ≡ reads_by (method_in relay_methods method.now) }
{
    if method == "join" {
        return false;
    }
    if method == "leave" {
        return false;
    }
    if method == "send" {
        return false;
    }
    every_kind::only_reads(method)
}

/// The version since which the method stands: 1 if there is none of the word.
#[tactic(auto, unfolding(crate::specs::Kinds::Relay::relay_methods))]
pub(crate) fn since(method: &str) -> u8
    ensures { result ≡ since_of (method_in relay_methods method.now) }
{
    if method == "join" {
        return 1;
    }
    if method == "leave" {
        return 1;
    }
    if method == "send" {
        return 1;
    }
    every_kind::since(method)
}

/// The plan of a turn of a relay.
#[tactic(auto, unfolding(crate::specs::Kinds::Relay::relay_methods))]
pub(crate) fn plan_of<'a>(
    alloc: Global,
    bump: &'a Bump,
    method: &str,
    state: Node<'a>,
    args: Node<'a>,
) -> Result<Plan<'a>, AllocError>
    ensures { IfOk result
        (λ plan. plan_shown (node_value state.entry) plan
        ≡ plan_by (method_in relay_methods method.now) (node_value state.entry) (node_value args.entry)) }
{
    if method == "join" {
        return join(alloc, bump, state, text_field(args, "grain"));
    }
    if method == "leave" {
        return leave(alloc, bump, state, text_field(args, "grain"));
    }
    if method == "send" {
        return send(alloc, state, send_argument(args));
    }
    Ok(every_kind::plan_of(alloc, method, args))
}

/// The grain of the text is added last.
fn join<'a>(
    alloc: Global,
    bump: &'a Bump,
    state: Node<'a>,
    text: Option<&str>,
) -> Result<Plan<'a>, AllocError>
    ensures { IfOk result
        (λ plan. plan_shown (node_value state.entry) plan
        ≡ for_shape (node_value state.entry) (option_map (λ s. s.now) text.entry) (join_plan (node_value state.entry))) }
{
    let Some(text) = text else {
        return Ok(Plan::keeps(alloc, Err(MethodFault::Misfit)));
    };
    let Some(grain) = grain_named(alloc, text)? else {
        return Ok(Plan::keeps(alloc, Err(MethodFault::Misfit)));
    };
    joined(alloc, bump, members_of(alloc, state)?, grain)
}

/// The grain joins these members.
fn joined<'a>(
    alloc: Global,
    bump: &'a Bump,
    members: Vec<GrainId>,
    grain: GrainId,
) -> Result<Plan<'a>, AllocError>
    ensures { IfOk result (λ plan. (state : Tree) → plan_shown state plan ≡ joined_plan state members.items grain) }
{
    if names_one(members.as_slice(), grain.text()) {
        return Ok(Plan::keeps(alloc, Ok(Node::Bool(false))));
    }
    if members.len() >= MAX_MEMBERS {
        return Ok(Plan::keeps(alloc, Err(MethodFault::OutOfRange)));
    }
    let mut members = members;
    members.push(grain)?;
    let state = relay_in(bump, members.as_slice())?;
    Ok(Plan::becomes(alloc, state, Node::Bool(true)))
}

/// The grain of the text is left out.
fn leave<'a>(
    alloc: Global,
    bump: &'a Bump,
    state: Node<'a>,
    text: Option<&str>,
) -> Result<Plan<'a>, AllocError>
    ensures { IfOk result
        (λ plan. plan_shown (node_value state.entry) plan
        ≡ for_shape (node_value state.entry) (option_map (λ s. s.now) text.entry) (leave_plan (node_value state.entry))) }
{
    let Some(text) = text else {
        return Ok(Plan::keeps(alloc, Err(MethodFault::Misfit)));
    };
    let members = members_of(alloc, state)?;
    let was_member = names_one(members.as_slice(), text);
    let state = without_in(bump, members.as_slice(), text)?;
    Ok(Plan::becomes(alloc, state, Node::Bool(was_member)))
}

/// The call is sent to each member.
fn send<'a>(
    alloc: Global,
    state: Node<'a>,
    call: Option<(Node<'a>, &'a str)>,
) -> Result<Plan<'a>, AllocError>
    ensures { IfOk result
        (λ plan. plan_shown (node_value state.entry) plan
        ≡ for_shape (node_value state.entry) (option_map (λ call. (node_value call.0, call.1.now)) call.entry)
        (send_plan (node_value state.entry))) }
{
    let Some((args, method)) = call else {
        return Ok(Plan::keeps(alloc, Err(MethodFault::Misfit)));
    };
    let members = members_of(alloc, state)?;
    let count = members.len() as i64;
    Ok(Plan {
        state: None,
        outcome: Ok(Node::Int(count)),
        store: StoreCall::None,
        sends: sends_to(alloc, members, method, args)?,
        keep: Keep::Same,
    })
}

/// The value and the method in `{"args": any, "method": text}`.
fn send_argument<'a>(args: Node<'a>) -> Option<(Node<'a>, &'a str)>
    ensures { option_map (λ call. (node_value call.0, call.1.now)) result ≡ relay.send_argument (node_value args.entry) }
{
    let (sent, method) = only_fields(args, "args", "method")?;
    Some((sent, text_value(method)?))
}

/// The same call to each of these.
fn sends_to<'a>(
    alloc: Global,
    members: Vec<GrainId>,
    method: &'a str,
    args: Node<'a>,
) -> Result<Vec<Send<'a>>, AllocError>
    ensures { IfOk result (λ sends. map send_shown sends.items ≡ sends_to members.items method.now (node_value args.entry)) }
{
    let mut sends = Vec::with_capacity(alloc, members.len())?;
    'members: for target in members {
        sends.push(Send {
            target,
            method,
            args,
        })?;
    }
    Ok(sends)
}

/// The members of a relay. A state of another shape counts as the empty list.
fn members_of(alloc: Global, state: Node<'_>) -> Result<Vec<GrainId>, AllocError>
    ensures same { IfOk result (λ members. members.items ≡ members_in (node_value state.entry)) }
    ensures few { IfOk result (λ members. length members.items ≤ member_limit) }
{
    let Node::List(values) = state else {
        return Ok(Vec::new(alloc));
    };
    if values.len() > MAX_MEMBERS {
        return Ok(Vec::new(alloc));
    }
    let Some(grains) = grains_of(alloc, values)? else {
        return Ok(Vec::new(alloc));
    };
    if !are_distinct(grains.as_slice()) {
        return Ok(Vec::new(alloc));
    }
    Ok(grains)
}

/// The grains of which the values are the texts, if each is the text of one.
fn grains_of(alloc: Global, values: &[Node<'_>]) -> Result<Option<Vec<GrainId>>, AllocError>
    ensures { IfOk result (λ found. option_map (λ grains. grains.items) found ≡ grains_in (node_values values.now)) }
{
    let mut grains = Vec::with_capacity(alloc, values.len())?;
    'values: for value in values {
        match grain_of(alloc, *value)? {
            Some(grain) => grains.push(grain)?,
            None => return Ok(None),
        }
    }
    Ok(Some(grains))
}

/// The grain of which the value is the text.
fn grain_of(alloc: Global, value: Node<'_>) -> Result<Option<GrainId>, AllocError>
    ensures { IfOk result (λ found. found ≡ grain_value (node_value value.entry)) }
{
    match text_value(value) {
        Some(text) => grain_named(alloc, text),
        None => Ok(None),
    }
}

/// The grain of which this is the text.
fn grain_named(alloc: Global, text: &str) -> Result<Option<GrainId>, AllocError>
    ensures { IfOk result (λ found. found ≡ relay.grain_named text.now) }
{
    match GrainId::read(alloc, text) {
        Ok(grain) => Ok(Some(grain)),
        Err(IdFault::Memory) => Err(AllocError),
        Err(IdFault::Kind) => Ok(None),
        Err(IdFault::Tenant) => Ok(None),
        Err(IdFault::Name) => Ok(None),
        Err(IdFault::Client) => Ok(None),
    }
}

/// Whether it is the text of one of these.
fn names_one(grains: &[GrainId], text: &str) -> bool
    ensures { result ≡ relay.names_one text.now grains.now }
{
    'grains: for grain in grains {
        if grain.text() == text {
            return true;
        }
    }
    false
}

/// Whether none stands twice.
fn are_distinct(grains: &[GrainId]) -> bool
    ensures { result ≡ relay.are_distinct grains.now }
{
    'grains: for at in 0..grains.len() {
        if names_one(&grains[at + 1..], grains[at].text()) {
            return false;
        }
    }
    true
}

/// The state of a relay with these members.
fn relay_in<'a>(bump: &'a Bump, members: &[GrainId]) -> Result<Node<'a>, AllocError>
    ensures { IfOk result (λ state. node_value state ≡ relay_of members.now) }
{
    let mut texts = Vec::with_capacity(bump, members.len())?;
    'members: for member in members {
        texts.push(text_in(bump, member.text())?)?;
    }
    Ok(Node::List(into_bump_slice(texts)))
}

/// The state of a relay with these members, but for the one of which this is the text.
fn without_in<'a>(bump: &'a Bump, members: &[GrainId], text: &str) -> Result<Node<'a>, AllocError>
    ensures { IfOk result (λ state. node_value state ≡ relay_of (relay.without text.now members.now)) }
{
    let mut texts = Vec::with_capacity(bump, members.len())?;
    'members: for member in members {
        if member.text() != text {
            texts.push(text_in(bump, member.text())?)?;
        }
    }
    Ok(Node::List(into_bump_slice(texts)))
}
