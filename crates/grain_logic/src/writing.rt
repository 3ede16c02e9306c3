//! A plan's values, written as bytes of their own.

ghost use Rattle.std.specs.Prelude.{◌≡◌, [], Ok, map, option_map, IfOk, IfSome};
ghost use Rattle.std.specs.List.{AllByRecursion};
ghost use Rattle.request_codec.specs.Call.{asks};
ghost use Rattle.request_codec.specs.Tree.{Tree, integer};
ghost use Rattle.turn_arena.specs.NodeValue.{node_value};
ghost use Rattle.grain_logic.specs.Finished.{planned_shown, sent};
ghost use Rattle.grain_logic.specs.Laws.{FitsState, FitsMessage};
ghost use Rattle.grain_logic.specs.inside.LastMessage.{EndsIn};
ghost use Rattle.grain_logic.specs.Planned.{send_shown, outcome_shown, plan_shown, NodesFit};

use crate::fault::MethodFault;
use crate::plan::{Plan, Send};
use crate::same::is_same;
use crate::turn::OwnedPlan;
use grain_id::GrainId;
use request_codec::limits::STATE_ROOM;
use request_codec::{CodecFault, Message, StateBytes};
use std::alloc::{AllocError, Global};
use turn_arena::{Node, encode_call, encode_formed};

/// The state of a value that keeps the limits of one.
///
/// # Errors
///
/// Out of memory.
#[inline(always)]
pub fn state_of(alloc: Global, node: Node<'_>) -> Result<StateBytes, AllocError>
    requires { FitsState (node_value node) }
    ensures { IfOk result (λ state. state ≡ node_value node.entry) }
{
    encode_formed(alloc, STATE_ROOM, node)
}

/// The message of a call that keeps the limits of one.
#[tactic(auto, using(crate::proofs::Fits::formed_ascends))]
fn message_of(alloc: Global, method: &str, argument: Node<'_>) -> Result<Message, AllocError>
    requires { FitsMessage (asks method.now (node_value argument)) }
    ensures { IfOk result (λ message. message ≡ asks method.now (node_value argument.entry)) }
{
    match encode_call(alloc, method, argument) {
        Ok(message) => Ok(message),
        Err(CodecFault::Memory) => Err(AllocError),
        Err(CodecFault::TooDeep) => unreachable!(),
        Err(CodecFault::TooLong) => unreachable!(),
        Err(CodecFault::NotWhole) => unreachable!(),
        Err(CodecFault::NotHex) => unreachable!(),
        Err(CodecFault::NotAMessage) => unreachable!(),
    }
}

/// The new state, if there is one, written into room for that many bytes at first.
#[inline(always)]
fn next_of(
    alloc: Global,
    room: usize,
    state: Option<Node<'_>>,
) -> Result<Option<StateBytes>, AllocError>
    requires { IfSome state (λ node. FitsState (node_value node)) }
    ensures { IfOk result (λ next. next ≡ option_map node_value state.entry) }
{
    match state {
        Some(node) => Ok(Some(encode_formed(alloc, room, node)?)),
        None => Ok(None),
    }
}

/// The answer, or the code of its fault.
#[inline(always)]
fn outcome_of(
    alloc: Global,
    outcome: Result<Node<'_>, MethodFault>,
) -> Result<Result<StateBytes, MethodFault>, AllocError>
    requires { IfOk outcome (λ node. FitsState (node_value node)) }
    ensures { IfOk result (λ written. written ≡ outcome_shown outcome.entry) }
{
    match outcome {
        Ok(node) => Ok(Ok(state_of(alloc, node)?)),
        Err(fault) => Ok(Err(fault)),
    }
}

/// The message that was written last, which is that of the call before, if this call is the same.
#[inline(always)]
fn last_if_same<'w>(
    written: &'w [(GrainId, Message)],
    before: Option<(&str, Node<'_>)>,
    method: &str,
    args: Node<'_>,
) -> Option<&'w Message>
    requires { IfSome before (λ call. EndsIn (asks call.0.now (node_value call.1)) written.now) }
    ensures { IfSome result (λ message. message.now ≡ asks method.now (node_value args.entry)) }
{
    let (method_before, args_before) = before?;
    if method != method_before {
        return None;
    }
    if !is_same(args, args_before) {
        return None;
    }
    let (_, message) = written.last()?;
    Some(message)
}

/// The message of a call. It shares the block of the message before if that one is the same.
#[inline(always)]
fn message_after(
    alloc: Global,
    written: &[(GrainId, Message)],
    before: Option<(&str, Node<'_>)>,
    method: &str,
    args: Node<'_>,
) -> Result<Message, AllocError>
    requires fits { FitsMessage (asks method.now (node_value args)) }
    requires last { IfSome before (λ call. EndsIn (asks call.0.now (node_value call.1)) written.now) }
    ensures { IfOk result (λ message. message ≡ asks method.now (node_value args.entry)) }
{
    match last_if_same(written, before, method, args) {
        Some(message) => Ok(message.clone()?),
        None => message_of(alloc, method, args),
    }
}

/// Each call that is sent, with the grain that it is sent to. Equal messages, one after another, share one block.
#[inline(always)]
fn sends_of(alloc: Global, sends: Vec<Send<'_>>) -> Result<Vec<(GrainId, Message)>, AllocError>
    requires { AllByRecursion (λ send. FitsMessage (asks send.method.now (node_value send.args))) sends.items }
    ensures { IfOk result (λ written. map sent written.items ≡ map send_shown sends.entry.items) }
{
    if sends.is_empty() {
        drop(sends);
        return Ok(Vec::new(alloc));
    }
    let mut written = Vec::new(alloc);
    let mut before = None;
    'sends: for Send {
        target,
        method,
        args,
    } in sends {
        let message = message_after(alloc, written.as_slice(), before, method, args)?;
        written.push((target, message))?;
        before = Some((method, args));
    }
    Ok(written)
}

/// The new state and the answer, if each is a whole number and nothing is sent.
#[inline(always)]
fn numbers_of(plan: &Plan<'_>) -> Option<(Option<i64>, i64)>
    ensures state { IfSome result (λ numbers. option_map node_value plan.now.state ≡ option_map integer numbers.0) }
    ensures outcome { IfSome result (λ numbers. outcome_shown plan.now.outcome ≡ Ok (integer numbers.1)) }
    ensures sends { IfSome result (λ numbers. plan.now.sends.items ≡ []) }
{
    if !plan.sends.is_empty() {
        return None;
    }
    let Ok(Node::Int(answer)) = plan.outcome else {
        return None;
    };
    match plan.state {
        Some(Node::Int(next)) => Some((Some(next), answer)),
        None => Some((None, answer)),
        Some(_) => None,
    }
}

/// The state of a number, if there is one.
#[inline(always)]
fn number_state(number: Option<i64>) -> Option<StateBytes>
    ensures { result ≡ option_map integer number }
{
    match number {
        Some(number) => Some(StateBytes::integer(number)),
        None => None,
    }
}

/// All that a plan holds. The new state is written into room for that many bytes at first.
#[inline(always)]
pub(crate) fn written(alloc: Global, room: usize, plan: Plan<'_>) -> Result<OwnedPlan, AllocError>
    requires { NodesFit plan }
    ensures { IfOk result (λ planned. (state : Tree) → planned_shown state planned ≡ plan_shown state plan.entry) }
{
    if let Some((next, answer)) = numbers_of(&plan) {
        return Ok(OwnedPlan {
            state: number_state(next),
            outcome: Ok(StateBytes::integer(answer)),
            store: plan.store,
            sends: Vec::new(alloc),
            keep: plan.keep,
        });
    }
    written_all(alloc, room, plan)
}

/// All that a plan holds. The new state is written into room for that many bytes at first.
#[inline(never)]
fn written_all(alloc: Global, room: usize, plan: Plan<'_>) -> Result<OwnedPlan, AllocError>
    requires { NodesFit plan }
    ensures { IfOk result (λ planned. (state : Tree) → planned_shown state planned ≡ plan_shown state plan.entry) }
{
    Ok(OwnedPlan {
        state: next_of(alloc, room, plan.state)?,
        outcome: outcome_of(alloc, plan.outcome)?,
        store: plan.store,
        sends: sends_of(alloc, plan.sends)?,
        keep: plan.keep,
    })
}
