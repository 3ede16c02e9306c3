//! What the members of a line ask of a silo for a client.

ghost use Rattle.std.specs.Prelude.{◌≡◌, ◌<◌, ◌^◌, ◌∷◌, ◌++◌, length, IfOk, OnOk, MatchOption, None, Some};
ghost use Rattle.serde_json.specs.Data.{Data};
ghost use Rattle.request_codec.specs.Limits.{message_version};
ghost use Rattle.request_codec.specs.Written.{text_spelling};
ghost use Rattle.line_parser.specs.Form.{argument_at, message_asked, state_asked, call_of, poke_of, status_of};
ghost use Rattle.line_parser.specs.inside.LineMembers.{IsAsked};
ghost use Rattle.line_parser.specs.inside.Step.{IsValue, AreMembersOf, FindsIn, Finds};

use crate::asked::{call_with, message_of_json, poke_with, state_of_json};
use crate::line_members::{LineMembers, ValueIn};
use crate::messages::{Messages, message_at};
use crate::named::caller_of;
use grain_id::NameCache;
use request_codec::limits::{MAX_MESSAGE_BYTES, MAX_STATE_BYTES, MESSAGE_VERSION};
use request_codec::{CodecFault, Message, StateBytes};
use silo_event::{Refusal, Step};
use std::alloc::{AllocError, Global};

/// The argument of a call, and why it is refused, if that is known.
#[derive(Clone, Copy)]
struct Argument<'t> {
    refusal: Option<Refusal>,
    value: ValueIn<'t>,
}

/// The bytes of a message beside its method and its argument: its version, and how long the method is.
const MESSAGE_HEAD_BYTES: usize = 5;

/// Writes a message's bytes: those of a method, and those of its argument.
fn write_message(out: &mut Vec<u8>, method: &str, argument: &[u8]) -> Result<(), AllocError>
    requires { length method.now < 2 ^ 32 }
    ensures { OnOk result (out.new.items ≡ message_version ∷ (text_spelling method.now ++ argument.now)) }
{
    out.clear();
    out.push(MESSAGE_VERSION)?;
    out.extend_from_slice(&(method.len() as u32).to_be_bytes())?;
    out.extend_from_slice(method.as_bytes())?;
    out.extend_from_slice(argument)
}

/// The message of a method and the bytes of its argument, unless the argument is refused or the message
/// would be too long.
fn message_of_bytes(
    alloc: Global,
    messages: &mut Messages,
    method: &str,
    refusal: Option<Refusal>,
    argument: &[u8],
) -> Result<Result<Message, Refusal>, AllocError>
    requires { (json : Data) × IsAsked refusal json argument.now }
    ensures { IfOk result (λ asked. (json : Data) → IsAsked refusal json argument.now → message_asked method.now json ≡ asked) }
{
    if let Some(code) = refusal {
        return Ok(Err(code));
    }
    if method.len() + argument.len() > MAX_MESSAGE_BYTES - MESSAGE_HEAD_BYTES {
        return Ok(Err(Refusal::TooLong));
    }
    write_message(&mut messages.bytes, method, argument)?;
    let message = message_at(alloc, &mut messages.kept, messages.bytes.as_slice())?;
    Ok(Ok(message))
}

/// The message of a method and its argument, or why the call is refused.
fn read_message(
    alloc: Global,
    messages: &mut Messages,
    method: &str,
    argument: Argument<'_>,
) -> Result<Result<Message, Refusal>, AllocError>
    requires { (json : Data) × IsValue argument.value argument.refusal json }
    ensures { IfOk result (λ asked. (json : Data) → IsValue argument.entry.value argument.entry.refusal json
        → message_asked method.now json ≡ asked) }
{
    match argument.value {
        ValueIn::Bytes(bytes) => message_of_bytes(alloc, messages, method, argument.refusal, bytes),
        ValueIn::Json(value) => message_of_json(alloc, method, value),
    }
}

/// The state that the bytes spell, unless it is refused or they are too many.
fn state_of_bytes(
    alloc: Global,
    refusal: Option<Refusal>,
    bytes: &[u8],
) -> Result<Result<StateBytes, Refusal>, AllocError>
    requires { (json : Data) × IsAsked refusal json bytes.now }
    ensures { IfOk result (λ asked. (json : Data) → IsAsked refusal json bytes.now → state_asked json ≡ asked) }
{
    if let Some(code) = refusal {
        return Ok(Err(code));
    }
    if bytes.len() > MAX_STATE_BYTES {
        return Ok(Err(Refusal::TooLarge));
    }
    match StateBytes::read(alloc, bytes) {
        Ok(state) => Ok(Ok(state)),
        Err(CodecFault::Memory) => Err(AllocError),
        Err(CodecFault::NotAMessage) => unreachable!(),
        Err(CodecFault::TooDeep | CodecFault::TooLong) => unreachable!(),
        Err(CodecFault::NotWhole | CodecFault::NotHex) => unreachable!(),
    }
}

/// The state of a value, or why the poke is refused.
fn read_state(
    alloc: Global,
    refusal: Option<Refusal>,
    value: ValueIn<'_>,
) -> Result<Result<StateBytes, Refusal>, AllocError>
    requires { (json : Data) × IsValue value refusal json }
    ensures { IfOk result (λ asked. (json : Data) → IsValue value.entry refusal json → state_asked json ≡ asked) }
{
    match value {
        ValueIn::Bytes(bytes) => state_of_bytes(alloc, refusal, bytes),
        ValueIn::Json(value) => state_of_json(alloc, value),
    }
}

/// The argument of a call: null if it is left out; none if the members are none of a call.
#[inline(always)]
fn argument_of<'t>(members: &LineMembers<'_>, value: ValueIn<'t>) -> Option<Argument<'t>>
    ensures { MatchOption result (FindsIn members.now value.entry argument_at None)
        (λ argument. (d : Data) → AreMembersOf d members.now value.entry
        → (json : Data) × (argument_at d ≡ Some json) × IsValue argument.value argument.refusal json) }
{
    if members.count == 5 {
        return Some(Argument {
            refusal: None,
            value: ValueIn::Bytes(&[0]),
        });
    }
    if members.count == 6 && members.args {
        return Some(Argument {
            refusal: members.refusal,
            value,
        });
    }
    None
}

/// The call, if the members are those of a call; it is refused if its argument is, its message is too
/// long, or its grain isn't well formed.
#[inline(always)]
pub(crate) fn call_from(
    alloc: Global,
    names: &mut NameCache,
    messages: &mut Messages,
    members: &LineMembers<'_>,
    value: ValueIn<'_>,
) -> Result<Option<Step>, AllocError>
    requires { (d : Data) × AreMembersOf d members.now value }
    ensures { IfOk result (λ step. FindsIn members.now value.entry call_of step) }
{
    let Some(argument) = argument_of(members, value) else {
        return Ok(None);
    };
    let Some(caller) = caller_of(alloc, names, members)? else {
        return Ok(None);
    };
    let Some(id) = members.id else {
        return Ok(None);
    };
    let Some(grain) = members.grain else {
        return Ok(None);
    };
    let Some(method) = members.method else {
        return Ok(None);
    };
    match read_message(alloc, messages, method, argument)? {
        Ok(message) => {
            let step = call_with(alloc, names, caller, id, grain, message)?;
            Ok(Some(step))
        }
        Err(code) => Ok(Some(Step::Refuse { caller, id, code })),
    }
}

/// The poke, if the members are those of a poke; it is refused if its state is, or is too large, or its
/// grain isn't well formed.
#[inline(always)]
pub(crate) fn poke_from(
    alloc: Global,
    names: &mut NameCache,
    members: &LineMembers<'_>,
    value: ValueIn<'_>,
) -> Result<Option<Step>, AllocError>
    requires { (d : Data) × AreMembersOf d members.now value }
    ensures { IfOk result (λ step. FindsIn members.now value.entry poke_of step) }
{
    if members.count != 5 {
        return Ok(None);
    }
    let Some(caller) = caller_of(alloc, names, members)? else {
        return Ok(None);
    };
    let Some(id) = members.id else {
        return Ok(None);
    };
    let Some(grain) = members.grain else {
        return Ok(None);
    };
    if !members.state {
        return Ok(None);
    }
    match read_state(alloc, members.refusal, value)? {
        Ok(state) => {
            let step = poke_with(alloc, names, caller, id, grain, state)?;
            Ok(Some(step))
        }
        Err(code) => Ok(Some(Step::Refuse { caller, id, code })),
    }
}

/// The question for a tenant's status, if the members are those of one.
#[inline(always)]
pub(crate) fn status_from(
    alloc: Global,
    names: &mut NameCache,
    members: &LineMembers<'_>,
) -> Result<Option<Step>, AllocError>
    ensures { IfOk result (λ step. Finds members.now status_of step) }
{
    if members.count != 3 {
        return Ok(None);
    }
    let Some(caller) = caller_of(alloc, names, members)? else {
        return Ok(None);
    };
    let Some(id) = members.id else {
        return Ok(None);
    };
    Ok(Some(Step::Status { caller, id }))
}
