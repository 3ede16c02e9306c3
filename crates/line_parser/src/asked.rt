//! What a client requests: a call or a poke, or the step that refuses it.

ghost use Rattle.std.specs.Prelude.{◌≡◌, ◌≤◌, IfOk};
ghost use Rattle.serde_json.specs.View.{view};
ghost use Rattle.request_codec.specs.Limits.{depth_limit, state_limit};
ghost use Rattle.request_codec.specs.Tree.{depth};
ghost use Rattle.request_codec.specs.Seen.{value_of};
ghost use Rattle.request_codec.specs.Answers.{spelled_length};
ghost use Rattle.silo_event.specs.declared.refusal.Refusal.TheVariants as refusal;
ghost use Rattle.line_parser.specs.Form.{within_or, message_asked, state_asked, grain_asked, step_or_refusal, call_with, poke_with};

use grain_id::{Caller, GrainId, IdFault, NameCache};
use request_codec::{
    CodecFault, Datum, Message, SharedState, StateBytes, encode_json, encode_state, from_json,
};
use serde_json::Value;
use silo_event::{Refusal, Step};
use std::alloc::{AllocError, Global};

/// The message of a method and an argument in JSON, or the first limit that it breaks.
pub(crate) fn message_of_json(
    alloc: Global,
    method: &str,
    argument: &Value,
) -> Result<Result<Message, Refusal>, AllocError>
    ensures { IfOk result (λ asked. asked ≡ message_asked method.now (view argument.now)) }
{
    match encode_json(alloc, method, argument) {
        Ok(message) => Ok(Ok(message)),
        Err(CodecFault::TooDeep) => Ok(Err(Refusal::TooDeep)),
        Err(CodecFault::NotWhole) => Ok(Err(Refusal::NotWhole)),
        Err(CodecFault::NotHex) => Ok(Err(Refusal::NotHex)),
        Err(CodecFault::TooLong) => Ok(Err(Refusal::TooLong)),
        Err(CodecFault::Memory) => Err(AllocError),
        Err(CodecFault::NotAMessage) => unreachable!(),
    }
}

/// The state of a value that isn't too deep, unless it is too large.
fn write_state(alloc: Global, value: &Datum) -> Result<Result<StateBytes, Refusal>, AllocError>
    requires { depth (value_of value.now) ≤ depth_limit }
    ensures { IfOk result (λ asked. asked ≡ within_or refusal.TooLarge (spelled_length (value_of value.now)) state_limit
        (value_of value.now)) }
{
    match encode_state(alloc, value) {
        Ok(state) => Ok(Ok(state)),
        Err(CodecFault::TooLong) => Ok(Err(Refusal::TooLarge)),
        Err(CodecFault::Memory) => Err(AllocError),
        Err(CodecFault::TooDeep) => unreachable!(),
        Err(CodecFault::NotWhole | CodecFault::NotHex | CodecFault::NotAMessage) => unreachable!(),
    }
}

/// The state that the JSON stands for, or the first limit that it breaks.
pub(crate) fn state_of_json(
    alloc: Global,
    value: &Value,
) -> Result<Result<StateBytes, Refusal>, AllocError>
    ensures { IfOk result (λ asked. asked ≡ state_asked (view value.now)) }
{
    match from_json(alloc, value) {
        Ok(datum) => write_state(alloc, &datum),
        Err(CodecFault::TooDeep) => Ok(Err(Refusal::TooDeep)),
        Err(CodecFault::NotWhole) => Ok(Err(Refusal::NotWhole)),
        Err(CodecFault::NotHex) => Ok(Err(Refusal::NotHex)),
        Err(CodecFault::Memory) => Err(AllocError),
        Err(CodecFault::TooLong | CodecFault::NotAMessage) => unreachable!(),
    }
}

/// The grain of a text, unless the text is no grain's name.
fn read_grain(
    alloc: Global,
    names: &mut NameCache,
    text: &str,
) -> Result<Result<GrainId, Refusal>, AllocError>
    ensures { IfOk result (λ asked. asked ≡ grain_asked text.now) }
{
    match names.read_grain(alloc, text) {
        Ok(grain) => Ok(Ok(grain)),
        Err(IdFault::Memory) => Err(AllocError),
        Err(IdFault::Kind | IdFault::Tenant | IdFault::Name | IdFault::Client) => {
            Ok(Err(Refusal::NotWellFormed))
        }
    }
}

/// The call with a message, or the refusal of its grain.
pub(crate) fn call_with(
    alloc: Global,
    names: &mut NameCache,
    caller: Caller,
    id: u64,
    text: &str,
    message: Message,
) -> Result<Step, AllocError>
    ensures { IfOk result (λ step. step ≡ step_or_refusal caller id (call_with caller id text.now message)) }
{
    match read_grain(alloc, names, text)? {
        Ok(grain) => Ok(Step::Call {
            caller,
            id,
            grain,
            message,
        }),
        Err(code) => Ok(Step::Refuse { caller, id, code }),
    }
}

/// The poke with a state, or the refusal of its grain.
pub(crate) fn poke_with(
    alloc: Global,
    names: &mut NameCache,
    caller: Caller,
    id: u64,
    text: &str,
    state: StateBytes,
) -> Result<Step, AllocError>
    ensures { IfOk result (λ step. step ≡ step_or_refusal caller id (poke_with caller id text.now state)) }
{
    match read_grain(alloc, names, text)? {
        Ok(grain) => Ok(Step::Poke {
            failed: false,
            caller,
            id,
            grain,
            state: SharedState::new(alloc, state)?,
        }),
        Err(code) => Ok(Step::Refuse { caller, id, code }),
    }
}
