//! Writing a value as a message or a state.

ghost use Rattle.request_codec.specs.Call.{asks};
ghost use Rattle.request_codec.specs.Limits.{message_limit, state_limit};
ghost use Rattle.request_codec.specs.Seen.{value_of};
ghost use Rattle.request_codec.specs.Answers.{Writes, spelled_length, message_length};

use crate::bytes::{message_bytes, state_bytes};
use crate::datum::Datum;
use crate::depth::is_within;
use crate::fault::CodecFault;
use crate::limits::{MAX_DEPTH, STATE_ROOM};
use crate::message::Message;
use crate::shown::Shown;
use crate::state::StateBytes;
use std::alloc::Global;

/// The message of a method and the value that is shown. `TooDeep` comes before `TooLong`.
pub fn message_of<V: Shown>(alloc: Global, method: &str, argument: V) -> Result<Message, CodecFault>
    requires { V.kept (V.value argument) }
    ensures { Writes result (asks method.now (V.value argument)) (V.value argument)
        (message_length method.now (V.value argument)) message_limit }
{
    if !is_within(argument, MAX_DEPTH) {
        return Err(CodecFault::TooDeep);
    }
    Ok(Message::from_spelling(message_bytes(alloc, method, argument)?)?)
}

/// The state of the value that is shown. `TooDeep` comes before `TooLong`.
pub fn state_of<V: Shown>(alloc: Global, value: V) -> Result<StateBytes, CodecFault>
    requires { V.kept (V.value value) }
    ensures { Writes result (V.value value) (V.value value) (spelled_length (V.value value)) state_limit }
{
    if !is_within(value, MAX_DEPTH) {
        return Err(CodecFault::TooDeep);
    }
    Ok(StateBytes::from_spelling(state_bytes(alloc, STATE_ROOM, value)?)?)
}

/// The message of a method and its argument. `TooDeep` comes before `TooLong`.
pub fn encode(alloc: Global, method: &str, argument: &Datum) -> Result<Message, CodecFault>
    ensures { Writes result (asks method.now (value_of argument.now)) (value_of argument.now)
        (message_length method.now (value_of argument.now)) message_limit }
{
    message_of(alloc, method, argument)
}

/// The state of a value. `TooDeep` comes before `TooLong`.
pub fn encode_state(alloc: Global, value: &Datum) -> Result<StateBytes, CodecFault>
    ensures { Writes result (value_of value.now) (value_of value.now) (spelled_length (value_of value.now)) state_limit }
{
    state_of(alloc, value)
}
