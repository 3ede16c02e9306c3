//! Reading the value that bytes spell.

ghost use Rattle.std.specs.Prelude.{◌≡◌, ℕ, List, Err, IfOk, string_bytes};
ghost use Rattle.request_codec.specs.Limits.{message_version, depth_limit};
ghost use Rattle.request_codec.specs.Tree.{Tree};
ghost use Rattle.request_codec.specs.Spelling.{SpellsMessage};
ghost use Rattle.request_codec.specs.Reading.{value_at, if_ended};
ghost use Rattle.request_codec.specs.Call.{message_call, state_value, behind_version, asks};
ghost use Rattle.request_codec.specs.Seen.{value_of};
ghost use Rattle.request_codec.specs.Answers.{Reads};
ghost use Rattle.request_codec.specs.declared.fault.CodecFault.TheVariants as faults;

use crate::bytes::text_of;
use crate::datum::Datum;
use crate::datum_builder::DatumBuilder;
use crate::fault::CodecFault;
use crate::limits::{MAX_DEPTH, MAX_MESSAGE_BYTES, MAX_STATE_BYTES, MESSAGE_VERSION};
use crate::message::Message;
use crate::state::StateBytes;
use crate::value_reader::read_value;
use std::alloc::{AllocError, Global};

/// The one value that all of the bytes spell.
fn whole_datum(alloc: Global, bytes: &[u8]) -> Result<Datum, CodecFault>
    ensures { Reads value_of result (if_ended (value_at depth_limit bytes.now)) }
{
    let (datum, rest) = read_value(&DatumBuilder { alloc }, bytes, MAX_DEPTH)?;
    match rest {
        [] => Ok(datum),
        [_, ..] => Err(CodecFault::NotAMessage),
    }
}

/// The value that a state's bytes spell.
#[tactic(auto, unfolding(crate::specs::Call::state_value))]
pub fn state_datum(alloc: Global, bytes: &[u8]) -> Result<Datum, CodecFault>
    ensures { Reads value_of result (state_value bytes.now) }
{
    if bytes.len() > MAX_STATE_BYTES {
        return Err(CodecFault::NotAMessage);
    }
    whole_datum(alloc, bytes)
}

/// The method and the argument after the first byte of a message.
fn call_in(alloc: Global, bytes: &[u8]) -> Result<(String, Datum), CodecFault>
    ensures { Reads (λ found. asks (string_bytes found.0) (value_of found.1)) result (behind_version message_version bytes.now) }
{
    let [MESSAGE_VERSION, behind @ ..] = bytes else {
        return Err(CodecFault::NotAMessage);
    };
    let Some((method, rest)) = text_of(behind) else {
        return Err(CodecFault::NotAMessage);
    };
    let argument = whole_datum(alloc, rest)?;
    Ok((String::from_str(alloc, method)?, argument))
}

/// The method and the argument that a message's bytes spell.
#[tactic(auto, unfolding(crate::specs::Call::versioned_call))]
pub fn decode(alloc: Global, bytes: &[u8]) -> Result<(String, Datum), CodecFault>
    ensures reads { Reads (λ found. asks (string_bytes found.0) (value_of found.1)) result (message_call bytes.now) }
    ensures spelled { IfOk result (λ found. SpellsMessage (string_bytes found.0) (value_of found.1) bytes.now) }
    ensures none { result ≡ Err faults.NotAMessage → (method : List ℕ) → (v : Tree) → SpellsMessage method v bytes.now → ⊥ }
{
    if bytes.len() > MAX_MESSAGE_BYTES {
        return Err(CodecFault::NotAMessage);
    }
    call_in(alloc, bytes)
}

/// The value of a state.
pub fn decode_state(alloc: Global, state: &StateBytes) -> Result<Datum, AllocError>
    ensures { IfOk result (λ d. value_of d ≡ state.now) }
{
    match state_datum(alloc, state.bytes()) {
        Ok(datum) => Ok(datum),
        Err(CodecFault::Memory) => Err(AllocError),
        Err(_) => unreachable!(),
    }
}

/// The method and the argument of a message.
pub fn decode_message(alloc: Global, message: &Message) -> Result<(String, Datum), AllocError>
    ensures { IfOk result (λ found. asks (string_bytes found.0) (value_of found.1) ≡ message.now) }
{
    match decode(alloc, message.bytes()) {
        Ok(found) => Ok(found),
        Err(CodecFault::Memory) => Err(AllocError),
        Err(_) => unreachable!(),
    }
}
