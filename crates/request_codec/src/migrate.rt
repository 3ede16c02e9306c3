//! Messages and states of the older form: the first byte of a message was another one, and no bytes were among the
//! values.

ghost use Rattle.std.specs.Prelude.{ℕ, ◌≡◌, List, None, Err, option_map, is_some, IsSome, IfOk};
ghost use Rattle.request_codec.specs.Reading.{value_at, members_at, fields_at};
ghost use Rattle.request_codec.specs.Call.{message_call, old_call, old_state};
ghost use Rattle.request_codec.specs.inside.Ends.{holding};
ghost use Rattle.request_codec.specs.inside.Plain.{old_call_behind, plain_alone};
ghost use Rattle.request_codec.specs.Tree.{Tree, holds_bytes, members_hold_bytes, fields_hold_bytes};
ghost use Rattle.request_codec.specs.Spelling.{SpellsOldMessage, SpellsOldState};
ghost use Rattle.request_codec.specs.Answers.{Reads};
ghost use Rattle.request_codec.specs.Written.{spelling, old_spelling};
ghost use Rattle.request_codec.specs.declared.fault.CodecFault.TheVariants as faults;

use crate::bytes::{Start, may_follow, start_of, text_of};
use crate::fault::CodecFault;
use crate::limits::{MAX_DEPTH, MAX_MESSAGE_BYTES, MAX_STATE_BYTES, MESSAGE_VERSION, OLD_VERSION};
use crate::message::Message;
use crate::state::StateBytes;
use std::alloc::{AllocError, Global};

/// Whether there are bytes in the value at the front, which is no deeper than the limit, and what follows it.
#[cycle(finding)]
fn bytes_found(bytes: &[u8], limit: u8) -> Option<(bool, &[u8])>
    ensures { option_map (λ x. (x.0, x.1.now)) result ≡ holding holds_bytes (value_at limit bytes.now) }
{
    if limit == 0 {
        return None;
    }
    let Some((start, rest)) = start_of(bytes) else {
        return None;
    };
    match start {
        Start::Null => Some((false, rest)),
        Start::Bool(_) => Some((false, rest)),
        Start::Int(_) => Some((false, rest)),
        Start::Text(_) => Some((false, rest)),
        Start::List(count) => members_found(rest, count, limit - 1),
        Start::Map(count) => fields_found(rest, count, limit - 1),
        Start::Bytes(_) => Some((true, rest)),
    }
}

#[cycle(finding)]
fn members_found(bytes: &[u8], count: u32, limit: u8) -> Option<(bool, &[u8])>
    ensures { option_map (λ x. (x.0, x.1.now)) result
        ≡ holding members_hold_bytes (members_at (value_at limit) count bytes.now) }
{
    let mut found = false;
    let mut rest = bytes;
    'items: for _ in 0..count {
        let Some((here, after)) = bytes_found(rest, limit) else {
            return None;
        };
        found |= here;
        rest = after;
    }
    Some((found, rest))
}

#[cycle(finding)]
fn fields_found(bytes: &[u8], count: u32, limit: u8) -> Option<(bool, &[u8])>
    ensures { option_map (λ x. (x.0, x.1.now)) result
        ≡ holding fields_hold_bytes (fields_at (value_at limit) count None bytes.now) }
{
    let mut found = false;
    let mut rest = bytes;
    let mut last = None;
    'fields: for _ in 0..count {
        let Some((name, behind)) = text_of(rest) else {
            return None;
        };
        if !may_follow(last, name) {
            return None;
        }
        let Some((here, after)) = bytes_found(behind, limit) else {
            return None;
        };
        found |= here;
        rest = after;
        last = Some(name);
    }
    Some((found, rest))
}

/// Whether all of the bytes spell one value that holds no bytes.
fn is_plain_value(bytes: &[u8]) -> bool
    ensures { result ≡ is_some (plain_alone bytes.now) }
{
    match bytes_found(bytes, MAX_DEPTH) {
        Some((false, [])) => true,
        Some((false, [_, ..])) => false,
        Some((true, _)) => false,
        None => false,
    }
}

/// Whether the first byte is that of the older form, and those after it are a method and one value that holds no bytes.
fn is_old_call(bytes: &[u8]) -> bool
    ensures { result ≡ is_some (old_call_behind bytes.now) }
{
    let [OLD_VERSION, behind @ ..] = bytes else {
        return false;
    };
    let Some((_, rest)) = text_of(behind) else {
        return false;
    };
    is_plain_value(rest)
}

/// Whether the bytes are a message's of the older form.
#[tactic(auto, unfolding(crate::specs::Call::versioned_call))]
fn is_old_message(bytes: &[u8]) -> bool
    ensures { result ≡ is_some (old_call bytes.now) }
{
    if bytes.len() > MAX_MESSAGE_BYTES {
        return false;
    }
    is_old_call(bytes)
}

/// The bytes of a message of the older form, with the first byte of a current message.
fn renewed(alloc: Global, bytes: &[u8]) -> Result<Vec<u8>, AllocError>
    requires { IsSome (old_call bytes.now) }
    ensures { IfOk result (λ renewed. message_call renewed.items ≡ old_call bytes.now) }
{
    let [_, behind @ ..] = bytes else {
        unreachable!();
    };
    let mut renewed = Vec::with_capacity(alloc, bytes.len())?;
    renewed.push(MESSAGE_VERSION)?;
    renewed.extend_from_slice(behind)?;
    Ok(renewed)
}

/// The message of the method and the value that bytes of the older form spell: its first byte is another one, and the
/// others are the same.
///
/// # Errors
///
/// `NotAMessage` where they spell none in that form, in which no bytes are among the values. `Memory` if memory was
/// refused.
pub fn migrate_message(alloc: Global, bytes: &[u8]) -> Result<Message, CodecFault>
    ensures reads { Reads (λ made. made) result (old_call bytes.now) }
    ensures spelled { IfOk result (λ made. SpellsOldMessage made.method made.argument bytes.now) }
    ensures exact { IfOk result (λ made. old_spelling made ≡ bytes.now) }
    ensures none { result ≡ Err faults.NotAMessage
        → (method : List ℕ) → (v : Tree) → SpellsOldMessage method v bytes.now → ⊥ }
{
    if !is_old_message(bytes) {
        return Err(CodecFault::NotAMessage);
    }
    Ok(Message::from_spelling(renewed(alloc, bytes)?)?)
}

/// Whether the bytes are a state's that holds no bytes.
#[tactic(auto, unfolding(crate::specs::Call::state_value))]
fn is_old_state(bytes: &[u8]) -> bool
    ensures { result ≡ is_some (old_state bytes.now) }
{
    if bytes.len() > MAX_STATE_BYTES {
        return false;
    }
    is_plain_value(bytes)
}

/// The state whose bytes these are, if its value holds no bytes, as none did before there were any. It keeps the very
/// bytes.
///
/// # Errors
///
/// `NotAMessage` where they spell no such state. `Memory` if memory was refused.
pub fn read_old_state(alloc: Global, bytes: &[u8]) -> Result<StateBytes, CodecFault>
    ensures reads { Reads (λ read. read) result (old_state bytes.now) }
    ensures spelled { IfOk result (λ read. SpellsOldState read bytes.now) }
    ensures exact { IfOk result (λ read. spelling read ≡ bytes.now) }
    ensures none { result ≡ Err faults.NotAMessage → (v : Tree) → SpellsOldState v bytes.now → ⊥ }
{
    if !is_old_state(bytes) {
        return Err(CodecFault::NotAMessage);
    }
    StateBytes::read(alloc, bytes)
}
