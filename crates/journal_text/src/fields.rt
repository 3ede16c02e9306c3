//! The fields of a line, read. Those that are exported stand in other texts too.

ghost use Rattle.std.specs.Prelude.{◌≡◌, ◌↔◌, ◌≤◌, ◌<◌, ◌^◌, IfOk, IsTrue, option_map, slice_index};
ghost use Rattle.grain_id.specs.Names.{is_client, is_grain};
ghost use Rattle.grain_id.specs.Words.{is_word};
ghost use Rattle.grain_id.specs.Reading.{cut_at};
ghost use Rattle.hex.specs.Hex.{IsBytes};
ghost use Rattle.request_codec.specs.Answers.{Reads as Decodes};
ghost use Rattle.silo_event.specs.declared.refusal.Refusal.TheVariants as refusals;
ghost use Rattle.journal_text.specs.Form.{HasMessage, HasState, is_code, message_bytes, message_in, state_bytes, state_in};
ghost use Rattle.journal_text.specs.inside.Answers.{Reads};
ghost use Rattle.journal_text.specs.Rules.{is_refusal};
ghost use Rattle.journal_text.specs.inside.Candidates.{only_if, wide_of, number_of, bytes_of, mark_of};
ghost use Rattle.journal_text.specs.inside.Candidates.{client_of, grain_of, message_of, state_of, refusal_of, word_of};

use crate::fault::LineFault;
use crate::form::Form;
use grain_id::{Caller, GrainId, IdFault, NameCache, Tenant};
use hex::FromHexError;
use request_codec::{CodecFault, Message, StateBytes, migrate_message, read_old_state};
use silo_event::Refusal;
use std::alloc::Global;

/// What stands before the first such ASCII character, and what follows it.
fn split(text: &str, at: char) -> Option<(&str, &str)>
    requires { at < 128 }
    ensures { option_map (λ parts. (parts.0.now, parts.1.now)) result ≡ cut_at at text.now }
{
    text.split_once(at)
}

/// What stands before the first such ASCII character, and what follows it: before a space a field, before a line feed a line.
///
/// # Errors
///
/// `NoForm` if the text has no such character.
pub fn cut(text: &str, at: char) -> Result<(&str, &str), LineFault>
    requires { at < 128 }
    ensures { Reads (λ parts. (parts.0.now, parts.1.now)) result (cut_at at text.now) }
{
    match split(text, at) {
        Some(parts) => Ok(parts),
        None => Err(LineFault::NoForm),
    }
}

/// Whether a storage call failed.
pub(crate) fn parse_mark(field: &str) -> Result<bool, LineFault>
    ensures { Reads (λ read. read) result (mark_of field.now) }
{
    match field {
        "ok" => Ok(false),
        "failed" => Ok(true),
        _ => Err(LineFault::NoForm),
    }
}

/// Why a line was refused, where the code is 14.
fn bad_bytes(form: Form) -> Result<Refusal, LineFault>
    ensures gives { Reads (λ read. read) result (only_if (is_code form 14) refusals.NotHex) }
    ensures is_refusal { IfOk result (λ refusal. IsTrue (is_refusal form refusal)) }
{
    match form {
        Form::First | Form::Second => Err(LineFault::NoForm),
        Form::Third => Ok(Refusal::NotHex),
    }
}

/// Why a line was refused.
pub(crate) fn parse_refusal(form: Form, field: &str) -> Result<Refusal, LineFault>
    ensures gives { Reads (λ read. read) result (refusal_of form field.now) }
    ensures is_refusal { IfOk result (λ refusal. IsTrue (is_refusal form refusal)) }
{
    match field {
        "11" => Ok(Refusal::TooLong),
        "12" => Ok(Refusal::TooDeep),
        "13" => Ok(Refusal::NotWhole),
        "14" => bad_bytes(form),
        "20" => Ok(Refusal::NotWellFormed),
        "63" => Ok(Refusal::TooLarge),
        _ => Err(LineFault::NoForm),
    }
}

/// The caller of that text.
pub(crate) fn parse_caller(
    alloc: Global,
    names: &mut NameCache,
    field: &str,
) -> Result<Caller, LineFault>
    ensures gives { Reads (λ read. read) result (client_of field.now) }
    ensures well_formed { IfOk result (λ caller. IsTrue (is_client caller)) }
{
    match names.read_caller(alloc, field) {
        Ok(caller) => Ok(caller),
        Err(IdFault::Memory) => Err(LineFault::Memory),
        Err(IdFault::Kind | IdFault::Tenant | IdFault::Name | IdFault::Client) => {
            Err(LineFault::NoForm)
        }
    }
}

/// The tenant of that name.
///
/// # Errors
///
/// `NoForm` if the text is no tenant's name, `Memory` if memory is refused.
pub fn parse_tenant_name(alloc: Global, field: &str) -> Result<Tenant, LineFault>
    ensures gives { Reads (λ read. read) result (word_of field.now) }
    ensures well_formed { IfOk result (λ tenant. IsTrue (is_word tenant)) }
{
    match Tenant::read(alloc, field) {
        Ok(tenant) => Ok(tenant),
        Err(IdFault::Memory) => Err(LineFault::Memory),
        Err(IdFault::Kind | IdFault::Tenant | IdFault::Name | IdFault::Client) => {
            Err(LineFault::NoForm)
        }
    }
}

/// The grain of that text.
///
/// # Errors
///
/// `NoForm` if it is the text of none, `Memory` if memory is refused.
pub fn parse_grain(alloc: Global, names: &mut NameCache, field: &str) -> Result<GrainId, LineFault>
    ensures gives { Reads (λ read. read) result (grain_of field.now) }
    ensures well_formed { IfOk result (λ grain. IsTrue (is_grain grain)) }
{
    match names.read_grain(alloc, field) {
        Ok(grain) => Ok(grain),
        Err(IdFault::Memory) => Err(LineFault::Memory),
        Err(IdFault::Kind | IdFault::Tenant | IdFault::Name | IdFault::Client) => {
            Err(LineFault::NoForm)
        }
    }
}

/// Whether the text begins with a digit above 0.
fn begins_above_zero(text: &str) -> bool
    ensures { IsTrue result ↔ ((49 ≤ slice_index text.now 0) × (slice_index text.now 0 ≤ 57)) }
{
    matches!(text.as_bytes(), [b'1'..=b'9', ..])
}

/// The number whose decimal text it is, below 2^64.
///
/// # Errors
///
/// `NoForm` if it is the text of none.
pub fn parse_u64(field: &str) -> Result<u64, LineFault>
    ensures { Reads (λ read. read) result (wide_of field.now) }
{
    if field == "0" {
        return Ok(0);
    }
    if !begins_above_zero(field) {
        return Err(LineFault::NoForm);
    }
    match field.parse::<u64>() {
        Ok(number) => Ok(number),
        Err(_) => Err(LineFault::NoForm),
    }
}

/// The greatest id, turn and moment.
const MAX_NUMBER: u64 = 9_223_372_036_854_775_807;

/// The id, the turn or the moment whose decimal text it is.
pub(crate) fn parse_number(field: &str) -> Result<u64, LineFault>
    ensures gives { Reads (λ read. read) result (number_of field.now) }
    ensures in_range { IfOk result (λ number. number < 2 ^ 63) }
{
    let number = parse_u64(field)?;
    if number <= MAX_NUMBER {
        Ok(number)
    } else {
        Err(LineFault::NoForm)
    }
}

/// The bytes of a hexadecimal text.
fn parse_bytes(alloc: Global, field: &str) -> Result<Vec<u8>, LineFault>
    ensures gives { Reads (λ read. read.items) result (bytes_of field.now) }
    ensures in_range { IfOk result (λ read. IsBytes read.items) }
{
    match hex::decode(alloc, field) {
        Ok(bytes) => Ok(bytes),
        Err(FromHexError::OutOfMemory) => Err(LineFault::Memory),
        Err(_) => Err(LineFault::NoForm),
    }
}

/// The message whose bytes these are in that form, with the first byte of the form of now.
fn decode_message(alloc: Global, form: Form, bytes: &[u8]) -> Result<Message, CodecFault>
    ensures gives { Decodes (λ read. read) result (message_in form bytes.now) }
    ensures exact { IfOk result (λ read. message_bytes form read ≡ bytes.now) }
{
    match form {
        Form::First | Form::Second => migrate_message(alloc, bytes),
        Form::Third => Message::read(alloc, bytes),
    }
}

/// The message whose bytes these are in that form.
fn read_message(alloc: Global, form: Form, bytes: &[u8]) -> Result<Message, LineFault>
    ensures gives { Reads (λ read. read) result (message_in form bytes.now) }
    ensures exact { IfOk result (λ read. message_bytes form read ≡ bytes.now) }
{
    match decode_message(alloc, form, bytes) {
        Ok(message) => Ok(message),
        Err(CodecFault::Memory) => Err(LineFault::Memory),
        Err(_) => Err(LineFault::NoForm),
    }
}

/// The message whose bytes in that form these are in hexadecimal.
///
/// # Errors
///
/// `NoForm` if they are the bytes of none, `Memory` if memory is refused.
pub fn parse_message(alloc: Global, form: Form, field: &str) -> Result<Message, LineFault>
    ensures gives { Reads (λ read. read) result (message_of form field.now) }
    ensures spelled { IfOk result (HasMessage form) }
{
    let bytes = parse_bytes(alloc, field)?;
    let message = read_message(alloc, form, &bytes)?;
    Ok(message)
}

/// The state whose bytes these are, in whose value bytes may stand if the form lets them.
fn decode_state(alloc: Global, form: Form, bytes: &[u8]) -> Result<StateBytes, CodecFault>
    ensures gives { Decodes (λ read. read) result (state_in form bytes.now) }
    ensures exact { IfOk result (λ read. state_bytes read ≡ bytes.now) }
{
    match form {
        Form::First | Form::Second => read_old_state(alloc, bytes),
        Form::Third => StateBytes::read(alloc, bytes),
    }
}

/// The state whose bytes these are in that form.
fn read_state(alloc: Global, form: Form, bytes: &[u8]) -> Result<StateBytes, LineFault>
    ensures gives { Reads (λ read. read) result (state_in form bytes.now) }
    ensures exact { IfOk result (λ read. state_bytes read ≡ bytes.now) }
{
    match decode_state(alloc, form, bytes) {
        Ok(state) => Ok(state),
        Err(CodecFault::Memory) => Err(LineFault::Memory),
        Err(_) => Err(LineFault::NoForm),
    }
}

/// The state whose bytes in that form these are in hexadecimal.
///
/// # Errors
///
/// `NoForm` if they are the bytes of none, `Memory` if memory is refused.
pub fn parse_state(alloc: Global, form: Form, field: &str) -> Result<StateBytes, LineFault>
    ensures gives { Reads (λ read. read) result (state_of form field.now) }
    ensures spelled { IfOk result (HasState form) }
{
    let bytes = parse_bytes(alloc, field)?;
    let state = read_state(alloc, form, &bytes)?;
    Ok(state)
}
