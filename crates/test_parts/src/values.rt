//! Names from texts; values, states and messages from JSON; bytes.

use grain_id::{Caller, GrainId, Kind, Tenant};
use request_codec::{Datum, Message, StateBytes, encode, encode_state, from_json};
use serde_json::Value;
use std::alloc::Global;
use std::test::Fail;

pub fn grain(alloc: Global, text: &str) -> Result<GrainId, Fail> {
    Ok(GrainId::read(alloc, text)?)
}

pub fn caller(alloc: Global, text: &str) -> Result<Caller, Fail> {
    Ok(Caller::read(alloc, text)?)
}

pub fn tenant(alloc: Global, text: &str) -> Result<Tenant, Fail> {
    Ok(Tenant::read(alloc, text)?)
}

pub fn kind(alloc: Global, text: &str) -> Result<Kind, Fail> {
    Ok(Kind::read(alloc, text)?)
}

/// A text and a number after it.
pub fn numbered(alloc: Global, before: &str, number: u64) -> Result<String, Fail> {
    Ok(format!(in alloc; "{before}{number}")?)
}

/// The JSON of a text.
pub fn parsed(alloc: Global, json: &str) -> Result<Value, Fail> {
    Ok(Value::from_str(alloc, json)?)
}

/// The value of JSON.
pub fn datum(alloc: Global, json: &str) -> Result<Datum, Fail> {
    let json = parsed(alloc, json)?;
    let value = from_json(alloc, &json);
    drop(json);
    Ok(value?)
}

/// The state of JSON.
pub fn state(alloc: Global, json: &str) -> Result<StateBytes, Fail> {
    let value = datum(alloc, json)?;
    let state = encode_state(alloc, &value);
    drop(value);
    Ok(state?)
}

/// The message of a method and JSON.
pub fn message(alloc: Global, method: &str, json: &str) -> Result<Message, Fail> {
    let value = datum(alloc, json)?;
    let message = encode(alloc, method, &value);
    drop(value);
    Ok(message?)
}

/// The state that bytes spell.
pub fn read_state(alloc: Global, bytes: &[u8]) -> Result<StateBytes, Fail> {
    Ok(StateBytes::read(alloc, bytes)?)
}

/// The bytes of a word: those of the letters after a `'`, or those that hex digits spell.
fn word_bytes(alloc: Global, word: &str) -> Result<Vec<u8>, Fail> {
    match word.strip_prefix('\'') {
        Some(letters) => Ok(Vec::from_slice(alloc, letters.as_bytes())?),
        None => Ok(hex::decode(alloc, word)?),
    }
}

fn put_bytes(bytes: &mut Vec<u8>, part: &[u8], times: u32) -> Result<(), Fail> {
    for _ in 0..times {
        bytes.extend_from_slice(part)?;
    }
    Ok(())
}

/// Adds the bytes that a word spells.
fn put_word(alloc: Global, bytes: &mut Vec<u8>, word: &str) -> Result<(), Fail> {
    let (part, times) = word.split_once('*').unwrap_or((word, "1"));
    put_bytes(bytes, &word_bytes(alloc, part)?, times.parse()?)
}

/// The bytes that words spell, with `*` and a number after a word that stands there so often.
pub fn spelled(alloc: Global, words: &str) -> Result<Vec<u8>, Fail> {
    let mut bytes = Vec::new(alloc);
    for word in words.split_whitespace() {
        put_word(alloc, &mut bytes, word)?;
    }
    Ok(bytes)
}
