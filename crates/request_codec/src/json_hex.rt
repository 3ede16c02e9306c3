//! The JSON of bytes: an object whose only name is `$hex`, and their digits beside it.

ghost use Rattle.std.specs.Prelude.{◌≡◌, IfOk, option_map};
ghost use Rattle.serde_json.specs.Data as json;
ghost use Rattle.serde_json.specs.View.{view, members_view};
ghost use Rattle.request_codec.specs.Hex.{digits_of, bytes_of_digits};
ghost use Rattle.request_codec.specs.Json.{hex_name, hex_of, hex_bytes};
ghost use Rattle.request_codec.specs.inside.Converted.{Gives};

use crate::bytes::{are_digits, decode_digits, encode_digits};
use crate::fault::CodecFault;
use serde_json::{Map, Value};
use std::alloc::{AllocError, Global};

/// What stands beside `$hex`, if that is the only name.
pub fn hex_in(members: &Map<String, Value>) -> Option<&Value>
    ensures { option_map (λ beside. view beside.now) result ≡ hex_of (members_view members.now.entries) }
{
    if members.len() != 1 {
        return None;
    }
    match members.iter().next() {
        Some((name, beside)) => {
            if name.as_str() == "$hex" {
                return Some(beside);
            }
            None
        }
        None => None,
    }
}

/// The digits that the JSON is, if they are those of bytes.
pub fn digits_in(beside: &Value) -> Option<&str>
    ensures { option_map (λ digits. bytes_of_digits digits.now) result ≡ option_map Some (hex_bytes (view beside.now)) }
{
    match beside {
        Value::String(text) => {
            if are_digits(text.as_str()) {
                return Some(text.as_str());
            }
            None
        }
        Value::Null | Value::Bool(_) | Value::Number(_) | Value::Array(_) | Value::Object(_) => {
            None
        }
    }
}

/// The bytes whose digits the JSON is: `NotHex` if it is those of none.
pub fn bytes_of_json(alloc: Global, beside: &Value) -> Result<Vec<u8>, CodecFault>
    ensures { Gives (λ v. v.items) result (hex_bytes (view beside.now)) }
{
    match beside {
        Value::String(text) => decode_digits(alloc, text.as_str()),
        Value::Null | Value::Bool(_) | Value::Number(_) | Value::Array(_) | Value::Object(_) => {
            Err(CodecFault::NotHex)
        }
    }
}

/// The members of the JSON of bytes.
pub fn hex_to_json(alloc: Global, bytes: &[u8]) -> Result<Map<String, Value>, AllocError>
    ensures { IfOk result (λ m. members_view m.entries ≡ json.member hex_name (json.string (digits_of bytes.now)) json.no_members) }
{
    let digits = encode_digits(alloc, bytes)?;
    let name = String::from_str(alloc, "$hex")?;
    let mut members = Map::new(alloc);
    drop(members.insert(name, Value::String(digits))?);
    Ok(members)
}
