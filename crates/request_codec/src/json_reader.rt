//! The value of JSON.

ghost use Rattle.std.specs.Prelude.{map};
ghost use Rattle.serde_json.specs.View.{view, items_view, members_view};
ghost use Rattle.request_codec.specs.Tree.{members_of, fields_of};
ghost use Rattle.request_codec.specs.Seen.{value_of, entry_of};
ghost use Rattle.request_codec.specs.Json.{value_of_json, members_of_json, fields_of_json};
ghost use Rattle.request_codec.specs.inside.Converted.{Gives};

use crate::datum::Datum;
use crate::fault::CodecFault;
use crate::json_hex::{bytes_of_json, hex_in};
use serde_json::{Map, Value};
use std::alloc::Global;
use std::collections::BTreeMap;

/// The value of the JSON: `NotWhole` or `NotHex` where some number isn't a whole number of 64 bits, or bytes aren't
/// well formed.
#[cycle(json_reading)]
pub fn datum_of_json(alloc: Global, value: &Value) -> Result<Datum, CodecFault>
    ensures { Gives value_of result (value_of_json (view value.now)) }
{
    match value {
        Value::Null => Ok(Datum::Null),
        Value::Bool(b) => Ok(Datum::Bool(*b)),
        Value::Number(number) => match number.as_i64() {
            Some(n) => Ok(Datum::Int(n)),
            None => Err(CodecFault::NotWhole),
        },
        Value::String(text) => Ok(Datum::Text(String::from_str(alloc, text.as_str())?)),
        Value::Array(items) => Ok(Datum::List(items_of_json(alloc, items.as_slice())?)),
        Value::Object(members) => match hex_in(members) {
            Some(beside) => Ok(Datum::Bytes(bytes_of_json(alloc, beside)?)),
            None => Ok(Datum::Map(map_of_json(alloc, members)?)),
        },
    }
}

#[cycle(json_reading)]
fn items_of_json(alloc: Global, items: &[Value]) -> Result<Vec<Datum>, CodecFault>
    ensures { Gives (λ v. members_of (map value_of v.items)) result (members_of_json (items_view items.now)) }
{
    let mut found = Vec::new(alloc);
    'items: for item in items {
        let datum = datum_of_json(alloc, item)?;
        found.push(datum)?;
    }
    Ok(found)
}

#[cycle(json_reading)]
fn map_of_json(
    alloc: Global,
    members: &Map<String, Value>,
) -> Result<BTreeMap<String, Datum>, CodecFault>
    ensures { Gives (λ m. fields_of (map entry_of m.entries)) result (fields_of_json (members_view members.now.entries)) }
{
    let mut found = BTreeMap::new(alloc);
    'members: for (name, member) in members.iter() {
        let datum = datum_of_json(alloc, member)?;
        let key = name.clone()?;
        drop(found.insert(key, datum)?);
    }
    Ok(found)
}
