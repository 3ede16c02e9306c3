//! The JSON of a value.

ghost use Rattle.std.specs.Prelude.{◌≡◌, IfOk, map};
ghost use Rattle.serde_json.specs.View.{view, items_view, members_view};
ghost use Rattle.request_codec.specs.Tree.{members_of, fields_of};
ghost use Rattle.request_codec.specs.Seen.{value_of, entry_of};
ghost use Rattle.request_codec.specs.Json.{json_of, items_of, json_members_of};

use crate::datum::Datum;
use crate::json_hex::hex_to_json;
use serde_json::{Map, Value};
use std::alloc::{AllocError, Global};
use std::collections::BTreeMap;

/// The JSON of the value.
#[cycle(json_writing)]
pub fn json_of_datum(alloc: Global, datum: &Datum) -> Result<Value, AllocError>
    ensures { IfOk result (λ v. view v ≡ json_of (value_of datum.now)) }
{
    match datum {
        Datum::Null => Ok(Value::Null),
        Datum::Bool(b) => Ok(Value::Bool(*b)),
        Datum::Int(n) => Ok(Value::from(*n)),
        Datum::Text(text) => Value::try_from_str(alloc, text.as_str()),
        Datum::List(items) => Ok(Value::Array(items_to_json(alloc, items.as_slice())?)),
        Datum::Map(fields) => Ok(Value::Object(fields_to_json(alloc, fields)?)),
        Datum::Bytes(bytes) => Ok(Value::Object(hex_to_json(alloc, bytes.as_slice())?)),
    }
}

#[cycle(json_writing)]
fn items_to_json(alloc: Global, items: &[Datum]) -> Result<Vec<Value>, AllocError>
    ensures { IfOk result (λ v. items_view v.items ≡ items_of (members_of (map value_of items.now))) }
{
    let mut values = Vec::with_capacity(alloc, items.len())?;
    'items: for item in items {
        values.push(json_of_datum(alloc, item)?)?;
    }
    Ok(values)
}

#[cycle(json_writing)]
fn fields_to_json(
    alloc: Global,
    fields: &BTreeMap<String, Datum>,
) -> Result<Map<String, Value>, AllocError>
    ensures { IfOk result (λ m. members_view m.entries ≡ json_members_of (fields_of (map entry_of fields.now.entries))) }
{
    let mut values = Map::new(alloc);
    'fields: for (name, field) in fields.iter() {
        let key = name.clone()?;
        drop(values.insert(key, json_of_datum(alloc, field)?)?);
    }
    Ok(values)
}
