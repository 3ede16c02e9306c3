//! The value that JSON shows, level by level. A number that isn't a whole number of 64 bits is shown as null, and so are
//! bytes that aren't well formed.

ghost use Rattle.std.specs.Prelude.{map, ⊤, string_cmp};
ghost use Rattle.std.specs.List.Sorted.{IsStrictlySortedBy};
ghost use Rattle.std.specs.Map.{keys_of};
ghost use Rattle.std.specs.Slice.Iter.{iter_rest};
ghost use Rattle.request_codec.specs.Lenient.{json_value, json_entry};

use crate::json_hex::{digits_in, hex_in};
use crate::shown::{Level, Shown};
use serde_json::Value;
use std::collections::btree_map;
use std::slice;

impl<'a> Shown for &'a Value {
    type Items = slice::Iter<'a, Value>;

    type Fields = btree_map::Iter<'a, String, Value>;

    type Field = (&'a String, &'a Value);

    ghost value = { λ json. json_value json.now };

    ghost listed = { λ items. map json_value (iter_rest items) };

    ghost named = { λ fields. map json_entry fields };

    ghost parted = { λ field. json_entry (field.0.now, field.1.now) };

    ghost kept = { λ _. ⊤ };

    ghost ascend = { λ fields. IsStrictlySortedBy string_cmp (keys_of fields) };

    #[tactic(auto, using(crate::proofs::JsonShown::json_levels))]
    fn level(&self) -> Level<'_, slice::Iter<'a, Value>, btree_map::Iter<'a, String, Value>> {
        match *self {
            Value::Null => Level::Null,
            Value::Bool(truth) => Level::Bool(*truth),
            Value::Number(number) => match number.as_i64() {
                Some(number) => Level::Int(number),
                None => Level::Null,
            },
            Value::String(text) => Level::Text(text.as_str()),
            Value::Array(items) => Level::List(items.len(), items.iter()),
            Value::Object(members) => match hex_in(members) {
                Some(beside) => match digits_in(beside) {
                    Some(digits) => Level::Hex(digits),
                    None => Level::Null,
                },
                None => Level::Map(members.len(), members.iter()),
            },
        }
    }

    fn next_item(items: &mut slice::Iter<'a, Value>) -> Option<&'a Value> {
        items.next()
    }

    fn next_field(
        fields: &mut btree_map::Iter<'a, String, Value>,
    ) -> Option<(&'a String, &'a Value)> {
        match fields.next() {
            Some(field) => Some(field),
            None => None,
        }
    }

    fn parts<'f>(field: &'f (&'a String, &'a Value)) -> (&'f str, &'a Value) {
        let (name, value) = *field;
        (name.as_str(), value)
    }
}
