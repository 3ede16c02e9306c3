//! Whether JSON has a value.

ghost use Rattle.std.specs.Prelude.{◌≡◌, ◌||◌};
ghost use Rattle.serde_json.specs.View.{view, items_view, members_view};
ghost use Rattle.request_codec.specs.Json.{is_not_whole, are_not_whole, fields_not_whole};
ghost use Rattle.request_codec.specs.Lenient.{is_not_hex, are_not_hex, fields_not_hex};
ghost use Rattle.request_codec.specs.inside.Converted.{TestsJson};

use crate::depth::is_within;
use crate::json_hex::{digits_in, hex_in};
use crate::limits::MAX_DEPTH;
use serde_json::{Map, Value};

/// What a test found: the worst of three faults, or none.
#[derive(Clone, Copy)]
pub enum JsonTest {
    Passed,
    /// Bytes aren't well formed.
    NotHex,
    /// Some number isn't a whole number of 64 bits.
    NotWhole,
    /// The value is deeper than 32.
    TooDeep,
}

/// What is wrong with some of the parts that were looked at.
#[derive(Clone, Copy)]
struct Flaws {
    /// A number isn't a whole number of 64 bits.
    not_whole: bool,
    /// Bytes aren't well formed.
    not_hex: bool,
}

/// Notes what is wrong with a part. What stands beside `$hex` is looked at for digits alone.
#[cycle(noting)]
fn note(flaws: &mut Flaws, value: &Value)
    ensures whole { flaws.new.not_whole ≡ (flaws.old.not_whole || is_not_whole (view value.now)) }
    ensures hex { flaws.new.not_hex ≡ (flaws.old.not_hex || is_not_hex (view value.now)) }
{
    match value {
        Value::Null => (),
        Value::Bool(_) => (),
        Value::Number(number) => {
            if number.as_i64().is_none() {
                flaws.not_whole = true;
            }
        }
        Value::String(_) => (),
        Value::Array(items) => note_items(flaws, items.as_slice()),
        Value::Object(members) => match hex_in(members) {
            Some(beside) => {
                if digits_in(beside).is_none() {
                    flaws.not_hex = true;
                }
            }
            None => note_members(flaws, members),
        },
    }
}

#[cycle(noting)]
fn note_items(flaws: &mut Flaws, items: &[Value])
    ensures whole { flaws.new.not_whole ≡ (flaws.old.not_whole || are_not_whole (items_view items.now)) }
    ensures hex { flaws.new.not_hex ≡ (flaws.old.not_hex || are_not_hex (items_view items.now)) }
{
    'items: for item in items {
        note(flaws, item);
    }
}

#[cycle(noting)]
fn note_members(flaws: &mut Flaws, members: &Map<String, Value>)
    ensures whole { flaws.new.not_whole ≡ (flaws.old.not_whole || fields_not_whole (members_view members.now.entries)) }
    ensures hex { flaws.new.not_hex ≡ (flaws.old.not_hex || fields_not_hex (members_view members.now.entries)) }
{
    'members: for (_name, member) in members.iter() {
        note(flaws, member);
    }
}

/// Tests the JSON. Its depth is tested first, and no deeper than the limit.
pub fn test_json(value: &Value) -> JsonTest
    ensures { TestsJson result (view value.now) }
{
    if !is_within(value, MAX_DEPTH) {
        return JsonTest::TooDeep;
    }
    let mut flaws = Flaws {
        not_whole: false,
        not_hex: false,
    };
    note(&mut flaws, value);
    if flaws.not_whole {
        return JsonTest::NotWhole;
    }
    if flaws.not_hex {
        return JsonTest::NotHex;
    }
    JsonTest::Passed
}
