//! Values from JSON, and their JSON.

ghost use Rattle.std.specs.Prelude.{◌≡◌, IfOk};
ghost use Rattle.serde_json.specs.View.{view};
ghost use Rattle.request_codec.specs.Seen.{value_of};
ghost use Rattle.request_codec.specs.Json.{json_of};
ghost use Rattle.request_codec.specs.Answers.{Converts};

use crate::datum::Datum;
use crate::fault::CodecFault;
use crate::json_reader::datum_of_json;
use crate::json_test::{JsonTest, test_json};
use crate::json_writer::json_of_datum;
use serde_json::Value;
use std::alloc::{AllocError, Global};

/// The value of JSON, in which an object whose only name is `$hex` stands for bytes: beside it are their lower
/// case hexadecimal digits. `TooDeep` comes before `NotWhole`, and that before `NotHex`.
pub fn from_json(alloc: Global, value: &Value) -> Result<Datum, CodecFault>
    ensures { Converts value_of result (view value.now) }
{
    match test_json(value) {
        JsonTest::Passed => datum_of_json(alloc, value),
        JsonTest::NotHex => Err(CodecFault::NotHex),
        JsonTest::NotWhole => Err(CodecFault::NotWhole),
        JsonTest::TooDeep => Err(CodecFault::TooDeep),
    }
}

/// The JSON of a value. Bytes are an object whose only name is `$hex`; a map that has this name alone stays one too, so
/// that its JSON is read as bytes, or not at all.
pub fn to_json(alloc: Global, datum: &Datum) -> Result<Value, AllocError>
    ensures { IfOk result (λ v. view v ≡ json_of (value_of datum.now)) }
{
    json_of_datum(alloc, datum)
}
