//! Writing JSON as the argument of a message.

ghost use Rattle.serde_json.specs.View.{view};
ghost use Rattle.request_codec.specs.Answers.{WritesJson};

use crate::bytes::message_bytes;
use crate::fault::CodecFault;
use crate::json_test::{JsonTest, test_json};
use crate::message::Message;
use serde_json::Value;
use std::alloc::Global;

/// The message of a method and the value of JSON: what `encode` makes of what `from_json` gives.
/// `TooDeep` comes before `NotWhole`, that before `NotHex`, and that before `TooLong`.
pub fn encode_json(alloc: Global, method: &str, argument: &Value) -> Result<Message, CodecFault>
    ensures { WritesJson result method.now (view argument.now) }
{
    match test_json(argument) {
        JsonTest::Passed => {
            let bytes = message_bytes(alloc, method, argument)?;
            Ok(Message::from_spelling(bytes)?)
        }
        JsonTest::NotHex => Err(CodecFault::NotHex),
        JsonTest::NotWhole => Err(CodecFault::NotWhole),
        JsonTest::TooDeep => Err(CodecFault::TooDeep),
    }
}
