//! Values, and the bytes that spell them: messages, states and JSON.
//!
//! A layer above may rely on this: a `Message` is seen as the method and the value that its bytes
//! spell, a `StateBytes` as its value, a `Datum` as the value that it shows; reading answers a value
//! exactly where something spells the bytes, and writing gives the spelling. What spells a value is
//! in `specs/Spelling.antt`, the values in `specs/Tree.antt`, the limits in `specs/Limits.antt`.
#![tactic(auto)]

mod builder;
pub mod bytes;
mod conversion;
mod datum;
mod datum_builder;
mod datum_shown;
mod depth;
mod fault;
mod json_hex;
mod json_message;
mod json_reader;
mod json_shown;
mod json_test;
mod json_writer;
pub mod laws;
pub mod limits;
mod message;
mod migrate;
mod reading;
mod shared;
mod shared_bytes;
mod shown;
mod small_bytes;
mod state;
mod value_end;
mod value_reader;
mod value_writer;
mod writing;

pub use builder::Builder;
pub use conversion::{from_json, to_json};
pub use datum::Datum;
pub use fault::CodecFault;
pub use json_message::encode_json;
pub use message::Message;
pub use migrate::{migrate_message, read_old_state};
pub use reading::{decode, decode_message, decode_state};
pub use shared::SharedState;
pub use shown::{Level, Shown};
pub use state::{DecimalRoom, StateBytes};
pub use value_reader::read_value;
pub use writing::{encode, encode_state, message_of, state_of};
