//! Values in replies to clients.

ghost use Rattle.std.specs.Prelude.{◌≡◌, ◌≤◌, IfOk};
ghost use Rattle.request_codec.specs.Answers.{spelled_length};
ghost use Rattle.request_codec.specs.Limits.{depth_limit, state_limit};
ghost use Rattle.request_codec.specs.Seen.{value_of};
ghost use Rattle.request_codec.specs.Tree.{depth};

use request_codec::{CodecFault, Datum, StateBytes, encode_state};
use std::alloc::{AllocError, Global};

/// The state of a value that keeps the limits of one.
///
/// # Errors
///
/// Out of memory.
pub fn state_of(alloc: Global, value: &Datum) -> Result<StateBytes, AllocError>
    requires depth { depth (value_of value.now) ≤ depth_limit }
    requires length { spelled_length (value_of value.now) ≤ state_limit }
    ensures { IfOk result (λ state. state ≡ value_of value.now) }
{
    match encode_state(alloc, value) {
        Ok(state) => Ok(state),
        Err(CodecFault::Memory) => Err(AllocError),
        Err(CodecFault::TooDeep) => unreachable!(),
        Err(CodecFault::TooLong) => unreachable!(),
        Err(CodecFault::NotWhole) => unreachable!(),
        Err(CodecFault::NotHex) => unreachable!(),
        Err(CodecFault::NotAMessage) => unreachable!(),
    }
}
