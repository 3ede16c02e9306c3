//! Writing a tree as a message or a state.

ghost use Rattle.std.specs.Prelude.{◌≡◌, ◌≤◌, IfOk};
ghost use Rattle.request_codec.specs.Answers.{Writes, spelled_length, message_length};
ghost use Rattle.request_codec.specs.Call.{asks};
ghost use Rattle.request_codec.specs.Formed.{IsFormed};
ghost use Rattle.request_codec.specs.Limits.{depth_limit, message_limit, state_limit};
ghost use Rattle.request_codec.specs.Tree.{depth};
ghost use Rattle.turn_arena.specs.Ascending.{MapsAscend};
ghost use Rattle.turn_arena.specs.NodeValue.{node_value};

use crate::node::Node;
use crate::node_shown::ShownNode;
use request_codec::bytes::state_bytes;
use request_codec::{CodecFault, Message, StateBytes, message_of, state_of};
use std::alloc::{AllocError, Global};

/// The message of a method and its argument. `TooDeep` comes before `TooLong`.
pub fn encode_call(alloc: Global, method: &str, argument: Node<'_>) -> Result<Message, CodecFault>
    requires { MapsAscend (node_value argument) }
    ensures { Writes result (asks method.now (node_value argument.entry)) (node_value argument.entry)
        (message_length method.now (node_value argument.entry)) message_limit }
{
    message_of(alloc, method, ShownNode { node: argument })
}

/// The state of a value. `TooDeep` comes before `TooLong`.
pub fn encode_node(alloc: Global, node: Node<'_>) -> Result<StateBytes, CodecFault>
    requires { MapsAscend (node_value node) }
    ensures { Writes result (node_value node.entry) (node_value node.entry) (spelled_length (node_value node.entry)) state_limit }
{
    state_of(alloc, ShownNode { node })
}

/// The state of a value that is known to fit one, which is not tested again: `encode_node`'s, and the only error is
/// that memory was refused. A whole number takes none. Any other value is written into room for `room` bytes, which grows
/// if they are more: whoever knows about how long the state gets spares its writing to grow.
pub fn encode_formed(alloc: Global, room: usize, node: Node<'_>) -> Result<StateBytes, AllocError>
    requires formed { IsFormed (node_value node) }
    requires shallow { depth (node_value node) ≤ depth_limit }
    requires short { spelled_length (node_value node) ≤ state_limit }
    ensures { IfOk result (λ state. state ≡ node_value node.entry) }
{
    if let Node::Int(number) = node {
        return Ok(StateBytes::integer(number));
    }
    match state_bytes(alloc, room, ShownNode { node }) {
        Ok(bytes) => Ok(StateBytes::from_spelling(bytes)?),
        Err(CodecFault::Memory) => Err(AllocError),
        Err(CodecFault::TooLong) => unreachable!(),
        Err(CodecFault::TooDeep) => unreachable!(),
        Err(CodecFault::NotWhole) => unreachable!(),
        Err(CodecFault::NotHex) => unreachable!(),
        Err(CodecFault::NotAMessage) => unreachable!(),
    }
}
