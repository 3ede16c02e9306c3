//! Reading a value whose parts are put into an arena.

ghost use Rattle.request_codec.specs.Reading.{value_at};
ghost use Rattle.turn_arena.specs.inside.Answers.{ReadsIn};
ghost use Rattle.turn_arena.specs.NodeValue.{node_value};

use crate::fault::ArenaFault;
use crate::node::Node;
use crate::node_builder::NodeBuilder;
use bumpalo::Bump;
use request_codec::{CodecFault, read_value};

/// The value at the front, no deeper than the limit, and the bytes after it.
pub fn node_at<'a, 'b>(
    bump: &'a Bump,
    bytes: &'b [u8],
    limit: u8,
) -> Result<(Node<'a>, &'b [u8]), ArenaFault>
    ensures { ReadsIn (λ x. (node_value x.0, x.1.now)) result (value_at limit bytes.now) }
{
    match read_value(&NodeBuilder { bump }, bytes, limit) {
        Ok(found) => Ok(found),
        Err(CodecFault::NotAMessage) => Err(ArenaFault::NotAMessage),
        Err(CodecFault::Memory) => Err(ArenaFault::Memory),
        Err(_) => unreachable!(),
    }
}
