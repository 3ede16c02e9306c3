//! Reading the value that bytes spell into an arena.

ghost use Rattle.std.specs.Prelude.{◌≡◌, ℕ, List, Err, IfOk};
ghost use Rattle.request_codec.specs.Limits.{message_version, depth_limit};
ghost use Rattle.request_codec.specs.Tree.{Tree};
ghost use Rattle.request_codec.specs.Spelling.{SpellsMessage, SpellsState};
ghost use Rattle.request_codec.specs.Reading.{value_at, if_ended};
ghost use Rattle.request_codec.specs.Call.{message_call, state_value, behind_version, asks};
ghost use Rattle.turn_arena.specs.inside.Answers.{ReadsIn};
ghost use Rattle.turn_arena.specs.Ascending.{MapsAscend};
ghost use Rattle.turn_arena.specs.NodeValue.{node_value};
ghost use Rattle.turn_arena.specs.declared.fault.ArenaFault.TheVariants as faults;

use crate::fault::ArenaFault;
use crate::node::Node;
use crate::node_reader::node_at;
use bumpalo::Bump;
use request_codec::bytes::text_of;
use request_codec::limits::{MAX_DEPTH, MAX_MESSAGE_BYTES, MAX_STATE_BYTES, MESSAGE_VERSION};

/// The one value that all of the bytes spell.
fn whole_node<'a>(bump: &'a Bump, bytes: &[u8]) -> Result<Node<'a>, ArenaFault>
    ensures { ReadsIn node_value result (if_ended (value_at depth_limit bytes.now)) }
{
    let (node, rest) = node_at(bump, bytes, MAX_DEPTH)?;
    match rest {
        [] => Ok(node),
        [_, ..] => Err(ArenaFault::NotAMessage),
    }
}

/// The method and the argument after the first byte of a message.
fn call_in<'a>(bump: &'a Bump, bytes: &[u8]) -> Result<(&'a str, Node<'a>), ArenaFault>
    ensures { ReadsIn (λ found. asks found.0.now (node_value found.1)) result (behind_version message_version bytes.now) }
{
    let [MESSAGE_VERSION, behind @ ..] = bytes else {
        return Err(ArenaFault::NotAMessage);
    };
    let Some((method, rest)) = text_of(behind) else {
        return Err(ArenaFault::NotAMessage);
    };
    let argument = whole_node(bump, rest)?;
    Ok((bump.try_alloc_str(method)?, argument))
}

/// The method and the argument that a message's bytes spell, copied into the arena. A message has at most
/// 65,536 bytes, and its argument is no deeper than 32. `NotAMessage` where the bytes spell no message,
/// `Memory` where the arena can't grow.
#[tactic(auto, unfolding(request_codec::specs::Call::versioned_call))]
pub fn decode_in<'a>(bump: &'a Bump, bytes: &[u8]) -> Result<(&'a str, Node<'a>), ArenaFault>
    ensures reads { ReadsIn (λ found. asks found.0.now (node_value found.1)) result (message_call bytes.now) }
    ensures spelled { IfOk result (λ found. SpellsMessage found.0.now (node_value found.1) bytes.now) }
    ensures ascend { IfOk result (λ found. MapsAscend (node_value found.1)) }
    ensures none { result ≡ Err faults.NotAMessage → (method : List ℕ) → (v : Tree) → SpellsMessage method v bytes.now → ⊥ }
{
    if bytes.len() > MAX_MESSAGE_BYTES {
        return Err(ArenaFault::NotAMessage);
    }
    call_in(bump, bytes)
}

/// The value that a state's bytes spell, copied into the arena. A state has at most 262,144 bytes, and its
/// value is no deeper than 32. `NotAMessage` where the bytes spell no state, `Memory` where the arena can't grow.
#[tactic(auto, unfolding(request_codec::specs::Call::state_value))]
pub fn node_in<'a>(bump: &'a Bump, bytes: &[u8]) -> Result<Node<'a>, ArenaFault>
    ensures reads { ReadsIn node_value result (state_value bytes.now) }
    ensures spelled { IfOk result (λ found. SpellsState (node_value found) bytes.now) }
    ensures ascend { IfOk result (λ found. MapsAscend (node_value found)) }
    ensures none { result ≡ Err faults.NotAMessage → (v : Tree) → SpellsState v bytes.now → ⊥ }
{
    if bytes.len() > MAX_STATE_BYTES {
        return Err(ArenaFault::NotAMessage);
    }
    whole_node(bump, bytes)
}
