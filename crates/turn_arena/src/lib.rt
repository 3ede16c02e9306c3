//! Values as trees of borrowed nodes, whose parts lie in the arena of one turn.
//!
//! A layer above may rely on this: a `Node` shows the value that `specs/NodeValue.antt` gives of it; reading
//! answers a tree exactly where something spells the bytes, and the names of each of its maps ascend
//! strictly; the tree operations copy nodes and no tree; writing gives the spelling of the value.
//! What spells a value is in `request_codec`.
#![tactic(auto)]

mod fault;
mod fields;
mod formed;
mod node;
mod node_builder;
mod node_reader;
mod node_shown;
mod numbers;
mod passing;
mod reading;
mod setting;
mod trees;
mod writing;

pub use fault::ArenaFault;
pub use fields::{drop_in, put_in};
pub use formed::{formed_call_in, formed_in};
pub use node::{Field, Node};
pub use numbers::number_asked;
pub use reading::{decode_in, node_in};
pub use setting::put_spelled;
pub use trees::{bytes_in, list_in, map_in, text_in};
pub use writing::{encode_call, encode_formed, encode_node};
