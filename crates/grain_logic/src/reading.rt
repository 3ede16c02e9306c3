//! A turn's message and state, read into its arena.

ghost use Rattle.std.specs.Prelude.{◌≡◌, None, List, ℕ, ℤ, IfOk, IfSome};
ghost use Rattle.request_codec.specs.Call.{asks};
ghost use Rattle.request_codec.specs.Tree as tree;
ghost use Rattle.request_codec.specs.Tree.{integer, field, no_fields};
ghost use Rattle.turn_arena.specs.NodeValue.{node_value};
ghost use Rattle.grain_logic.specs.Laws.{FitsState, FitsMessage};

use bumpalo::Bump;
use request_codec::{Message, StateBytes};
use std::alloc::AllocError;
use turn_arena::{Node, formed_call_in, formed_in};

/// The method and the argument of a message, whose texts are lent from its bytes.
#[inline(always)]
pub(crate) fn asked_in<'a>(
    bump: &'a Bump,
    message: &'a Message,
) -> Result<(&'a str, Node<'a>), AllocError>
    ensures same { IfOk result (λ found. asks found.0.now (node_value found.1) ≡ message.now) }
    ensures fits { IfOk result (λ found. FitsMessage (asks found.0.now (node_value found.1))) }
{
    formed_call_in(bump, message)
}

/// The method, the name and the number of a message, if its argument is `{name: number}`.
#[inline(always)]
pub(crate) fn number_asked(message: &Message) -> Option<(&str, &str, i64)>
    ensures found { IfSome result
        (λ found. message.now ≡ asks found.0.now (tree.map (field found.1.now (integer found.2) no_fields))) }
    ensures none { result ≡ None → (method : List ℕ) → (name : List ℕ) → (number : ℤ)
        → message.now ≡ asks method (tree.map (field name (integer number) no_fields)) → ⊥ }
{
    turn_arena::number_asked(message)
}

/// The value of a state, whose texts are lent from its bytes.
#[inline(always)]
pub(crate) fn state_in<'a>(bump: &'a Bump, state: &'a StateBytes) -> Result<Node<'a>, AllocError>
    ensures same { IfOk result (λ node. node_value node ≡ state.now) }
    ensures fits { IfOk result (λ node. FitsState (node_value node)) }
{
    formed_in(bump, state)
}
