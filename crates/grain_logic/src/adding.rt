//! A turn that adds a number to its state, by the state's bytes.

ghost use Rattle.std.specs.Prelude.{◌≡◌, None, IfOk, OnErr};
ghost use Rattle.request_codec.specs.Tree.{Tree};
ghost use Rattle.turn_arena.specs.NodeValue.{node_value};
ghost use Rattle.grain_logic.specs.Adding as adding;
ghost use Rattle.grain_logic.specs.Adding.{adds_number};
ghost use Rattle.grain_logic.specs.Finished.{planned_shown};

use crate::fault::MethodFault;
use crate::reading::state_in;
use crate::setting::plain;
use crate::turn::OwnedPlan;
use bumpalo::Bump;
use request_codec::StateBytes;
use std::alloc::{AllocError, Global};
use turn_arena::Node;

/// The number of a state. A state that is no whole number counts as 0.
#[inline(always)]
pub fn number_of(state: Node<'_>) -> i64
    ensures { result ≡ adding.number_of (node_value state.entry) }
{
    match state {
        Node::Int(number) => number,
        Node::Null => 0,
        Node::Bool(_) => 0,
        Node::Text(_) => 0,
        Node::List(_) => 0,
        Node::Map(_) => 0,
        Node::Bytes(_) => 0,
    }
}

/// The number of a state, by its bytes.
#[inline(always)]
pub(crate) fn number_in<'a>(bump: &'a Bump, state: &'a StateBytes) -> Result<i64, AllocError>
    ensures { IfOk result (λ number. number ≡ adding.number_of state.now) }
{
    Ok(number_of(state_in(bump, state)?))
}

/// The plan of a turn that adds to a number, as a counter's `add` does: the sum is the new state and the answer; or the
/// answer is the fault `OutOfRange`.
#[inline(always)]
pub(crate) fn added(alloc: Global, number: i64, by: i64) -> OwnedPlan
    ensures plan { (state : Tree) → adding.number_of state ≡ number → planned_shown state result ≡ adds_number state by }

    // A refused addition writes no new state, not even the same one again.
    ensures unwritten { OnErr result.outcome (result.state ≡ None) }
{
    match number.checked_add(by) {
        Some(sum) => plain(
            alloc,
            Some(StateBytes::integer(sum)),
            Ok(StateBytes::integer(sum)),
        ),
        None => plain(alloc, None, Err(MethodFault::OutOfRange)),
    }
}
