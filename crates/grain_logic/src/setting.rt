//! A turn that sets one field of its state, by the state's bytes.

ghost use Rattle.std.specs.Prelude.{◌≡◌, IfOk};
ghost use Rattle.std.specs.Option.{unwrap_or};
ghost use Rattle.request_codec.specs.Tree.{Tree};
ghost use Rattle.turn_arena.specs.NodeValue.{node_value};
ghost use Rattle.grain_logic.specs.Finished.{planned_shown};
ghost use Rattle.grain_logic.specs.Laws.{FitsState, FitsField};
ghost use Rattle.grain_logic.specs.Shared.{keeps};
ghost use Rattle.grain_logic.specs.Setting.{sets_field};

use crate::fault::MethodFault;
use crate::plan::{Keep, StoreCall};
use crate::turn::OwnedPlan;
use crate::writing::state_of;
use request_codec::StateBytes;
use std::alloc::{AllocError, Global};
use turn_arena::{Node, put_spelled};

/// The plan of a turn that sets the field of a name, as a sheet's `put` does: the state with the field set, and null;
/// or the fault `TooLarge`. The new state is written into room for `room` bytes at first.
pub(crate) fn set_planned(
    alloc: Global,
    room: usize,
    state: &StateBytes,
    name: &str,
    value: Node<'_>,
) -> Result<OwnedPlan, AllocError>
    requires state_fits { FitsState state.now }
    requires value_fits { FitsField (node_value value) }
    ensures { IfOk result (λ planned. planned_shown state.now planned ≡ sets_field state.now (name.now, node_value value.entry)) }
{
    match put_spelled(alloc, room, state, name, value)? {
        Some(made) => Ok(plain(alloc, Some(made), Ok(state_of(alloc, Node::Null)?))),
        None => Ok(plain(alloc, None, Err(MethodFault::TooLarge))),
    }
}

/// The plan of this state, if there is another one, and this answer: it asks nothing, sends nothing and says nothing.
#[inline(always)]
pub(crate) fn plain(
    alloc: Global,
    state: Option<StateBytes>,
    outcome: Result<StateBytes, MethodFault>,
) -> OwnedPlan
    ensures plan { (kept : Tree) → planned_shown kept result ≡ keeps (unwrap_or state kept) outcome }
    ensures state { result.state ≡ state }
    ensures outcome { result.outcome ≡ outcome }
{
    OwnedPlan {
        state,
        outcome,
        store: StoreCall::None,
        sends: Vec::new(alloc),
        keep: Keep::Same,
    }
}
