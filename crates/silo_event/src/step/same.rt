//! Steps that are the same but for the mark of a failed storage call.

ghost use Rattle.std.specs.Prelude.{◌≡◌, ◌↔◌, IsTrue};
ghost use Rattle.silo_event.specs.Failed.{as_failed};

use super::Step;
use grain_id::{Caller, GrainId};

/// Whether the same client asks under the same number, and of the same grain.
fn same_source(
    caller: &Caller,
    id: u64,
    grain: &GrainId,
    other_caller: &Caller,
    other_id: u64,
    other_grain: &GrainId,
) -> bool
    ensures { IsTrue result ↔ (caller.now ≡ other_caller.now) × (id ≡ other_id) × (grain.now ≡ other_grain.now) }
{
    caller == other_caller && id == other_id && grain == other_grain
}

/// Whether two steps are the same, if it is left aside whether their storage calls failed.
pub fn same_but_failed(step: &Step, other: &Step) -> bool
    ensures { IsTrue result ↔ (as_failed step.now ≡ as_failed other.now) }
{
    match (step, other) {
        (
            Step::Refuse { caller, id, code },
            Step::Refuse {
                caller: other_caller,
                id: other_id,
                code: other_code,
            },
        ) => caller == other_caller && id == other_id && code == other_code,
        (
            Step::Call {
                caller,
                id,
                grain,
                message,
            },
            Step::Call {
                caller: other_caller,
                id: other_id,
                grain: other_grain,
                message: other_message,
            },
        ) => *message == *other_message
            && same_source(caller, *id, grain, other_caller, *other_id, other_grain),
        (
            Step::Poke {
                caller,
                id,
                grain,
                state,
                ..
            },
            Step::Poke {
                caller: other_caller,
                id: other_id,
                grain: other_grain,
                state: other_state,
                ..
            },
        ) => *state.state() == *other_state.state()
            && same_source(caller, *id, grain, other_caller, *other_id, other_grain),
        (
            Step::Status { caller, id },
            Step::Status {
                caller: other_caller,
                id: other_id,
            },
        ) => caller == other_caller && id == other_id,
        (Step::Deliver { grain }, Step::Deliver { grain: other_grain }) => grain == other_grain,
        (Step::Activate { grain }, Step::Activate { grain: other_grain }) => grain == other_grain,
        (
            Step::Load { grain, .. },
            Step::Load {
                grain: other_grain,
                ..
            },
        ) => grain == other_grain,
        (Step::Begin { grain }, Step::Begin { grain: other_grain }) => grain == other_grain,
        (
            Step::Store { grain, turn, .. },
            Step::Store {
                grain: other_grain,
                turn: other_turn,
                ..
            },
        ) => grain == other_grain && turn == other_turn,
        (
            Step::End { grain, turn },
            Step::End {
                grain: other_grain,
                turn: other_turn,
            },
        ) => grain == other_grain && turn == other_turn,
        (
            Step::Abandon { grain, turn },
            Step::Abandon {
                grain: other_grain,
                turn: other_turn,
            },
        ) => grain == other_grain && turn == other_turn,
        (Step::Tick { now }, Step::Tick { now: other_now }) => now == other_now,
        (Step::Sweep, Step::Sweep) => true,
        // Steps of two kinds. A kind with no arm of its own would come here too, which the clause refuses.
        _ => false,
    }
}
