//! Which lane gives a step.

ghost use Rattle.std.specs.Prelude.{◌≡◌, Some};
ghost use Rattle.lane_model.specs.Lanes.{is_given_by, lane_of, may_give};

use grain_id::Caller;
use silo_event::Step;

/// Whether the lane of this client, or nobody's, gives the step.
pub fn is_given_by(from: &Option<Caller>, step: &Step) -> bool
    ensures { result ≡ is_given_by from.now (lane_of step.now) }
{
    match step {
        Step::Refuse { caller, .. } => is_from(from, caller),
        Step::Call { caller, .. } => is_from(from, caller),
        Step::Poke { caller, .. } => is_from(from, caller),
        Step::Status { caller, .. } => is_from(from, caller),
        Step::Deliver { .. } => false,
        Step::Activate { .. } => false,
        Step::Load { .. } => false,
        Step::Begin { .. } => false,
        Step::Store { .. } => false,
        Step::End { .. } => false,
        Step::Abandon { .. } => false,
        Step::Tick { .. } => from.is_none(),
        Step::Sweep => from.is_none(),
    }
}

/// Whether the lane is this client's.
fn is_from(from: &Option<Caller>, caller: &Caller) -> bool
    ensures { result ≡ is_given_by from.now (Some (Some caller.now)) }
{
    match from {
        Some(client) => caller == client,
        None => false,
    }
}

/// Whether the lane of this client, or nobody's, may give the step: it is the lane's own, and has no
/// mark of a failure.
pub fn may_give(from: &Option<Caller>, step: &Step) -> bool
    ensures { result ≡ may_give from.now step.now }
{
    is_given_by(from, step) && !step.has_failed()
}
