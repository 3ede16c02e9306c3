//! Whether a lane gives a step, and whose it is.

ghost use Rattle.std.specs.Prelude.{◌≡◌, Some, None, IfOk, if◌then◌else◌};
ghost use Rattle.lane_model.specs.Asking.{asker_of};
ghost use Rattle.line_service.specs.Asked.{giver_of};

use grain_id::Caller;
use silo_event::Step;
use std::alloc::AllocError;

/// Whether a lane gives the step: that of the client who asks, or nobody's if none does.
pub(crate) fn is_given(step: &Step) -> bool
    ensures { giver_of step.now ≡ (if result then Some (asker_of step.now) else None) }
{
    if step.has_failed() {
        return false;
    }
    match step {
        Step::Refuse { .. } => true,
        Step::Call { .. } => true,
        Step::Poke { .. } => true,
        Step::Status { .. } => true,
        Step::Deliver { .. } => false,
        Step::Activate { .. } => false,
        Step::Load { .. } => false,
        Step::Begin { .. } => false,
        Step::Store { .. } => false,
        Step::End { .. } => false,
        Step::Abandon { .. } => false,
        Step::Tick { .. } => true,
        Step::Sweep => true,
    }
}

/// The client who asks by the step, if one does.
pub(crate) fn asker_of(step: &Step) -> Result<Option<Caller>, AllocError>
    ensures { IfOk result (λ asker. asker ≡ asker_of step.now) }
{
    match step.asker() {
        Some(caller) => Ok(Some(caller.clone()?)),
        None => Ok(None),
    }
}
