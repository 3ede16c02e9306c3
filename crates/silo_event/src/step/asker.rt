//! Who asks by a step.

ghost use Rattle.std.specs.Prelude.{◌≡◌};
ghost use Rattle.std.specs.Option.{option_copied};
ghost use Rattle.silo_event.specs.Asker.{asker_of};

use super::Step;
use grain_id::Caller;

impl Step {
    /// The client that asks by the step, if one does.
    pub fn asker(&self) -> Option<&Caller>
        ensures { option_copied result ≡ asker_of self.now }
    {
        match self {
            Step::Refuse { caller, .. } => Some(caller),
            Step::Call { caller, .. } => Some(caller),
            Step::Poke { caller, .. } => Some(caller),
            Step::Status { caller, .. } => Some(caller),
            Step::Deliver { .. } => None,
            Step::Activate { .. } => None,
            Step::Load { .. } => None,
            Step::Begin { .. } => None,
            Step::Store { .. } => None,
            Step::End { .. } => None,
            Step::Abandon { .. } => None,
            Step::Tick { .. } => None,
            Step::Sweep => None,
        }
    }
}
