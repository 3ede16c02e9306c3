//! Which grain a step names.

ghost use Rattle.std.specs.Prelude.{◌≡◌};
ghost use Rattle.std.specs.Option.{option_copied};
ghost use Rattle.silo_event.specs.inside.Named.{grain_named};

use super::Step;
use grain_id::GrainId;

impl Step {
    /// The grain that the step names, if it names one: of a delivery the sender.
    pub fn grain(&self) -> Option<&GrainId>
        ensures { option_copied result ≡ grain_named self.now }
    {
        match self {
            Step::Refuse { .. } => None,
            Step::Call { grain, .. } => Some(grain),
            Step::Poke { grain, .. } => Some(grain),
            Step::Status { .. } => None,
            Step::Deliver { grain } => Some(grain),
            Step::Activate { grain } => Some(grain),
            Step::Load { grain, .. } => Some(grain),
            Step::Begin { grain } => Some(grain),
            Step::Store { grain, .. } => Some(grain),
            Step::End { grain, .. } => Some(grain),
            Step::Abandon { grain, .. } => Some(grain),
            Step::Tick { .. } => None,
            Step::Sweep => None,
        }
    }
}
