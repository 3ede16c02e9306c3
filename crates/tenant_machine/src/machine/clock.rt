//! Steps of nobody: the clock goes on, and idle activations go.

ghost use Rattle.silo_event.specs.declared.step.Step.TheVariants as step;
ghost use Rattle.tenant_machine.specs.Machines.{StepDoes};

use crate::machine::TenantMachine;
use grain_logic::GrainLogic;
use silo_event::Moment;

impl<L: GrainLogic> TenantMachine<L> {
    /// The clock goes on to this moment, and never back.
    pub(super) fn tick(&mut self, now: Moment) -> bool
        ensures { StepDoes L.logic self.old (step.Tick now) result self.new }
    {
        if now.get() < self.clock.get() {
            return false;
        }
        self.clock = now;
        true
    }

    /// The activations that are due go, each by the age of its kind.
    pub(super) fn sweep(&mut self) -> bool
        ensures { StepDoes L.logic self.old step.Sweep result self.new }
    {
        self.entries.sweep(self.clock, self.age, &self.ages);
        true
    }
}
