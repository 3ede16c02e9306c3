//! Steps of nobody: the clock goes on, and idle activations go.

ghost use Rattle.std.specs.Prelude.{◌≡◌, Ok};
ghost use Rattle.silo_event.specs.declared.step.Step.TheVariants as step;
ghost use Rattle.silo_state.specs.Moves.{Moves};

use crate::state::SiloState;
use grain_logic::GrainLogic;
use grain_storage::GrainStorage;
use silo_event::{Answer, Moment, StepFault};
use std::alloc::Global;

impl<S: GrainStorage, L: GrainLogic> SiloState<S, L> {
    /// The clock goes on to this moment, and never back.
    pub fn tick(&mut self, now: Moment) -> Answer
        ensures { Moves L.logic self.old (step.Tick now) (Ok result) self.new }
    {
        if now.get() < self.activations.clock().get() {
            return Answer::NotNow;
        }
        self.activations.advance(now);
        Answer::Done
    }

    /// The activations that are due go.
    ///
    /// # Errors
    ///
    /// Out of memory: nothing changed.
    pub fn sweep(&mut self, alloc: Global) -> Result<Answer, StepFault>
        ensures { Moves L.logic self.old step.Sweep result self.new }
    {
        self.activations.sweep(alloc)?;
        Ok(Answer::Done)
    }
}
