//! How what a grain sent is delivered.

ghost use Rattle.std.specs.Prelude.{◌≡◌};
ghost use Rattle.silo_event.specs.declared.step.Step.TheVariants as step;
ghost use Rattle.silo_state.specs.Moves.{Moves};

use crate::state::SiloState;
use grain_id::GrainId;
use grain_logic::GrainLogic;
use grain_storage::GrainStorage;
use silo_event::{Answer, Party, StepFault};
use std::alloc::Global;

impl<S: GrainStorage, L: GrainLogic> SiloState<S, L> {
    /// The first call that the grain sent goes to its target, in the grain's name. If it is refused, the grain gets a
    /// reply that says why.
    ///
    /// # Errors
    ///
    /// Out of memory: nothing changed.
    pub fn deliver(&mut self, alloc: Global, grain: &GrainId) -> Result<Answer, StepFault>
        ensures { Moves L.logic self.old (step.Deliver grain.now) result self.new }
    {
        let Some(account) = self.accounts.get(grain.tenant()) else {
            return Ok(Answer::NotNow);
        };
        let Some(sent) = account.first_from(grain) else {
            return Ok(Answer::NotNow);
        };
        let target = sent.target.clone()?;
        let message = sent.message.clone()?;
        let sender = Party::Grain(grain.clone()?);
        let asked = match self.refusal(alloc, &sender, &target)? {
            Some(why) => {
                drop(message);
                self.tell(sender, Err(why))
            }
            None => self.accept(alloc, sender, &target, message),
        };
        drop(target);
        asked?;
        self.accounts.take_first(grain);
        Ok(Answer::Done)
    }
}
