//! How what a grain sent is delivered.

ghost use Rattle.std.specs.Prelude.{◌≡◌};
ghost use Rattle.silo_event.specs.declared.step.Step.TheVariants as step;
ghost use Rattle.tenant_machine.specs.Machines.{StepAnswers};
ghost use Rattle.tenant_machine.specs.inside.Requests.{without_sent};

use crate::machine::TenantMachine;
use grain_id::GrainId;
use grain_logic::GrainLogic;
use silo_event::Party;
use std::alloc::{AllocError, Global};

impl<L: GrainLogic> TenantMachine<L> {
    /// The first call that the grain sent goes to its target, in the grain's name. If it is refused, the grain gets a
    /// reply that says why.
    ///
    /// # Errors
    ///
    /// Out of memory: nothing changed.
    pub(super) fn deliver(&mut self, alloc: Global, grain: &GrainId) -> Result<bool, AllocError>
        ensures { StepAnswers L.logic self.old (step.Deliver grain.now) result self.new }
    {
        let Some(account) = &self.account else {
            return Ok(false);
        };
        let Some(sent) = account.first_from(grain) else {
            return Ok(false);
        };
        let target = sent.target.clone()?;
        let message = sent.message.clone()?;
        let sender = Party::Grain(grain.clone()?);
        match self.refusal(alloc, &target)? {
            Some(why) => self.tell(sender, Err(why))?,
            None => self.accept(alloc, sender, &target, message)?,
        }
        self.take_sent(grain);
        Ok(true)
    }

    /// The first call that the grain sent is taken out. Takes no memory.
    fn take_sent(&mut self, grain: &GrainId)
        ensures { self.new ≡ without_sent self.old grain.now self.old.account }
    {
        if let Some(account) = &mut self.account {
            account.take_first(grain);
        }
    }
}
