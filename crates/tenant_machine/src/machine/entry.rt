//! How an activation comes to be ready, and its first waiting request an open turn.

ghost use Rattle.silo_event.specs.declared.step.Step.TheVariants as step;
ghost use Rattle.tenant_machine.specs.Machines.{StepAnswers, StepDoes};

use crate::closing::unload;
use crate::machine::TenantMachine;
use grain_id::GrainId;
use grain_logic::GrainLogic;
use grain_storage::StoreFault;
use silo_event::Answer;
use silo_state::change;
use silo_state::reading::read_state;
use std::alloc::{AllocError, Global};

impl<L: GrainLogic> TenantMachine<L> {
    /// A grain's entry that waits begins to load.
    pub(super) fn activate(&mut self, grain: &GrainId) -> bool
        ensures { StepDoes L.logic self.old (step.Activate grain.now) result self.new }
    {
        match self.entries.activate(grain) {
            Answer::Done => true,
            Answer::NotNow => false,
            Answer::Failed => unreachable!(),
        }
    }

    /// A loading grain gets its row's content, or its kind's empty state, and neither rests nor stays. If the storage
    /// failed, each request of a client that waits gets a reply that says so, in order, and the grain's entry is
    /// dropped.
    ///
    /// # Errors
    ///
    /// Out of memory: nothing changed.
    pub(super) fn load(
        &mut self,
        alloc: Global,
        grain: &GrainId,
        failed: bool,
    ) -> Result<bool, AllocError>
        ensures { StepAnswers L.logic self.old (step.Load grain.now failed) result self.new }
    {
        let Some(activation) = self.entries.get(grain) else {
            return Ok(false);
        };
        if !change::is_loading(activation) {
            return Ok(false);
        }
        if failed {
            self.replies.reserve(activation.mailbox.len())?;
            unload(&mut self.entries, &mut self.replies, grain);
            return Ok(true);
        }
        match read_state(alloc, &mut self.storage, &self.logic, grain) {
            Ok((state, version)) => {
                self.entries.make_ready(grain, state, version);
                Ok(true)
            }
            Err(StoreFault::Memory) => Err(AllocError),
            Err(StoreFault::Failed) => unreachable!(),
            Err(StoreFault::Stale(_)) => unreachable!(),
            Err(StoreFault::Spent) => unreachable!(),
        }
    }

    /// The first waiting request of a ready grain becomes an open turn.
    ///
    /// # Errors
    ///
    /// Out of memory: nothing changed.
    pub(super) fn open(&mut self, grain: &GrainId) -> Result<bool, AllocError>
        ensures { StepAnswers L.logic self.old (step.Begin grain.now) result self.new }
    {
        self.entries.open(grain)
    }
}
