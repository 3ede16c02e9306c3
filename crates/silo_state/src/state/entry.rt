//! How an activation comes to be ready.

ghost use Rattle.std.specs.Prelude.{◌≡◌, ◌≤◌, ◌+◌, ◌++◌, Ok, Err, Some, flat_map, length, vec_len, vec_capacity};
ghost use Rattle.std.specs.FinMap as map;
ghost use Rattle.silo_event.specs.declared.fault.Fault.TheVariants.{StorageFailed};
ghost use Rattle.silo_model.specs.Machine.{Entry};
ghost use Rattle.silo_model.specs.Calls.{reply_to};
ghost use Rattle.silo_event.specs.declared.step.Step.TheVariants as step;
ghost use Rattle.silo_state.specs.Moves.{Moves};

use crate::activations::Activations;
use crate::change;
use crate::reading::read_state;
use crate::state::SiloState;
use crate::telling::refuse_all;
use grain_id::GrainId;
use grain_logic::GrainLogic;
use grain_storage::{GrainStorage, StoreFault};
use silo_event::{Answer, Reply, StepFault};
use std::alloc::Global;

impl<S: GrainStorage, L: GrainLogic> SiloState<S, L> {
    /// A grain's entry that waits begins to load.
    pub fn activate(&mut self, grain: &GrainId) -> Answer
        ensures { Moves L.logic self.old (step.Activate grain.now) (Ok result) self.new }
    {
        self.activations.activate(grain)
    }

    /// A loading grain gets its row's content, or its kind's empty state. If the storage failed, each request of a
    /// client that waits gets a reply that says so, in order, and the grain's entry is dropped.
    ///
    /// # Errors
    ///
    /// Out of memory: nothing changed.
    pub fn load(
        &mut self,
        alloc: Global,
        grain: &GrainId,
        failed: bool,
    ) -> Result<Answer, StepFault>
        ensures { Moves L.logic self.old (step.Load grain.now failed) result self.new }
    {
        let Some(activation) = self.activations.get(grain) else {
            return Ok(Answer::NotNow);
        };
        if !change::is_loading(activation) {
            return Ok(Answer::NotNow);
        }
        let idle_after = change::none_waits(activation);
        self.replies.reserve(activation.mailbox.len())?;
        if failed {
            unload(&mut self.activations, &mut self.replies, grain);
            return Ok(Answer::Done);
        }
        self.activations.expect(grain, idle_after)?;
        match read_state(alloc, &mut self.storage, &self.logic, grain) {
            Ok((state, version)) => {
                self.activations.make_ready(grain, state, version);
                Ok(Answer::Done)
            }
            Err(StoreFault::Failed) => {
                unload(&mut self.activations, &mut self.replies, grain);
                Ok(Answer::Failed)
            }
            Err(StoreFault::Memory) => Err(StepFault::Memory),
            Err(StoreFault::Stale(_)) => unreachable!(),
            Err(StoreFault::Spent) => unreachable!(),
        }
    }
}

/// Takes the grain's activation out. Each request of a client that waits there gets the reply that the storage failed.
fn unload<L: GrainLogic>(
    activations: &mut Activations<L>,
    replies: &mut Vec<Reply>,
    grain: &GrainId,
)
    requires { (e : Entry) → map.get activations.old.entries grain.now ≡ Some e → length e.queue + vec_len replies.old ≤ vec_capacity
        replies.old }
    ensures gone { activations.new.entries ≡ map.remove activations.old.entries grain.now }
    ensures times { activations.new.times ≡ activations.old.times }
    ensures told { (e : Entry) → map.get activations.old.entries grain.now ≡ Some e
        → replies.new.items ≡ replies.old.items ++ flat_map (λ q.
        reply_to q.sender (Err StorageFailed)) e.queue }
{
    let Some(activation) = activations.remove(grain) else {
        return;
    };
    refuse_all(replies, activation.mailbox.into_waiting());
}
