//! What a client asks beside calls: a line that is refused, a poke of a row, and the status of its tenant.

ghost use Rattle.std.specs.Prelude.{◌≡◌, OnErr, IfOk};
ghost use Rattle.silo_event.specs.declared.step.Step.TheVariants as step;
ghost use Rattle.silo_state.specs.Moves.{Moves};
ghost use Rattle.silo_state.specs.inside.Overwrites.{Overwrites};

use crate::state::SiloState;
use crate::status::status_value;
use grain_id::{Caller, GrainId};
use grain_logic::GrainLogic;
use grain_storage::{GrainStorage, StoreFault};
use request_codec::{DecimalRoom, StateBytes};
use silo_event::{Answer, Fault, Party, Refusal, Reply, StepFault};
use std::alloc::{AllocError, Global};

impl<S: GrainStorage, L: GrainLogic> SiloState<S, L> {
    /// Replies to a client that its line made an invalid request, with the fault of `code`.
    ///
    /// # Errors
    ///
    /// Out of memory: nothing changed.
    pub fn refuse(&mut self, caller: &Caller, id: u64, code: Refusal) -> Result<Answer, StepFault>
        ensures { Moves L.logic self.old (step.Refuse caller.now id code) result self.new }
    {
        let asker = Party::Client(caller.clone()?, id);
        self.tell(asker, Err(code.fault()))?;
        Ok(Answer::Done)
    }

    /// Replies to a client with the number of its tenant's activations, the clock, and the number of the tenant's
    /// requests that were accepted.
    ///
    /// # Errors
    ///
    /// Out of memory: nothing changed.
    pub fn status(&mut self, alloc: Global, caller: &Caller, id: u64) -> Result<Answer, StepFault>
        ensures { Moves L.logic self.old (step.Status caller.now id) result self.new }
    {
        let asker = Party::Client(caller.clone()?, id);
        let outcome = match self.accounts.get(caller.tenant()) {
            Some(account) => {
                let requests = account.count();
                let active = self.activations.count(caller.tenant());
                Ok(status_value(alloc, active, self.activations.clock().get(), requests)?)
            }
            None => Err(Fault::UnknownTenant(caller.to_tenant(alloc)?)),
        };
        self.tell(asker, outcome)?;
        Ok(Answer::Done)
    }

    /// A client overwrites a grain's row, and gets the row's version as the reply. No activation is touched.
    ///
    /// # Errors
    ///
    /// Out of memory: nothing changed.
    pub fn poke(
        &mut self,
        alloc: Global,
        caller: &Caller,
        id: u64,
        grain: &GrainId,
        state: &StateBytes,
        failed: bool,
    ) -> Result<Answer, StepFault>
        ensures { Moves L.logic self.old (step.Poke failed caller.now id grain.now state.now) result self.new }
    {
        let asker = Party::Client(caller.clone()?, id);
        if let Err(why) = self.passed(alloc, &asker, grain)? {
            self.tell(asker, Err(why))?;
            return Ok(Answer::Done);
        }
        if failed {
            self.tell(asker, Err(Fault::StorageFailed))?;
            return Ok(Answer::Done);
        }
        self.replies.reserve(1)?;
        let (answer, outcome) = overwrite(alloc, &mut self.storage, grain, state)?;
        self.replies.push_reserved(Reply {
            recipient: asker,
            outcome,
        });
        Ok(answer)
    }
}

/// Overwrites a row. Returns the answer of a step that does so, and the outcome in the reply to its client. The room
/// for the row's version in the reply is taken before the storage is called, and the storage is called once.
fn overwrite<S: GrainStorage>(
    alloc: Global,
    storage: &mut S,
    grain: &GrainId,
    state: &StateBytes,
) -> Result<(Answer, Result<StateBytes, Fault>), AllocError>
    ensures answers { IfOk result (λ told. Overwrites (S.rows storage.old) (S.failed storage.old) grain.now state.now told.0 told.1 (S.rows
        storage.new) (S.failed storage.new)) }
    ensures rows { OnErr result (S.rows storage.new ≡ S.rows storage.old) }
    ensures failures { OnErr result (S.failed storage.new ≡ S.failed storage.old) }
{
    let content = state.clone()?;
    let named = grain.clone()?;
    let room = DecimalRoom::new(alloc)?;
    match storage.poke(alloc, grain, content) {
        Ok(version) => Ok((Answer::Done, Ok(StateBytes::decimal_in(room, version)))),
        Err(StoreFault::Failed) => Ok((Answer::Failed, Err(Fault::StorageFailed))),
        Err(StoreFault::Spent) => Ok((Answer::Done, Err(Fault::VersionsSpent(named)))),
        Err(StoreFault::Memory) => Err(AllocError),
        Err(StoreFault::Stale(_)) => unreachable!(),
    }
}
