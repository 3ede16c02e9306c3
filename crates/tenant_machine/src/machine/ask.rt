//! What a client asks beside calls: a line that is refused, a poke of a row, and the status of its tenant.

ghost use Rattle.std.specs.Prelude.{◌≡◌, IfOk, OnErr};
ghost use Rattle.silo_event.specs.declared.step.Step.TheVariants as step;
ghost use Rattle.tenant_machine.specs.Machines.{StepAnswers};
ghost use Rattle.tenant_machine.specs.inside.Requests.{status_outcome, Overwrites};

use crate::machine::TenantMachine;
use grain_id::{Caller, GrainId};
use grain_logic::GrainLogic;
use grain_storage::{GrainStorage, MemoryStorage, StoreFault};
use request_codec::{DecimalRoom, StateBytes};
use silo_event::{Fault, Party, Refusal, Reply};
use silo_state::status::status_value;
use std::alloc::{AllocError, Global};

impl<L: GrainLogic> TenantMachine<L> {
    /// Replies to a client that its line made an invalid request, with the fault of `code`.
    ///
    /// # Errors
    ///
    /// Out of memory: nothing changed.
    pub(super) fn refuse(
        &mut self,
        caller: &Caller,
        id: u64,
        code: Refusal,
    ) -> Result<bool, AllocError>
        ensures { StepAnswers L.logic self.old (step.Refuse caller.now id code) result self.new }
    {
        let asker = Party::Client(caller.clone()?, id);
        self.tell(asker, Err(code.fault()))?;
        Ok(true)
    }

    /// Replies to a client with the number of its tenant's activations, the clock, and the number of the tenant's
    /// requests that were accepted.
    ///
    /// # Errors
    ///
    /// Out of memory: nothing changed.
    pub(super) fn status(
        &mut self,
        alloc: Global,
        caller: &Caller,
        id: u64,
    ) -> Result<bool, AllocError>
        ensures { StepAnswers L.logic self.old (step.Status caller.now id) result self.new }
    {
        let asker = Party::Client(caller.clone()?, id);
        let outcome = self.own_status(alloc)?;
        self.tell(asker, outcome)?;
        Ok(true)
    }

    /// The outcome in the reply to a client that asks how much its tenant has.
    fn own_status(&self, alloc: Global) -> Result<Result<StateBytes, Fault>, AllocError>
        ensures { IfOk result (λ outcome. outcome ≡ status_outcome self.now self.now.account) }
    {
        match &self.account {
            Some(account) => {
                let active = self.entries.len();
                Ok(Ok(status_value(alloc, active, self.clock.get(), account.count())?))
            }
            None => Ok(Err(Fault::UnknownTenant(self.tenant.clone()?))),
        }
    }

    /// A client overwrites a grain's row, and gets the row's version as the reply. No activation is touched.
    ///
    /// # Errors
    ///
    /// Out of memory: nothing changed.
    pub(super) fn poke(
        &mut self,
        alloc: Global,
        caller: &Caller,
        id: u64,
        grain: &GrainId,
        state: &StateBytes,
        failed: bool,
    ) -> Result<bool, AllocError>
        ensures { StepAnswers L.logic self.old (step.Poke failed caller.now id grain.now state.now) result self.new }
    {
        let asker = Party::Client(caller.clone()?, id);
        if let Some(why) = self.stopped(alloc, grain)? {
            self.tell(asker, Err(why))?;
            return Ok(true);
        }
        if failed {
            self.tell(asker, Err(Fault::StorageFailed))?;
            return Ok(true);
        }
        self.replies.reserve(1)?;
        let outcome = overwrite(alloc, &mut self.storage, grain, state)?;
        self.replies.push_reserved(Reply {
            recipient: asker,
            outcome,
        });
        Ok(true)
    }
}

/// Overwrites a row, and returns the outcome in the reply to its client. The room for the row's version in the reply is
/// taken before the storage is called.
fn overwrite(
    alloc: Global,
    storage: &mut MemoryStorage,
    grain: &GrainId,
    state: &StateBytes,
) -> Result<Result<StateBytes, Fault>, AllocError>
    ensures answers { IfOk result (λ outcome. Overwrites storage.old grain.now state.now outcome storage.new) }
    ensures unchanged { OnErr result (storage.new ≡ storage.old) }
{
    let content = state.clone()?;
    let named = grain.clone()?;
    let room = DecimalRoom::new(alloc)?;
    match storage.poke(alloc, grain, content) {
        Ok(version) => Ok(Ok(StateBytes::decimal_in(room, version))),
        Err(StoreFault::Spent) => Ok(Err(Fault::VersionsSpent(named))),
        Err(StoreFault::Memory) => Err(AllocError),
        Err(StoreFault::Failed) => unreachable!(),
        Err(StoreFault::Stale(_)) => unreachable!(),
    }
}
