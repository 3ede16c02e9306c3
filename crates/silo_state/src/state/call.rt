//! How a request is accepted or refused.

ghost use Rattle.std.specs.Prelude.{◌≡◌, ◌++◌, IfOk, OnOk, OnErr, None, Err};
ghost use Rattle.std.specs.FinMap as map;
ghost use Rattle.silo_event.specs.Owner.{tenant_of};
ghost use Rattle.silo_event.specs.declared.step.Step.TheVariants as step;
ghost use Rattle.silo_model.specs.Calls.{told};
ghost use Rattle.silo_state.specs.Moves.{Moves};
ghost use Rattle.silo_state.specs.Verdicts.{gated, verdict, Passes, Settles};
ghost use Rattle.silo_state.specs.inside.Requests.{with_told, with_accepted};

use crate::state::SiloState;
use grain_id::{Caller, GrainId, Tenant};
use grain_logic::GrainLogic;
use grain_storage::GrainStorage;
use request_codec::{Message, StateBytes};
use silo_event::{Answer, Fault, Party, Reply, StepFault};
use std::alloc::{AllocError, Global};
use tenant_accounts::{Account, LAST_NUMBER};
use tenant_gate::{GateRefusal, judge};
use turn_mailbox::Request;

impl<S: GrainStorage, L: GrainLogic> SiloState<S, L> {
    /// A client asks a grain for a method.
    ///
    /// # Errors
    ///
    /// Out of memory: nothing changed.
    #[inline(never)]
    pub fn call(
        &mut self,
        alloc: Global,
        caller: &Caller,
        id: u64,
        grain: &GrainId,
        message: &Message,
    ) -> Result<Answer, StepFault>
        ensures { Moves L.logic self.old (step.Call caller.now id grain.now message.now) result self.new }
    {
        let sender = Party::Client(caller.clone()?, id);
        self.accounts.look_for(caller.tenant());
        match self.refusal(alloc, &sender, grain)? {
            Some(why) => self.tell(sender, Err(why))?,
            None => self.accept(alloc, sender, grain, message.clone()?)?,
        }
        Ok(Answer::Done)
    }

    /// The account of the asker's tenant, if the tenant is known, the grain is its own and the grain's
    /// kind is known; and otherwise the first of these that isn't so.
    #[inline(always)]
    pub(super) fn passed(
        &self,
        alloc: Global,
        asker: &Party,
        grain: &GrainId,
    ) -> Result<Result<&Account, Fault>, AllocError>
        ensures { IfOk result (λ passed. Passes (gated L.logic self.now.whole (tenant_of asker.now) grain.now) passed) }
    {
        let account = match judge(self.accounts.get(asker.tenant()), asker.tenant(), grain) {
            Ok(account) => account,
            Err(GateRefusal::UnknownTenant) => {
                return Ok(Err(Fault::UnknownTenant(asker.to_tenant(alloc)?)));
            }
            Err(GateRefusal::AcrossTenants) => {
                return Ok(Err(Fault::AcrossTenants {
                    from: self.tenant_of(alloc, asker)?,
                    to: grain.to_tenant(alloc)?,
                }));
            }
        };
        if !self.logic.knows(grain.kind()) {
            return Ok(Err(Fault::UnknownKind(grain.to_kind(alloc)?)));
        }
        Ok(Ok(account))
    }

    /// The tenant of a client or a grain. That of one that is known takes no memory.
    #[inline(never)]
    fn tenant_of(&self, alloc: Global, asker: &Party) -> Result<Tenant, AllocError>
        ensures { IfOk result (λ tenant. tenant ≡ tenant_of asker.now) }
    {
        match self.accounts.name(asker.tenant()) {
            Some(name) => name.clone(),
            None => asker.to_tenant(alloc),
        }
    }

    /// Why a request is refused, if it is: it doesn't pass the gate, no number is left, the tenant may
    /// have no more activations, or no more requests may wait at the grain, the first of these.
    #[inline(always)]
    pub(super) fn refusal(
        &mut self,
        alloc: Global,
        sender: &Party,
        grain: &GrainId,
    ) -> Result<Option<Fault>, AllocError>
        ensures settles { IfOk result (λ why. Settles (verdict L.logic self.old.whole (tenant_of sender.now) grain.now) why) }
        ensures unchanged { self.new ≡ self.old }
    {
        let account = match self.passed(alloc, sender, grain)? {
            Ok(account) => account,
            Err(why) => return Ok(Some(why)),
        };
        if account.count() == LAST_NUMBER {
            return Ok(Some(Fault::NoNumber(self.tenant_of(alloc, sender)?)));
        }
        let limits = account.limits();
        let Some(waiting) = self.activations.waiting(grain) else {
            if self.activations.count(sender.tenant()) < limits.activations as usize {
                return Ok(None);
            }
            return Ok(Some(Fault::NoActivation(self.tenant_of(alloc, sender)?)));
        };
        if waiting < limits.mailbox as usize {
            return Ok(None);
        }
        Ok(Some(Fault::MailboxFull(grain.clone()?)))
    }

    /// One reply more.
    pub(super) fn tell(
        &mut self,
        recipient: Party,
        outcome: Result<StateBytes, Fault>,
    ) -> Result<(), AllocError>
        ensures told { OnOk result (self.new ≡ with_told self.old recipient outcome) }
        ensures unchanged { OnErr result (self.new ≡ self.old) }
    {
        self.replies.push(Reply { recipient, outcome })?;
        Ok(())
    }

    /// The request has its tenant's next number, and waits last at the grain.
    pub(super) fn accept(
        &mut self,
        alloc: Global,
        sender: Party,
        grain: &GrainId,
        message: Message,
    ) -> Result<(), AllocError>
        requires { Settles (verdict L.logic self.old.whole (tenant_of sender) grain.now) None }
        ensures accepted { OnOk result (self.new ≡ with_accepted self.old sender grain.now message
            (map.get self.old.whole.accounts (tenant_of
            sender))) }
        ensures unchanged { OnErr result (self.new ≡ self.old) }
    {
        let Some(account) = self.accounts.get_mut(grain.tenant()) else {
            unreachable!()
        };
        let request = Request {
            number: account.count() + 1,
            reading: self.logic.is_read(grain.kind(), message.method()),
            sender,
            message,
        };
        self.activations.wait(alloc, grain, request)?;
        account.count_one();
        Ok(())
    }
}
