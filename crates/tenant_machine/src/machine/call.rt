//! How a request is accepted or refused.

ghost use Rattle.std.specs.Prelude.{◌≡◌, IfOk, OnOk, OnErr, None};
ghost use Rattle.silo_event.specs.declared.step.Step.TheVariants as step;
ghost use Rattle.silo_model.specs.Calls.{room};
ghost use Rattle.silo_state.specs.Verdicts.{Settles};
ghost use Rattle.std.specs.FinMap as map;
ghost use Rattle.tenant_machine.specs.Machines.{StepAnswers};
ghost use Rattle.tenant_machine.specs.inside.Requests.{gated, verdict, seen_at, with_told, with_accepted};

use crate::account::Account;
use crate::machine::TenantMachine;
use grain_id::{Caller, GrainId};
use grain_logic::GrainLogic;
use request_codec::{Message, StateBytes};
use silo_event::{Fault, Party, Reply};
use std::alloc::{AllocError, Global};
use turn_mailbox::Request;

/// The last number that a request may have.
const LAST_NUMBER: u64 = i64::MAX as u64;

impl<L: GrainLogic> TenantMachine<L> {
    /// A client asks a grain for a method.
    ///
    /// # Errors
    ///
    /// Out of memory: nothing changed.
    pub(super) fn call(
        &mut self,
        alloc: Global,
        caller: &Caller,
        id: u64,
        grain: &GrainId,
        message: &Message,
    ) -> Result<bool, AllocError>
        ensures { StepAnswers L.logic self.old (step.Call caller.now id grain.now message.now) result self.new }
    {
        let sender = Party::Client(caller.clone()?, id);
        match self.refusal(alloc, grain)? {
            Some(why) => self.tell(sender, Err(why))?,
            None => self.accept(alloc, sender, grain, message.clone()?)?,
        }
        Ok(true)
    }

    /// Why a request doesn't pass the gate, if it doesn't: the tenant isn't known, the grain isn't its
    /// own, or the grain's kind isn't known, the first of these.
    pub(super) fn stopped(
        &self,
        alloc: Global,
        grain: &GrainId,
    ) -> Result<Option<Fault>, AllocError>
        ensures { IfOk result (λ why. Settles (gated L.logic self.now grain.now) why) }
    {
        let Some(_known) = &self.account else {
            return Ok(Some(Fault::UnknownTenant(self.tenant.clone()?)));
        };
        if grain.tenant() != self.tenant.text() {
            return Ok(Some(Fault::AcrossTenants {
                from: self.tenant.clone()?,
                to: grain.to_tenant(alloc)?,
            }));
        }
        if !self.logic.knows(grain.kind()) {
            return Ok(Some(Fault::UnknownKind(grain.to_kind(alloc)?)));
        }
        Ok(None)
    }

    /// Why a request is refused, if it is: it doesn't pass the gate, no number is left, the tenant may
    /// have no more activations, or no more requests may wait at the grain, the first of these.
    pub(super) fn refusal(
        &self,
        alloc: Global,
        grain: &GrainId,
    ) -> Result<Option<Fault>, AllocError>
        ensures { IfOk result (λ why. Settles (verdict L.logic self.now grain.now) why) }
    {
        if let Some(why) = self.stopped(alloc, grain)? {
            return Ok(Some(why));
        }
        let Some(account) = &self.account else {
            unreachable!()
        };
        if account.count() == LAST_NUMBER {
            return Ok(Some(Fault::NoNumber(self.tenant.clone()?)));
        }
        self.no_room(account, grain)
    }

    /// Why there is no room for one more request at the grain, if there is none.
    fn no_room(&self, account: &Account, grain: &GrainId) -> Result<Option<Fault>, AllocError>
        ensures { IfOk result (λ why. Settles (room (seen_at self.now grain.now) account.now grain.now
            (map.get self.now.entries grain.now)) why) }
    {
        let limits = account.limits();
        let Some(activation) = self.entries.get(grain) else {
            if self.entries.len() < limits.activations as usize {
                return Ok(None);
            }
            return Ok(Some(Fault::NoActivation(self.tenant.clone()?)));
        };
        if activation.mailbox.len() < limits.mailbox as usize {
            return Ok(None);
        }
        Ok(Some(Fault::MailboxFull(grain.clone()?)))
    }

    /// One reply more.
    pub(super) fn tell(
        &mut self,
        recipient: Party,
        outcome: Result<StateBytes, Fault>,
    ) -> Result<(), AllocError>
        ensures told { OnOk result (self.new ≡ with_told self.old recipient outcome) }
        ensures unchanged { OnErr result (self.new ≡ self.old) }
    {
        self.replies.push(Reply { recipient, outcome })?;
        Ok(())
    }

    /// The request has its tenant's next number, and waits last at the grain.
    pub(super) fn accept(
        &mut self,
        alloc: Global,
        sender: Party,
        grain: &GrainId,
        message: Message,
    ) -> Result<(), AllocError>
        requires { Settles (verdict L.logic self.old grain.now) None }
        ensures accepted { OnOk result (self.new ≡ with_accepted self.old sender grain.now message self.old.account) }
        ensures unchanged { OnErr result (self.new ≡ self.old) }
    {
        let Some(account) = &mut self.account else {
            unreachable!()
        };
        let request = Request {
            number: account.count() + 1,
            reading: self.logic.is_read(grain.kind(), message.method()),
            sender,
            message,
        };
        self.entries.wait(alloc, grain, request, self.clock)?;
        account.count_one();
        Ok(())
    }
}
