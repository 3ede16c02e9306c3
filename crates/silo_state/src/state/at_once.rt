//! A call that is served at once: it is accepted, and its turn begins and ends.

ghost use Rattle.std.specs.Prelude.{◌≡◌, IfOk, OnErr, true};
ghost use Rattle.silo_event.specs.declared.step.Step.TheVariants as step;
ghost use Rattle.grain_logic.specs.Logic.{asks_nothing, same};
ghost use Rattle.grain_logic.specs.Planned.{keep_of, storage_call};
ghost use Rattle.silo_state.specs.AtOnce.{ServesIf};
ghost use Rattle.silo_state.specs.inside.AtOnce.{IsPlain};

use crate::finding::asks_storage;
use crate::state::SiloState;
use crate::telling::told;
use bumpalo::Bump;
use grain_id::{Caller, GrainId};
use grain_logic::{GrainLogic, Keep, OwnedPlan};
use grain_storage::GrainStorage;
use request_codec::Message;
use silo_event::{Party, Reply};
use std::alloc::{AllocError, Global};

impl<S: GrainStorage, L: GrainLogic> SiloState<S, L> {
    /// Accepts a client's call, and begins and ends its turn, which runs in this arena. It does so only if the grain
    /// has nothing to do and the turn doesn't use the storage. Returns the turn's number. If no number is returned,
    /// nothing changed, and the call has to be taken step by step.
    ///
    /// # Errors
    ///
    /// Out of memory: nothing changed.
    pub fn serve(
        &mut self,
        alloc: Global,
        bump: &Bump,
        caller: &Caller,
        id: u64,
        grain: &GrainId,
        message: &Message,
    ) -> Result<Option<u64>, AllocError>
        ensures served { IfOk result (λ turn. ServesIf L.logic self.old (step.Call caller.now id grain.now message.now) grain.now turn
            self.new) }
        ensures unchanged { OnErr result (self.new ≡ self.old) }
    {
        if grain.tenant() != caller.tenant() {
            return Ok(None);
        }
        let Some(number) = self.accounts.next_number(caller.tenant()) else {
            return Ok(None);
        };
        let planned = self
            .activations
            .plan_idle(alloc, bump, &self.logic, grain, message)?;
        let Some(plan) = planned else {
            return Ok(None);
        };
        if !is_plain(&plan) {
            return Ok(None);
        }
        let recipient = Party::Client(caller.clone()?, id);
        self.replies.reserve(1)?;
        self.accounts
            .send_each(alloc, grain, plan.sends.as_slice())?;
        self.accounts.count_one(grain.tenant());
        self.activations.renew(grain, plan.state);
        self.replies.push_reserved(Reply {
            recipient,
            outcome: told(plan.outcome),
        });
        Ok(Some(number))
    }
}

/// Whether the plan neither uses the storage nor says anything of the activation.
fn is_plain(plan: &OwnedPlan) -> bool
    ensures { result ≡ true → IsPlain plan.now }
{
    if asks_storage(plan.store) {
        return false;
    }
    match plan.keep {
        Keep::Same => true,
        Keep::Rest => false,
        Keep::Stay(_) => false,
    }
}
