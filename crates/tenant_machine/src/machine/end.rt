//! How a turn that doesn't use the storage is closed.

ghost use Rattle.std.specs.Prelude.{◌≡◌, OnOk, OnErr};
ghost use Rattle.std.specs.FinMap as map;
ghost use Rattle.silo_event.specs.declared.step.Step.TheVariants as step;
ghost use Rattle.silo_model.specs.Effect.{change_option};
ghost use Rattle.silo_state.specs.Finds.{IsOwnPlan};
ghost use Rattle.silo_state.specs.inside.Sends.{with_more};
ghost use Rattle.tenant_machine.specs.Machines.{StepAnswers};
ghost use Rattle.tenant_machine.specs.inside.Sends.{sends_of};

use crate::account::{Account, Sent, sent_by};
use crate::closing::{ClosedTurn, close_turn};
use crate::machine::TenantMachine;
use grain_id::GrainId;
use grain_logic::{GrainLogic, OwnedPlan};
use silo_state::finding::{GrainAtClose, asks_storage, ready_in};
use silo_state::telling::told;
use std::alloc::{AllocError, Global};

impl<L: GrainLogic> TenantMachine<L> {
    /// An open turn that doesn't use the storage runs and is closed by its plan: the grain gets the plan's state, the
    /// plan's sends go out, what it says of the activation holds, and its outcome is the reply.
    ///
    /// # Errors
    ///
    /// Out of memory: nothing changed.
    pub(super) fn end(
        &mut self,
        alloc: Global,
        grain: &GrainId,
        turn: u64,
    ) -> Result<bool, AllocError>
        ensures { StepAnswers L.logic self.old (step.End grain.now turn) result self.new }
    {
        let Some((planned, at_close)) = self.plan_open(alloc, grain, turn)? else {
            return Ok(false);
        };
        self.end_own(alloc, grain, turn, at_close, planned)
    }

    /// Closes an open turn by its own plan.
    fn end_own(
        &mut self,
        alloc: Global,
        grain: &GrainId,
        turn: u64,
        at_close: GrainAtClose,
        planned: OwnedPlan,
    ) -> Result<bool, AllocError>
        requires { IsOwnPlan L.logic grain.now (map.get self.old.entries grain.now) turn at_close.version at_close.idle_after planned }
        ensures { StepAnswers L.logic self.old (step.End grain.now turn) result self.new }
    {
        if asks_storage(planned.store) {
            drop(planned);
            return Ok(false);
        }
        let now = self.clock;
        self.replies.reserve(1)?;
        let OwnedPlan {
            state,
            outcome,
            sends,
            keep: said,
            ..
        } = planned;
        let sent = sent_by(alloc, grain, sends.as_slice())?;
        drop(sends);
        send(&mut self.account, sent)?;
        let closing = ClosedTurn {
            grain,
            turn,
            idle_after: at_close.idle_after,
        };
        close_turn(
            &mut self.entries,
            &mut self.replies,
            closing,
            now,
            ready_in(state, at_close.version),
            said,
            told(outcome),
        );
        Ok(true)
    }
}

/// Grains of the tenant sent these, after what they sent before.
///
/// # Errors
///
/// Out of memory: nothing changed.
fn send(account: &mut Option<Account>, sent: Vec<Sent>) -> Result<(), AllocError>
    ensures done { OnOk result (account.new ≡ change_option account.old (with_more account.old (sends_of sent.items))) }
    ensures unchanged { OnErr result (account.new ≡ account.old) }
{
    let Some(account) = account else {
        return Ok(());
    };
    account.send(sent)
}
