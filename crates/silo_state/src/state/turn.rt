//! How turns are opened and closed.

ghost use Rattle.std.specs.Prelude.{◌≡◌, ◌↔◌, Ok, Err, IfOk, OnErr};
ghost use Rattle.std.specs.FinMap as map;
ghost use Rattle.silo_event.specs.declared.step.Step.TheVariants as step;
ghost use Rattle.silo_state.specs.Entries.{opened_turn};
ghost use Rattle.silo_event.specs.declared.step.StepFault.TheVariants.{Stranger};
ghost use Rattle.silo_state.specs.Finds.{IsStranger, IsOwn, IsOwnPlan, Finds};
ghost use Rattle.silo_state.specs.Moves.{Moves, Ends, done_if};

use crate::closing::{ClosedTurn, close_turn};
use crate::finding::{TurnMatch, asks_storage, ready_in};
use crate::state::SiloState;
use crate::telling::{copied, told};
use crate::{change, finding};
use activation_directory::Phase;
use grain_id::GrainId;
use grain_logic::{FinishedTurn, GrainLogic, Keep, OpenedTurn, OwnedPlan};
use grain_storage::GrainStorage;
use silo_event::{Answer, Fault, StepFault};
use std::alloc::{AllocError, Global};

impl<S: GrainStorage, L: GrainLogic> SiloState<S, L> {
    /// The first waiting request of a ready grain becomes an open turn, if the turn rule allows it:
    /// the turn, with the grain's state and the request's message.
    ///
    /// # Errors
    ///
    /// Out of memory: nothing changed.
    pub fn begin(&mut self, grain: &GrainId) -> Result<Option<OpenedTurn>, AllocError>
        ensures moves { IfOk result (λ turn. Moves L.logic self.old (step.Begin grain.now) (Ok (done_if turn)) self.new) }
        ensures turn { IfOk result (λ turn. turn ≡ opened_turn L.logic grain.now (map.get self.old.whole.entries grain.now)) }
        ensures unchanged { OnErr result (self.new ≡ self.old) }
    {
        self.activations.begin(grain)
    }

    /// What is found of a turn that is to be closed by what a turn of this input came to.
    pub(super) fn own_turn(&self, grain: &GrainId, turn: u64, input: &OpenedTurn) -> TurnMatch
        ensures { Finds grain.now (map.get self.now.whole.entries grain.now) turn input.now result }
    {
        let Some(activation) = self.activations.get(grain) else {
            return TurnMatch::NotOpen;
        };
        finding::find(grain, activation, turn, input)
    }

    /// An open turn that doesn't use the storage is closed by its plan: the grain gets the plan's state, the plan's
    /// sends go out, its outcome is the reply, and the activation rests or stays as it says. An activation that rests
    /// is dropped once it is idle.
    ///
    /// # Errors
    ///
    /// `Stranger` if the turn is open and the finished turn was made of another kind of grain, state
    /// or message; `Memory`. Nothing changed.
    pub fn end(
        &mut self,
        alloc: Global,
        grain: &GrainId,
        turn: u64,
        finished: &FinishedTurn<L>,
    ) -> Result<Answer, StepFault>
        ensures moves { Ends L.logic self.old (step.End grain.now turn) result self.new }
        ensures stranger { (result ≡ Err Stranger) ↔ IsStranger grain.now (map.get self.old.whole.entries grain.now) turn finished.now }
    {
        match self.own_turn(grain, turn, finished.input()) {
            TurnMatch::NotOpen => Ok(Answer::NotNow),
            TurnMatch::Stranger => Err(StepFault::Stranger),
            TurnMatch::Own {
                version,
                idle_after,
            } => { self.end_own(alloc, grain, turn, version, idle_after, finished) }
        }
    }

    /// Closes an open turn by the plan of a finished turn, which is its own.
    pub(super) fn end_own(
        &mut self,
        alloc: Global,
        grain: &GrainId,
        turn: u64,
        version: Option<u64>,
        idle_after: bool,
        finished: &FinishedTurn<L>,
    ) -> Result<Answer, StepFault>
        requires { IsOwn grain.now (map.get self.old.whole.entries grain.now) turn version idle_after finished.now }
        ensures { Moves L.logic self.old (step.End grain.now turn) result self.new }
    {
        if asks_storage(finished.store_call()) {
            return Ok(Answer::NotNow);
        }
        self.replies.reserve(1)?;
        let outcome = copied(finished.outcome())?;
        let state = finished.state().clone()?;
        self.accounts.send_each(alloc, grain, finished.sends())?;
        let phase = Phase::Ready { state, version };
        let closing = ClosedTurn {
            grain,
            turn,
            idle_after,
        };
        close_turn(
            &mut self.activations,
            &mut self.replies,
            closing,
            Some(phase),
            finished.keep(),
            told(outcome),
        );
        Ok(Answer::Done)
    }

    /// Closes an open turn by its own plan, which is given.
    #[inline(never)]
    pub(super) fn end_planned(
        &mut self,
        alloc: Global,
        grain: &GrainId,
        turn: u64,
        version: Option<u64>,
        idle_after: bool,
        planned: OwnedPlan,
    ) -> Result<Answer, StepFault>
        requires { IsOwnPlan L.logic grain.now (map.get self.old.whole.entries grain.now) turn version idle_after planned }
        ensures { Moves L.logic self.old (step.End grain.now turn) result self.new }
    {
        if asks_storage(planned.store) {
            drop(planned);
            return Ok(Answer::NotNow);
        }
        self.replies.reserve(1)?;
        let OwnedPlan {
            state,
            outcome,
            sends,
            keep: said,
            ..
        } = planned;
        self.accounts.send_each(alloc, grain, sends.as_slice())?;
        drop(sends);
        let closing = ClosedTurn {
            grain,
            turn,
            idle_after,
        };
        close_turn(
            &mut self.activations,
            &mut self.replies,
            closing,
            ready_in(state, version),
            said,
            told(outcome),
        );
        Ok(Answer::Done)
    }

    /// A turn that ran out of memory is closed, and its sender gets a reply that says so, if it is a client.
    ///
    /// # Errors
    ///
    /// Out of memory: nothing changed.
    pub fn abandon(&mut self, grain: &GrainId, turn: u64) -> Result<Answer, StepFault>
        ensures { Moves L.logic self.old (step.Abandon grain.now turn) result self.new }
    {
        let Some(activation) = self.activations.get(grain) else {
            return Ok(Answer::NotNow);
        };
        let Some(_open) = activation.mailbox.opened(turn) else {
            return Ok(Answer::NotNow);
        };
        let idle_after = change::none_waits(activation);
        self.replies.reserve(1)?;
        let closing = ClosedTurn {
            grain,
            turn,
            idle_after,
        };
        close_turn(
            &mut self.activations,
            &mut self.replies,
            closing,
            None,
            Keep::Same,
            Err(Fault::NoMemory),
        );
        Ok(Answer::Done)
    }
}
