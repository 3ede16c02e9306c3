//! Any step.

ghost use Rattle.std.specs.Prelude.{IfOk};
ghost use Rattle.std.specs.FinMap as map;
ghost use Rattle.silo_event.specs.declared.step.Step.TheVariants as step;
ghost use Rattle.silo_state.specs.Finds.{PlansIfOpen, AsksIfOpen};
ghost use Rattle.silo_state.specs.Moves.{Moves};

use crate::finding;
use crate::finding::{AskedTurn, GrainAtClose};
use crate::state::SiloState;
use bumpalo::Bump;
use grain_id::GrainId;
use grain_logic::{GrainLogic, OwnedPlan};
use grain_storage::GrainStorage;
use silo_event::{Answer, Step, StepFault};
use std::alloc::{AllocError, Global};

impl<S: GrainStorage, L: GrainLogic> SiloState<S, L> {
    /// Takes a step of any kind. The turn of an `End` or a `Store` is run here, in this arena, so that it is no stranger: what it
    /// needs is left there, and nothing that was there before is read.
    ///
    /// # Errors
    ///
    /// Out of memory: nothing changed.
    pub fn step(&mut self, alloc: Global, bump: &Bump, step: &Step) -> Result<Answer, StepFault>
        ensures { Moves L.logic self.old step.now result self.new }
    {
        match step {
            Step::Refuse { caller, id, code } => self.refuse(caller, *id, *code),
            Step::Call {
                caller,
                id,
                grain,
                message,
            } => self.call(alloc, caller, *id, grain, message),
            Step::Poke {
                failed,
                caller,
                id,
                grain,
                state,
            } => self.poke(alloc, caller, *id, grain, state.state(), *failed),
            Step::Status { caller, id } => self.status(alloc, caller, *id),
            Step::Deliver { grain } => self.deliver(alloc, grain),
            Step::Activate { grain } => Ok(self.activate(grain)),
            Step::Load { grain, failed } => self.load(alloc, grain, *failed),
            Step::Begin { grain } => self.open(grain),
            Step::Store {
                grain,
                turn,
                failed,
            } => self.run_store(alloc, bump, grain, *turn, *failed),
            Step::End { grain, turn } => self.run_end(alloc, bump, grain, *turn),
            Step::Abandon { grain, turn } => self.abandon(grain, *turn),
            Step::Tick { now } => Ok(self.tick(*now)),
            Step::Sweep => self.sweep(alloc),
        }
    }

    /// The first waiting request of a ready grain becomes an open turn.
    fn open(&mut self, grain: &GrainId) -> Result<Answer, StepFault>
        ensures { Moves L.logic self.old (step.Begin grain.now) result self.new }
    {
        if self.activations.open(grain)? {
            Ok(Answer::Done)
        } else {
            Ok(Answer::NotNow)
        }
    }

    /// The plan of the open turn of that number, and how its grain stands.
    #[inline(always)]
    fn plan_open(
        &self,
        alloc: Global,
        bump: &Bump,
        grain: &GrainId,
        turn: u64,
    ) -> Result<Option<(OwnedPlan, GrainAtClose)>, AllocError>
        ensures { IfOk result (λ found. PlansIfOpen L.logic grain.now (map.get self.now.whole.entries grain.now) turn found) }
    {
        let Some(activation) = self.activations.get(grain) else {
            return Ok(None);
        };
        finding::plan_open(alloc, bump, &self.logic, grain, activation, turn)
    }

    /// What the open turn of that number asks of the storage, and how its grain stands.
    #[inline(always)]
    fn ask_open(
        &self,
        alloc: Global,
        bump: &Bump,
        grain: &GrainId,
        turn: u64,
    ) -> Result<Option<(AskedTurn, GrainAtClose)>, AllocError>
        ensures { IfOk result (λ found. AsksIfOpen L.logic grain.now (map.get self.now.whole.entries grain.now) turn found) }
    {
        let Some(activation) = self.activations.get(grain) else {
            return Ok(None);
        };
        finding::ask_open(alloc, bump, &self.logic, grain, activation, turn)
    }

    /// An open turn that doesn't use the storage runs and is closed.
    #[inline(never)]
    fn run_end(
        &mut self,
        alloc: Global,
        bump: &Bump,
        grain: &GrainId,
        turn: u64,
    ) -> Result<Answer, StepFault>
        ensures { Moves L.logic self.old (step.End grain.now turn) result self.new }
    {
        let Some((planned, at_close)) = self.plan_open(alloc, bump, grain, turn)? else {
            return Ok(Answer::NotNow);
        };
        let GrainAtClose {
            version,
            idle_after,
        } = at_close;
        self.end_planned(alloc, grain, turn, version, idle_after, planned)
    }

    /// An open turn that uses the storage runs and is closed.
    #[inline(never)]
    fn run_store(
        &mut self,
        alloc: Global,
        bump: &Bump,
        grain: &GrainId,
        turn: u64,
        failed: bool,
    ) -> Result<Answer, StepFault>
        ensures { Moves L.logic self.old (step.Store grain.now turn failed) result self.new }
    {
        let Some((asked, at_close)) = self.ask_open(alloc, bump, grain, turn)? else {
            return Ok(Answer::NotNow);
        };
        let GrainAtClose {
            version,
            idle_after,
        } = at_close;
        let AskedTurn { state, call } = asked;
        let answer = self.store_own(
            alloc, grain, turn, version, idle_after, &state, call, failed,
        );
        drop(state);
        answer
    }
}
