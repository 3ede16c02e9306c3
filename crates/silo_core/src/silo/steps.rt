//! One step at a time: a method for each kind of step, and one for any.
//!
//! Each answers `Done` and notes the step; or `Failed`, if the storage failed in it, and notes it as
//! one whose storage call failed; or `NotNow`: it isn't possible, and nothing changed. Each may answer
//! the fault `Memory`, and those that take a finished turn also `Stranger`: after a fault nothing has
//! changed.

ghost use Rattle.std.specs.Prelude.{◌≡◌, Ok, IfOk, IfErr, OnErr};
ghost use Rattle.std.specs.FinMap as map;
ghost use Rattle.silo_event.specs.declared.step.Step.TheVariants as step;
ghost use Rattle.silo_state.specs.Entries.{opened_turn};
ghost use Rattle.silo_state.specs.Moves.{done_if};
ghost use Rattle.silo_core.specs.History.{Answered, StepAnswersInParts};
ghost use Rattle.silo_core.specs.Turns.{AnsweredTurn};

use crate::silo::{Silo, note};
use bumpalo::Bump;
use grain_id::{Caller, GrainId};
use grain_logic::{FinishedTurn, GrainLogic, OpenedTurn};
use grain_storage::GrainStorage;
use request_codec::{Message, SharedState, StateBytes};
use silo_event::{Answer, Moment, Refusal, Step, StepFault};
use std::alloc::{AllocError, Global};

impl<S: GrainStorage, L: GrainLogic> Silo<S, L> {
    /// A client's line made an invalid request, for the reason in `code`.
    ///
    /// # Errors
    ///
    /// `Memory`: nothing changed.
    pub fn refuse(
        &mut self,
        alloc: Global,
        caller: Caller,
        id: u64,
        code: Refusal,
    ) -> Result<Answer, StepFault>
        ensures answered { Answered L.logic self.old (step.Refuse caller id code) result self.new }
        ensures parts { StepAnswersInParts L.logic self.old.whole (step.Refuse caller id code) result self.new.whole }
    {
        self.apply(alloc, Step::Refuse { caller, id, code })
    }

    /// A client asks a grain for a method.
    ///
    /// # Errors
    ///
    /// `Memory`: nothing changed.
    pub fn call(
        &mut self,
        alloc: Global,
        caller: Caller,
        id: u64,
        grain: GrainId,
        message: Message,
    ) -> Result<Answer, StepFault>
        ensures answered { Answered L.logic self.old (step.Call caller id grain message) result self.new }
        ensures parts { StepAnswersInParts L.logic self.old.whole (step.Call caller id grain message) result self.new.whole }
    {
        let call = Step::Call {
            caller,
            id,
            grain,
            message,
        };
        self.apply(alloc, call)
    }

    /// A client overwrites a grain's stored row. If `failed`, the storage isn't called, and the step is
    /// taken as one whose storage call failed.
    ///
    /// # Errors
    ///
    /// `Memory`: nothing changed.
    pub fn poke(
        &mut self,
        alloc: Global,
        caller: Caller,
        id: u64,
        grain: GrainId,
        state: StateBytes,
        failed: bool,
    ) -> Result<Answer, StepFault>
        ensures answered { Answered L.logic self.old (step.Poke failed caller id grain state) result self.new }
        ensures parts { StepAnswersInParts L.logic self.old.whole (step.Poke failed caller id grain state) result self.new.whole }
    {
        let poke = Step::Poke {
            failed,
            caller,
            id,
            grain,
            state: SharedState::new(alloc, state)?,
        };
        self.apply(alloc, poke)
    }

    /// A client asks how much its tenant has.
    ///
    /// # Errors
    ///
    /// `Memory`: nothing changed.
    pub fn status(&mut self, alloc: Global, caller: Caller, id: u64) -> Result<Answer, StepFault>
        ensures answered { Answered L.logic self.old (step.Status caller id) result self.new }
        ensures parts { StepAnswersInParts L.logic self.old.whole (step.Status caller id) result self.new.whole }
    {
        self.apply(alloc, Step::Status { caller, id })
    }

    /// The first call that the grain sent, and that is not yet delivered, is asked of its target.
    ///
    /// # Errors
    ///
    /// `Memory`: nothing changed.
    pub fn deliver(&mut self, alloc: Global, grain: GrainId) -> Result<Answer, StepFault>
        ensures answered { Answered L.logic self.old (step.Deliver grain) result self.new }
        ensures parts { StepAnswersInParts L.logic self.old.whole (step.Deliver grain) result self.new.whole }
    {
        self.apply(alloc, Step::Deliver { grain })
    }

    /// A grain's entry that waits begins to load.
    ///
    /// # Errors
    ///
    /// `Memory`: nothing changed.
    pub fn activate(&mut self, alloc: Global, grain: GrainId) -> Result<Answer, StepFault>
        ensures answered { Answered L.logic self.old (step.Activate grain) result self.new }
        ensures parts { StepAnswersInParts L.logic self.old.whole (step.Activate grain) result self.new.whole }
    {
        self.apply(alloc, Step::Activate { grain })
    }

    /// A loading grain gets its row's content, or the empty state of its kind. If `failed`, the storage
    /// isn't called, and the step is taken as one whose storage call failed.
    ///
    /// # Errors
    ///
    /// `Memory`: nothing changed.
    pub fn load(&mut self, alloc: Global, grain: GrainId, failed: bool) -> Result<Answer, StepFault>
        ensures answered { Answered L.logic self.old (step.Load grain failed) result self.new }
        ensures parts { StepAnswersInParts L.logic self.old.whole (step.Load grain failed) result self.new.whole }
    {
        self.apply(alloc, Step::Load { grain, failed })
    }

    /// The first waiting request of a ready grain becomes an open turn, if the turn rule allows it: the
    /// turn, for `run_turn`. None stands for `NotNow`.
    ///
    /// # Errors
    ///
    /// `Memory` alone: nothing changed.
    pub fn begin(&mut self, alloc: Global, grain: GrainId) -> Result<Option<OpenedTurn>, StepFault>
        ensures answered { IfOk result (λ turn. Answered L.logic self.old (step.Begin grain) (Ok (done_if turn)) self.new) }
        ensures turn { IfOk result (λ turn. turn ≡ opened_turn L.logic grain (map.get self.old.whole.entries grain)) }
        ensures fault { IfErr result (λ fault. fault ≡ StepFault.Memory) }
        ensures unchanged { OnErr result (self.new ≡ self.old) }
        ensures parts { IfOk result
            (λ turn. StepAnswersInParts L.logic self.old.whole (step.Begin grain) (Ok (done_if turn)) self.new.whole) }
    {
        self.journal.reserve(1)?;
        let Some(turn) = self.state.begin(&grain)? else {
            return Ok(None);
        };
        self.journal.push_reserved(Step::Begin { grain });
        Ok(Some(turn))
    }

    /// The open turn that uses the storage is closed, as its plan and the storage's answer say. If `failed`, the
    /// storage isn't called, and the step is taken as one whose storage call failed.
    ///
    /// # Errors
    ///
    /// `Stranger`, if the turn is open and its own message or state isn't the finished turn's.
    pub fn store(
        &mut self,
        alloc: Global,
        finished: &FinishedTurn<L>,
        failed: bool,
    ) -> Result<Answer, StepFault>
        ensures answered { AnsweredTurn L.logic self.old
            (step.Store finished.now.grain finished.now.number failed) finished.now result self.new }
        ensures parts { StepAnswersInParts L.logic self.old.whole
            (step.Store finished.now.grain finished.now.number failed) result self.new.whole }
    {
        self.journal.reserve(1)?;
        let grain = finished.grain().clone()?;
        let turn = finished.number();
        let answer = self.state.store(alloc, &grain, turn, finished, failed)?;
        note(
            &mut self.journal,
            answer,
            Step::Store {
                grain,
                turn,
                failed,
            },
        );
        Ok(answer)
    }

    /// The open turn that doesn't use the storage is closed, as its plan says.
    ///
    /// # Errors
    ///
    /// `Stranger`, if the turn is open and its own message or state isn't the finished turn's.
    pub fn end(&mut self, alloc: Global, finished: &FinishedTurn<L>) -> Result<Answer, StepFault>
        ensures answered { AnsweredTurn L.logic self.old (step.End finished.now.grain finished.now.number) finished.now result self.new }
        ensures parts { StepAnswersInParts L.logic self.old.whole (step.End finished.now.grain finished.now.number) result self.new.whole }
    {
        self.journal.reserve(1)?;
        let grain = finished.grain().clone()?;
        let turn = finished.number();
        let answer = self.state.end(alloc, &grain, turn, finished)?;
        note(&mut self.journal, answer, Step::End { grain, turn });
        Ok(answer)
    }

    /// An open turn that ran out of memory is closed, and its state stays.
    ///
    /// # Errors
    ///
    /// `Memory`: nothing changed.
    pub fn abandon(&mut self, alloc: Global, grain: GrainId, turn: u64) -> Result<Answer, StepFault>
        ensures answered { Answered L.logic self.old (step.Abandon grain turn) result self.new }
        ensures parts { StepAnswersInParts L.logic self.old.whole (step.Abandon grain turn) result self.new.whole }
    {
        self.apply(alloc, Step::Abandon { grain, turn })
    }

    /// The clock is set, to milliseconds of one's own beginning. It never goes back.
    ///
    /// # Errors
    ///
    /// `Memory`: nothing changed.
    pub fn tick(&mut self, alloc: Global, now: Moment) -> Result<Answer, StepFault>
        ensures answered { Answered L.logic self.old (step.Tick now) result self.new }
        ensures parts { StepAnswersInParts L.logic self.old.whole (step.Tick now) result self.new.whole }
    {
        self.apply(alloc, Step::Tick { now })
    }

    /// The activations that are due go: those that are idle, the age of their kind after they were last used and not before the
    /// moment until which they stay.
    ///
    /// # Errors
    ///
    /// `Memory`: nothing changed.
    pub fn sweep(&mut self, alloc: Global) -> Result<Answer, StepFault>
        ensures answered { Answered L.logic self.old step.Sweep result self.new }
        ensures parts { StepAnswersInParts L.logic self.old.whole step.Sweep result self.new.whole }
    {
        self.apply(alloc, Step::Sweep)
    }

    /// Takes a step of any kind. The turn of an `End` or a `Store` runs here, in an arena of its own, so
    /// that it is no stranger.
    ///
    /// # Errors
    ///
    /// `Memory`: nothing changed.
    pub fn apply(&mut self, alloc: Global, step: Step) -> Result<Answer, StepFault>
        ensures answered { Answered L.logic self.old step result self.new }
        ensures parts { StepAnswersInParts L.logic self.old.whole step result self.new.whole }
    {
        self.apply_in(alloc, &Bump::new(alloc), step)
    }

    /// Takes a step as `apply` does, and runs a turn in this arena, which may be used for many steps: reset it between them, since what
    /// a turn needed stays there. Nothing that was there before is read.
    ///
    /// # Errors
    ///
    /// `Memory`: nothing changed.
    pub fn apply_in(&mut self, alloc: Global, bump: &Bump, step: Step) -> Result<Answer, StepFault>
        ensures answered { Answered L.logic self.old step result self.new }
        ensures parts { StepAnswersInParts L.logic self.old.whole step result self.new.whole }
    {
        // Looked at, so that the proof sees where the journal leads.
        let _ = &self.journal;
        self.take(alloc, bump, step)
    }

    /// Takes a step, and notes it if it was done: room for the note comes first.
    fn take(&mut self, alloc: Global, bump: &Bump, step: Step) -> Result<Answer, StepFault>
        ensures { Answered L.logic self.old step result self.new }
    {
        match self.journal.reserve(1) {
            Ok(()) => {}
            Err(AllocError) => {
                drop(step);
                return Err(StepFault::Memory);
            }
        }
        match self.state.step(alloc, bump, &step) {
            Ok(answer) => {
                note(&mut self.journal, answer, step);
                Ok(answer)
            }
            Err(fault) => {
                drop(step);
                Err(fault)
            }
        }
    }
}
