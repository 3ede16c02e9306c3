//! A silo, as far as workers know it.

use bumpalo::Bump;
use grain_id::GrainId;
use grain_logic::{FinishedTurn, GrainLogic, OpenedTurn};
use silo_event::{Answer, Step, StepFault};
use std::alloc::{AllocError, Global};
use std::collections::VecDeque;

/// What is to do at a grain.
#[derive(Clone, Copy)]
pub enum NextStep {
    /// A turn begins.
    Begin,
    /// It is loaded.
    Load,
    /// It is activated.
    Activate,
}

/// A silo that workers serve: the calls that they make under the lock.
///
/// A fault is meant to leave the silo as it was, which no clause of `take_at_once` says. What is to do at a grain, whom
/// it sends to, and which lanes have new replies, are hints: no clause speaks of them.
pub trait ServedSilo {
    ghost use Rattle.std.specs.Prelude.{◌≡◌, false, true, None, Ok, Some, IfErr, IfOk, OnErr};
    ghost use Rattle.silo_event.specs.declared.step.Answer.TheVariants as answer;
    ghost use Rattle.silo_event.specs.declared.step.Step.TheVariants as step;
    ghost use Rattle.lane_model.specs.Asking.{asker_of};
    ghost use Rattle.lane_workers.specs.Served.{Answers, AnswersAtOnce, Begins, Closes, MayAsk};

    /// The logic of its grains.
    type Logic: GrainLogic + Copy + Send;

    /// What a step is answered, and leaves.
    ghost answers: { Answers Self };

    /// The same of a step that may be served at once.
    ghost answers_at_once: { AnswersAtOnce Self };

    /// Whether a client may ask.
    ghost may_ask: { MayAsk Self };

    /// Which turn begins at a grain, if one does.
    ghost begins: { Begins Self };

    /// What closes a turn by a finished one.
    ghost closes: { Closes Self };

    /// Takes a step, unless a client asks by it that may not: then it isn't taken now.
    fn take(&mut self, alloc: Global, step: Step) -> Result<Answer, StepFault>
        ensures unasked { asker_of step ≡ None → answers self.old step result self.new }
        ensures taken { may_ask self.old (asker_of step) ≡ true → answers self.old step result self.new }
        ensures refused { may_ask self.old (asker_of step) ≡ false → result ≡ Ok answer.NotNow }
        ensures unchanged { may_ask self.old (asker_of step) ≡ false → self.new ≡ self.old }
        ensures fault { OnErr result (self.new ≡ self.old) };

    /// Takes a step as `take` does; but if it is a call, and its turn is short, this begins and ends, too: then there is no answer. The
    /// turn runs in this arena.
    fn take_at_once(
        &mut self,
        alloc: Global,
        bump: &Bump,
        step: Step,
    ) -> Result<Option<Answer>, StepFault>
        ensures taken { may_ask self.old (asker_of step) ≡ true → answers_at_once self.old step result self.new }
        ensures refused { may_ask self.old (asker_of step) ≡ false → result ≡ Ok (Some answer.NotNow) }
        ensures unchanged { may_ask self.old (asker_of step) ≡ false → self.new ≡ self.old };

    /// The first waiting request of a ready grain becomes an open turn, if the turn rule allows it.
    fn begin(&mut self, alloc: Global, grain: GrainId) -> Result<Option<OpenedTurn>, StepFault>
        ensures answered { IfOk result (λ turn. begins self.old grain turn self.new) }
        ensures unchanged { OnErr result (self.new ≡ self.old) }
        ensures fault { IfErr result (λ fault. fault ≡ StepFault.Memory) };

    /// Closes an open turn that makes a storage call.
    fn store(
        &mut self,
        alloc: Global,
        finished: &FinishedTurn<Self::Logic>,
    ) -> Result<Answer, StepFault>
        ensures closed { closes self.old (step.Store finished.now.grain finished.now.number false) finished.now result self.new }
        ensures done { IfOk result (λ a. answers self.old (step.Store finished.now.grain finished.now.number false) (Ok a) self.new) }
        ensures unchanged { OnErr result (self.new ≡ self.old) };

    /// Closes an open turn that makes no storage call.
    fn end(
        &mut self,
        alloc: Global,
        finished: &FinishedTurn<Self::Logic>,
    ) -> Result<Answer, StepFault>
        ensures closed { closes self.old (step.End finished.now.grain finished.now.number) finished.now result self.new }
        ensures done { IfOk result (λ a. answers self.old (step.End finished.now.grain finished.now.number) (Ok a) self.new) }
        ensures unchanged { OnErr result (self.new ≡ self.old) };

    /// What is to do at the grain, if anything is.
    fn work_on(&self, grain: &GrainId) -> Option<NextStep>;

    /// The grain to which the grain's first send goes, if it has one.
    fn first_target(&self, grain: &GrainId) -> Option<&GrainId>;

    /// Looks at the replies that weren't looked at yet, and adds the lanes of their clients at the end of `told`. If
    /// memory is refused, they count as looked at all the same.
    fn look_at_replies(&mut self, told: &mut VecDeque<usize>) -> Result<(), AllocError>
        ensures { self.new ≡ self.old };
}
