//! Lists of steps.

ghost use Rattle.std.specs.Prelude.{◌≡◌, ◌<◌, ◌≤◌, ◌↔◌, ℕ, List, [], IsTrue, ◌++◌, take, vec_len};
ghost use Rattle.silo_model.specs.Answers.{AreAnswers, AreMachineAnswers};
ghost use Rattle.silo_model.specs.Exclusive.{Exclusive};
ghost use Rattle.silo_model.specs.Opening.{start_of};
ghost use Rattle.silo_model.specs.Run.{done_by, machine_run, whole_run, restricted_to, marked};
ghost use Rattle.silo_model.specs.Settled.{Settled};
ghost use Rattle.silo_model.specs.Whole.{shown_to, whole_step};
ghost use Rattle.silo_core.specs.History.{failed_since};
ghost use Rattle.silo_core.specs.Runs.{failed_in, AllConcern, RunsInParts, RunAnswersInParts, Takes};

use crate::silo::Silo;
use grain_logic::GrainLogic;
use grain_storage::GrainStorage;
use silo_event::{Answer, Step, StepFault};
use std::alloc::Global;
use std::collections::VecDeque;

/// What a run answered, one answer for each step that it took, and whether memory was refused
/// before its end.
#[derive(Drop)]
pub struct RunReport {
    pub answers: Vec<Answer>,
    pub stopped: bool,
}

impl<S: GrainStorage, L: GrainLogic> Silo<S, L> {
    /// Takes steps in their order, up to the first for which memory is refused. Room for all answers
    /// comes first: if that is refused, no step is taken. How many answers say `Failed` is how many
    /// calls of the storage failed.
    pub fn run(&mut self, alloc: Global, steps: Vec<Step>) -> RunReport
        ensures stopped { IsTrue result.stopped ↔ (vec_len result.answers < vec_len steps) }
        ensures one_each { vec_len result.answers ≤ vec_len steps }
        ensures answers { AreAnswers L.logic self.old.whole (take (vec_len result.answers) steps.items) result.answers.items }

        // The steps that were answered, each as it was taken, are done one after another.
        ensures whole { self.new.whole
            ≡ whole_run L.logic self.old.whole (marked (take (vec_len result.answers) steps.items) result.answers.items) }
        ensures journal { self.new.journal
            ≡ self.old.journal
            ++ done_by (whole_step L.logic) self.old.whole (marked (take (vec_len result.answers) steps.items) result.answers.items) }
        ensures setup { self.new.setup ≡ self.old.setup }
        ensures failures { self.new.failures ≡ failed_since (failed_in result.answers.items) self.old.failures }

        // For every tenant, the run of a silo of its own.
        ensures parts { RunsInParts L.logic self.old.whole
            (marked (take (vec_len result.answers) steps.items) result.answers.items) self.new.whole }
        ensures own_answers { RunAnswersInParts L.logic self.old.whole (take (vec_len result.answers) steps.items) result.answers.items }
        ensures alone { (tenant : List ℕ) → AllConcern tenant steps.items
            → AreMachineAnswers L.logic (shown_to tenant self.old.whole) (take (vec_len result.answers) steps.items) result.answers.items }

        // On a new silo each part is that run from the start of the tenant's own machine, a turn that may write is the only
        // open turn of its grain at every prefix of the list, and what a client asked is answered once, or waits, or is open.
        ensures from_start { self.old.journal ≡ [] → (tenant : List ℕ) → shown_to tenant self.new.whole
            ≡ machine_run L.logic (start_of self.old.setup tenant)
            (restricted_to tenant (marked (take (vec_len result.answers) steps.items) result.answers.items)) }
        ensures exclusive { self.old.journal ≡ []
            → Exclusive L.logic self.old.setup (take (vec_len result.answers) steps.items) result.answers.items }
        ensures settled { self.old.journal ≡ [] → (tenant : List ℕ)
            → Settled (restricted_to tenant (marked (take (vec_len result.answers) steps.items) result.answers.items))
            (shown_to tenant self.new.whole) }
    {
        // Looked at, so that the proof sees where the journal leads.
        let _ = &self.journal;
        self.take_each(alloc, steps)
    }

    fn take_each(&mut self, alloc: Global, steps: Vec<Step>) -> RunReport
        ensures stopped { IsTrue result.stopped ↔ (vec_len result.answers < vec_len steps) }
        ensures taken { Takes L.logic self.old (take (vec_len result.answers) steps.items) result.answers.items self.new }
    {
        let mut answers = Vec::new(alloc);
        if answers.reserve(steps.len()).is_err() {
            return RunReport {
                answers,
                stopped: true,
            };
        }
        let mut left = VecDeque::from(steps);
        'each: while let Some(step) = left.pop_front() {
            match self.apply(alloc, step) {
                Ok(answer) => answers.push_reserved(answer),
                Err(StepFault::Memory) => {
                    return RunReport {
                        answers,
                        stopped: true,
                    };
                }
                Err(StepFault::Stranger) => unreachable!(),
            }
        }
        RunReport {
            answers,
            stopped: false,
        }
    }
}
