//! A silo at work: with what each client is owed, and a journal that is paced.

ghost use Rattle.std.specs.Prelude.{◌≡◌, ◌-◌, [], true, false, IfOk};
ghost use Rattle.grain_id.specs.Names.{Client};
ghost use Rattle.silo_model.specs.Opening.{new_setup, nothing_kept, opening};
ghost use Rattle.lane_model.specs.Asking.{asker_of};
ghost use Rattle.lane_model.specs.Pacing.{is_paced};
ghost use Rattle.silo_core.specs.History.{Answered};
ghost use Rattle.lane_workers.specs.Owing.{asks_once, owing_to};
ghost use Rattle.worker_host.specs.inside.Working.{ServedOrAnswered, was_done, was_taken, with_answer};

use bumpalo::Bump;
use client_lanes::Lane;
use grain_id::{Caller, GrainId, HashSeed};
use grain_logic::{FinishedTurn, GrainLogic, OpenedTurn};
use grain_storage::GrainStorage;
use lane_workers::owed::Owing;
use lane_workers::{NextStep, ServedSilo, owed};
use silo_core::{PossibleStep, Setup, Silo};
use silo_event::{Answer, Step, StepFault};
use std::alloc::{AllocError, Global};
use std::collections::VecDeque;
use std::marker::Model;

/// A silo that was new as it opened, with how many answers each client is owed, as far as its replies were looked at. Just before
/// each step of its journal by which a client asks, no request of the client waits or is open.
#[derive(Drop)]
pub struct WorkingSilo<S: GrainStorage, L: GrainLogic> {
    silo: Silo<S, L>,
    owing: Owing,
    /// How many replies were looked at.
    seen: usize,
}

impl<S: GrainStorage, L: GrainLogic> Model for WorkingSilo<S, L> {
    ghost use Rattle.std.specs.Coded.{codes};
    ghost use Rattle.request_codec.specs.Code.{coded_tree};
    ghost use Rattle.request_codec.specs.contracts.state.StateBytes as state;
    ghost use Rattle.silo_model.specs.Codes.{by_grain_code, by_text_code, by_number_code};
    ghost use Rattle.silo_core.specs.History.{History};
    ghost use Rattle.worker_host.specs.inside.Working.{IsWorking};

    ghost Value = { History };

    ghost coded = { Prim.hlevel (codes, by_grain_code, by_text_code, by_number_code, coded_tree, state.the_row.coded) };

    ghost view = { λ w. w.silo };

    ghost invariant = { λ w. IsWorking L.logic w.silo w.owing w.seen };
}

/// Whether a step with this answer was done.
fn was_done(answer: &Result<Answer, StepFault>) -> bool
    ensures { result ≡ was_done answer.now }
{
    matches!(answer, Ok(Answer::Done | Answer::Failed))
}

/// The client that asks by the step, if one does.
///
/// # Errors
///
/// Out of memory.
fn asker_of(step: &Step) -> Result<Option<Caller>, AllocError>
    ensures { IfOk result (λ asker. asker ≡ asker_of step.now) }
{
    match step.asker() {
        Some(caller) => Ok(Some(caller.clone()?)),
        None => Ok(None),
    }
}

/// Takes a step by which its client, if any asks by it, asked, and accounts for it.
fn apply_asked<S: GrainStorage, L: GrainLogic>(
    alloc: Global,
    silo: &mut Silo<S, L>,
    owing: &mut Owing,
    step: Step,
) -> Result<Answer, StepFault>
    ensures answered { Answered L.logic silo.old step result silo.new }
    ensures done { was_done result ≡ true → (client : Client) → owing_to owing.new client ≡ owing_to owing.old client }
    ensures not_done { was_done result ≡ false → (client : Client)
        → owing_to owing.new client ≡ owing_to owing.old client - asks_once (asker_of step) client }
{
    let Ok(asker) = asker_of(&step) else {
        owed::take_back(owing, &step);
        drop(step);
        return Err(StepFault::Memory);
    };
    let answer = silo.apply(alloc, step);
    let done = was_done(&answer);
    owed::settle(owing, &asker, done);
    answer
}

/// The same, but a call is served at once if its turn is short: then there is no answer.
fn serve_asked<S: GrainStorage, L: GrainLogic>(
    alloc: Global,
    bump: &Bump,
    silo: &mut Silo<S, L>,
    owing: &mut Owing,
    step: Step,
) -> Result<Option<Answer>, StepFault>
    ensures answered { ServedOrAnswered L.logic silo.old step result silo.new }
    ensures done { was_taken result ≡ true → (client : Client) → owing_to owing.new client ≡ owing_to owing.old client }
    ensures not_done { was_taken result ≡ false → (client : Client)
        → owing_to owing.new client ≡ owing_to owing.old client - asks_once (asker_of step) client }
{
    let Some(step) = silo.serve_at_once(alloc, bump, step) else {
        return Ok(None);
    };
    as_answered(apply_asked(alloc, silo, owing, step))
}

/// The answer of a step that wasn't served.
fn as_answered(answer: Result<Answer, StepFault>) -> Result<Option<Answer>, StepFault>
    ensures { result ≡ with_answer answer }
{
    match answer {
        Ok(answer) => Ok(Some(answer)),
        Err(fault) => Err(fault),
    }
}

impl<S: GrainStorage + Drop, L: GrainLogic + Drop> WorkingSilo<S, L> {
    /// A silo at its opening, for these lanes. Its grains, and the clients that are owed answers, are found by hashes from the seed.
    ///
    /// # Errors
    ///
    /// Out of memory.
    pub fn seeded(
        alloc: Global,
        setup: Setup<S, L>,
        seed: HashSeed,
        lanes: &[Lane],
    ) -> Result<WorkingSilo<S, L>, AllocError>
        ensures setup { IfOk result (λ w. w.setup ≡ new_setup setup.tenants setup.age setup.ages (S.rows setup.storage)) }
        ensures opening { IfOk result (λ w. (w.whole ≡ opening w.setup) × (w.journal ≡ [])) }
        ensures failures { IfOk result (λ w. w.failures ≡ record { at_opening = S.failed setup.storage; now = S.failed setup.storage }) }
    {
        Ok(WorkingSilo {
            silo: Silo::seeded(alloc, setup, seed)?,
            owing: owed::none_owed(alloc, seed, lanes)?,
            seen: 0,
        })
    }
}

impl<S: GrainStorage, L: GrainLogic> WorkingSilo<S, L> {
    /// The silo alone.
    pub fn into_silo(self) -> Silo<S, L>
        ensures same { result ≡ self }
        ensures paced { is_paced L.logic result.setup result.journal ≡ true }
        ensures new { result.setup.kept ≡ nothing_kept }
    {
        let WorkingSilo { silo, .. } = self;
        silo
    }
}

impl<S: GrainStorage, L: GrainLogic + Copy + Send> ServedSilo for WorkingSilo<S, L> {
    type Logic = L;

    ghost use Rattle.std.specs.Prelude.{◌≡◌, Ok};
    ghost use Rattle.std.specs.FinMap as map;
    ghost use Rattle.silo_event.specs.declared.step.Step.TheVariants as step;
    ghost use Rattle.silo_state.specs.Entries.{opened_turn};
    ghost use Rattle.silo_state.specs.Moves.{done_if};
    ghost use Rattle.silo_core.specs.History.{Answered};
    ghost use Rattle.silo_core.specs.Turns.{AnsweredTurn};
    ghost use Rattle.worker_host.specs.inside.Working.{ServedOrAnswered, may_ask_in};

    ghost answers = { Answered L.logic };

    ghost answers_at_once = { ServedOrAnswered L.logic };

    ghost may_ask = { λ h asker. may_ask_in h.whole asker };

    ghost begins = { λ old grain turn new. Answered L.logic old (step.Begin grain) (Ok (done_if turn)) new
        × (turn ≡ opened_turn L.logic grain (map.get old.whole.entries grain)) };

    ghost closes = { AnsweredTurn L.logic };

    /// Looks at the replies that weren't looked at yet, and adds the lanes of their clients to `told`, after those that
    /// are there.
    ///
    /// # Errors
    ///
    /// Out of memory: the replies were looked at all the same.
    fn look_at_replies(&mut self, told: &mut VecDeque<usize>) -> Result<(), AllocError> {
        let replies = self.silo.replies();
        let noted = owed::tell_new(&mut self.owing, replies, self.seen, told);
        self.seen = replies.len();
        noted
    }

    /// Takes a step of any kind, unless a client asks by it of whom something waits or is open: then it
    /// isn't taken now. Goes over the replies that weren't looked at, if a client asks, and looks once for the client.
    ///
    /// # Errors
    ///
    /// Out of memory: nothing changed.
    fn take(&mut self, alloc: Global, step: Step) -> Result<Answer, StepFault> {
        let asked = match owed::ask(&mut self.owing, &step, self.silo.replies(), self.seen) {
            Ok(asked) => asked,
            Err(AllocError) => {
                drop(step);
                return Err(StepFault::Memory);
            }
        };
        if !asked {
            drop(step);
            return Ok(Answer::NotNow);
        }
        apply_asked(alloc, &mut self.silo, &mut self.owing, step)
    }

    /// Takes a step as `take` does; but if it is a call, and its turn is short, this begins and ends, too: then there is no answer. The
    /// turn runs in this arena.
    ///
    /// # Errors
    ///
    /// Out of memory: nothing changed.
    fn take_at_once(
        &mut self,
        alloc: Global,
        bump: &Bump,
        step: Step,
    ) -> Result<Option<Answer>, StepFault> {
        let asked = match owed::ask(&mut self.owing, &step, self.silo.replies(), self.seen) {
            Ok(asked) => asked,
            Err(AllocError) => {
                drop(step);
                return Err(StepFault::Memory);
            }
        };
        if !asked {
            drop(step);
            return Ok(Some(Answer::NotNow));
        }
        serve_asked(alloc, bump, &mut self.silo, &mut self.owing, step)
    }

    /// The first waiting request of a ready grain becomes an open turn, if the turn rule allows it.
    ///
    /// # Errors
    ///
    /// Out of memory: nothing changed.
    fn begin(&mut self, alloc: Global, grain: GrainId) -> Result<Option<OpenedTurn>, StepFault> {
        self.silo.begin(alloc, grain)
    }

    /// Closes the open turn whose plan makes a call of the storage.
    ///
    /// # Errors
    ///
    /// Out of memory; `Stranger`, if the turn is open and its own message or state isn't the finished
    /// turn's. Nothing changed.
    fn store(&mut self, alloc: Global, finished: &FinishedTurn<L>) -> Result<Answer, StepFault> {
        self.silo.store(alloc, finished, false)
    }

    /// Closes the open turn whose plan makes no call of the storage.
    ///
    /// # Errors
    ///
    /// As of `store`.
    fn end(&mut self, alloc: Global, finished: &FinishedTurn<L>) -> Result<Answer, StepFault> {
        self.silo.end(alloc, finished)
    }

    fn work_on(&self, grain: &GrainId) -> Option<NextStep> {
        match self.silo.work_on(grain) {
            Some(PossibleStep::Begin) => Some(NextStep::Begin),
            Some(PossibleStep::Load) => Some(NextStep::Load),
            Some(PossibleStep::Activate) => Some(NextStep::Activate),
            None => None,
        }
    }

    fn first_target(&self, grain: &GrainId) -> Option<&GrainId> {
        self.silo.first_target(grain)
    }
}
