//! A silo that answers at once.

ghost use Rattle.std.specs.Prelude.{◌≡◌, [], false, true, IfOk, OnErr, OnOk};
ghost use Rattle.silo_event.specs.Asker.{asking_of};
ghost use Rattle.silo_model.specs.Journal.{LeadsTo};
ghost use Rattle.silo_model.specs.Opening.{new_setup, opening};
ghost use Rattle.silo_core.specs.Reopening.{ReopensOrNot};
ghost use Rattle.answer_model.specs.Answering.{is_asked};
ghost use Rattle.answer_model.specs.Idle.{AllIdle, TellsAsker};
ghost use Rattle.line_answer.specs.Dropped.{MayDrop};
ghost use Rattle.line_answer.specs.Trying.{AnswersAsked, AnswersBy};

use crate::bringing::{Taken, answer_step};
use bumpalo::Bump;
use grain_id::HashSeed;
use grain_logic::GrainLogic;
use grain_storage::GrainStorage;
use silo_core::{Setup, Silo};
use silo_event::{Reply, Step};
use silo_state::KeptParts;
use std::alloc::{AllocError, Global};
use std::marker::Model;

mod resumed;

/// What a step counts as in a history. It takes some five times that.
const STEP_WEIGHT: u64 = 8;

/// Bytes that a reply takes in a history beside those of its state, about.
const REPLY_WEIGHT: u64 = 64;

/// Bytes that a row, an active grain, or a call that waits to be delivered takes in the lists with which a silo opens again, about.
const LISTED_WEIGHT: u64 = 256;

/// A history of fewer bytes isn't dropped.
const LEAST_HISTORY: u64 = 4_194_304;

/// The given bytes and those that the replies take in a history, about.
fn weighed_with(bytes: u64, replies: &[Reply]) -> u64 {
    let mut sum = bytes;
    for reply in replies {
        let state = match &reply.outcome {
            Ok(state) => state.bytes().len() as u64,
            Err(_) => 0,
        };
        sum = sum.saturating_add(REPLY_WEIGHT).saturating_add(state);
    }
    sum
}

/// What that many rows, and what is kept, weigh in the lists with which a silo opens again.
fn weight_of(rows: u64, kept: &KeptParts) -> u64 {
    let mut listed = rows.saturating_add(kept.grains.len() as u64);
    for account in kept.accounts.iter() {
        listed = listed.saturating_add(account.sends.len() as u64);
    }
    listed.saturating_mul(LISTED_WEIGHT)
}

/// A silo in which nothing waits and nothing is open, unless it stopped for want of memory. It keeps its history, or drops it
/// from time to time.
#[derive(Drop)]
pub struct AnsweringSilo<S: GrainStorage, L: GrainLogic> {
    silo: Silo<S, L>,
    stopped: bool,
    keeps: bool,

    // Bytes of lines and replies in the history, about; how many of its replies are among them; and with how many bytes of
    // history it is dropped.
    grown: u64,
    weighed: usize,
    due: u64,
}

impl<S: GrainStorage, L: GrainLogic> Model for AnsweringSilo<S, L> {
    ghost use Rattle.std.specs.Prelude.{◌≡◌, false};
    ghost use Rattle.std.specs.Coded.{codes};
    ghost use Rattle.request_codec.specs.Code.{coded_tree};
    ghost use Rattle.request_codec.specs.contracts.state.StateBytes as state;
    ghost use Rattle.silo_model.specs.Codes.{by_grain_code, by_text_code, by_number_code};
    ghost use Rattle.answer_model.specs.Idle.{AllIdle};
    ghost use Rattle.line_answer.specs.Runs.{Answering};

    ghost Value = { Answering };

    ghost coded = { Prim.hlevel (codes, by_grain_code, by_text_code, by_number_code, coded_tree, state.the_row.coded) };

    ghost view = { λ a. record { history = a.silo; stopped = a.stopped; keeps = a.keeps } };

    ghost invariant = { λ a. a.stopped ≡ false → AllIdle a.silo.whole.entries };
}

impl<S: GrainStorage + Drop, L: GrainLogic + Drop> AnsweringSilo<S, L> {
    /// A silo at its opening. Its grains are found by hashes from the fixed seed: take `seeded` if a stranger names them.
    ///
    /// # Errors
    ///
    /// Out of memory.
    pub fn new(alloc: Global, setup: Setup<S, L>) -> Result<AnsweringSilo<S, L>, AllocError>
        ensures setup { IfOk result (λ a. a.history.setup ≡ new_setup setup.tenants setup.age setup.ages (S.rows setup.storage)) }
        ensures opening { IfOk result (λ a. (a.history.whole ≡ opening a.history.setup) × (a.history.journal ≡ [])) }
        ensures failures { IfOk result (λ a. a.history.failures
            ≡ record { at_opening = S.failed setup.storage; now = S.failed setup.storage }) }
        ensures ready { IfOk result (λ a. a.stopped ≡ false) }
        ensures keeps { IfOk result (λ a. a.keeps ≡ true) }
    {
        AnsweringSilo::seeded(alloc, setup, HashSeed::fixed())
    }

    /// A silo at its opening, as `new` makes it, whose grains are found by hashes from this seed. Nothing that it answers
    /// depends on the seed. A storage has a seed of its own.
    ///
    /// # Errors
    ///
    /// Out of memory.
    pub fn seeded(
        alloc: Global,
        setup: Setup<S, L>,
        seed: HashSeed,
    ) -> Result<AnsweringSilo<S, L>, AllocError>
        ensures setup { IfOk result (λ a. a.history.setup ≡ new_setup setup.tenants setup.age setup.ages (S.rows setup.storage)) }
        ensures opening { IfOk result (λ a. (a.history.whole ≡ opening a.history.setup) × (a.history.journal ≡ [])) }
        ensures failures { IfOk result (λ a. a.history.failures
            ≡ record { at_opening = S.failed setup.storage; now = S.failed setup.storage }) }
        ensures ready { IfOk result (λ a. a.stopped ≡ false) }
        ensures keeps { IfOk result (λ a. a.keeps ≡ true) }
    {
        Ok(AnsweringSilo {
            silo: Silo::seeded(alloc, setup, seed)?,
            stopped: false,
            keeps: true,
            grown: 0,
            weighed: 0,
            due: LEAST_HISTORY,
        })
    }
}

impl<S: GrainStorage, L: GrainLogic> AnsweringSilo<S, L> {
    /// Whether it stopped for want of memory: then it answers nothing more.
    pub fn is_stopped(&self) -> bool
        ensures { result ≡ self.now.stopped }
    {
        self.stopped
    }

    /// Whether it keeps its history. Else it drops it from time to time.
    pub fn keeps_history(&self) -> bool
        ensures { result ≡ self.now.keeps }
    {
        self.keeps
    }

    /// From now on its history is dropped from time to time: see [`AnsweringSilo::note`].
    pub fn drop_history(&mut self)
        ensures history { self.new.history ≡ self.old.history }
        ensures stopped { self.new.stopped ≡ self.old.stopped }
        ensures keeps { self.new.keeps ≡ false }
    {
        self.keeps = false;
    }

    /// Notes that a line of `bytes` bytes was answered. A history that needn't be kept is dropped once its lines and replies,
    /// those to grains too, take about 4 MB, where a step counts as 8 bytes, and no less than lists of its rows, of the
    /// grains that are active, and of the calls that wait to be delivered: the silo opens again where it is. If memory is
    /// refused for that, the history stays until it is 4 MB larger.
    pub fn note(&mut self, alloc: Global, bytes: usize)
        ensures history { MayDrop self.old.keeps self.old.history self.new.history }
        ensures stopped { self.new.stopped ≡ self.old.stopped }
        ensures keeps { self.new.keeps ≡ self.old.keeps }
    {
        if self.keeps {
            return;
        }
        let replies = self.silo.replies();
        let (_, new) = replies.split_at(self.weighed.min(replies.len()));
        self.grown = weighed_with(self.grown.saturating_add(bytes as u64), new);
        self.weighed = replies.len();
        let steps = (self.silo.journal().len() as u64).saturating_mul(STEP_WEIGHT);
        if self.grown.saturating_add(steps) < self.due {
            return;
        }
        if self.reopen(alloc).is_err() {
            self.due = self.due.saturating_add(LEAST_HISTORY);
        }
    }

    /// The silo opens again where it is, and its history is dropped, even one that it keeps: what it has is what it opened with. It is
    /// done unless the silo stopped: then it may be `false`, and nothing changed.
    ///
    /// # Errors
    ///
    /// Out of memory: nothing changed.
    pub fn reopen(&mut self, alloc: Global) -> Result<bool, AllocError>
        ensures reopens { ReopensOrNot result self.old.history self.new.history }
        ensures ready { self.old.stopped ≡ false → IfOk result (λ done. done ≡ true) }
        ensures stopped { self.new.stopped ≡ self.old.stopped }
        ensures keeps { self.new.keeps ≡ self.old.keeps }
    {
        let done = self.silo.reopen(alloc)?;
        let rows = self.silo.opening().len() as u64;
        self.due = weight_of(rows, self.silo.opening_kept()).max(LEAST_HISTORY);
        self.grown = 0;
        self.weighed = 0;
        Ok(done)
    }

    /// The silo, to look at.
    pub fn silo(&self) -> &Silo<S, L>
        ensures { result.now ≡ self.now.history }
    {
        &self.silo
    }

    /// All replies since it opened, or last opened again, in the order in which they were made.
    pub fn replies(&self) -> &[Reply]
        ensures { result.now ≡ self.now.history.whole.replies }
    {
        self.silo.replies()
    }

    /// The steps that were done since it opened, or last opened again, in order.
    pub fn journal(&self) -> &[Step]
        ensures steps { result.now ≡ self.now.history.journal }

        // They lead from the opening to what the silo shows.
        ensures leads { LeadsTo L.logic self.now.history.setup self.now.history.journal self.now.history.whole }

        // Nothing waits and nothing is open, unless it stopped.
        ensures idle { self.now.stopped ≡ false → AllIdle self.now.history.whole.entries }
    {
        self.silo.journal()
    }

    /// The silo alone.
    pub fn into_silo(self) -> Silo<S, L>
        ensures same { result ≡ self.history }

        // Nothing waits and nothing is open.
        ensures idle { self.stopped ≡ false → AllIdle self.history.whole.entries }
    {
        let AnsweringSilo { silo, .. } = self;
        silo
    }

    /// Answers what a client asks, a tick or a sweep: its step is taken; if it is a call that is accepted, its grain is
    /// brought up and it is given its turn; and then at most `most` of the requests that the grains of the client's
    /// tenant sent are delivered, the oldest first, each with its turn, until their messages have 262,144 bytes. While more
    /// than 10,000 of them wait, or messages of more than 1,048,576 bytes, the turns of those that are delivered are abandoned.
    /// Returns whether the step was possible: only a tick may be impossible.
    ///
    /// # Errors
    ///
    /// Out of memory: it has stopped, and some of this may have been done.
    pub fn answer(&mut self, alloc: Global, step: Step, most: u64) -> Result<bool, AllocError>
        requires asked { is_asked step ≡ true }
        requires ready { self.old.stopped ≡ false }
        ensures answered { IfOk result (λ done. AnswersAsked L.logic most self.old.history step done self.new.history) }

        // Nothing waits and nothing is open.
        ensures idle { OnOk result (AllIdle self.new.history.whole.entries) }

        // Who asked has one reply, the first of all that are new; the others are to grains.
        ensures told { OnOk result (TellsAsker (asking_of step) self.old.history.whole.replies self.new.history.whole.replies) }
        ensures ready { OnOk result (self.new.stopped ≡ false) }
        ensures stopped { OnErr result (self.new.stopped ≡ true) }
        ensures keeps { self.new.keeps ≡ self.old.keeps }
    {
        let taken = self.answer_in(alloc, &mut Bump::new(alloc), step, most)?;
        Ok(taken.done)
    }

    /// The same, with its turns in this arena; and whether there was memory to close them.
    #[tactic(auto, using(crate::proofs::Asked::idle_after))]
    pub(crate) fn answer_in(
        &mut self,
        alloc: Global,
        bump: &mut Bump,
        step: Step,
        most: u64,
    ) -> Result<Taken, AllocError>
        requires asked { is_asked step ≡ true }
        requires ready { self.old.stopped ≡ false }
        ensures answered { IfOk result (λ taken. AnswersBy L.logic most self.old.history step taken.done taken.memory self.new.history) }
        ensures idle { OnOk result (AllIdle self.new.history.whole.entries) }
        ensures told { OnOk result (TellsAsker (asking_of step) self.old.history.whole.replies self.new.history.whole.replies) }
        ensures ready { OnOk result (self.new.stopped ≡ false) }
        ensures stopped { OnErr result (self.new.stopped ≡ true) }
        ensures keeps { self.new.keeps ≡ self.old.keeps }
    {
        // For the proof: where the journal leads.
        let _ = self.silo.journal();
        self.stopped = true;
        let taken = answer_step(alloc, bump, &mut self.silo, step, most)?;
        self.stopped = false;
        Ok(taken)
    }
}
