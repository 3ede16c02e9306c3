//! What stands under the lock: the silo, the places in the lanes, and the grains at which something may be
//! to do. All but the silo are hints: what was served is looked at once, when the workers have ended.

ghost use Rattle.std.specs.Prelude.{◌≡◌, ◌+◌, ◌≤◌, IfOk, IsFalse, Ok, OnErr};
ghost use Rattle.std.specs.VecDeque.{deque_len};
ghost use Rattle.silo_event.specs.declared.step.Step.TheVariants as step;
ghost use Rattle.lane_workers.specs.Turns.{most_turns, turn_of};
ghost use Rattle.lane_workers.specs.Batches.{closing_step, AreClosed, IsClosed, IsTried};

use crate::bodies::RanTurn;
use crate::pace::Pace;
use crate::served::{NextStep, ServedSilo};
use crate::worker::Worker;
use bumpalo::Bump;
use client_lanes::Lane;
use grain_id::GrainId;
use grain_logic::{FinishedTurn, OpenedTurn, StoreCall};
use silo_event::{Answer, Step, StepFault};
use std::alloc::{AllocError, Global};
use std::collections::VecDeque;

/// How many steps in a row come from the lane whose client was answered last, until it is the turn of the lane that has
/// waited for longest.
const IN_A_ROW: u32 = 16;

/// What a worker does next.
#[derive(Clone, Copy)]
pub enum Task {
    /// It runs the turns that it took.
    Run,
    /// It waits until another worker wakes it.
    Wait,
    /// It ends.
    Over,
}

/// The silo with the places in the lanes.
#[derive(Drop)]
pub struct Schedule<W: ServedSilo> {
    silo: W,
    lanes: LanePlaces,
    /// Grains at which something may be to do.
    grains: VecDeque<GrainId>,
    /// Grains that may have sent something.
    senders: VecDeque<GrainId>,
    /// How many turns are open.
    open: usize,
    pub pace: Pace,
    stopped: bool,
}

/// The places in the lanes.
#[derive(Drop)]
pub struct LanePlaces {
    /// How many steps of each lane were given.
    given: Vec<usize>,
    /// The lanes that may give their next step: last those whose clients were answered last.
    ready: VecDeque<usize>,
    /// How many steps the last of them gave in a row.
    in_a_row: u32,
}

impl LanePlaces {
    /// All lanes may give their first step.
    ///
    /// # Errors
    ///
    /// Out of memory.
    pub fn new(alloc: Global, lanes: &[Lane]) -> Result<LanePlaces, AllocError> {
        let mut given = Vec::new(alloc);
        let mut ready = VecDeque::new(alloc);
        for index in 0..lanes.len() {
            given.push(0)?;
            ready.push_back(index)?;
        }
        Ok(LanePlaces {
            given,
            ready,
            in_a_row: IN_A_ROW,
        })
    }

    /// The lane's next step, if it has one.
    fn next_step<'l>(&self, lane: &'l Lane, index: usize) -> Option<&'l Step> {
        match self.given.get(index) {
            Some(place) => lane.steps().get(*place),
            None => None,
        }
    }

    /// The lane that gives the next step, if one may: the one whose client was answered last, and after `IN_A_ROW` of
    /// these the one that has been ready for longest.
    fn next_ready(&mut self) -> Option<usize> {
        if self.in_a_row < IN_A_ROW {
            self.in_a_row += 1;
            return self.ready.pop_back();
        }
        self.in_a_row = 0;
        self.ready.pop_front()
    }

    /// The lane gave its next step. A lane of nobody is ready again at once.
    fn note_given(&mut self, lane: &Lane, index: usize) -> Result<(), AllocError> {
        if let Some(place) = self.given.get_mut(index) {
            *place = place.saturating_add(1);
        }
        if lane.from().is_none() {
            self.ready.push_back(index)?;
        }
        Ok(())
    }
}

impl<W: ServedSilo + Drop> Schedule<W> {
    /// The silo with the places before any step was given, for workers that are about to start.
    pub fn new(alloc: Global, silo: W, lanes: LanePlaces, pace: Pace) -> Schedule<W> {
        Schedule {
            silo,
            lanes,
            grains: VecDeque::new(alloc),
            senders: VecDeque::new(alloc),
            open: 0,
            pace,
            stopped: false,
        }
    }

    /// The silo, or none if all work was abandoned.
    pub fn into_silo(self) -> Option<W> {
        let Schedule { silo, stopped, .. } = self;
        (!stopped).then_some(silo)
    }
}

impl<W: ServedSilo> Schedule<W> {
    /// A worker reaches the lock: for the first time, or with turns whose bodies ran, which are closed. `met` says
    /// whether it met another there.
    pub fn come(&mut self, alloc: Global, met: bool, worker: &Worker<W::Logic>)
        ensures { AreClosed W.answers W.Logic.logic self.old.silo worker.now.ran.items self.new.silo }
    {
        if worker.first {
            self.pace.start();
        } else {
            self.pace.come_back(met, worker.waking);
        }
        self.close_all(alloc, worker.ran.as_slice());
    }

    /// Closes turns by their results, one after another. If memory is refused even for abandoning a turn, or for noting
    /// what is left to do, all work is abandoned.
    fn close_all(&mut self, alloc: Global, turns: &[RanTurn<W::Logic>])
        ensures { AreClosed W.answers W.Logic.logic self.old.silo turns.now self.new.silo }
    {
        let mut rest = turns;
        'turns: while let Some((turn, others)) = rest.split_first() {
            self.close_ran(alloc, turn);
            rest = others;
        }
    }

    /// Closes a turn whose body ran.
    fn close_ran(&mut self, alloc: Global, turn: &RanTurn<W::Logic>)
        ensures { IsClosed W.answers W.Logic.logic self.old.silo (turn_of turn.now) self.new.silo }
    {
        self.open = self.open.saturating_sub(1);
        if self.close(alloc, turn).is_err() {
            self.stopped = true;
        }
    }

    /// Closes a turn by its result. If that fails, or its body got no memory, the turn is abandoned.
    fn close(&mut self, alloc: Global, turn: &RanTurn<W::Logic>) -> Result<(), StepFault>
        ensures { IsClosed W.answers W.Logic.logic self.old.silo (turn_of turn.now) self.new.silo }
    {
        match turn {
            Ok(finished) => {
                if self.close_by(alloc, finished).is_ok() {
                    return self.note_closed(finished);
                }
                self.give_up(alloc, finished.input())
            }
            Err(opened) => self.give_up(alloc, opened),
        }
    }

    /// Closes a turn by its own plan.
    fn close_by(
        &mut self,
        alloc: Global,
        finished: &FinishedTurn<W::Logic>,
    ) -> Result<Answer, StepFault>
        ensures closed { W.closes self.old.silo (closing_step W.Logic.logic finished.now) finished.now result self.new.silo }
        ensures done { IfOk result (λ a. W.answers self.old.silo (closing_step W.Logic.logic finished.now) (Ok a) self.new.silo) }
        ensures unchanged { OnErr result (self.new.silo ≡ self.old.silo) }
    {
        match finished.store_call() {
            StoreCall::None => self.silo.end(alloc, finished),
            _ => self.silo.store(alloc, finished),
        }
    }

    /// A worker abandons all work, and ends.
    pub fn give_up_all(&mut self) {
        self.stopped = true;
        self.pace.leave();
    }

    /// Abandons a turn that is open.
    fn give_up(&mut self, alloc: Global, opened: &OpenedTurn) -> Result<(), StepFault>
        ensures { IsTried W.answers self.old.silo (step.Abandon opened.now.grain opened.now.number) self.new.silo }
    {
        let grain = opened.grain.clone()?;
        let turn = opened.number;
        self.silo.take(alloc, Step::Abandon { grain, turn })?;
        self.note_more(&opened.grain)
    }

    /// Notes what a turn that was closed may have left to do.
    fn note_closed(&mut self, finished: &FinishedTurn<W::Logic>) -> Result<(), StepFault>
        ensures { self.new.silo ≡ self.old.silo }
    {
        let grain = finished.grain();
        if finished.sends().is_empty() {
            return self.note_more(grain);
        }
        let sender = grain.clone()?;
        push(&mut self.senders, sender)?;
        self.note_more(grain)
    }

    /// Notes the grain, if something is to do at it.
    fn note_more(&mut self, grain: &GrainId) -> Result<(), StepFault>
        ensures { self.new.silo ≡ self.old.silo }
    {
        if self.silo.work_on(grain).is_none() {
            return Ok(());
        }
        let grain = grain.clone()?;
        push(&mut self.grains, grain)
    }

    /// Whether something may be left to do.
    fn has_more(&self) -> bool {
        self.stopped || self.seen_work() != 0 || !self.senders.is_empty()
    }

    /// Whether another worker is woken to do what is left.
    pub fn wakes(&mut self) -> bool {
        if self.has_more() {
            return self.pace.wakes();
        }
        self.pace.pass();
        false
    }

    /// How much is seen that can be done.
    fn seen_work(&self) -> usize {
        self.lanes.ready.len().saturating_add(self.grains.len())
    }

    /// Takes steps until the worker has its share of turns, or nothing can be done now, unless the worker is better off
    /// at rest and isn't one that stays awake. If memory is refused, all work is abandoned.
    pub fn fill(&mut self, alloc: Global, lanes: &[Lane], worker: &mut Worker<W::Logic>) -> Task
        ensures { deque_len worker.old.taken ≤ most_turns worker.old.first → deque_len worker.new.taken ≤ most_turns worker.old.first }
    {
        if !worker.stays && self.pace.rests() {
            return Task::Wait;
        }
        if self.stopped {
            return Task::Over;
        }
        let first = worker.first;
        if self
            .take_turns(alloc, &mut worker.arena, lanes, &mut worker.taken, first)
            .is_err()
        {
            self.stopped = true;
            return Task::Over;
        }
        if !worker.taken.is_empty() {
            Task::Run
        } else if self.open == 0 {
            Task::Over
        } else {
            Task::Wait
        }
    }

    /// Takes steps until the worker has its share of turns, or nothing can be done now.
    fn take_turns(
        &mut self,
        alloc: Global,
        arena: &mut Bump,
        lanes: &[Lane],
        turns: &mut VecDeque<OpenedTurn>,
        first: bool,
    ) -> Result<(), StepFault>
        ensures { deque_len turns.old ≤ most_turns first → deque_len turns.new ≤ most_turns first }
    {
        self.note_told()?;
        let share = self.pace.share_of(first, self.seen_work());
        'steps: for _step in 0..u64::MAX {
            if turns.len() >= share || !self.advance(alloc, arena, lanes, turns)? {
                return Ok(());
            }
        }
        Ok(())
    }

    /// Looks at the new replies, and adds the lanes of their clients after the ready ones.
    fn note_told(&mut self) -> Result<(), AllocError> {
        self.silo.look_at_replies(&mut self.lanes.ready)
    }

    /// Does what is to do at one grain, delivers a call, or lets a lane give a step. False if there is
    /// none of these.
    fn advance(
        &mut self,
        alloc: Global,
        arena: &mut Bump,
        lanes: &[Lane],
        turns: &mut VecDeque<OpenedTurn>,
    ) -> Result<bool, StepFault>
        ensures { deque_len turns.new ≤ deque_len turns.old + 1 }
    {
        if let Some(grain) = self.grains.pop_front() {
            self.go_on_waiting(alloc, &grain, turns)?;
            return Ok(true);
        }
        if let Some(grain) = self.senders.pop_front() {
            self.deliver(alloc, grain, turns)?;
            return Ok(true);
        }
        self.note_told()?;
        let Some(index) = self.lanes.next_ready() else {
            return Ok(false);
        };
        let Some(lane) = lanes.get(index) else {
            return Ok(true);
        };
        self.ask(alloc, arena, lane, index, turns)?;
        Ok(true)
    }

    /// Opens a turn of a grain that was noted, as most of those are ready, or takes what other step is to do at it.
    fn go_on_waiting(
        &mut self,
        alloc: Global,
        grain: &GrainId,
        turns: &mut VecDeque<OpenedTurn>,
    ) -> Result<(), StepFault>
        ensures { deque_len turns.new ≤ deque_len turns.old + 1 }
    {
        if self.begin(alloc, grain, turns)? {
            return Ok(());
        }
        self.go_on(alloc, grain, turns)
    }

    /// Takes what step is to do at the grain: opens a turn of it, or brings it up for one.
    fn go_on(
        &mut self,
        alloc: Global,
        grain: &GrainId,
        turns: &mut VecDeque<OpenedTurn>,
    ) -> Result<(), StepFault>
        ensures { deque_len turns.new ≤ deque_len turns.old + 1 }
    {
        match self.silo.work_on(grain) {
            Some(NextStep::Begin) => {
                self.begin(alloc, grain, turns)?;
                Ok(())
            }
            Some(NextStep::Load) => self.load(alloc, grain, turns),
            Some(NextStep::Activate) => {
                let own = grain.clone()?;
                self.silo.take(alloc, Step::Activate { grain: own })?;
                self.load(alloc, grain, turns)
            }
            None => Ok(()),
        }
    }

    /// Loads the grain, and opens a turn of it.
    fn load(
        &mut self,
        alloc: Global,
        grain: &GrainId,
        turns: &mut VecDeque<OpenedTurn>,
    ) -> Result<(), StepFault>
        ensures { deque_len turns.new ≤ deque_len turns.old + 1 }
    {
        let load = Step::Load {
            grain: grain.clone()?,
            failed: false,
        };
        self.silo.take(alloc, load)?;
        self.begin(alloc, grain, turns)?;
        Ok(())
    }

    /// Opens a turn of the grain, if one begins, and says whether one does.
    fn begin(
        &mut self,
        alloc: Global,
        grain: &GrainId,
        turns: &mut VecDeque<OpenedTurn>,
    ) -> Result<bool, StepFault>
        ensures one { deque_len turns.new ≤ deque_len turns.old + 1 }
        ensures none { IfOk result (λ begun. IsFalse begun → deque_len turns.new ≡ deque_len turns.old) }
    {
        let own = grain.clone()?;
        let Some(turn) = self.silo.begin(alloc, own)? else {
            return Ok(false);
        };
        self.open = self.open.saturating_add(1);
        if turn.reading {
            self.note_more(&turn.grain)?;
        }
        let Ok(()) = turns.push_back(turn) else {
            return Err(StepFault::Memory);
        };
        Ok(true)
    }

    /// Delivers what the grain sent first, and lets its target go on.
    fn deliver(
        &mut self,
        alloc: Global,
        grain: GrainId,
        turns: &mut VecDeque<OpenedTurn>,
    ) -> Result<(), StepFault>
        ensures { deque_len turns.new ≤ deque_len turns.old + 1 }
    {
        let target = match self.silo.first_target(&grain) {
            Some(target) => target.clone()?,
            None => return Ok(()),
        };
        let own = grain.clone()?;
        self.silo.take(alloc, Step::Deliver { grain: own })?;
        let Ok(()) = self.senders.push_front(grain) else {
            return Err(StepFault::Memory);
        };
        self.go_on(alloc, &target, turns)
    }

    /// Gives the lane's next step, if it has one, and lets the grain go on that it calls.
    fn ask(
        &mut self,
        alloc: Global,
        arena: &mut Bump,
        lane: &Lane,
        index: usize,
        turns: &mut VecDeque<OpenedTurn>,
    ) -> Result<(), StepFault>
        ensures { deque_len turns.new ≤ deque_len turns.old + 1 }
    {
        let Some(step) = self.lanes.next_step(lane, index) else {
            return Ok(());
        };
        let own = step.clone()?;
        let served = self.give(alloc, arena, own)?;
        self.lanes.note_given(lane, index)?;
        let Step::Call { grain, .. } = step else {
            return Ok(());
        };
        if served {
            return self.note_sent(grain);
        }
        self.go_on(alloc, grain, turns)
    }

    /// Takes a lane's step, and says whether it is a call that was served at once.
    fn give(&mut self, alloc: Global, arena: &mut Bump, step: Step) -> Result<bool, StepFault> {
        if !self.pace.serves_at_once(!self.has_more()) {
            self.silo.take(alloc, step)?;
            return Ok(false);
        }
        let before = taken_of(arena);
        let answer = self.silo.take_at_once(alloc, arena, step)?;
        self.pace.note_body(taken_of(arena).saturating_sub(before));
        make_free(alloc, arena);
        Ok(answer.is_none())
    }

    /// Notes the grain, if it sent something that is left to deliver.
    fn note_sent(&mut self, grain: &GrainId) -> Result<(), StepFault> {
        if self.silo.first_target(grain).is_none() {
            return Ok(());
        }
        let sender = grain.clone()?;
        push(&mut self.senders, sender)
    }
}

/// How much of the arena was taken.
fn taken_of(arena: &Bump) -> usize {
    arena
        .allocated_bytes()
        .saturating_sub(arena.chunk_capacity())
}

/// Makes the arena free for the next turn, if the last ones took more than half of its chunk.
fn make_free(alloc: Global, arena: &mut Bump) {
    if arena.chunk_capacity() >= arena.allocated_bytes() / 2 {
        return;
    }
    if arena.reset().is_err() {
        *arena = Bump::new(alloc);
    }
}

/// Adds a grain after the others.
fn push(grains: &mut VecDeque<GrainId>, grain: GrainId) -> Result<(), StepFault> {
    match grains.push_back(grain) {
        Ok(()) => Ok(()),
        Err(_) => Err(StepFault::Memory),
    }
}
