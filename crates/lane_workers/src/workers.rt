//! Workers, which take steps under one lock and run the bodies of turns without it.

use crate::gate::TurnGate;
use crate::pace::Pace;
use crate::schedule::{LanePlaces, Schedule, Task};
use crate::served::ServedSilo;
use crate::worker::Worker;
use client_lanes::Lane;
use std::alloc::{AllocError, Global};
use std::sync::atomic::{AtomicUsize, Ordering};
use std::sync::{Condvar, Mutex, MutexGuard, Wait};
use std::thread;
use std::thread::Threads;

/// How many workers serve a silo, and by what they run the bodies of turns.
#[derive(Drop)]
pub struct Crew<'x, G, L> {
    pub workers: usize,
    /// Is called for each turn.
    pub gate: &'x G,
    pub logic: L,
}

/// What the workers of one silo share.
#[derive(Drop)]
struct Shift<'x, W: ServedSilo, G> {
    schedule: Mutex<Schedule<W>>,
    /// How many workers wait for the lock.
    waiting: AtomicUsize,
    /// Wakes a worker when there is something to do, and all when all is over.
    changed: Condvar,
    alloc: Global,
    lanes: &'x [Lane],
    gate: &'x G,
}

impl<'x, W: ServedSilo, G: TurnGate> Shift<'x, W, G> {
    /// Takes the lock, and says whether another had it, or others wait for it.
    fn come<R: Wait>(&self, rt: &R) -> (MutexGuard<'_, Schedule<W>>, bool) {
        match self.schedule.try_lock() {
            Some(held) => {
                let met = self.waiting.load(Ordering::Relaxed) != 0;
                (held, met)
            }
            None => {
                self.waiting.fetch_add(1, Ordering::Relaxed);
                let held = self.schedule.lock(rt);
                self.waiting.fetch_sub(1, Ordering::Relaxed);
                (held, true)
            }
        }
    }

    /// Takes the lock, closes the worker's last turns, and takes steps until it has turns to run. False if all is
    /// over.
    fn next_turns<R: Wait>(&self, rt: &R, worker: &mut Worker<W::Logic>) -> bool {
        let (mut held, met) = self.come(rt);
        held.come(self.alloc, met, worker);
        for _ in rt.forever() {
            match held.fill(self.alloc, self.lanes, worker) {
                Task::Run => {
                    worker.first = false;
                    let wakes = held.wakes();
                    worker.waking = if wakes { held.pace.wakings } else { 0 };
                    drop(held);
                    if wakes {
                        self.changed.notify_one();
                    }
                    return true;
                }
                Task::Wait => {
                    held.pace.sleep();
                    held = self.changed.wait(rt, held);
                    held.pace.wake_up();
                }
                Task::Over => {
                    held.pace.leave();
                    drop(held);
                    self.changed.notify_all();
                    return false;
                }
            }
        }
        unreachable!()
    }

    /// A worker abandons all work, and ends.
    fn give_up<R: Wait>(&self, rt: &R) {
        let mut held = self.schedule.lock(rt);
        held.give_up_all();
        drop(held);
        self.changed.notify_all();
    }

    /// A worker runs the turns that it took, and goes on until all is over. If there is no memory for the results of its
    /// turns, all work is abandoned.
    fn go_on<R: Wait>(&self, rt: &R, worker: &mut Worker<W::Logic>) {
        for _ in rt.forever() {
            if worker.run(self.alloc, self.gate).is_err() {
                self.give_up(rt);
                break;
            }
            if !self.next_turns(rt, worker) {
                break;
            }
        }
    }

    /// One worker, which may rest.
    fn work<R: Wait>(&self, rt: &R, logic: W::Logic) {
        let mut worker = Worker::new(self.alloc, logic, false);
        if self.next_turns(rt, &mut worker) {
            self.go_on(rt, &mut worker);
        }
    }
}

impl<'x, W: ServedSilo + Drop, G: TurnGate> Shift<'x, W, G> {
    /// The silo before any step, for workers that are about to start.
    ///
    /// # Errors
    ///
    /// Out of memory. The silo is dropped then.
    fn new(
        alloc: Global,
        silo: W,
        lanes: &'x [Lane],
        workers: usize,
        gate: &'x G,
    ) -> Result<Shift<'x, W, G>, AllocError> {
        let Ok(places) = LanePlaces::new(alloc, lanes) else {
            drop(silo);
            return Err(AllocError);
        };
        let pace = Pace::new(workers, gate.watches());
        Ok(Shift {
            schedule: Mutex::new(Schedule::new(alloc, silo, places, pace)),
            waiting: AtomicUsize::new(0),
            changed: Condvar::new(),
            alloc,
            lanes,
            gate,
        })
    }

    /// The silo, or none if all work was abandoned.
    fn into_silo(self) -> Option<W> {
        let Shift { schedule, .. } = self;
        schedule.into_inner().into_silo()
    }
}

/// Runs the workers: one in this thread, which stays awake, and once it has its first turn the others in threads of a scope. So what
/// grows as steps are taken has its memory from this thread, whose memory what is looked at later comes from, too. Says whether one of
/// the others was started, if there are any: if none was, nothing is served.
fn run_workers<'x, W: ServedSilo + Send, G: TurnGate + Sync, R: Threads + Wait + Sync>(
    rt: &'x R,
    shift: &'x Shift<'x, W, G>,
    workers: usize,
    logic: W::Logic,
) -> bool {
    let mut worker = Worker::new(shift.alloc, logic, true);
    if !shift.next_turns(rt, &mut worker) {
        return true;
    }
    thread::scope(thread::scope_env(), rt, |scope| {
        let mut started = workers == 1;
        for _ in 1..workers {
            if scope.spawn(move || shift.work(rt, logic)).is_ok() {
                started = true;
            }
        }
        if started {
            shift.go_on(rt, &mut worker);
        }
        started
    })
}

/// Why lanes weren't served to their end.
#[derive(Clone, Copy)]
pub enum WorkFault {
    /// Memory was refused.
    Memory,
    /// No thread could be started.
    NoWorker,
}

/// Serves the lanes over the silo by the crew, and returns the silo as they left it. A lane gives its next
/// step once its last one has its reply; after a tick or a sweep, once that was taken. One of the workers is this
/// thread, so one alone needs no other.
///
/// No clause says what they left: they call nothing of the silo but the methods of `ServedSilo`, so whatever these keep
/// holds.
///
/// # Errors
///
/// `Memory` if memory was refused; `NoWorker` if none of the other threads could be started. The silo is dropped then.
pub fn work_lanes<W: ServedSilo + Drop + Send, G: TurnGate + Sync, R: Threads + Wait + Sync>(
    rt: &R,
    alloc: Global,
    silo: W,
    lanes: &[Lane],
    crew: Crew<'_, G, W::Logic>,
) -> Result<W, WorkFault> {
    let Crew {
        workers,
        gate,
        logic,
    } = crew;
    let Ok(shift) = Shift::new(alloc, silo, lanes, workers, gate) else {
        return Err(WorkFault::Memory);
    };
    if !run_workers(rt, &shift, workers, logic) {
        return Err(WorkFault::NoWorker);
    }
    match shift.into_silo() {
        Some(silo) => Ok(silo),
        None => Err(WorkFault::Memory),
    }
}
