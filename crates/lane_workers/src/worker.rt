//! What a worker has for itself: its turns, and the arena in which their bodies run.

ghost use Rattle.std.specs.Prelude.{◌≡◌, OnOk, map as map_list};
ghost use Rattle.lane_workers.specs.Turns.{turn_of};

use crate::bodies::{RanTurn, run_all};
use crate::gate::TurnGate;
use bumpalo::Bump;
use grain_logic::{GrainLogic, OpenedTurn};
use std::alloc::{AllocError, Global};
use std::collections::VecDeque;

/// A worker's turns and arena, and how it goes on.
#[derive(Drop)]
pub struct Worker<L: GrainLogic> {
    /// Its turns whose bodies ran.
    pub ran: Vec<RanTurn<L>>,
    /// Those that it took since.
    pub taken: VecDeque<OpenedTurn>,
    /// By which, and in which, bodies run.
    logic: L,
    pub arena: Bump,
    /// Whether it has had no turns yet.
    pub first: bool,
    /// Whether it stays awake where others rest.
    pub stays: bool,
    /// By which waking it woke another before their bodies, or 0 if by none.
    pub waking: u64,
}

impl<L: GrainLogic> Worker<L> {
    /// A worker that was never at the lock.
    pub fn new(alloc: Global, logic: L, stays: bool) -> Worker<L> {
        Worker {
            ran: Vec::new(alloc),
            taken: VecDeque::new(alloc),
            logic,
            arena: Bump::new(alloc),
            first: true,
            stays,
            waking: 0,
        }
    }

    /// Runs the bodies of the turns that it took.
    ///
    /// # Errors
    ///
    /// Out of memory for their results. Then none ran.
    pub fn run<G: TurnGate>(&mut self, alloc: Global, gate: &G) -> Result<(), AllocError>
        ensures { OnOk result (map_list turn_of self.new.ran.items ≡ self.old.taken.items) }
    {
        self.ran.clear();
        self.ran.reserve(self.taken.len())?;
        run_all(
            alloc,
            &mut self.arena,
            gate,
            &self.logic,
            &mut self.taken,
            &mut self.ran,
        );
        Ok(())
    }
}
