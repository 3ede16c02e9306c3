//! How a turn that uses the storage is closed.

ghost use Rattle.std.specs.Prelude.{◌≡◌, ◌↔◌, Err};
ghost use Rattle.std.specs.FinMap as map;
ghost use Rattle.silo_event.specs.declared.step.Step.TheVariants as step;
ghost use Rattle.silo_event.specs.declared.step.StepFault.TheVariants.{Stranger};
ghost use Rattle.grain_logic.specs.Planned.{storage_call};
ghost use Rattle.silo_state.specs.Finds.{IsStranger, IsOwnCall};
ghost use Rattle.silo_state.specs.Moves.{Moves, Ends};

use crate::closing::{ClosedTurn, close_by};
use crate::finding::{TurnMatch, asks_storage};
use crate::state::SiloState;
use crate::storing::ask;
use grain_id::GrainId;
use grain_logic::{FinishedTurn, GrainLogic, StoreCall};
use grain_storage::GrainStorage;
use request_codec::StateBytes;
use silo_event::{Answer, StepFault};
use std::alloc::Global;

impl<S: GrainStorage, L: GrainLogic> SiloState<S, L> {
    /// An open turn that uses the storage is closed by what the storage answers: a read, a write of the grain's own
    /// state, or a clearing. A write and a clearing expect the version that the state stands on. If the row has another
    /// one, the activation ends.
    ///
    /// # Errors
    ///
    /// `Stranger` if the turn is open and the finished turn was made of another kind of grain, state
    /// or message; `Memory`. Nothing changed.
    pub fn store(
        &mut self,
        alloc: Global,
        grain: &GrainId,
        turn: u64,
        finished: &FinishedTurn<L>,
        failed: bool,
    ) -> Result<Answer, StepFault>
        ensures moves { Ends L.logic self.old (step.Store grain.now turn failed) result self.new }
        ensures stranger { (result ≡ Err Stranger) ↔ IsStranger grain.now (map.get self.old.whole.entries grain.now) turn finished.now }
    {
        match self.own_turn(grain, turn, finished.input()) {
            TurnMatch::NotOpen => Ok(Answer::NotNow),
            TurnMatch::Stranger => Err(StepFault::Stranger),
            TurnMatch::Own {
                version,
                idle_after,
            } => {
                let state = &finished.input().state;
                let call = finished.store_call();
                self.store_own(alloc, grain, turn, version, idle_after, state, call, failed)
            }
        }
    }

    /// Closes an open turn by what the storage answers to its own plan.
    #[inline(never)]
    pub(super) fn store_own(
        &mut self,
        alloc: Global,
        grain: &GrainId,
        turn: u64,
        version: Option<u64>,
        idle_after: bool,
        state: &StateBytes,
        call: StoreCall,
        failed: bool,
    ) -> Result<Answer, StepFault>
        requires { IsOwnCall L.logic grain.now (map.get self.old.whole.entries grain.now) turn version idle_after state.now
            (storage_call call) }
        ensures { Moves L.logic self.old (step.Store grain.now turn failed) result self.new }
    {
        if !asks_storage(call) {
            return Ok(Answer::NotNow);
        }
        let Some(activation) = self.activations.get(grain) else {
            unreachable!()
        };
        let last = activation.last;
        let named = grain.clone()?;
        self.replies.reserve(1)?;
        let stored = ask(
            alloc,
            &mut self.storage,
            &self.logic,
            grain,
            state,
            version,
            call,
            failed,
        );
        let closing = ClosedTurn {
            grain,
            turn,
            idle_after,
        };
        close_by(
            &mut self.activations,
            &mut self.replies,
            closing,
            last,
            failed,
            stored,
            named,
        )
    }
}
