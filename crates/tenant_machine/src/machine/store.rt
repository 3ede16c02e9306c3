//! How a turn that uses the storage is closed.

ghost use Rattle.std.specs.FinMap as map;
ghost use Rattle.silo_event.specs.declared.step.Step.TheVariants as step;
ghost use Rattle.grain_logic.specs.Planned.{storage_call};
ghost use Rattle.silo_state.specs.Finds.{IsOwnCall};
ghost use Rattle.tenant_machine.specs.Machines.{StepAnswers};

use crate::closing::{ClosedTurn, close_by};
use crate::machine::TenantMachine;
use grain_id::GrainId;
use grain_logic::{GrainLogic, StoreCall};
use request_codec::StateBytes;
use silo_state::finding::{AskedTurn, GrainAtClose, asks_storage};
use silo_state::storing::ask;
use std::alloc::{AllocError, Global};

impl<L: GrainLogic> TenantMachine<L> {
    /// An open turn that uses the storage runs and is closed by what the storage answers: a read, a write of the
    /// grain's own state, or a clearing. A write and a clearing expect the version that the state stands on. If the row
    /// has another one, the activation ends.
    ///
    /// # Errors
    ///
    /// Out of memory: nothing changed.
    pub(super) fn store(
        &mut self,
        alloc: Global,
        grain: &GrainId,
        turn: u64,
        failed: bool,
    ) -> Result<bool, AllocError>
        ensures { StepAnswers L.logic self.old (step.Store grain.now turn failed) result self.new }
    {
        let Some((asked, at_close)) = self.ask_open(alloc, grain, turn)? else {
            return Ok(false);
        };
        let AskedTurn { state, call } = asked;
        let answer = self.store_own(alloc, grain, turn, at_close, &state, call, failed);
        drop(state);
        answer
    }

    /// Closes an open turn by what the storage answers to its own plan.
    fn store_own(
        &mut self,
        alloc: Global,
        grain: &GrainId,
        turn: u64,
        at_close: GrainAtClose,
        state: &StateBytes,
        call: StoreCall,
        failed: bool,
    ) -> Result<bool, AllocError>
        requires { IsOwnCall L.logic grain.now (map.get self.old.entries grain.now) turn at_close.version at_close.idle_after
            state.now (storage_call call) }
        ensures { StepAnswers L.logic self.old (step.Store grain.now turn failed) result self.new }
    {
        if !asks_storage(call) {
            return Ok(false);
        }
        let Some(activation) = self.entries.get(grain) else {
            unreachable!()
        };
        let last = activation.last;
        let now = self.clock;
        let named = grain.clone()?;
        self.replies.reserve(1)?;
        let stored = ask(
            alloc,
            &mut self.storage,
            &self.logic,
            grain,
            state,
            at_close.version,
            call,
            failed,
        );
        let closing = ClosedTurn {
            grain,
            turn,
            idle_after: at_close.idle_after,
        };
        close_by(
            &mut self.entries,
            &mut self.replies,
            closing,
            now,
            last,
            stored,
            named,
        )
    }
}
