//! An open turn, run again; and one that ran out of memory.

ghost use Rattle.std.specs.Prelude.{IfOk};
ghost use Rattle.std.specs.FinMap as map;
ghost use Rattle.silo_event.specs.declared.step.Step.TheVariants as step;
ghost use Rattle.silo_state.specs.Finds.{PlansIfOpen, AsksIfOpen};
ghost use Rattle.tenant_machine.specs.Machines.{StepAnswers};

use crate::closing::{ClosedTurn, close_turn};
use crate::machine::TenantMachine;
use bumpalo::Bump;
use grain_id::GrainId;
use grain_logic::{GrainLogic, Keep, OwnedPlan};
use silo_event::Fault;
use silo_state::finding;
use silo_state::finding::{AskedTurn, GrainAtClose};
use std::alloc::{AllocError, Global};

impl<L: GrainLogic> TenantMachine<L> {
    /// The plan of the open turn of that number, run in an arena of its own, and how its grain stands.
    pub(super) fn plan_open(
        &self,
        alloc: Global,
        grain: &GrainId,
        turn: u64,
    ) -> Result<Option<(OwnedPlan, GrainAtClose)>, AllocError>
        ensures { IfOk result (λ found. PlansIfOpen L.logic grain.now (map.get self.now.entries grain.now) turn found) }
    {
        let Some(activation) = self.entries.get(grain) else {
            return Ok(None);
        };
        let bump = Bump::new(alloc);
        finding::plan_open(alloc, &bump, &self.logic, grain, activation, turn)
    }

    /// What the open turn of that number asks of the storage, and how its grain stands.
    pub(super) fn ask_open(
        &self,
        alloc: Global,
        grain: &GrainId,
        turn: u64,
    ) -> Result<Option<(AskedTurn, GrainAtClose)>, AllocError>
        ensures { IfOk result (λ found. AsksIfOpen L.logic grain.now (map.get self.now.entries grain.now) turn found) }
    {
        let Some(activation) = self.entries.get(grain) else {
            return Ok(None);
        };
        let bump = Bump::new(alloc);
        finding::ask_open(alloc, &bump, &self.logic, grain, activation, turn)
    }

    /// A turn that ran out of memory is closed, and its sender gets a reply that says so, if it is a client.
    ///
    /// # Errors
    ///
    /// Out of memory: nothing changed.
    pub(super) fn abandon(&mut self, grain: &GrainId, turn: u64) -> Result<bool, AllocError>
        ensures { StepAnswers L.logic self.old (step.Abandon grain.now turn) result self.new }
    {
        let Some(activation) = self.entries.get(grain) else {
            return Ok(false);
        };
        let Some(_open) = activation.mailbox.opened(turn) else {
            return Ok(false);
        };
        let now = self.clock;
        self.replies.reserve(1)?;
        let closing = ClosedTurn {
            grain,
            turn,
            idle_after: false,
        };
        close_turn(
            &mut self.entries,
            &mut self.replies,
            closing,
            now,
            None,
            Keep::Same,
            Err(Fault::NoMemory),
        );
        Ok(true)
    }
}
