//! How requests reach an activation.

ghost use Rattle.std.specs.Prelude.{◌≡◌, true, OnOk, OnErr, length};
ghost use Rattle.std.specs.Option.{option_map};
ghost use Rattle.std.specs.FinMap as map;
ghost use Rattle.silo_state.specs.inside.Arrivals.{with_waiting};
ghost use Rattle.silo_state.specs.Shown.{request_of};
ghost use Rattle.silo_state.specs.Marks.{IsMarked};

use crate::activations::Activations;
use crate::activations::entering::enter;
use crate::{arrival, change};
use grain_id::GrainId;
use grain_logic::GrainLogic;
use std::alloc::{AllocError, Global};
use turn_mailbox::Request;

impl<L: GrainLogic> Activations<L> {
    /// How many requests wait at the grain, if it has an activation. What looks for the grain next finds it sooner.
    pub fn waiting(&mut self, grain: &GrainId) -> Option<usize>
        ensures waiting { result ≡ option_map (λ e. length e.queue) (map.get self.old.entries grain.now) }
        ensures unchanged { self.new ≡ self.old }
    {
        let Some(activation) = self.directory.get_mut(grain) else {
            return None;
        };
        Some(activation.mailbox.len())
    }

    /// One request more waits at the grain, from now on. A grain that has no activation gets one, and a note of it. Its mailbox has
    /// memory for this request alone.
    ///
    /// # Errors
    ///
    /// Out of memory: nothing changed.
    pub fn wait(
        &mut self,
        alloc: Global,
        grain: &GrainId,
        request: Request,
    ) -> Result<(), AllocError>
        requires known { L.logic.knows grain.now.kind ≡ true }
        requires marked { IsMarked L.logic grain.now request }
        ensures waits { OnOk result (self.new.entries
            ≡ with_waiting self.old.entries grain.now (request_of request) self.old.times.clock) }
        ensures unchanged { OnErr result (self.new.entries ≡ self.old.entries) }
        ensures times { self.new.times ≡ self.old.times }
    {
        if let Some(activation) = self.directory.get_mut(grain) {
            return arrival::arrive(activation, request, self.clock);
        }
        let due = change::due_if_used(grain, self.clock, &self.ages, self.age);
        let first = arrival::first(alloc, request, self.clock)?;
        self.collector.expect(grain)?;
        enter(alloc, &mut self.directory, grain, first, due)?;
        self.collector.note_expected(due);
        Ok(())
    }
}
