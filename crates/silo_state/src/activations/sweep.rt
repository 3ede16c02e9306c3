//! How the activations that are due go.

ghost use Rattle.std.specs.Prelude.{◌≡◌, not, IfSome, OnOk, OnErr};
ghost use Rattle.std.specs.FinMap as map;
ghost use Rattle.idle_collector.specs.Ages.{kind_age};
ghost use Rattle.silo_model.specs.Idle.{is_kept, kept_entries};
ghost use Rattle.silo_state.specs.inside.Notes.{IsInTime};
ghost use Rattle.silo_state.specs.inside.Sweeps.{without_due};

use crate::activations::Activations;
use crate::change;
use activation_directory::Activation;
use grain_id::GrainId;
use grain_logic::GrainLogic;
use idle_collector::AgeTable;
use silo_event::Moment;
use std::alloc::{AllocError, Global};
use std::mem::replace;
use tenant_gate::Age;

impl<L: GrainLogic> Activations<L> {
    /// The activations that are due go. Looks at those whose note's moment has come: at one that is used, once in the age of its
    /// kind.
    ///
    /// # Errors
    ///
    /// Out of memory: no activation went. Notes may have moved to their later moments, which no answer shows.
    pub fn sweep(&mut self, alloc: Global) -> Result<(), AllocError>
        ensures swept { OnOk result (self.new.entries
            ≡ kept_entries self.old.times.clock (kind_age self.old.times.ages self.old.times.age) self.old.entries) }
        ensures unchanged { OnErr result (self.new.entries ≡ self.old.entries) }
        ensures times { self.new.times ≡ self.old.times }
    {
        let come = self.collector.all_due(alloc, self.clock.get())?;
        for grain in come.as_slice() {
            self.note_later(grain)?;
        }
        self.let_due_go(come.as_slice());
        Ok(())
    }

    /// The note of the grain's activation moves to a later moment, unless it is due.
    ///
    /// # Errors
    ///
    /// Out of memory: the note stays where it was.
    fn note_later(&mut self, grain: &GrainId) -> Result<(), AllocError>
        ensures entries { self.new.entries ≡ self.old.entries }
        ensures times { self.new.times ≡ self.old.times }
    {
        let Some(activation) = self.directory.get_mut(grain) else {
            return Ok(());
        };
        let Some(moment) = later_note(grain, activation, self.clock, &self.ages, self.age) else {
            return Ok(());
        };
        self.collector.expect(grain)?;
        let earlier = replace(&mut activation.noted, moment);
        self.collector.forget_at(grain, earlier);
        self.collector.note_expected(moment);
        Ok(())
    }

    /// Those of these grains go whose activations are due. Takes no memory.
    fn let_due_go(&mut self, grains: &[GrainId])
        ensures left { self.new.entries
            ≡ without_due self.old.times.clock (kind_age self.old.times.ages self.old.times.age) self.old.entries grains.now }
        ensures times { self.new.times ≡ self.old.times }
    {
        for grain in grains {
            if self.is_due(grain) {
                drop(self.remove(grain));
            }
        }
    }

    /// Whether the grain has no activation that stays.
    fn is_due(&self, grain: &GrainId) -> bool
        ensures { result ≡ not (is_kept self.now.times.clock (kind_age self.now.times.ages self.now.times.age grain.now.kind)
            (map.get self.now.entries grain.now)) }
    {
        let Some(activation) = self.get(grain) else {
            return true;
        };
        let Some(due) = change::due_at(grain, activation, &self.ages, self.age) else {
            return false;
        };
        due <= self.clock.get()
    }
}

/// The moment of the next note of the grain's activation, if it isn't due: the one from which it is due, or the one from which it
/// would be due if it were used now.
fn later_note(
    grain: &GrainId,
    activation: &Activation,
    clock: Moment,
    ages: &AgeTable,
    age: Age,
) -> Option<u64>
    ensures { IfSome result (λ moment. IsInTime clock (kind_age ages.now age grain.now.kind) (record activation.now { noted = moment })) }
{
    let latest = change::due_if_used(grain, clock, ages, age);
    let Some(due) = change::due_at(grain, activation, ages, age) else {
        return Some(latest);
    };
    if due <= clock.get() {
        return None;
    }
    Some(due.min(latest))
}
