//! Activations that are opened with what was kept of others.

ghost use Rattle.std.specs.Prelude.{◌≡◌, true, IfOk, OnErr, OnOk};
ghost use Rattle.finite_maps.specs.Mapped.{map_values};
ghost use Rattle.idle_collector.specs.Ages.{kind_age};
ghost use Rattle.silo_model.specs.Opening.{awake};
ghost use Rattle.silo_state.specs.KeptParts.{AllKnown, grains_in, kept_grain_in};
ghost use Rattle.silo_state.specs.inside.Resuming.{IsIdleFrom, with_idle};

use crate::activations::Activations;
use crate::activations::entering::enter;
use crate::change;
use crate::parts::GrainParts;
use activation_directory::{Activation, Phase};
use grain_id::{GrainId, HashSeed};
use grain_logic::GrainLogic;
use idle_collector::AgeTable;
use silo_event::Moment;
use std::alloc::{AllocError, Global};
use tenant_gate::Age;
use turn_mailbox::Mailbox;

impl<L: GrainLogic> Activations<L> {
    /// Each of these grains is active and idle, with what is kept of it, and this is the moment. Of a grain that stands twice the
    /// first counts. An age is as that of `new`.
    ///
    /// # Errors
    ///
    /// Out of memory.
    pub fn resumed(
        alloc: Global,
        clock: Moment,
        age: Age,
        ages: AgeTable,
        seed: HashSeed,
        grains: &[(GrainId, GrainParts)],
    ) -> Result<Activations<L>, AllocError>
        requires { AllKnown L.logic grains.now }
        ensures entries { IfOk result (λ a. a.entries ≡ map_values awake (grains_in grains.now)) }
        ensures times { IfOk result (λ a. a.times ≡ record { clock = clock; age = age; ages = ages }) }
    {
        let mut activations = Activations::new(alloc, clock, age, ages, seed);
        'grains: for (grain, parts) in grains {
            activations.put_idle(alloc, grain, parts)?;
        }
        Ok(activations)
    }

    /// A grain that has no activation gets one that is idle, and a note of it: the earlier of the moments from which it is due and
    /// from which it would be due if it were used now.
    ///
    /// # Errors
    ///
    /// Out of memory: nothing changed.
    fn put_idle(
        &mut self,
        alloc: Global,
        grain: &GrainId,
        parts: &GrainParts,
    ) -> Result<(), AllocError>
        requires { L.logic.knows grain.now.kind ≡ true }
        ensures put { OnOk result (self.new.entries ≡ with_idle self.old.entries grain.now (kept_grain_in parts.now)) }
        ensures unchanged { OnErr result (self.new.entries ≡ self.old.entries) }
        ensures times { self.new.times ≡ self.old.times }
    {
        if self.directory.get(grain).is_some() {
            return Ok(());
        }
        let activation = idle_from(alloc, parts)?;
        let latest = change::due_if_used(grain, self.clock, &self.ages, self.age);
        let due = change::due_moment(grain, &activation, &self.ages, self.age);
        self.collector.expect(grain)?;
        let noted = due.min(latest);
        enter(alloc, &mut self.directory, grain, activation, noted)?;
        self.collector.note_expected(noted);
        Ok(())
    }
}

/// An activation that is idle, with what is kept of another. Its mailbox grows as requests wait.
fn idle_from(alloc: Global, parts: &GrainParts) -> Result<Activation, AllocError>
    ensures { IfOk result (IsIdleFrom parts.now) }
{
    Ok(Activation {
        phase: Phase::Ready {
            state: parts.state.clone()?,
            version: parts.version,
        },
        mailbox: Mailbox::new(alloc, 1)?,
        last: parts.last,
        until: parts.until,
        resting: false,
        noted: 0,
    })
}
