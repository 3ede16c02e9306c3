//! The moments from which grains are due.

ghost use Rattle.std.specs.Prelude.{◌≡◌, OnOk, OnErr, IfOk, IfSome, None, Some};
ghost use Rattle.std.specs.FinMap as map;
ghost use Rattle.idle_collector.specs.Notes.{noted, noted_if, forgotten, due, HoldsDue};

use crate::by_moment::ByMoment;
use crate::latest::{self, Latest};
use grain_id::{GrainId, HashSeed};
use std::alloc::{AllocError, Global};
use std::marker::Model;
use std::mem::replace;

/// The moment of each grain that is noted. The note that came last is held aside; the others are filed by their moments. A grain
/// that is to be noted is expected: there is room for its note.
#[derive(Drop)]
pub struct Collector {
    latest: Latest,
    filed: ByMoment,
}

impl Model for Collector {
    ghost use Rattle.idle_collector.specs.Notes.{Collection, coded_collection};
    ghost use Rattle.idle_collector.specs.inside.Aside.{held_with, IsApart};

    ghost Value = { Collection };

    ghost coded = { coded_collection };

    ghost view = { λ c. held_with c.latest c.filed };

    ghost invariant = { λ c. IsApart c.latest c.filed };
}

impl Collector {
    /// Nothing is noted, and nothing expected. Grains will be found by hashes from the fixed seed.
    pub fn new(alloc: Global) -> Collector
        ensures { result ≡ record { notes = map.empty; expected = None } }
    {
        Collector::seeded(alloc, HashSeed::fixed())
    }

    /// Nothing is noted, and nothing expected. Grains will be found by hashes from this seed.
    pub fn seeded(alloc: Global, seed: HashSeed) -> Collector
        ensures { result ≡ record { notes = map.empty; expected = None } }
    {
        Collector {
            latest: Latest::Nobody,
            filed: ByMoment::new(alloc, seed),
        }
    }

    /// Makes room for the note of a grain that may be idle soon. There is room for one note alone. Takes no memory if
    /// the grain is the one that came last, and its note was dropped.
    ///
    /// # Errors
    ///
    /// Out of memory: nothing changed.
    pub fn expect(&mut self, id: &GrainId) -> Result<(), AllocError>
        ensures expected { OnOk result (self.new ≡ record self.old { expected = Some id.now }) }
        ensures unchanged { OnErr result (self.new ≡ self.old) }
    {
        if latest::is_free(&self.latest, id) {
            latest::call_back(&mut self.latest);
            return Ok(());
        }
        let named = id.clone()?;
        latest::put_by(&self.latest, &mut self.filed)?;
        self.latest = Latest::Expected(named);
        Ok(())
    }

    /// Notes the moment from which the grain that is expected is due. It has no earlier note. Takes no memory.
    pub fn note_expected(&mut self, moment: u64)
        requires { IfSome self.old.expected (λ id. map.get self.old.notes id ≡ None) }
        ensures { self.new ≡ record { notes = noted_if self.old.notes self.old.expected moment; expected = None } }
    {
        match replace(&mut self.latest, Latest::Nobody) {
            Latest::Expected(id) => self.latest = Latest::Noted(id, moment),
            noted => self.latest = noted,
        }
    }

    /// Notes the moment from which a grain is due, in place of its earlier note. No grain is expected then.
    ///
    /// # Errors
    ///
    /// Out of memory: nothing changed.
    pub fn note(&mut self, id: GrainId, moment: u64) -> Result<(), AllocError>
        ensures noted { OnOk result (self.new ≡ record { notes = noted self.old.notes id moment; expected = None }) }
        ensures unchanged { OnErr result (self.new ≡ self.old) }
    {
        self.expect(&id)?;
        self.forget(&id);
        self.note_expected(moment);
        Ok(())
    }

    /// Drops the note of a grain, if there is one. Takes no memory. Looks for the grain among those of each moment;
    /// `forget_at` looks among those of one.
    pub fn forget(&mut self, id: &GrainId)
        ensures { self.new ≡ record self.old { notes = forgotten self.old.notes id.now } }
    {
        if latest::is_of(&self.latest, id) {
            latest::leave(&mut self.latest);
            return;
        }
        let Some(noted_at) = self.filed.moment_of(id) else {
            return;
        };
        self.filed.forget(id, noted_at);
    }

    /// Drops the note of a grain, if there is one: it is of this moment. Takes no memory.
    pub fn forget_at(&mut self, id: &GrainId, moment: u64)
        requires { IfSome (map.get self.old.notes id.now) (λ noted. noted ≡ moment) }
        ensures { self.new ≡ record self.old { notes = forgotten self.old.notes id.now } }
    {
        if latest::is_of(&self.latest, id) {
            latest::leave(&mut self.latest);
            return;
        }
        self.filed.forget(id, moment);
    }

    /// The grains whose moment is `now` or earlier, ascending. Looks at the grains that are due, and at
    /// two more.
    ///
    /// # Errors
    ///
    /// Out of memory.
    pub fn due(&self, alloc: Global, now: u64) -> Result<Vec<GrainId>, AllocError>
        ensures { IfOk result (λ grains. grains.items ≡ due self.now.notes now) }
    {
        let mut grains = self.all_due(alloc, now)?;
        grains.sort_unstable();
        Ok(grains)
    }

    /// The grains whose moment is `now` or earlier: each of them once, in an unspecified order. Looks at the grains
    /// that are due, and at two more.
    ///
    /// # Errors
    ///
    /// Out of memory.
    pub fn all_due(&self, alloc: Global, now: u64) -> Result<Vec<GrainId>, AllocError>
        ensures { IfOk result (λ grains. HoldsDue self.now.notes now grains.items) }
    {
        let mut grains = self.filed.first_due(alloc, now)?;
        latest::add_due(&self.latest, now, &mut grains)?;
        Ok(grains)
    }
}
