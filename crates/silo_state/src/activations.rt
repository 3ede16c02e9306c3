//! The activations of all grains, as entries, the note of each, and the clock.

ghost use Rattle.std.specs.Prelude.{◌≡◌, ◌≤◌, ◌<◌, ◌^◌, IfOk, OnOk, OnErr, IfSome, None};
ghost use Rattle.std.specs.Option.{is_some, option_copied, option_map};
ghost use Rattle.std.specs.FinMap as map;
ghost use Rattle.silo_model.specs.Contexts.{active_in};
ghost use Rattle.silo_state.specs.Shown.{entry_of};
ghost use Rattle.silo_state.specs.Marks.{AreMarked};
ghost use Rattle.silo_state.specs.Entries.{Activates, Begins, opened_turn};

use crate::change;
use activation_directory::{Activation, Directory};
use grain_id::{GrainId, HashSeed};
use grain_logic::{GrainLogic, OpenedTurn};
use idle_collector::{AgeTable, Collector};
use silo_event::{Answer, Moment};
use std::alloc::{AllocError, Global};
use std::marker::{Model, PhantomData};
use tenant_gate::Age;

mod accept;
mod close;
mod entering;
mod idle;
mod kept;
mod resumed;
mod sweep;
mod walk;

/// The activations of all grains, and the clock. Each request is marked as one that only reads exactly if the logic
/// says so of its method. The collector has a note of each activation, of a moment that isn't later than the one from which it
/// is due if it is idle, nor than the one from which it would be due if it were used now. So a use of an activation needs no
/// other note: a sweep looks at those whose note's moment has come, and gives those that aren't due yet a later one. (Orleans's
/// collector of activations does so, too.)
#[derive(Drop)]
pub struct Activations<L: GrainLogic> {
    clock: Moment,
    age: Age,
    ages: AgeTable,
    directory: Directory,
    collector: Collector,
    of: PhantomData<L>,
}

impl<L: GrainLogic> Model for Activations<L> {
    ghost use Rattle.std.specs.Coded.{codes};
    ghost use Rattle.request_codec.specs.Code.{coded_tree};
    ghost use Rattle.grain_id.specs.Names.{coded_grain};
    ghost use Rattle.idle_collector.specs.Ages.{kind_age};
    ghost use Rattle.silo_model.specs.Codes.{by_grain_code, by_number_code};
    ghost use Rattle.silo_state.specs.inside.Activations.{Activations, shown};
    ghost use Rattle.silo_state.specs.Marks.{AllMarked};
    ghost use Rattle.silo_state.specs.inside.Notes.{AreNoted};

    ghost Value = { Activations };

    ghost coded = { Prim.hlevel (codes, coded_grain, by_grain_code, by_number_code, coded_tree) };

    ghost view = { λ a. shown a.clock a.age a.ages a.directory.activations a.collector };

    ghost invariant = { λ a. AllMarked L.logic a.directory.activations
        × AreNoted a.clock (kind_age a.ages a.age) a.directory.activations a.collector.notes };
}

impl<L: GrainLogic> Activations<L> {
    /// No grain has an activation, and this is the moment. An idle one is due the age of its kind after it was last used, or
    /// later if it stays longer: the age that the table has of the kind, or else the one beside it. Grains are found by hashes
    /// from the seed.
    pub fn new(
        alloc: Global,
        clock: Moment,
        age: Age,
        ages: AgeTable,
        seed: HashSeed,
    ) -> Activations<L>
        ensures { result ≡ record { times = record { clock = clock; age = age; ages = ages }; entries = map.empty; expected = None } }
    {
        Activations {
            clock,
            age,
            ages,
            directory: Directory::seeded(alloc, seed),
            collector: Collector::seeded(alloc, seed),
            of: PhantomData,
        }
    }

    /// The moment.
    pub fn clock(&self) -> Moment
        ensures { result ≡ self.now.times.clock }
    {
        self.clock
    }

    /// The clock goes on to this moment.
    pub fn advance(&mut self, now: Moment)
        requires { self.old.times.clock ≤ now }
        ensures { self.new ≡ record self.old { times = record self.old.times { clock = now } } }
    {
        self.clock = now;
    }

    /// The age of the kinds that have none of their own.
    pub fn age(&self) -> Age
        ensures { result ≡ self.now.times.age }
    {
        self.age
    }

    /// The ages of the kinds that have one of their own.
    pub fn ages(&self) -> &AgeTable
        ensures { result.now ≡ self.now.times.ages }
    {
        &self.ages
    }

    /// The grain's activation.
    pub fn get(&self, grain: &GrainId) -> Option<&Activation>
        ensures entry { option_map entry_of (option_copied result) ≡ map.get self.now.entries grain.now }
        ensures marked { IfSome result (λ a. AreMarked L.logic grain.now a.now.mailbox) }
    {
        self.directory.get(grain)
    }

    /// How many grains of a tenant have an activation.
    pub fn count(&self, tenant: &str) -> usize
        ensures count { result ≡ active_in self.now.entries tenant.now }
        ensures bound { result < 2 ^ 63 }
    {
        self.directory.count(tenant)
    }

    /// The grain's activation begins to load, if it waits.
    pub fn activate(&mut self, grain: &GrainId) -> Answer
        ensures activates { Activates self.old.entries grain.now result self.new.entries }
        ensures times { self.new.times ≡ self.old.times }
    {
        let Some(activation) = self.directory.get_mut(grain) else {
            return Answer::NotNow;
        };
        change::start(activation)
    }

    /// The grain's first waiting request becomes an open turn, if it may.
    ///
    /// # Errors
    ///
    /// Out of memory: nothing changed.
    pub fn begin(&mut self, grain: &GrainId) -> Result<Option<OpenedTurn>, AllocError>
        ensures begins { IfOk result (λ turn. Begins L.logic self.old.entries grain.now (is_some turn) self.new.entries) }
        ensures turn { IfOk result (λ turn. turn ≡ opened_turn L.logic grain.now (map.get self.old.entries grain.now)) }
        ensures unchanged { OnErr result (self.new.entries ≡ self.old.entries) }
        ensures times { self.new.times ≡ self.old.times }
    {
        let Some(activation) = self.directory.get_mut(grain) else {
            return Ok(None);
        };
        change::begin(grain, activation)
    }

    /// The same, with no turn handed out: whether one was opened.
    ///
    /// # Errors
    ///
    /// Out of memory: nothing changed.
    pub fn open(&mut self, grain: &GrainId) -> Result<bool, AllocError>
        ensures begins { IfOk result (λ opened. Begins L.logic self.old.entries grain.now opened self.new.entries) }
        ensures unchanged { OnErr result (self.new.entries ≡ self.old.entries) }
        ensures times { self.new.times ≡ self.old.times }
    {
        let Some(activation) = self.directory.get_mut(grain) else {
            return Ok(false);
        };
        change::open(activation)
    }
}
