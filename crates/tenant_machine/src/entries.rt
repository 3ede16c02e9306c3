//! The activations of a tenant's grains, as entries.

ghost use Rattle.std.specs.Prelude.{◌≡◌, ◌<◌, ◌^◌, true, false, IfOk, OnOk, OnErr, IfSome, Some};
ghost use Rattle.std.specs.Option.{option_copied, option_map};
ghost use Rattle.std.specs.FinMap as map;
ghost use Rattle.grain_logic.specs.Laws.{IsKeep};
ghost use Rattle.grain_logic.specs.Planned.{keep_of};
ghost use Rattle.idle_collector.specs.Ages.{kind_age};
ghost use Rattle.silo_model.specs.Calls.{with_request};
ghost use Rattle.silo_model.specs.Idle.{kept_entries};
ghost use Rattle.silo_model.specs.Machine.{Entry, ready};
ghost use Rattle.silo_state.specs.Entries.{Activates, Begins, Closes};
ghost use Rattle.silo_state.specs.Marks.{AreMarked, IsMarked};
ghost use Rattle.silo_state.specs.Shown.{entry_of, phase_of, request_of};

use crate::by_grain::ByGrain;
use activation_directory::{Activation, Phase};
use grain_id::GrainId;
use grain_logic::{GrainLogic, Keep};
use idle_collector::AgeTable;
use request_codec::StateBytes;
use silo_event::{Answer, Moment, Party};
use silo_state::{arrival, change};
use std::alloc::{AllocError, Global};
use std::marker::{Model, PhantomData};
use tenant_gate::Age;
use turn_mailbox::Request;

/// The activations of a tenant's grains. Each request is marked as one that only reads exactly if the
/// logic says so of its method.
#[derive(Drop)]
pub struct Entries<L: GrainLogic> {
    by_grain: ByGrain,
    of: PhantomData<L>,
}

impl<L: GrainLogic> Model for Entries<L> {
    ghost use Rattle.std.specs.Coded.{codes};
    ghost use Rattle.request_codec.specs.Code.{coded_tree};
    ghost use Rattle.silo_model.specs.Codes.{by_grain_code, by_number_code};
    ghost use Rattle.silo_model.specs.Machine as model;
    ghost use Rattle.silo_state.specs.Shown.{entries_of};
    ghost use Rattle.silo_state.specs.Marks.{AllMarked};

    ghost Value = { model.Entries };

    ghost coded = { Prim.hlevel (codes, by_grain_code, by_number_code, coded_tree) };

    ghost view = { λ e. entries_of e.by_grain };

    ghost invariant = { λ e. AllMarked L.logic e.by_grain };
}

impl<L: GrainLogic> Entries<L> {
    /// No grain has an activation.
    pub fn new(alloc: Global) -> Entries<L>
        ensures { result ≡ map.empty }
    {
        Entries {
            by_grain: ByGrain::new(alloc),
            of: PhantomData,
        }
    }

    /// How many grains have an activation.
    pub fn len(&self) -> usize
        ensures count { result ≡ map.len self.now }
        ensures bound { result < 2 ^ 63 }
    {
        self.by_grain.len()
    }

    /// The grain's activation.
    pub fn get(&self, grain: &GrainId) -> Option<&Activation>
        ensures entry { option_map entry_of (option_copied result) ≡ map.get self.now grain.now }
        ensures marked { IfSome result (λ a. AreMarked L.logic grain.now a.now.mailbox) }
    {
        self.by_grain.get(grain)
    }

    /// One request more waits at the grain, from this moment on. A grain that has no activation gets
    /// one.
    ///
    /// # Errors
    ///
    /// Out of memory: nothing changed.
    pub fn wait(
        &mut self,
        alloc: Global,
        grain: &GrainId,
        request: Request,
        clock: Moment,
    ) -> Result<(), AllocError>
        requires known { L.logic.knows grain.now.kind ≡ true }
        requires marked { IsMarked L.logic grain.now request }
        ensures waits { OnOk result (self.new ≡ map.insert self.old grain.now
            (with_request clock (request_of request) (map.get self.old grain.now))) }
        ensures unchanged { OnErr result (self.new ≡ self.old) }
    {
        if let Some(activation) = self.by_grain.get_mut(grain) {
            return arrival::arrive(activation, request, clock);
        }
        let named = grain.clone()?;
        let activation = arrival::first(alloc, request, clock)?;
        self.by_grain.insert(named, activation)?;
        Ok(())
    }

    /// The grain's activation begins to load, if it waits.
    pub fn activate(&mut self, grain: &GrainId) -> Answer
        ensures { Activates self.old grain.now result self.new }
    {
        let Some(activation) = self.by_grain.get_mut(grain) else {
            return Answer::NotNow;
        };
        change::start(activation)
    }

    /// The grain's activation is ready in this state, which stands on this version, and neither rests nor
    /// stays. Takes no memory.
    pub fn make_ready(&mut self, grain: &GrainId, state: StateBytes, version: Option<u64>)
        ensures { (e : Entry) → map.get self.old grain.now ≡ Some e → self.new
            ≡ map.insert self.old grain.now (record e { phase = ready state version; until = 0; resting = false }) }
    {
        let Some(activation) = self.by_grain.get_mut(grain) else {
            return;
        };
        change::make_ready(activation, state, version);
    }

    /// The grain's first waiting request becomes an open turn, if it may: whether it did.
    ///
    /// # Errors
    ///
    /// Out of memory: nothing changed.
    pub fn open(&mut self, grain: &GrainId) -> Result<bool, AllocError>
        ensures begins { IfOk result (λ opened. Begins L.logic self.old grain.now opened self.new) }
        ensures unchanged { OnErr result (self.new ≡ self.old) }
    {
        let Some(activation) = self.by_grain.get_mut(grain) else {
            return Ok(false);
        };
        change::open(activation)
    }

    /// Closes the grain's turn of that number, and returns who sent its request. The activation is then in this phase,
    /// if one is given, was last used at this moment, and is as the turn said of it; it is dropped if it rests and is
    /// idle. Takes no memory.
    pub fn close(
        &mut self,
        grain: &GrainId,
        turn: u64,
        phase: Option<Phase>,
        keep: Keep,
        last: Moment,
    ) -> Option<Party>
        requires { IsKeep (keep_of keep) }
        ensures { Closes self.old grain.now turn (option_map phase_of phase) (keep_of keep) last result self.new }
    {
        let Some(activation) = self.by_grain.get_mut(grain) else {
            return None;
        };
        let Some(sender) = change::close(activation, turn, phase, keep, last) else {
            return None;
        };
        if change::goes(activation) {
            drop(self.by_grain.remove(grain));
            return Some(sender);
        }
        Some(sender)
    }

    /// Takes the grain's activation out. Takes no memory.
    pub fn remove(&mut self, grain: &GrainId) -> Option<Activation>
        ensures found { option_map entry_of result ≡ map.get self.old grain.now }
        ensures removed { self.new ≡ map.remove self.old grain.now }
    {
        self.by_grain.remove(grain)
    }

    /// The activations that are due go, each by the age of its kind. Takes no memory.
    pub fn sweep(&mut self, clock: Moment, age: Age, ages: &AgeTable)
        ensures { self.new ≡ kept_entries clock (kind_age ages.now age) self.old }
    {
        self.by_grain.sweep(clock, age, ages);
    }
}
