//! Which activation a grain has, in one ordered map.

ghost use Rattle.std.specs.Prelude.{◌≡◌, ◌<◌, ◌^◌, not, OnOk, OnErr};
ghost use Rattle.std.specs.Option.{option_copied, option_copied_mut};
ghost use Rattle.std.specs.Borrow.{sem};
ghost use Rattle.std.specs.FinMap as map;
ghost use Rattle.grain_id.specs.Names.{Grain};
ghost use Rattle.idle_collector.specs.Ages.{kind_age};
ghost use Rattle.silo_model.specs.Idle.{is_due};
ghost use Rattle.silo_state.specs.Shown.{entry_of};
ghost use Rattle.tenant_machine.specs.inside.Sweeps.{left_of};

use activation_directory::Activation;
use grain_id::GrainId;
use idle_collector::AgeTable;
use silo_event::Moment;
use silo_state::change;
use std::alloc::{AllocError, Global};
use std::collections::BTreeMap;
use std::marker::Model;
use tenant_gate::Age;

/// The activations of a tenant's grains, grains ascending.
#[derive(Drop)]
pub struct ByGrain {
    activations: BTreeMap<GrainId, Activation>,
}

impl Model for ByGrain {
    ghost use Rattle.std.specs.Coded.{codes};
    ghost use Rattle.std.specs.FinMap.{FinMap, from_entries};
    ghost use Rattle.grain_id.specs.Names.{grain_cmp};
    ghost use Rattle.request_codec.specs.Code.{coded_tree};
    ghost use Rattle.silo_model.specs.Codes.{by_grain_code, by_number_code};
    ghost use Rattle.activation_directory.specs.declared.activation.Activation.{Activation};

    ghost Value = { FinMap grain_cmp Activation };

    ghost coded = { Prim.hlevel (codes, by_grain_code, by_number_code, coded_tree) };

    ghost view = { λ b. from_entries b.activations.entries };
}

impl ByGrain {
    ghost use Rattle.tenant_machine.specs.inside.Lending.{LendsActivation};

    /// No activations.
    pub fn new(alloc: Global) -> ByGrain
        ensures { result ≡ map.empty }
    {
        ByGrain {
            activations: BTreeMap::new(alloc),
        }
    }

    /// How many grains have an activation.
    pub fn len(&self) -> usize
        ensures count { result ≡ map.len self.now }
        ensures bound { result < 2 ^ 63 }
    {
        self.activations.len()
    }

    /// The grain's activation.
    pub fn get(&self, grain: &GrainId) -> Option<&Activation>
        ensures { option_copied result ≡ map.get self.now grain.now }
    {
        self.activations.get(grain)
    }

    /// The grain's activation, which may be changed where it stands.
    pub fn get_mut(&mut self, grain: &GrainId) -> Option<&mut Activation>
        ensures* writes_back { sem 𝓛 (LendsActivation self.entry grain.now result) }
        ensures value { option_copied_mut result ≡ map.get self.old grain.now }
    {
        self.activations.get_mut(grain)
    }

    /// The grain has this activation.
    ///
    /// # Errors
    ///
    /// Out of memory: nothing changed.
    pub fn insert(&mut self, grain: GrainId, activation: Activation) -> Result<(), AllocError>
        ensures entered { OnOk result (self.new ≡ map.insert self.old grain activation) }
        ensures unchanged { OnErr result (self.new ≡ self.old) }
    {
        match self.activations.insert(grain, activation) {
            Ok(replaced) => {
                drop(replaced);
                Ok(())
            }
            Err(refused) => {
                drop(refused);
                Err(AllocError)
            }
        }
    }

    /// Takes the grain's activation out. Takes no memory.
    pub fn remove(&mut self, grain: &GrainId) -> Option<Activation>
        ensures found { result ≡ map.get self.old grain.now }
        ensures removed { self.new ≡ map.remove self.old grain.now }
    {
        self.activations.remove(grain)
    }

    /// The activations that are due go, each by the age of its kind. Takes no memory.
    pub fn sweep(&mut self, clock: Moment, age: Age, ages: &AgeTable)
        ensures { (grain : Grain) → map.get self.new grain
            ≡ left_of clock (kind_age ages.now age grain.kind) (map.get self.old grain) }
    {
        self.activations.retain(|grain, activation| stays(grain, activation, clock, age, ages));
    }
}

/// Whether the grain's activation isn't idle, or isn't due by this moment.
fn stays(grain: &GrainId, activation: &Activation, clock: Moment, age: Age, ages: &AgeTable) -> bool
    ensures { result ≡ not (is_due clock (kind_age ages.now age grain.now.kind) (entry_of activation.now)) }
{
    if !change::is_idle(activation) {
        return true;
    }
    clock.get() < change::due_moment(grain, activation, ages, age)
}
