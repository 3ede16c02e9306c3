//! Which activation a grain has.

ghost use Rattle.std.specs.Prelude.{◌≡◌, ◌<◌, ◌^◌, ◌++◌, ◌∷◌, [], Some, None, OnOk, OnErr, IfErr, IfNone, IfSome, IsSome, slice_get};
ghost use Rattle.std.specs.Prelude.{length};
ghost use Rattle.std.specs.Option.{option_copied, option_copied_mut, option_map};
ghost use Rattle.std.specs.List.{IsDistinct};
ghost use Rattle.std.specs.FinMap as map;
ghost use Rattle.std.specs.Borrow.{sem};
ghost use Rattle.indexmap.specs.IndexMap.{swap_remove_by};
ghost use Rattle.grain_id.specs.Names.{Grain, grain_eq};
ghost use Rattle.activation_directory.specs.inside.Counts.{count_in};
ghost use Rattle.activation_directory.specs.Register.{StandsIn};

use crate::activation::Activation;
use crate::counts;
use crate::latest_place::{Places, found};
use grain_id::{GrainId, HashSeed};
use indexmap::IndexMap;
use slab::Slab;
use std::alloc::Global;
use std::marker::Model;

/// The activations of all grains. Each stands at a place of a slab, and its grain leads there; a place
/// that was left is used again. Beside them stands the number of each tenant's grains.
#[derive(Drop)]
pub struct Directory {
    places: Places,
    activations: Slab<Activation>,
    numbers: IndexMap<String, usize, HashSeed>,
    /// Where the grain that was looked up last stood among the places: a hint.
    latest: usize,
}

impl Model for Directory {
    ghost use Rattle.std.specs.Coded.{codes};
    ghost use Rattle.request_codec.specs.Code.{coded_tree};
    ghost use Rattle.turn_mailbox.specs.Kept.{by_number_code};
    ghost use Rattle.activation_directory.specs.Register.{Register, by_grain_code};
    ghost use Rattle.activation_directory.specs.inside.Kept.{shown, IsDirectory};

    ghost Value = { Register };

    ghost coded = { Prim.hlevel (codes, by_grain_code, by_number_code, coded_tree) };

    ghost view = { λ d. shown d.places.entries d.activations };

    ghost invariant = { λ d. IsDirectory d.places.entries d.activations d.numbers };
}

impl Directory {
    ghost use Rattle.activation_directory.specs.inside.Lending.{LendsActivation};

    /// No activations. Grains will be found by hashes from the fixed seed.
    pub fn new(alloc: Global) -> Directory
        ensures { result ≡ record { activations = map.empty; order = [] } }
    {
        Directory::seeded(alloc, HashSeed::fixed())
    }

    /// No activations. Grains will be found by hashes from this seed.
    pub fn seeded(alloc: Global, seed: HashSeed) -> Directory
        ensures { result ≡ record { activations = map.empty; order = [] } }
    {
        Directory {
            places: IndexMap::with_hasher(alloc, seed),
            activations: Slab::new(alloc),
            numbers: IndexMap::with_hasher(alloc, seed),
            latest: 0,
        }
    }

    /// The grain's activation.
    #[inline(never)]
    pub fn get(&self, id: &GrainId) -> Option<&Activation>
        ensures { option_copied result ≡ map.get self.now.activations id.now }
    {
        let found = found(self.latest, &self.places, id)?;
        self.activations.get(found.place)
    }

    /// The grain's activation, which may be changed where it stands.
    #[inline(never)]
    pub fn get_mut(&mut self, id: &GrainId) -> Option<&mut Activation>
        ensures* writes_back { sem 𝓛 (LendsActivation self.entry id.now result) }
        ensures value { option_copied_mut result ≡ map.get self.old.activations id.now }
    {
        let found = found(self.latest, &self.places, id)?;
        self.latest = found.index;
        self.activations.get_mut(found.place)
    }

    /// Adds an activation of a grain that has none, as the last of the order.
    ///
    /// # Errors
    ///
    /// Out of memory: the grain and the activation come back, and the directory is as before.
    pub fn insert(
        &mut self,
        alloc: Global,
        id: GrainId,
        activation: Activation,
    ) -> Result<(), (GrainId, Activation)>
        requires { map.get self.old.activations id ≡ None }
        ensures entered { OnOk result (self.new.activations ≡ map.insert self.old.activations id activation) }
        ensures order { OnOk result (self.new.order ≡ self.old.order ++ id ∷ []) }
        ensures given_back { IfErr result (λ pair. pair ≡ (id, activation)) }
        ensures unchanged { OnErr result (self.new ≡ self.old) }
    {
        if self.activations.reserve(1).is_err() {
            return Err((id, activation));
        }
        if self.places.reserve(1).is_err() {
            return Err((id, activation));
        }
        if counts::start(alloc, &mut self.numbers, id.tenant()).is_err() {
            return Err((id, activation));
        }
        let before = self.places.len();
        prove!(before < usize::MAX);
        counts::add_one(&mut self.numbers, id.tenant());
        self.latest = before;
        let place = self.activations.insert_reserved(activation);
        match self.places.insert(id, place) {
            Ok(_) => Ok(()),
            Err(_) => unreachable!(),
        }
    }

    /// Takes the grain's activation out, and moves the last grain of the order to its place. Takes no memory.
    pub fn remove(&mut self, id: &GrainId) -> Option<Activation>
        ensures found { result ≡ map.get self.old.activations id.now }
        ensures removed { self.new.activations ≡ map.remove self.old.activations id.now }
        ensures order { self.new.order ≡ swap_remove_by (grain_eq id.now) self.old.order }
        ensures unchanged { IfNone result (self.new ≡ self.old) }
    {
        let place = self.places.swap_remove(id)?;
        counts::take_one(&mut self.numbers, id.tenant());
        self.activations.try_remove(place)
    }

    /// How many grains of a tenant have an activation, by one look-up.
    pub fn count(&self, tenant: &str) -> usize
        ensures count { result ≡ count_in self.now.activations tenant.now }
        ensures bound { result < 2 ^ 63 }
    {
        let _all = self.places.len();
        counts::of(&self.numbers, tenant)
    }

    /// How many grains have an activation, which is how many stand in the order, each of them once.
    pub fn len(&self) -> usize
        ensures activations { result ≡ map.len self.now.activations }
        ensures order { result ≡ length self.now.order }
        ensures once { IsDistinct grain_eq self.now.order }
        ensures all { (id : Grain) → IsSome (map.get self.now.activations id) → StandsIn self.now.order id }
    {
        self.places.len()
    }

    /// The grain and its activation at that place of the order. The places below `len` show each grain
    /// that has one once, as the clauses of `len` say.
    pub fn at(&self, place: usize) -> Option<(&GrainId, &Activation)>
        ensures id { option_map (λ entry. entry.0.now) result ≡ slice_get self.now.order place }
        ensures activation { IfSome result (λ entry. map.get self.now.activations entry.0.now ≡ Some entry.1.now) }
    {
        let (id, slot) = self.places.get_index(place)?;
        let activation = self.activations.get(*slot)?;
        Some((id, activation))
    }
}
