//! The places of lanes, by whose they are.

ghost use Rattle.std.specs.Prelude.{◌≡◌, Option, Some, None, OnOk, if◌then◌else◌};
ghost use Rattle.grain_id.specs.Names.{Client};
ghost use Rattle.lane_model.specs.Asking.{asker_of};
ghost use Rattle.lane_model.specs.Lanes.{same_lane};
ghost use Rattle.line_service.specs.inside.Places.{place_of};

use grain_id::{Caller, HashSeed};
use indexmap::IndexMap;
use silo_event::Step;
use std::alloc::{AllocError, Global};

/// The place of nobody's lane, if there is one, and that of each client's.
#[derive(Drop)]
pub(crate) struct LanePlaces {
    nobody: Option<usize>,
    clients: IndexMap<Caller, usize, HashSeed>,
}

impl LanePlaces {
    /// No places. Clients are found by hashes from the seed.
    pub(crate) fn seeded(alloc: Global, seed: HashSeed) -> LanePlaces
        ensures { (giver : Option Client) → place_of result giver ≡ None }
    {
        LanePlaces {
            nobody: None,
            clients: IndexMap::with_hasher(alloc, seed),
        }
    }

    /// The place of the lane that gives the step, if there is one.
    pub(crate) fn place_for(&self, step: &Step) -> Option<usize>
        ensures { result ≡ place_of self.now (asker_of step.now) }
    {
        match step.asker() {
            Some(caller) => self.clients.get(caller).copied(),
            None => self.nobody,
        }
    }

    /// The lane of this client, or nobody's, has this place.
    ///
    /// # Errors
    ///
    /// Out of memory.
    pub(crate) fn put(&mut self, giver: Option<Caller>, place: usize) -> Result<(), AllocError>
        ensures { OnOk result ((other : Option Client) → place_of self.new other
            ≡ (if same_lane giver other then Some place else place_of self.old other)) }
    {
        match giver {
            Some(caller) => {
                self.clients.insert(caller, place)?;
            }
            None => {
                self.nobody = Some(place);
            }
        }
        Ok(())
    }
}
