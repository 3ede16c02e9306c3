//! A silo that goes on from what was kept of another.

ghost use Rattle.std.specs.Prelude.{◌≡◌, ◌↔◌, ℕ, List, [], IfOk, IfSome, IsSome};
ghost use Rattle.silo_model.specs.Opening.{opening, start_of};
ghost use Rattle.silo_model.specs.Whole.{shown_to};
ghost use Rattle.silo_state.specs.KeptParts.{MayResume, resumed_setup};

use crate::setup::Setup;
use crate::silo::Silo;
use grain_id::HashSeed;
use grain_logic::GrainLogic;
use grain_storage::GrainStorage;
use silo_state::{KeptParts, SiloState, StateSetup};
use std::alloc::{AllocError, Global};

impl<S: GrainStorage + Drop, L: GrainLogic + Drop> Silo<S, L> {
    /// A silo that opens with what was kept of another, beside the storage's rows: it goes on from there, with these tenants, limits
    /// and ages. None if a count is above 2^63 - 1, or a grain's kind isn't known: nothing else may hinder it, so that what was kept
    /// may come from a file. What was kept of tenants that aren't in the setup counts for nobody. Its grains are found by hashes from
    /// this seed.
    ///
    /// # Errors
    ///
    /// Out of memory.
    pub fn resumed(
        alloc: Global,
        setup: Setup<S, L>,
        kept: KeptParts,
        seed: HashSeed,
    ) -> Result<Option<Silo<S, L>>, AllocError>
        ensures setup { IfOk result (λ found. IfSome found (λ s. s.setup
            ≡ resumed_setup setup.tenants setup.age setup.ages (S.rows setup.storage) kept)) }
        ensures opening { IfOk result (λ found. IfSome found (λ s. (s.whole ≡ opening s.setup) × (s.journal ≡ []))) }
        ensures failures { IfOk result (λ found. IfSome found (λ s. s.failures
            ≡ record { at_opening = S.failed setup.storage; now = S.failed setup.storage })) }
        ensures parts { IfOk result (λ found. IfSome found (λ s. (tenant : List ℕ) → shown_to tenant s.whole ≡ start_of s.setup tenant)) }
        ensures may { IfOk result (λ found. IsSome found ↔ MayResume L.logic kept) }
    {
        let Setup {
            tenants,
            age,
            ages,
            storage,
            logic,
        } = setup;
        let opening = storage.list(alloc)?;
        let opening_failures = storage.failures();
        let kinds = ages.clone()?;
        let begun = StateSetup {
            tenants: tenants.list(),
            age,
            ages: kinds,
            storage,
            logic,
            seed,
        };
        let Some(state) = SiloState::resumed(alloc, begun, &kept)? else {
            return Ok(None);
        };
        Ok(Some(Silo {
            tenants,
            age,
            ages,
            opening,
            kept,
            opening_failures,
            state,
            journal: Vec::new(alloc),
        }))
    }
}
