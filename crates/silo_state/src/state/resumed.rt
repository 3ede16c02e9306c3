//! A silo's state that goes on from what was kept of another.

ghost use Rattle.std.specs.Prelude.{◌≡◌, ◌↔◌, IfOk, IfSome, IsSome, IsTrue};
ghost use Rattle.silo_model.specs.Opening.{opening};
ghost use Rattle.silo_state.specs.KeptParts.{AllKnown, MayResume, resumed_setup};

use crate::activations::Activations;
use crate::parts::{GrainParts, KeptParts};
use crate::state::{SiloState, StateSetup};
use grain_id::GrainId;
use grain_logic::GrainLogic;
use grain_storage::GrainStorage;
use std::alloc::{AllocError, Global};
use tenant_accounts::Accounts;

/// Whether the logic knows the kind of each grain.
fn knows_all<L: GrainLogic>(logic: &L, grains: &[(GrainId, GrainParts)]) -> bool
    ensures { IsTrue result ↔ AllKnown L.logic grains.now }
{
    'grains: for (grain, _) in grains {
        if !logic.knows(grain.kind()) {
            return false;
        }
    }
    true
}

impl<S: GrainStorage + Drop, L: GrainLogic + Drop> SiloState<S, L> {
    /// It goes on from what was kept of another: the clock, of each tenant of the setup how many requests were accepted and what its
    /// grains sent, and the grains, which are active and idle. None if a count is above 2^63 - 1, or a grain's kind isn't known. What
    /// was kept of tenants that aren't in the setup has no account.
    ///
    /// # Errors
    ///
    /// Out of memory.
    pub fn resumed(
        alloc: Global,
        setup: StateSetup<'_, S, L>,
        kept: &KeptParts,
    ) -> Result<Option<SiloState<S, L>>, AllocError>
        ensures resumed { IfOk result (λ found. IfSome found (λ b. b ≡ record {
          whole = opening
              (resumed_setup setup.entry.tenants.now setup.entry.age setup.entry.ages (S.rows setup.entry.storage) kept.now);
          failures = S.failed setup.entry.storage;
        })) }
        ensures may { IfOk result (λ found. IsSome found ↔ MayResume L.logic kept.now) }
    {
        let StateSetup {
            tenants,
            age,
            ages,
            storage,
            logic,
            seed,
        } = setup;
        let grains = kept.grains.as_slice();
        if !knows_all(&logic, grains) {
            return Ok(None);
        }
        let Some(accounts) = Accounts::resumed(alloc, tenants, kept.accounts.as_slice())? else {
            return Ok(None);
        };
        Ok(Some(SiloState {
            accounts,
            activations: Activations::resumed(alloc, kept.clock, age, ages, seed, grains)?,
            storage,
            logic,
            replies: Vec::new(alloc),
        }))
    }
}
