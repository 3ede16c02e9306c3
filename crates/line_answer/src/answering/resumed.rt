//! A silo that answers at once, and goes on from what was kept of another.

ghost use Rattle.std.specs.Prelude.{◌≡◌, ◌↔◌, [], false, true, IfOk, IfSome, IsSome};
ghost use Rattle.silo_model.specs.Opening.{opening};
ghost use Rattle.silo_state.specs.KeptParts.{MayResume, resumed_setup};

use crate::answering::{AnsweringSilo, LEAST_HISTORY};
use grain_id::HashSeed;
use grain_logic::GrainLogic;
use grain_storage::GrainStorage;
use silo_core::{Setup, Silo};
use silo_state::KeptParts;
use std::alloc::{AllocError, Global};

impl<S: GrainStorage + Drop, L: GrainLogic + Drop> AnsweringSilo<S, L> {
    /// A silo that opens with what was kept of another, beside the storage's rows, as `Silo::resumed` makes it. None if a count is
    /// above 2^63 - 1, or a grain's kind isn't known.
    ///
    /// # Errors
    ///
    /// Out of memory.
    pub fn resumed(
        alloc: Global,
        setup: Setup<S, L>,
        kept: KeptParts,
        seed: HashSeed,
    ) -> Result<Option<AnsweringSilo<S, L>>, AllocError>
        ensures setup { IfOk result (λ found. IfSome found (λ a. a.history.setup
            ≡ resumed_setup setup.tenants setup.age setup.ages (S.rows setup.storage) kept)) }
        ensures opening { IfOk result (λ found. IfSome found (λ a. (a.history.whole ≡ opening a.history.setup)
            × (a.history.journal ≡ []))) }
        ensures failures { IfOk result (λ found. IfSome found (λ a. a.history.failures
            ≡ record { at_opening = S.failed setup.storage; now = S.failed setup.storage })) }
        ensures ready { IfOk result (λ found. IfSome found (λ a. a.stopped ≡ false)) }
        ensures keeps { IfOk result (λ found. IfSome found (λ a. a.keeps ≡ true)) }
        ensures may { IfOk result (λ found. IsSome found ↔ MayResume L.logic kept) }
    {
        let Some(silo) = Silo::resumed(alloc, setup, kept, seed)? else {
            return Ok(None);
        };
        Ok(Some(AnsweringSilo {
            silo,
            stopped: false,
            keeps: true,
            grown: 0,
            weighed: 0,
            due: LEAST_HISTORY,
        }))
    }
}
