//! What a silo of the program starts from.

ghost use Rattle.std.specs.Prelude.{◌≡◌, [], false, true, IfOk};
ghost use Rattle.silo_model.specs.Opening.{opening};
ghost use Rattle.command_parts.specs.Setups.{setup_of};

use grain_id::HashSeed;
use grain_logic::GrainLogic;
use grain_storage::MemoryStorage;
use idle_collector::AgeTable;
use line_answer::AnsweringSilo;
use silo_core::Setup;
use std::alloc::{AllocError, Global};
use tenant_gate::{Age, TenantTable};

/// What a silo of the program starts from, over no rows.
#[derive(Drop)]
pub struct Start<L: GrainLogic> {
    /// By which its maps hash.
    pub seed: HashSeed,
    pub tenants: TenantTable,
    pub age: Age,
    pub ages: AgeTable,
    /// What its grains do.
    pub logic: L,
    /// The number by which a journal or a log names the logic.
    pub kinds: u8,
}

/// A silo over no rows that answers lines.
pub fn new_silo<L: GrainLogic + Drop>(
    alloc: Global,
    start: Start<L>,
) -> Result<AnsweringSilo<MemoryStorage, L>, AllocError>
    ensures setup { IfOk result (λ s. s.history.setup ≡ setup_of start.tenants start.age start.ages) }
    ensures opening { IfOk result (λ s. (s.history.whole ≡ opening (setup_of start.tenants start.age start.ages))
        × (s.history.journal ≡ [])) }
    ensures opened { IfOk result (λ s. s.history.whole ≡ opening s.history.setup) }
    ensures failures { IfOk result (λ s. s.history.failures ≡ record { at_opening = 0; now = 0 }) }
    ensures ready { IfOk result (λ s. s.stopped ≡ false) }
    ensures keeps { IfOk result (λ s. s.keeps ≡ true) }
{
    let seed = start.seed;
    AnsweringSilo::seeded(
        alloc,
        Setup {
            tenants: start.tenants,
            age: start.age,
            ages: start.ages,
            storage: MemoryStorage::seeded(alloc, seed),
            logic: start.logic,
        },
        seed,
    )
}
