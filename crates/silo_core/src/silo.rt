//! The silo, and the journal that led to what it shows.

ghost use Rattle.std.specs.Prelude.{◌≡◌, ◌↔◌, ◌<◌, ◌++◌, ℕ, List, [], IfOk, IsTrue, vec_len, vec_capacity};
ghost use Rattle.std.specs.FinMap.{entries};
ghost use Rattle.silo_model.specs.Opening.{new_setup, opening, start_of};
ghost use Rattle.silo_model.specs.Whole.{shown_to};
ghost use Rattle.silo_model.specs.Run.{restricted_to};
ghost use Rattle.silo_model.specs.Journal.{LeadsTo};
ghost use Rattle.silo_model.specs.Exclusive.{Exclusive, done_answers};
ghost use Rattle.silo_model.specs.Settled.{Settled};
ghost use Rattle.tenant_gate.specs.Age.{IsAge};
ghost use Rattle.silo_state.specs.KeptParts.{kept_in};
ghost use Rattle.silo_core.specs.Reopening.{OpensEmpty};
ghost use Rattle.silo_core.specs.Runs.{noted};

use crate::setup::Setup;
use crate::{replies, rows};
use grain_id::{GrainId, HashSeed, Tenant};
use grain_logic::GrainLogic;
use grain_storage::{GrainStorage, Row};
use idle_collector::AgeTable;
use silo_event::{Answer, Reply, Step};
use silo_state::{KeptParts, SiloState};
use std::alloc::{AllocError, Global};
use std::marker::Model;
use tenant_gate::{Age, TenantTable};

mod at_once;
mod reopen;
mod resumed;
mod run;
mod steps;
mod todo;
mod work;

pub use run::RunReport;

/// A silo: what its tenants have, beside the rows, what was kept and the failures that it opened with,
/// and the journal that led from there.
#[derive(Drop)]
pub struct Silo<S: GrainStorage, L: GrainLogic> {
    tenants: TenantTable,
    age: Age,
    ages: AgeTable,
    opening: Vec<(GrainId, Row)>,
    kept: KeptParts,
    opening_failures: u64,
    state: SiloState<S, L>,
    journal: Vec<Step>,
}

impl<S: GrainStorage, L: GrainLogic> Model for Silo<S, L> {
    ghost use Rattle.std.specs.Coded.{codes};
    ghost use Rattle.request_codec.specs.Code.{coded_tree};
    ghost use Rattle.request_codec.specs.contracts.state.StateBytes as state_bytes;
    ghost use Rattle.silo_model.specs.Codes.{by_grain_code, by_text_code, by_number_code};
    ghost use Rattle.silo_model.specs.Journal.{LeadsTo};
    ghost use Rattle.silo_core.specs.History.{History};
    ghost use Rattle.silo_core.specs.inside.Shown.{setup_of, AreListed};

    ghost Value = { History };

    ghost coded = { Prim.hlevel (codes, by_grain_code, by_text_code, by_number_code, coded_tree, state_bytes.the_row.coded) };

    ghost view = { λ s. record {
      setup = setup_of s.tenants s.age s.ages s.opening.items s.kept;
      whole = s.state.whole;
      journal = s.journal.items;
      failures = record { at_opening = s.opening_failures; now = s.state.failures };
    } };

    ghost invariant = { λ s. LeadsTo L.logic (setup_of s.tenants s.age s.ages s.opening.items s.kept) s.journal.items s.state.whole
        × AreListed s.opening.items };
}

impl<S: GrainStorage + Drop, L: GrainLogic + Drop> Silo<S, L> {
    /// A silo at its opening: it has the storage's rows, and nothing was asked yet. Its grains are found by hashes from the fixed
    /// seed: take `seeded` where a stranger names the grains.
    ///
    /// # Errors
    ///
    /// Out of memory.
    pub fn new(alloc: Global, setup: Setup<S, L>) -> Result<Silo<S, L>, AllocError>
        ensures setup { IfOk result (λ s. s.setup ≡ new_setup setup.tenants setup.age setup.ages (S.rows setup.storage)) }
        ensures opening { IfOk result (λ s. (s.whole ≡ opening s.setup) × (s.journal ≡ [])) }
        ensures failures { IfOk result (λ s. s.failures ≡ record { at_opening = S.failed setup.storage; now = S.failed setup.storage }) }
        ensures parts { IfOk result (λ s. (tenant : List ℕ) → shown_to tenant s.whole ≡ start_of s.setup tenant) }
    {
        Silo::seeded(alloc, setup, HashSeed::fixed())
    }

    /// A silo at its opening, as `new` makes it, whose grains are found by hashes from this seed. Nothing that it shows or writes
    /// depends on the seed. Its storage has a seed of its own.
    ///
    /// # Errors
    ///
    /// Out of memory.
    pub fn seeded(
        alloc: Global,
        setup: Setup<S, L>,
        seed: HashSeed,
    ) -> Result<Silo<S, L>, AllocError>
        ensures setup { IfOk result (λ s. s.setup ≡ new_setup setup.tenants setup.age setup.ages (S.rows setup.storage)) }
        ensures opening { IfOk result (λ s. (s.whole ≡ opening s.setup) × (s.journal ≡ [])) }
        ensures failures { IfOk result (λ s. s.failures ≡ record { at_opening = S.failed setup.storage; now = S.failed setup.storage }) }
        ensures parts { IfOk result (λ s. (tenant : List ℕ) → shown_to tenant s.whole ≡ start_of s.setup tenant) }
    {
        match Silo::resumed(alloc, setup, KeptParts::nothing(alloc), seed)? {
            Some(silo) => Ok(silo),
            None => unreachable!(),
        }
    }
}

impl<S: GrainStorage, L: GrainLogic> Silo<S, L> {
    /// The tenants that are known, with their limits.
    pub fn tenants(&self) -> &TenantTable
        ensures { result.now ≡ self.now.setup.tenants }
    {
        &self.tenants
    }

    /// The milliseconds after which an idle activation may go, 1 to 86,400,000, where its kind has no age of its own.
    pub fn age(&self) -> u64
        ensures age { result ≡ self.now.setup.age }
        ensures in_range { IsAge self.now.setup.age }
    {
        self.age.millis()
    }

    /// The ages of the kinds that have one of their own.
    pub fn ages(&self) -> &AgeTable
        ensures { result.now ≡ self.now.setup.ages }
    {
        &self.ages
    }

    /// The rows that were stored as the silo opened, grains ascending.
    pub fn opening(&self) -> &[(GrainId, Row)]
        ensures { result.now ≡ entries self.now.setup.rows }
    {
        self.opening.as_slice()
    }

    /// What was kept of a silo that was left, as this one opened: nothing, if it was never reopened.
    pub fn opening_kept(&self) -> &KeptParts
        ensures { kept_in result.now ≡ self.now.setup.kept }
    {
        &self.kept
    }

    /// Whether the silo opened empty: no row was stored, and nothing was kept.
    pub fn opens_empty(&self) -> bool
        ensures { IsTrue result ↔ OpensEmpty self.now.setup }
    {
        self.opening.is_empty() && self.kept.is_nothing()
    }

    /// How many calls of the storage had failed as the silo opened.
    pub fn opening_failures(&self) -> u64
        ensures { result ≡ self.now.failures.at_opening }
    {
        self.opening_failures
    }

    /// How many calls of the storage have failed by now.
    pub fn failures(&self) -> u64
        ensures { result ≡ self.now.failures.now }
    {
        self.state.storage().failures()
    }

    /// Where the rows are kept.
    pub fn storage(&self) -> &S
        ensures rows { S.rows result.now ≡ self.now.whole.rows }
        ensures failures { S.failed result.now ≡ self.now.failures.now }
    {
        self.state.storage()
    }

    /// All replies since it opened, or last opened again, in the order in which they were made.
    pub fn replies(&self) -> &[Reply]
        ensures { result.now ≡ self.now.whole.replies }
    {
        self.state.replies()
    }

    /// The replies to a tenant's callers and grains, in order.
    ///
    /// # Errors
    ///
    /// Out of memory.
    pub fn replies_of(&self, alloc: Global, tenant: &Tenant) -> Result<Vec<Reply>, AllocError>
        ensures { IfOk result (λ found. found.items ≡ (shown_to tenant.now self.now.whole).replies) }
    {
        replies::sent_to(alloc, self.state.replies(), tenant)
    }

    /// The stored rows of all tenants, grains ascending.
    ///
    /// # Errors
    ///
    /// Out of memory.
    pub fn rows(&self, alloc: Global) -> Result<Vec<(GrainId, Row)>, AllocError>
        ensures { IfOk result (λ list. list.items ≡ entries self.now.whole.rows) }
    {
        self.state.storage().list(alloc)
    }

    /// The stored rows of a tenant's grains, grains ascending.
    ///
    /// # Errors
    ///
    /// Out of memory.
    pub fn rows_of(&self, alloc: Global, tenant: &Tenant) -> Result<Vec<(GrainId, Row)>, AllocError>
        ensures { IfOk result (λ list. list.items ≡ entries (shown_to tenant.now self.now.whole).rows) }
    {
        let all = self.state.storage().list(alloc)?;
        rows::stored_of(alloc, all, tenant)
    }

    /// The steps that were done since it opened, or last opened again, in order.
    pub fn journal(&self) -> &[Step]
        ensures steps { result.now ≡ self.now.journal }

        // They lead from the opening to what the silo shows.
        ensures leads { LeadsTo L.logic self.now.setup self.now.journal self.now.whole }

        // At every prefix of them, a turn that may write is the only open turn of its grain.
        ensures exclusive { Exclusive L.logic self.now.setup self.now.journal (done_answers self.now.journal) }

        // Of every tenant, what a client asked is answered once, or waits, or is open.
        ensures settled { (tenant : List ℕ) → Settled (restricted_to tenant self.now.journal) (shown_to tenant self.now.whole) }
    {
        self.journal.as_slice()
    }
}

/// Puts a step that was done at the journal's end, as it was taken.
fn note(journal: &mut Vec<Step>, answer: Answer, step: Step)
    requires { vec_len journal.old < vec_capacity journal.old }
    ensures { journal.new.items ≡ journal.old.items ++ noted step answer }
{
    match answer {
        Answer::Done => journal.push_reserved(step),
        Answer::Failed => journal.push_reserved(step.into_failed()),
        Answer::NotNow => drop(step),
    }
}
