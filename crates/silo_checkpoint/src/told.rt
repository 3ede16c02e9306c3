//! The journal in a checkpoint: it has no steps and no replies.

ghost use Rattle.std.specs.Prelude.{◌≡◌, ◌↔◌, [], IfOk, IsTrue};
ghost use Rattle.journal_text.specs.Rules.{IsTable};
ghost use Rattle.silo_checkpoint.specs.inside.Told.{FindsJournal, ReadsTold, told_in};

use checkpoint_text::CheckpointFault;
use grain_id::{GrainId, Tenant};
use grain_storage::Row;
use idle_collector::AgeTable;
use journal_text::{Journal, JournalFault, read_journal};
use std::alloc::{AllocError, Global};
use tenant_gate::{Age, Limits, TableFault, TenantTable};

/// What the journal in a checkpoint says, the rows ascending.
#[derive(Drop)]
pub(crate) struct Told {
    pub(crate) kinds: u8,
    pub(crate) tenants: TenantTable,
    pub(crate) age: Age,
    pub(crate) ages: AgeTable,
    pub(crate) rows: Vec<(GrainId, Row)>,
}

fn copy_of_tenants(
    alloc: Global,
    tenants: &[(Tenant, Limits)],
) -> Result<Vec<(Tenant, Limits)>, AllocError>
    ensures { IfOk result (λ copy. copy.items ≡ tenants.now) }
{
    let mut copy = Vec::new(alloc);
    'tenants: for (tenant, limits) in tenants {
        copy.push((tenant.clone()?, *limits))?;
    }
    Ok(copy)
}

fn copy_of_rows(alloc: Global, rows: &[(GrainId, Row)]) -> Result<Vec<(GrainId, Row)>, AllocError>
    ensures { IfOk result (λ copy. copy.items ≡ rows.now) }
{
    let mut copy = Vec::new(alloc);
    'rows: for (grain, row) in rows {
        copy.push((grain.clone()?, row.clone()?))?;
    }
    Ok(copy)
}

/// The table of tenants that are one.
fn table_of(alloc: Global, list: Vec<(Tenant, Limits)>) -> Result<TenantTable, AllocError>
    requires { IsTable list.items }
    ensures { IfOk result (λ table. table ≡ list.items) }
{
    match TenantTable::new(alloc, list) {
        Ok(table) => Ok(table),
        Err(TableFault::Memory) => Err(AllocError),
        Err(TableFault::Empty) => unreachable!(),
        Err(TableFault::TooMany) => unreachable!(),
        Err(TableFault::Twice(_)) => unreachable!(),
        Err(TableFault::Range(_)) => unreachable!(),
    }
}

/// All that the journal says, but for its steps and replies.
fn copy_of(alloc: Global, journal: &Journal) -> Result<Told, AllocError>
    ensures { IfOk result (λ told. told_in told ≡ record journal.now { steps = []; replies = [] }) }
{
    let tenants = table_of(alloc, copy_of_tenants(alloc, journal.tenants())?)?;
    let rows = copy_of_rows(alloc, journal.rows())?;
    Ok(Told {
        kinds: journal.kinds(),
        tenants,
        age: journal.age(),
        ages: journal.ages().clone()?,
        rows,
    })
}

/// Whether the journal has no steps and no replies.
fn is_opening(journal: &Journal) -> bool
    ensures { IsTrue result ↔ ((journal.now.steps ≡ []) × (journal.now.replies ≡ [])) }
{
    journal.steps().is_empty() && journal.replies().is_empty()
}

fn journal_in(alloc: Global, bytes: &[u8]) -> Result<Journal, CheckpointFault>
    ensures { FindsJournal bytes.now result }
{
    match read_journal(alloc, bytes) {
        Ok(journal) => Ok(journal),
        Err(JournalFault::At { .. }) => Err(CheckpointFault::NoCheckpoint),
        Err(JournalFault::Memory) => Err(CheckpointFault::Memory),
    }
}

/// What the journal says whose text the bytes are, if it has no steps and no replies.
pub(crate) fn read_told(alloc: Global, bytes: &[u8]) -> Result<Told, CheckpointFault>
    ensures { ReadsTold bytes.now result }
{
    let journal = journal_in(alloc, bytes)?;
    if is_opening(&journal) {
        Ok(copy_of(alloc, &journal)?)
    } else {
        drop(journal);
        Err(CheckpointFault::NoCheckpoint)
    }
}
