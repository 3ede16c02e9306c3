//! What was recorded of a tenant, compared with what its machine does.

ghost use Rattle.std.specs.Prelude.{◌≡◌, IfOk};
ghost use Rattle.std.specs.Option.{option_map};
ghost use Rattle.grain_storage.specs.Memory.{rows_of};
ghost use Rattle.silo_model.specs.Opening.{start_of};
ghost use Rattle.audit_model.specs.Parts.{setup_of, replies_for, rows_for};
ghost use Rattle.audit_model.specs.Report.{IsFirstDifference};
ghost use Rattle.tenant_gate.specs.Table.{limits_of};
ghost use Rattle.tenant_audit.specs.inside.Comparison.{IsFirstRow, AreApart};
ghost use Rattle.tenant_audit.specs.ReportView.{difference_of};

use crate::difference::{Difference, first_not_done};
use crate::parted_journal::PartedJournal;
use crate::replies::first_reply_apart;
use crate::rows::first_row_apart;
use grain_id::{GrainId, HashSeed, Tenant};
use grain_logic::GrainLogic;
use journal_text::Journal;
use std::alloc::{AllocError, Global};
use tenant_gate::Limits;
use tenant_machine::TenantMachine;

/// The limits that a journal's table has of the tenant, if it has the tenant.
fn limits_in(table: &[(Tenant, Limits)], tenant: &Tenant) -> Option<Limits>
    ensures { result ≡ limits_of table.now tenant.now }
{
    'entries: for entry in table {
        if tenant.text() == entry.0.text() {
            return Some(entry.1);
        }
    }
    None
}

/// The tenant's machine before any step, with the journal's limits and ages, whose maps hash from the seed.
fn machine_for<L: GrainLogic + Drop>(
    alloc: Global,
    seed: HashSeed,
    journal: &Journal,
    tenant: &Tenant,
    logic: L,
) -> Result<TenantMachine<L>, AllocError>
    ensures { IfOk result (λ m. m ≡ start_of (setup_of journal.now) tenant.now) }
{
    let limits = limits_in(journal.tenants(), tenant);
    let ages = journal.ages().clone()?;
    let age = journal.age();
    TenantMachine::seeded(alloc, tenant.clone()?, limits, age, ages, logic, seed)
}

/// The least grain of the tenant whose recorded row isn't the machine's.
fn row_apart<L: GrainLogic>(
    alloc: Global,
    journal: &PartedJournal<'_>,
    tenant: &Tenant,
    machine: &TenantMachine<L>,
) -> Result<Option<GrainId>, AllocError>
    ensures { IfOk result (λ grain. IsFirstRow (rows_of (rows_for tenant.now journal.now)) machine.now.rows grain) }
{
    let own = machine.rows(alloc)?;
    first_row_apart(journal.rows_for(tenant), own.as_slice())
}

/// Where the tenant's recorded replies and rows first differ from the machine's.
fn record_apart<L: GrainLogic>(
    alloc: Global,
    journal: &PartedJournal<'_>,
    tenant: &Tenant,
    machine: &TenantMachine<L>,
) -> Result<Option<Difference>, AllocError>
    ensures { IfOk result (λ difference.
        AreApart (replies_for tenant.now journal.now) (rows_of (rows_for tenant.now journal.now)) machine.now
        (option_map difference_of difference)) }
{
    let told = journal.replies_for(tenant);
    if let Some(reply) = first_reply_apart(alloc, told, machine.replies())? {
        return Ok(Some(Difference::Reply(reply)));
    }
    match row_apart(alloc, journal, tenant, machine)? {
        Some(grain) => Ok(Some(Difference::Row(grain))),
        None => Ok(None),
    }
}

/// The first difference between what a journal recorded of the tenant and what the tenant's machine
/// does, which has taken no step yet.
fn difference_from<L: GrainLogic>(
    alloc: Global,
    journal: &PartedJournal<'_>,
    tenant: &Tenant,
    machine: &mut TenantMachine<L>,
) -> Result<Option<Difference>, AllocError>
    requires { machine.old ≡ start_of (setup_of journal.now) tenant.now }
    ensures { IfOk result (λ difference. IsFirstDifference L.logic journal.now tenant.now (option_map difference_of difference)) }
{
    if let Some(step) = first_not_done(alloc, machine, journal.steps_for(tenant))? {
        return Ok(Some(Difference::Step(step)));
    }
    record_apart(alloc, journal, tenant, machine)
}

/// The first difference between what a journal recorded of the tenant and what the tenant's machine
/// does, whose maps hash from the seed.
pub fn first_difference<L: GrainLogic + Drop>(
    alloc: Global,
    seed: HashSeed,
    journal: &PartedJournal<'_>,
    tenant: &Tenant,
    logic: L,
) -> Result<Option<Difference>, AllocError>
    ensures { IfOk result (λ difference. IsFirstDifference L.logic journal.now tenant.now (option_map difference_of difference)) }
{
    let mut machine = machine_for(alloc, seed, journal.journal(), tenant, logic)?;
    let found = difference_from(alloc, journal, tenant, &mut machine);
    drop(machine);
    found
}
