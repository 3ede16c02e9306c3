//! Of whom an audit reports.

ghost use Rattle.std.specs.Prelude.{◌≡◌, ◌∷◌, [], IfOk, OnOk, Some};
ghost use Rattle.std.specs.List.Sorted.{IsStrictlySortedBy};
ghost use Rattle.grain_id.specs.Names.{text_cmp};
ghost use Rattle.tenant_audit.specs.inside.Owners.{Gains, step_owners, reply_owners, row_owners};
ghost use Rattle.silo_event.specs.Owner.{owner_of, tenant_of};
ghost use Rattle.audit_model.specs.Parts.{tenants_in, is_listed, ascending, owners_in};
ghost use Rattle.tenant_gate.specs.Table.{names_of};

use grain_id::{GrainId, Tenant};
use grain_storage::Row;
use journal_text::{Journal, RecordedReply};
use silo_event::{Party, Step};
use std::alloc::{AllocError, Global};
use std::collections::BTreeSet;
use tenant_gate::Limits;

/// Whose the step is, if it is anybody's: who asks by it, or else the grain that it names.
pub fn owner_in(alloc: Global, step: &Step) -> Result<Option<Tenant>, AllocError>
    ensures { IfOk result (λ owner. owner ≡ owner_of step.now) }
{
    if let Some(caller) = step.asker() {
        return Ok(Some(caller.to_tenant(alloc)?));
    }
    match step.grain() {
        Some(grain) => Ok(Some(grain.to_tenant(alloc)?)),
        None => Ok(None),
    }
}

/// The tenant of a client or of a grain.
pub fn tenant_in(alloc: Global, party: &Party) -> Result<Tenant, AllocError>
    ensures { IfOk result (λ tenant. tenant ≡ tenant_of party.now) }
{
    match party {
        Party::Client(caller, _) => caller.to_tenant(alloc),
        Party::Grain(grain) => grain.to_tenant(alloc),
    }
}

/// One owner more, who may be there already.
fn add(owners: &mut BTreeSet<Tenant>, owner: Tenant) -> Result<(), AllocError>
    ensures { OnOk result (Gains owners.old.keys (owner ∷ []) owners.new.keys) }
{
    owners.insert(owner)?;
    Ok(())
}

/// Adds those who own a step.
fn add_steps(alloc: Global, owners: &mut BTreeSet<Tenant>, steps: &[Step]) -> Result<(), AllocError>
    ensures { OnOk result (Gains owners.old.keys (step_owners steps.now) owners.new.keys) }
{
    'steps: for step in steps {
        if let Some(owner) = owner_in(alloc, step)? {
            add(owners, owner)?;
        }
    }
    Ok(())
}

/// Adds those to whom a reply belongs.
fn add_replies(
    alloc: Global,
    owners: &mut BTreeSet<Tenant>,
    replies: &[RecordedReply],
) -> Result<(), AllocError>
    ensures { OnOk result (Gains owners.old.keys (reply_owners replies.now) owners.new.keys) }
{
    'replies: for reply in replies {
        add(owners, tenant_in(alloc, &reply.recipient)?)?;
    }
    Ok(())
}

/// Adds those of whose grains there is a row.
fn add_rows(
    alloc: Global,
    owners: &mut BTreeSet<Tenant>,
    rows: &[(GrainId, Row)],
) -> Result<(), AllocError>
    ensures { OnOk result (Gains owners.old.keys (row_owners rows.now) owners.new.keys) }
{
    'rows: for (grain, _) in rows {
        add(owners, grain.to_tenant(alloc)?)?;
    }
    Ok(())
}

/// Those of whom the journal has a step, a reply or a row, ascending.
fn owners_of(alloc: Global, journal: &Journal) -> Result<Vec<Tenant>, AllocError>
    ensures { IfOk result (λ owners. owners.items ≡ ascending (owners_in journal.now)) }
{
    let mut owners = BTreeSet::new(alloc);
    add_steps(alloc, &mut owners, journal.steps())?;
    add_replies(alloc, &mut owners, journal.replies())?;
    add_rows(alloc, &mut owners, journal.rows())?;
    names_in(alloc, owners)
}

/// The names of a set, ascending.
fn names_in(alloc: Global, owners: BTreeSet<Tenant>) -> Result<Vec<Tenant>, AllocError>
    ensures names { IfOk result (λ names. names.items ≡ owners.keys) }
    ensures ordered { IsStrictlySortedBy text_cmp owners.keys }
{
    let mut names = Vec::with_capacity(alloc, owners.len())?;
    for name in owners {
        names.push(name)?;
    }
    Ok(names)
}

/// Whether the table has the tenant.
fn has_tenant(table: &[(Tenant, Limits)], tenant: &Tenant) -> bool
    ensures { result ≡ is_listed (names_of table.now) tenant.now }
{
    table.iter().any(|entry| tenant.text() == entry.0.text())
}

/// The tenants of whom an audit reports: the table's in its order, and then the others of whom the
/// journal has something, ascending.
pub fn tenants_of(alloc: Global, journal: &Journal) -> Result<Vec<Tenant>, AllocError>
    ensures { IfOk result (λ tenants. tenants.items ≡ tenants_in journal.now) }
{
    let mut tenants = Vec::new(alloc);
    'table: for (tenant, _) in journal.tenants() {
        tenants.push(tenant.clone()?)?;
    }
    'others: for tenant in owners_of(alloc, journal)? {
        if !has_tenant(journal.tenants(), &tenant) {
            tenants.push(tenant)?;
        }
    }
    Ok(tenants)
}
