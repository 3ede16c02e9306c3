//! The tenants that a silo serves.

ghost use Rattle.std.specs.Prelude.{◌≡◌, ℕ, List, [], OnOk, IfSome, IsTrue, None, Some, if◌then◌else◌};
ghost use Rattle.grain_id.specs.Names.{same_text};
ghost use Rattle.std.specs.Option.{option_map};
ghost use Rattle.indexmap.specs.IndexMap.{get_by_text};
ghost use Rattle.tenant_gate.specs.Table.{table_fault, limits_of, call_fault, are_in_range, first_out_of_range};
ghost use Rattle.tenant_gate.specs.inside.Answers.{TableAnswers, CallAnswers};
ghost use Rattle.tenant_gate.specs.inside.Index.{IndexAnswers};

use crate::fault::{GateFault, TableFault};
use crate::gate::{GateRefusal, judge};
use crate::limits::{Limits, MAX_TENANTS};
use grain_id::{GrainId, Tenant};
use indexmap::IndexMap;
use std::alloc::{AllocError, Global};
use std::marker::Model;

/// The tenants that a silo serves, 1 to 1,000 of them, each with its limits. It doesn't change.
#[derive(Drop)]
pub struct TenantTable {
    list: Vec<(Tenant, Limits)>,
    /// The same limits, by the tenants' names.
    index: IndexMap<String, Limits>,
}

impl Model for TenantTable {
    ghost use Rattle.tenant_gate.specs.Table.{Table, coded_table};

    ghost Value = { Table };

    ghost coded = { coded_table };

    ghost use Rattle.tenant_gate.specs.inside.Index.{IsIndexed};

    ghost view = { λ table. table.list.items };

    ghost invariant = { λ table. IsIndexed table.list.items table.index };
}

impl TenantTable {
    /// The table of a list.
    ///
    /// # Errors
    ///
    /// Looked at in this order: `Empty`; `TooMany` above 1,000 tenants; `Twice`, the first tenant
    /// that repeats an earlier one; `Range`, the first whose limits are out of range. `Memory` may
    /// come in place of another.
    pub fn new(alloc: Global, list: Vec<(Tenant, Limits)>) -> Result<TenantTable, TableFault>
        ensures { TableAnswers list.items result }
    {
        let entries = list.as_slice();
        if entries.is_empty() {
            return Err(TableFault::Empty);
        }
        if entries.len() > MAX_TENANTS {
            return Err(TableFault::TooMany);
        }
        let index = index_of(alloc, entries)?;
        if let Some(tenant) = out_of_range(entries) {
            return Err(TableFault::Range(tenant.clone()?));
        }
        Ok(TenantTable { list, index })
    }

    /// The tenants with their limits, as they were given.
    pub fn list(&self) -> &[(Tenant, Limits)]
        ensures list { result.now ≡ self.now }
        ensures is_table { table_fault self.now ≡ None }
    {
        self.list.as_slice()
    }

    /// The limits of the tenant of that name, or none where the table hasn't the tenant. They are found by the
    /// name's hash, which takes no memory.
    pub fn limits(&self, tenant: &str) -> Option<Limits>
        ensures limits { result ≡ limits_of self.now tenant.now }
        ensures in_range { IfSome result (λ limits. IsTrue (are_in_range limits)) }
    {
        self.index.get(tenant).copied()
    }

    /// Whether a caller's tenant may call a grain: the tenant is known, and the grain is its own.
    /// Whether the grain's tenant is known isn't asked.
    ///
    /// # Errors
    ///
    /// `Unknown` with the caller's tenant, and otherwise `Across` with the caller's tenant and the
    /// grain's. Only the names in these take memory.
    pub fn check_call(
        &self,
        alloc: Global,
        caller: &Tenant,
        target: &GrainId,
    ) -> Result<(), GateFault>
        ensures { CallAnswers (call_fault self.now caller.now target.now) result }
    {
        match judge(self.limits(caller.text()), caller.text(), target) {
            Ok(_limits) => Ok(()),
            Err(GateRefusal::UnknownTenant) => Err(GateFault::Unknown(caller.clone()?)),
            Err(GateRefusal::AcrossTenants) => {
                Err(GateFault::Across(caller.clone()?, target.to_tenant(alloc)?))
            }
        }
    }
}

/// The first tenant whose limits are out of range.
fn out_of_range(list: &[(Tenant, Limits)]) -> Option<&Tenant>
    ensures { option_map (λ tenant. tenant.now) result ≡ first_out_of_range list.now }
{
    list.iter()
        .find(|entry| !entry.1.are_in_range())
        .map(|entry| &entry.0)
}

/// The limits by the tenants' names.
fn index_of(
    alloc: Global,
    list: &[(Tenant, Limits)],
) -> Result<IndexMap<String, Limits>, TableFault>
    ensures { IndexAnswers list.now result }
{
    let mut index = IndexMap::new(alloc);
    for (tenant, limits) in list {
        if index.contains_key(tenant.text()) {
            return Err(TableFault::Twice(tenant.clone()?));
        }
        add(alloc, &mut index, tenant, *limits)?;
    }
    Ok(index)
}

/// Adds the limits of a tenant that isn't there.
fn add(
    alloc: Global,
    index: &mut IndexMap<String, Limits>,
    tenant: &Tenant,
    limits: Limits,
) -> Result<(), AllocError>
    ensures { OnOk result
        ((name : List ℕ) → get_by_text index.new name ≡ (if same_text tenant.now name then Some limits else get_by_text index.old name)) }
{
    index.insert(String::from_str(alloc, tenant.text())?, limits)?;
    Ok(())
}
