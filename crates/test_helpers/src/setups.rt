//! Tenants, ages of kinds, and setups of silos.

use grain_id::{Kind, Tenant};
use grain_logic::GrainLogic;
use grain_storage::{FusedStorage, MemoryStorage};
use idle_collector::AgeTable;
use silo_core::Setup;
use std::alloc::Global;
use std::test::Fail;
use tenant_gate::{Age, Limits, TenantTable};

/// These tenants, each limited to this many activations, with 4 waiting requests each.
fn tenants(alloc: Global, names: &[&str], activations: u32) -> Result<TenantTable, Fail> {
    let mut list = Vec::new(alloc);
    for name in names {
        let limits = Limits {
            activations,
            mailbox: 4,
        };
        list.push((Tenant::read(alloc, *name)?, limits))?;
    }
    Ok(TenantTable::new(alloc, list)?)
}

/// The ages of these kinds.
fn ages_by(alloc: Global, list: &[(&str, u64)]) -> Result<AgeTable, Fail> {
    let mut ages = Vec::new(alloc);
    for (kind, age) in list {
        ages.push((Kind::read(alloc, *kind)?, *age))?;
    }
    Ok(AgeTable::new(alloc, ages)?)
}

/// For how long grains are idle.
#[derive(Clone, Copy)]
pub struct Ages<'a> {
    /// Those of most kinds, in milliseconds.
    pub age: u64,
    /// Those of these kinds.
    pub kinds: &'a [(&'a str, u64)],
}

/// A setup of these tenants, each limited to this many activations, with 4 waiting requests each.
pub fn setup_over<L: GrainLogic + Drop>(
    alloc: Global,
    names: &[&str],
    activations: u32,
    ages: Ages,
    storage: FusedStorage,
    logic: L,
) -> Result<Setup<FusedStorage, L>, Fail> {
    let age = Age::new(ages.age).ok_or("no age")?;
    let ages = ages_by(alloc, ages.kinds)?;
    Ok(Setup {
        tenants: tenants(alloc, names, activations)?,
        age,
        ages,
        storage,
        logic,
    })
}

/// A setup of these tenants, each with 2 activations of 4 waiting requests, over no rows. Grains are idle for 900,000
/// milliseconds, and those of these kinds for as long as it says.
pub fn setup_of<L: GrainLogic + Drop>(
    alloc: Global,
    names: &[&str],
    kinds: &[(&str, u64)],
    logic: L,
) -> Result<Setup<FusedStorage, L>, Fail> {
    let storage = FusedStorage::new(MemoryStorage::new(alloc), 0);
    let ages = Ages {
        age: 900_000,
        kinds,
    };
    setup_over(alloc, names, 2, ages, storage, logic)
}

/// The kinds that have an age of their own, a line each.
pub fn ages_told(alloc: Global, ages: &[(Kind, u64)]) -> Result<String, Fail> {
    let mut text = String::new(alloc);
    for (kind, age) in ages {
        let name = kind.text();
        write!(text, "{name} {age}\n")?;
    }
    Ok(text)
}
