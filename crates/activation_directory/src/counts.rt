//! How many grains each tenant has: a number by the tenant's name.

ghost use Rattle.std.specs.Prelude.{◌≡◌, ◌<◌, ◌+◌, ◌-◌, ◌^◌, OnOk, IsSome};
ghost use Rattle.indexmap.specs.IndexMap.{get_by_text};
ghost use Rattle.activation_directory.specs.inside.Counts.{kept, SameNumbers, NumbersTo};

use grain_id::HashSeed;
use indexmap::IndexMap;
use std::alloc::{AllocError, Global};

/// Makes a tenant's number, 0 at first.
pub fn start(
    alloc: Global,
    numbers: &mut IndexMap<String, usize, HashSeed>,
    tenant: &str,
) -> Result<(), AllocError>
    ensures same { SameNumbers numbers.old numbers.new }
    ensures there { OnOk result (IsSome (get_by_text numbers.new tenant.now)) }
{
    if !numbers.contains_key(tenant) {
        numbers.insert(String::from_str(alloc, tenant)?, 0)?;
    }
    Ok(())
}

/// Counts one grain more.
pub fn add_one(numbers: &mut IndexMap<String, usize, HashSeed>, tenant: &str)
    requires there { IsSome (get_by_text numbers.old tenant.now) }
    requires fits { kept numbers.old tenant.now + 1 < 2 ^ 64 }
    ensures { NumbersTo numbers.old numbers.new tenant.now (kept numbers.old tenant.now + 1) }
{
    if let Some(number) = numbers.get_mut(tenant) {
        *number += 1;
    }
}

/// Counts one grain less.
pub fn take_one(numbers: &mut IndexMap<String, usize, HashSeed>, tenant: &str)
    requires { 0 < kept numbers.old tenant.now }
    ensures { NumbersTo numbers.old numbers.new tenant.now (kept numbers.old tenant.now - 1) }
{
    if let Some(number) = numbers.get_mut(tenant) {
        *number -= 1;
    }
}

/// The number of a tenant's grains.
pub fn of(numbers: &IndexMap<String, usize, HashSeed>, tenant: &str) -> usize
    ensures { result ≡ kept numbers.now tenant.now }
{
    match numbers.get(tenant) {
        Some(number) => *number,
        None => 0,
    }
}
