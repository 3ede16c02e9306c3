//! For each grain the numbers of what it sent, and is not yet delivered.

ghost use Rattle.std.specs.Prelude.{◌≡◌, [], OnOk, OnErr, IfNone, slice_get};
ghost use Rattle.tenant_accounts.specs.inside.Undelivered.{numbers_at, IsSameIndex, AddsLast, TakesFirst, TakesLast};

use grain_id::GrainId;
use std::alloc::{AllocError, Global};
use std::collections::{BTreeMap, VecDeque};

/// The number of the first call that the grain sent.
pub(super) fn first(index: &BTreeMap<GrainId, VecDeque<u64>>, grain: &GrainId) -> Option<u64>
    ensures { result ≡ slice_get (numbers_at index.now grain.now) 0 }
{
    let Some(numbers) = index.get(grain) else {
        return None;
    };
    numbers.front().copied()
}

/// The number of a call that the grain sent goes after the others.
///
/// # Errors
///
/// Out of memory: the index has the numbers that it had.
pub(super) fn add_last(
    alloc: Global,
    index: &mut BTreeMap<GrainId, VecDeque<u64>>,
    grain: &GrainId,
    number: u64,
) -> Result<(), AllocError>
    ensures done { OnOk result (AddsLast index.old grain.now number index.new) }
    ensures unchanged { OnErr result (IsSameIndex index.old index.new) }
{
    if let Some(numbers) = index.get_mut(grain) {
        numbers.push_back(number)?;
        return Ok(());
    }
    let mut numbers = VecDeque::new(alloc);
    numbers.push_back(number)?;
    index.insert(grain.clone()?, numbers)?;
    Ok(())
}

/// The number of the first call that the grain sent is taken out. Takes no memory.
pub(super) fn take_first(
    index: &mut BTreeMap<GrainId, VecDeque<u64>>,
    grain: &GrainId,
) -> Option<u64>
    ensures rest { TakesFirst index.old grain.now result index.new }
    ensures none { IfNone result (numbers_at index.old grain.now ≡ []) }
{
    let Some(numbers) = index.get_mut(grain) else {
        return None;
    };
    let first = numbers.pop_front();
    let is_last = numbers.is_empty();
    forget_if_none(index, grain, is_last);
    first
}

/// The number of the last call that the grain sent is taken out. Takes no memory.
pub(super) fn take_last(
    index: &mut BTreeMap<GrainId, VecDeque<u64>>,
    grain: &GrainId,
) -> Option<u64>
    ensures rest { TakesLast index.old grain.now result index.new }
    ensures none { IfNone result (numbers_at index.old grain.now ≡ []) }
{
    let Some(numbers) = index.get_mut(grain) else {
        return None;
    };
    let last = numbers.pop_back();
    let is_last = numbers.is_empty();
    forget_if_none(index, grain, is_last);
    last
}

/// A grain of which nothing is left has no queue. It is looked for only if that may be so. Takes no memory.
fn forget_if_none(index: &mut BTreeMap<GrainId, VecDeque<u64>>, grain: &GrainId, may_be_none: bool)
    ensures { IsSameIndex index.old index.new }
{
    if !may_be_none {
        return;
    }
    let Some(numbers) = index.get(grain) else {
        return;
    };
    if numbers.is_empty() {
        drop(index.remove(grain));
    }
}
