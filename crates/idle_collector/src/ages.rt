//! The ages of the kinds that have one of their own: `specs/Ages.antt`, and how they are put in order,
//! `specs/inside/AgesInOrder.antt`.

ghost use Rattle.std.specs.Prelude.{◌≡◌, ◌+◌, ◌≤◌, ℕ, length, List, [], None, MatchResult, OnOk, option_map};
ghost use Rattle.std.specs.FinMap.{put};
ghost use Rattle.std.specs.Ordering.{is_gt};
ghost use Rattle.grain_id.specs.Names.{text_cmp};
ghost use Rattle.tenant_gate.specs.Age.{IsAge};
ghost use Rattle.tenant_gate.specs.Table.{first_repeat};
ghost use Rattle.idle_collector.specs.Ages.{AgesAnswers, IsTable, age_for, first_out_of_range, is_age, kind_age, kinds_of};
ghost use Rattle.idle_collector.specs.inside.AgesInOrder.{SortRefused, place_in, sorted_ages};
ghost use Rattle.idle_collector.specs.declared.ages.AgeFault.TheVariants as faults;

use grain_id::Kind;
use std::alloc::{AllocError, Global};
use std::cmp::Ordering;
use std::marker::Model;
use tenant_gate::{Age, MAX_AGE_MILLISECONDS, MIN_AGE_MILLISECONDS};
use thiserror::Error;

/// The most kinds that may have an age of their own.
pub const MAX_AGES: usize = 64;

/// Why a list of kinds and ages is no table.
#[derive(Debug, Drop, Error)]
pub enum AgeFault {
    /// There are more than 64 kinds.
    #[error("there are more than 64 kinds")]
    TooMany,
    /// The first kind that repeats an earlier one.
    #[error("kind {0} stands there twice")]
    Twice(Kind),
    /// The first kind whose age is out of range.
    #[error("the age of kind {0} is out of range")]
    Range(Kind),
    /// Memory was refused.
    #[error("out of memory")]
    Memory,
}

impl From<AllocError> for AgeFault {
    ghost from_gives = { λ _ fault. fault ≡ faults.Memory };

    fn from(_refused: AllocError) -> AgeFault {
        AgeFault::Memory
    }
}

/// The ages of up to 64 kinds, in milliseconds, ascending by kind. Every other kind has the silo's age. It doesn't change.
#[derive(Drop)]
pub struct AgeTable {
    list: Vec<(Kind, u64)>,
}

impl Model for AgeTable {
    ghost use Rattle.idle_collector.specs.Ages.{Ages, IsTable, coded_ages};

    ghost Value = { Ages };

    ghost coded = { coded_ages };

    ghost view = { λ table. table.list.items };

    ghost invariant = { λ table. IsTable table.list.items };
}

impl AgeTable {
    /// The table of a list, put in order.
    ///
    /// # Errors
    ///
    /// Looked at in this order: `TooMany` above 64 kinds; `Twice`, the first kind that repeats an earlier one; `Range`,
    /// the first whose age isn't 1 to 86,400,000 milliseconds. `Memory` may come in place of another.
    pub fn new(alloc: Global, list: Vec<(Kind, u64)>) -> Result<AgeTable, AgeFault>
        ensures { AgesAnswers list.items result }
    {
        let entries = list.as_slice();
        if entries.len() > MAX_AGES {
            return Err(AgeFault::TooMany);
        }
        let table = in_order(alloc, entries)?;
        if let Some(kind) = out_of_range(entries) {
            return Err(AgeFault::Range(kind.clone()?));
        }
        Ok(AgeTable { list: table })
    }

    /// The table in which no kind has an age of its own.
    pub fn none(alloc: Global) -> AgeTable
        ensures { result ≡ [] }
    {
        AgeTable {
            list: Vec::new(alloc),
        }
    }

    /// The kinds with their ages, ascending by kind.
    pub fn list(&self) -> &[(Kind, u64)]
        ensures list { result.now ≡ self.now }
        ensures is_table { IsTable self.now }
    {
        self.list.as_slice()
    }

    /// The age of a kind: its own, or else the age that all others have. Takes no memory.
    pub fn age_of(&self, kind: &str, age: Age) -> u64
        ensures age { result ≡ kind_age self.now age kind.now }
        ensures in_range { IsAge result }
    {
        match age_in(self.list.as_slice(), kind) {
            Some(own) => own,
            None => age.millis(),
        }
    }
}

impl Clone for AgeTable {
    ghost is_clone = { λ table copy. copy ≡ table };

    #[tactic(auto, using(crate::proofs::AgesOf::clones_same))]
    fn clone(&self) -> Result<AgeTable, AllocError> {
        Ok(AgeTable {
            list: self.list.clone()?,
        })
    }
}

/// The age that the kind has there.
fn age_in(ages: &[(Kind, u64)], kind: &str) -> Option<u64>
    ensures { result ≡ age_for ages.now kind.now }
{
    'ages: for (known, age) in ages {
        if kind == known.text() {
            return Some(*age);
        }
    }
    None
}

/// Whether an age is a millisecond to a day.
fn is_age(age: u64) -> bool
    ensures { result ≡ is_age age }
{
    MIN_AGE_MILLISECONDS <= age && age <= MAX_AGE_MILLISECONDS
}

/// The first kind whose age is out of range.
fn out_of_range(ages: &[(Kind, u64)]) -> Option<&Kind>
    ensures { option_map (λ kind. kind.now) result ≡ first_out_of_range ages.now }
{
    ages.iter()
        .find(|entry| !is_age(entry.1))
        .map(|entry| &entry.0)
}

/// Whether the kind is above the other.
fn is_above(kind: &Kind, other: &Kind) -> bool
    ensures { result ≡ is_gt (text_cmp kind.now other.now) }
{
    match kind.cmp(other) {
        Ordering::Less => false,
        Ordering::Equal => false,
        Ordering::Greater => true,
    }
}

/// How many kinds stand before the first that isn't below this one.
fn place_in(ages: &[(Kind, u64)], kind: &Kind) -> usize
    ensures place { result ≡ place_in kind.now ages.now }
    ensures within { result ≤ length ages.now }
{
    'ages: for at in 0..ages.len() {
        if !is_above(kind, &ages[at].0) {
            return at;
        }
    }
    ages.len()
}

/// The age of one more kind, in its place.
fn put_in(ages: &mut Vec<(Kind, u64)>, kind: Kind, age: u64) -> Result<(), AllocError>
    requires { age_for ages.old.items kind ≡ None }
    ensures put { OnOk result (ages.new.items ≡ put text_cmp kind age ages.old.items) }
    ensures len { OnOk result (length ages.new.items ≡ length ages.old.items + 1) }
{
    let place = place_in(ages.as_slice(), &kind);
    ages.insert(place, (kind, age))?;
    Ok(())
}

/// The ages in order, if no kind repeats an earlier one.
fn in_order(alloc: Global, list: &[(Kind, u64)]) -> Result<Vec<(Kind, u64)>, AgeFault>
    ensures { MatchResult result
        (λ table. (first_repeat [] (kinds_of list.now) ≡ None) × (table.items ≡ sorted_ages list.now)
        × (length table.items ≡ length list.now))
        (SortRefused list.now) }
{
    let mut table = Vec::with_capacity(alloc, list.len())?;
    for (kind, age) in list {
        if age_in(table.as_slice(), kind.text()).is_some() {
            return Err(AgeFault::Twice(kind.clone()?));
        }
        put_in(&mut table, kind.clone()?, *age)?;
    }
    Ok(table)
}
