//! The notes that are filed: the grains of each moment.

ghost use Rattle.std.specs.Prelude.{◌≡◌, [], ◌++◌, None, OnOk, OnErr, IfOk, IfSome};
ghost use Rattle.std.specs.FinMap as map;
ghost use Rattle.idle_collector.specs.Notes.{noted, forgotten, HoldsDue};
ghost use Rattle.idle_collector.specs.inside.Sets.{notes_of, AreApart, LeavesNotes};

use grain_id::{GrainId, HashSeed};
use indexmap::IndexSet;
use std::alloc::{AllocError, Global};
use std::collections::BTreeMap;
use std::marker::Model;

/// The notes that are filed. The grains that are due from one moment on are in one set, and the sets stand in the order of
/// time. So a note is made, or dropped by its moment, by one look-up among the moments and one among the moment's grains.
/// The set that was emptied last stays, with its room: the next note of its moment finds it there, and the first note of
/// another moment takes it.
#[derive(Drop)]
pub struct ByMoment {
    sets: BTreeMap<u64, IndexSet<GrainId, HashSeed>>,
    emptied: Option<u64>,
    alloc: Global,
    seed: HashSeed,
}

impl Model for ByMoment {
    ghost use Rattle.idle_collector.specs.Notes.{Notes, coded_notes};
    ghost use Rattle.idle_collector.specs.inside.Sets.{notes_of, AreApart};

    ghost Value = { Notes };

    ghost coded = { coded_notes };

    ghost view = { λ c. notes_of c.sets.entries };

    ghost invariant = { λ c. AreApart c.sets };
}

impl ByMoment {
    /// Nothing is noted. Grains will be found by hashes from this seed.
    pub fn new(alloc: Global, seed: HashSeed) -> ByMoment
        ensures { result ≡ map.empty }
    {
        ByMoment {
            sets: BTreeMap::new(alloc),
            emptied: None,
            alloc,
            seed,
        }
    }

    /// Notes the moment from which a grain is due. It has no earlier note.
    ///
    /// # Errors
    ///
    /// Out of memory: the notes are as before.
    pub fn note(&mut self, id: GrainId, moment: u64) -> Result<(), AllocError>
        requires { map.get self.old id ≡ None }
        ensures noted { OnOk result (self.new ≡ noted self.old id moment) }
        ensures unchanged { OnErr result (self.new ≡ self.old) }
    {
        if let Some(grains) = self.sets.get_mut(&moment) {
            grains.insert(id)?;
            return Ok(());
        }
        let mut grains = empty_set(&mut self.sets, self.emptied.take(), self.alloc, self.seed);
        grains.insert(id)?;
        self.sets.insert(moment, grains)?;
        Ok(())
    }

    /// The moment with which a grain is noted, if it is. Looks into the set of each moment.
    pub fn moment_of(&self, id: &GrainId) -> Option<u64>
        ensures { result ≡ map.get self.now id.now }
    {
        for (moment, grains) in self.sets.iter() {
            if grains.contains(id) {
                return Some(*moment);
            }
        }
        None
    }

    /// Drops the note of a grain, if there is one: it is of this moment. Takes no memory.
    pub fn forget(&mut self, id: &GrainId, moment: u64)
        requires { IfSome (map.get self.old id.now) (λ noted. noted ≡ moment) }
        ensures { self.new ≡ forgotten self.old id.now }
    {
        let Some(grains) = self.sets.get_mut(&moment) else {
            return;
        };
        grains.swap_remove(id);
        if grains.is_empty() {
            let earlier = self.emptied.replace(moment);
            let_go(&mut self.sets, earlier, moment);
        }
    }

    /// The grains that are due, those of the earliest moment first. Looks at these, and at two moments more at most.
    ///
    /// # Errors
    ///
    /// Out of memory.
    pub fn first_due(&self, alloc: Global, now: u64) -> Result<Vec<GrainId>, AllocError>
        ensures { IfOk result (λ grains. HoldsDue self.now now grains.items) }
    {
        let mut due = Vec::new(alloc);
        for (moment, grains) in self.sets.iter() {
            if now < *moment {
                break;
            }
            add_all(grains.as_slice(), &mut due)?;
        }
        Ok(due)
    }
}

/// A set with no grain: the one that was emptied last, which is of no moment then, or a new one.
fn empty_set(
    sets: &mut BTreeMap<u64, IndexSet<GrainId, HashSeed>>,
    emptied: Option<u64>,
    alloc: Global,
    seed: HashSeed,
) -> IndexSet<GrainId, HashSeed>
    requires { AreApart sets.old }
    ensures empty { result.keys ≡ [] }
    ensures notes { LeavesNotes sets.old sets.new }
{
    let Some(moment) = emptied else {
        return IndexSet::with_hasher(alloc, seed);
    };
    match take_empty(sets, moment) {
        Some(grains) => grains,
        None => IndexSet::with_hasher(alloc, seed),
    }
}

/// Lets the set of an earlier moment go, if it has no grain. That of this moment stays.
fn let_go(sets: &mut BTreeMap<u64, IndexSet<GrainId, HashSeed>>, earlier: Option<u64>, moment: u64)
    requires { AreApart sets.old }
    ensures { LeavesNotes sets.old sets.new }
{
    let Some(earlier) = earlier else {
        return;
    };
    if earlier != moment {
        drop(take_empty(sets, earlier));
    }
}

/// Takes the set of a moment out, if it has no grain.
fn take_empty(
    sets: &mut BTreeMap<u64, IndexSet<GrainId, HashSeed>>,
    moment: u64,
) -> Option<IndexSet<GrainId, HashSeed>>
    requires { AreApart sets.old }
    ensures empty { IfSome result (λ grains. grains.keys ≡ []) }
    ensures notes { LeavesNotes sets.old sets.new }
{
    let grains = sets.get(&moment)?;
    if !grains.is_empty() {
        return None;
    }
    sets.remove(&moment)
}

/// Adds the grains to others.
///
/// # Errors
///
/// Out of memory.
fn add_all(grains: &[GrainId], others: &mut Vec<GrainId>) -> Result<(), AllocError>
    ensures { OnOk result (others.new.items ≡ others.old.items ++ grains.now) }
{
    for id in grains {
        others.push(id.clone()?)?;
    }
    Ok(())
}
