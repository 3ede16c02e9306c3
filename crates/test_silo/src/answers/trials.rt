//! The silos of these tests: each is made, tried and dropped in one function, whatever is tried.

use crate::answers::answered::is_answered;
use crate::answers::dropping::is_dropped;
use crate::answers::rows::Worked;
use crate::answers::silos::{TestedSilo, alone, new_silo, taken_alone};
use crate::answers::steps::is_asked;
use crate::answers::streams::{are_empty_answered, is_stopped_by_a_writer};
use std::alloc::Global;
use std::test::Fail;
use test_helpers::verdicts::holds;

/// What is tried with a new silo.
#[derive(Clone, Copy)]
pub enum Trial {
    /// The row's lines are answered as it says.
    Lines,
    /// So they are, over a writer that fails.
    FailingWriter,
    /// This many empty lines are answered.
    Empty(u64),
    /// Steps are answered one by one.
    Steps,
    /// The history is dropped.
    Dropped,
}

/// Whether the trial succeeds.
fn succeeds(
    alloc: Global,
    silo: &mut TestedSilo,
    trial: Trial,
    row: &Worked,
) -> Result<bool, Fail> {
    match trial {
        Trial::Lines => is_answered(alloc, silo, row),
        Trial::FailingWriter => is_stopped_by_a_writer(alloc, silo, row),
        Trial::Empty(count) => are_empty_answered(alloc, silo, count),
        Trial::Steps => is_asked(alloc, silo),
        Trial::Dropped => is_dropped(alloc, silo),
    }
}

/// Tries a new silo, whose storage fails the row's call, and whose grains are found by hashes from this seed, if there is one: how many
/// steps it shows when it is a silo alone.
fn counted(alloc: Global, trial: Trial, row: &Worked, seed: Option<u64>) -> Result<usize, Fail> {
    let mut silo = new_silo(alloc, row.fails_at, seed)?;
    let succeeded = succeeds(alloc, &mut silo, trial, row);
    let inside = alone(silo);
    let count = taken_alone(&inside);
    drop(inside);
    holds(succeeded?)?;
    Ok(count)
}

/// Tries a new silo.
pub fn tried(alloc: Global, trial: Trial, row: &Worked) -> Result<(), Fail> {
    counted(alloc, trial, row, None)?;
    Ok(())
}

/// Tries a new silo whose grains are found by hashes from this seed.
pub fn tried_by(alloc: Global, row: &Worked, seed: u64) -> Result<(), Fail> {
    counted(alloc, Trial::Lines, row, Some(seed))?;
    Ok(())
}

/// Tries a new silo. Fails, unless it shows `count` steps when it is a silo alone.
pub fn tried_to(alloc: Global, trial: Trial, row: &Worked, count: usize) -> Result<(), Fail> {
    holds(counted(alloc, trial, row, None)? == count)
}
