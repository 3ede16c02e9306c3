//! The silos of these tests: each is made, tried and dropped in one of two functions, whatever is tried, since each
//! place where a silo is dropped takes seconds of proof.

use crate::steps::arenas::take_in_one_arena;
use crate::steps::at_once::{take_at_once, take_by_steps};
use crate::steps::refusals::is_run;
use crate::steps::reopening::is_worked_reopened;
use crate::steps::rows::{NOTHING, Worked};
use crate::steps::silos::{SiloOf, TestedSilo, answers, journal, new_silo, replies, rows};
use crate::steps::strangers::tells_apart;
use crate::steps::streams::{is_taken, is_written};
use crate::steps::todo::is_told_around;
use crate::steps::worked::{counts_by_tenant, fails_to_load, is_opened, is_worked, opens_with};
use grain_logic::GrainLogic;
use std::alloc::Global;
use std::test::Fail;
use test_helpers::lines::{steps_of, stored, told};
use test_helpers::verdicts::holds;

/// What is tried with a silo that was made for a row.
#[derive(Clone, Copy)]
pub enum Trial {
    /// One run of the row's lines gives the row, also if memory is refused in it.
    OneRun,
    /// The row's lines give it, each by the method for its kind of step.
    ByMethods,
    /// So they do, and the silo was opened with what is stored.
    Opening,
    /// A silo that opens again wherever it is at rest gives the row.
    Reopening,
    /// The first load fails, and is noted so.
    FailedLoad,
    /// Replies and rows are counted by tenant.
    Counts,
    /// A silo shows what it was opened with.
    Opened,
    /// What there is to do is shown before the first step and after each.
    Todo,
    /// A turn of another silo is left alone.
    Stranger,
    /// What was read is answered before reading fails.
    FailingReader,
    /// A step is taken whose answer can't be written.
    FailingWriter,
}

/// Whether the trial succeeds.
fn succeeds(
    alloc: Global,
    silo: &mut TestedSilo,
    trial: Trial,
    row: &Worked,
) -> Result<bool, Fail> {
    match trial {
        Trial::OneRun => is_run(alloc, silo, row),
        Trial::ByMethods => is_worked(alloc, silo, row),
        Trial::Opening => opens_with(alloc, silo, row),
        Trial::Reopening => is_worked_reopened(alloc, silo, row),
        Trial::FailedLoad => fails_to_load(alloc, silo, row),
        Trial::Counts => counts_by_tenant(alloc, silo, row),
        Trial::Opened => Ok(is_opened(silo)),
        Trial::Todo => is_told_around(alloc, silo, row),
        Trial::Stranger => tells_apart(alloc, silo, row),
        Trial::FailingReader => is_written(alloc, silo, row),
        Trial::FailingWriter => is_taken(alloc, silo, row),
    }
}

/// Tries a new silo that is made for the row.
pub fn tried(alloc: Global, trial: Trial, row: &Worked) -> Result<(), Fail> {
    let mut silo = new_silo(alloc, row)?;
    let succeeded = succeeds(alloc, &mut silo, trial, row);
    drop(silo);
    holds(succeeded?)
}

/// How the steps of lines are taken.
#[derive(Clone, Copy)]
pub enum Way {
    /// This many of the first ones in one run, each turn in an arena of its own.
    First(usize),
    /// All in one arena, which is reset after every other step.
    InOneArena,
    /// Those of a call one by one.
    BySteps,
    /// A call at once, where the silo does so.
    AtOnce,
}

/// Takes the steps of the first `count` lines in one run.
pub fn take_first(
    alloc: Global,
    silo: &mut TestedSilo,
    lines: &str,
    count: usize,
) -> Result<(), Fail> {
    let mut steps = steps_of(alloc, lines)?;
    steps.truncate(count);
    drop(answers(alloc, silo, steps)?);
    Ok(())
}

fn take(alloc: Global, silo: &mut TestedSilo, way: Way, lines: &str) -> Result<(), Fail> {
    match way {
        Way::First(count) => take_first(alloc, silo, lines, count),
        Way::InOneArena => take_in_one_arena(alloc, silo, lines),
        Way::BySteps => take_by_steps(alloc, silo, lines),
        Way::AtOnce => take_at_once(alloc, silo, lines),
    }
}

/// What a silo shows: its replies, its rows and its journal.
pub fn shown(alloc: Global, silo: &TestedSilo) -> Result<String, Fail> {
    let stored = rows(alloc, silo)?;
    let (told, taken) = (replies(silo), journal(silo));
    Ok(format!(in alloc; "{told:?} {stored:?} {taken:?}")?)
}

/// What the silo shows after these lines.
fn shown_by(alloc: Global, silo: &mut TestedSilo, way: Way, lines: &str) -> Result<String, Fail> {
    take(alloc, silo, way, lines)?;
    shown(alloc, silo)
}

/// What a new silo shows after these lines.
pub fn shown_anew(alloc: Global, way: Way, lines: &str) -> Result<String, Fail> {
    let mut silo = new_silo(alloc, &NOTHING)?;
    let shown = shown_by(alloc, &mut silo, way, lines);
    drop(silo);
    shown
}

/// Fails, unless the lines lead to the same by both ways.
pub fn are_alike(alloc: Global, way: Way, other: Way, lines: &str) -> Result<(), Fail> {
    let shown = shown_anew(alloc, way, lines)?;
    let wanted = shown_anew(alloc, other, lines)?;
    holds(shown.as_str() == wanted.as_str())
}

/// Whether the replies and the stored rows are those of the row.
pub fn is_shown<L: GrainLogic>(
    alloc: Global,
    silo: &SiloOf<L>,
    row: &Worked,
) -> Result<bool, Fail> {
    let said = told(alloc, replies(silo))?;
    let kept = stored(alloc, rows(alloc, silo)?.as_slice())?;
    Ok(said.as_str() == row.told && kept.as_str() == row.stored)
}
