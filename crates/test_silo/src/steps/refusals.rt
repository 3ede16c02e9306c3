//! Runs of rows, of which any allocation may be refused: what was answered before it stands, and the rest of the steps
//! gives the rest of the row.

use crate::steps::rows::{ACROSS, CLEARED, COLLECTED, FIRST_CALL, OVERWRITTEN, Worked};
use crate::steps::silos::{TestedSilo, replies, run};
use crate::steps::trials::{Trial, Way, is_shown, shown, shown_anew, tried};
use silo_event::{Answer, Step};
use std::alloc::Global;
use std::test::Fail;
use test_helpers::lines::{steps_behind, steps_of, told};

pub fn are_done(answers: &[Answer]) -> bool {
    answers.iter().all(|answer| *answer == Answer::Done)
}

/// Takes the steps in one run: how many were answered, or none if one of them wasn't done, or the run doesn't say that it
/// was stopped exactly if it was.
fn done(alloc: Global, silo: &mut TestedSilo, steps: Vec<Step>) -> Option<usize> {
    let count = steps.len();
    let report = run(alloc, silo, steps);
    if are_done(&report.answers) && report.stopped == (report.answers.len() < count) {
        Some(report.answers.len())
    } else {
        None
    }
}

/// Whether the silo is where the row's first `first` lines lead, and its replies are the beginning of the row's.
fn is_at(alloc: Global, silo: &TestedSilo, row: &Worked, first: usize) -> Result<bool, Fail> {
    let wanted = shown_anew(alloc, Way::First(first), row.lines)?;
    let same = shown(alloc, silo)?.as_str() == wanted.as_str();
    let begins = row.told.starts_with(told(alloc, replies(silo))?.as_str());
    Ok(same && begins)
}

/// Runs the lines after the first `first` ones, and returns whether all were done.
fn is_ended(alloc: Global, silo: &mut TestedSilo, lines: &str, first: usize) -> Result<bool, Fail> {
    let rest = steps_behind(alloc, lines, first)?;
    let count = rest.len();
    Ok(done(alloc, silo, rest) == Some(count))
}

/// Whether a run of the row's lines gives the row. A run that is stopped is at the lines that were answered, and the
/// others are run after it.
pub fn is_run(alloc: Global, silo: &mut TestedSilo, row: &Worked) -> Result<bool, Fail> {
    let steps = steps_of(alloc, row.lines)?;
    let all = steps.len();
    let Some(first) = done(alloc, silo, steps) else {
        return Ok(false);
    };
    if first < all {
        let same = is_at(alloc, silo, row, first)?;
        let ended = is_ended(alloc, silo, row.lines, first)?;
        if !same || !ended {
            return Ok(false);
        }
    }
    is_shown(alloc, silo, row)
}

#[test]
fn a_first_call(rt: HostRuntime) -> Result<(), Fail> {
    tried(rt.alloc(), Trial::OneRun, &FIRST_CALL)
}

#[test]
fn a_row_that_another_wrote(rt: HostRuntime) -> Result<(), Fail> {
    tried(rt.alloc(), Trial::OneRun, &OVERWRITTEN)
}

#[test]
fn a_row_that_is_cleared(rt: HostRuntime) -> Result<(), Fail> {
    tried(rt.alloc(), Trial::OneRun, &CLEARED)
}

#[test]
fn a_grain_that_is_idle(rt: HostRuntime) -> Result<(), Fail> {
    tried(rt.alloc(), Trial::OneRun, &COLLECTED)
}

#[test]
fn a_call_across_tenants(rt: HostRuntime) -> Result<(), Fail> {
    tried(rt.alloc(), Trial::OneRun, &ACROSS)
}
