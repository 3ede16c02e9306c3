//! A silo that opens again wherever it is at rest.

use crate::steps::rows::{COLLECTED, OVERWRITTEN, SENT, Worked};
use crate::steps::silos::{TestedSilo, apply, journal, opening, replies, rows};
use crate::steps::trials::{Trial, tried};
use silo_event::Step;
use std::alloc::{AllocError, Global};
use std::test::Fail;
use test_helpers::lines::{steps_of, stored, told};

fn reopen(alloc: Global, silo: &mut TestedSilo) -> Result<bool, AllocError> {
    silo.reopen(alloc)
}

/// Takes a step and opens the silo again, if it is at rest then: the replies until then go to the end of the text.
/// Returns whether it was opened again, and its journal and its replies are empty.
fn take_and_reopen(
    alloc: Global,
    silo: &mut TestedSilo,
    step: Step,
    text: &mut String,
) -> Result<bool, Fail> {
    apply(alloc, silo, step)?;
    let before = told(alloc, replies(silo))?;
    if !reopen(alloc, silo)? {
        return Ok(false);
    }
    text.push_str(before.as_str())?;
    Ok(journal(silo).is_empty() && replies(silo).is_empty())
}

/// Whether the silo, which opens again after each step at which it is at rest and so after the last, gives the row.
pub fn is_worked_reopened(
    alloc: Global,
    silo: &mut TestedSilo,
    row: &Worked,
) -> Result<bool, Fail> {
    let mut text = String::new(alloc);
    let mut fresh = false;
    for step in steps_of(alloc, row.lines)? {
        fresh = take_and_reopen(alloc, silo, step, &mut text)?;
    }
    let kept = stored(alloc, rows(alloc, silo)?.as_slice())?;
    let opened = stored(alloc, opening(silo))?;
    let same = kept.as_str() == row.stored && opened.as_str() == row.stored;
    Ok(fresh && same && text.as_str() == row.told)
}

#[test]
fn a_silo_that_opens_again_goes_on(rt: HostRuntime) -> Result<(), Fail> {
    let alloc = rt.alloc();
    tried(alloc, Trial::Reopening, &OVERWRITTEN)?;
    tried(alloc, Trial::Reopening, &COLLECTED)?;
    tried(alloc, Trial::Reopening, &SENT)
}
