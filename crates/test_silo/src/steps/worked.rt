//! Rows taken step by step, over storages that fail and rows that are there, and what a silo shows.

use crate::steps::methods::take;
use crate::steps::rows::{
    ABANDONED, CLEARED_BUT, COLLECTED, LOADED_TWICE, NOTHING, OVERWRITTEN, OVERWRITTEN_BUT,
    REFUSED_METHODS, SENT, SPENT, TOO_LARGE, Worked,
};
use crate::steps::silos::{
    TestedSilo, answers, failures, journal, opening, opening_failures, replies, replies_of, rows,
    rows_of,
};
use crate::steps::trials::{Trial, take_first, tried};
use grain_id::Tenant;
use grain_kinds::Kinds;
use grain_logic::FinishedTurn;
use silo_event::{Answer, Step};
use std::alloc::Global;
use std::test::Fail;
use test_helpers::lines::{steps_of, stored, told};

/// Takes the step, and adds its replies to the text, after a line that says so if it isn't possible now.
fn tell_step(
    alloc: Global,
    silo: &mut TestedSilo,
    turns: &mut Vec<FinishedTurn<Kinds>>,
    step: Step,
    text: &mut String,
) -> Result<(), Fail> {
    let before = replies(silo).len();
    if take(alloc, silo, turns, step)? == Answer::NotNow {
        text.push_str("{\"text\":\"not now\"}\n")?;
    }
    text.push_str(told_since(alloc, silo, before)?.as_str())?;
    Ok(())
}

/// What `tell_step` adds for the lines, step by step.
fn told_by(alloc: Global, silo: &mut TestedSilo, lines: &str) -> Result<String, Fail> {
    let mut text = String::new(alloc);
    let mut turns = Vec::new(alloc);
    for step in steps_of(alloc, lines)? {
        tell_step(alloc, silo, &mut turns, step, &mut text)?;
    }
    Ok(text)
}

/// The text of the replies after the first `first` ones.
fn told_since(alloc: Global, silo: &TestedSilo, first: usize) -> Result<String, Fail> {
    match replies(silo).get(first..) {
        Some(since) => told(alloc, since),
        None => Ok(String::new(alloc)),
    }
}

/// Whether the silo gives the row, by the method for each step, and counts the calls of its storage that failed.
pub fn is_worked(alloc: Global, silo: &mut TestedSilo, row: &Worked) -> Result<bool, Fail> {
    let said = told_by(alloc, silo, row.lines)?;
    let kept = stored(alloc, rows(alloc, silo)?.as_slice())?;
    Ok(said.as_str() == row.told && kept.as_str() == row.stored && failures(silo) == row.failed)
}

#[test]
fn each_kind_of_step_has_a_method(rt: HostRuntime) -> Result<(), Fail> {
    let alloc = rt.alloc();
    tried(alloc, Trial::ByMethods, &OVERWRITTEN)?;
    tried(alloc, Trial::ByMethods, &COLLECTED)?;
    tried(alloc, Trial::ByMethods, &SENT)?;
    tried(alloc, Trial::ByMethods, &ABANDONED)
}

/// How many replies a tenant has.
fn reply_count(alloc: Global, silo: &TestedSilo, tenant: &Tenant) -> Result<usize, Fail> {
    Ok(replies_of(alloc, silo, tenant)?.len())
}

/// How many rows a tenant has.
fn row_count(alloc: Global, silo: &TestedSilo, tenant: &Tenant) -> Result<usize, Fail> {
    Ok(rows_of(alloc, silo, tenant)?.len())
}

/// How many replies and rows a tenant has.
fn counts_of(alloc: Global, silo: &TestedSilo, name: &str) -> Result<(usize, usize), Fail> {
    let tenant = Tenant::read(alloc, name)?;
    let replies = reply_count(alloc, silo, &tenant)?;
    let rows = row_count(alloc, silo, &tenant)?;
    Ok((replies, rows))
}

/// Whether red has 5 replies and a row after the lines of the row, which are red's, and blue has none.
pub fn counts_by_tenant(alloc: Global, silo: &mut TestedSilo, row: &Worked) -> Result<bool, Fail> {
    take_first(alloc, silo, row.lines, usize::MAX)?;
    let red = counts_of(alloc, silo, "red")?;
    let blue = counts_of(alloc, silo, "blue")?;
    Ok(red == (5, 1) && blue == (0, 0))
}

#[test]
fn each_tenant_has_its_own_replies_and_rows(rt: HostRuntime) -> Result<(), Fail> {
    tried(rt.alloc(), Trial::Counts, &OVERWRITTEN)
}

#[test]
fn each_call_of_the_storage_may_fail(rt: HostRuntime) -> Result<(), Fail> {
    for row in &CLEARED_BUT {
        tried(rt.alloc(), Trial::ByMethods, row)?;
    }
    Ok(())
}

#[test]
fn a_poke_is_one_call_of_the_storage(rt: HostRuntime) -> Result<(), Fail> {
    for row in &OVERWRITTEN_BUT {
        tried(rt.alloc(), Trial::ByMethods, row)?;
    }
    Ok(())
}

/// Whether the load was answered and noted as one that failed.
fn is_failed_load(answer: Option<&Answer>, noted: Option<&Step>) -> bool {
    matches!(answer, Some(Answer::Failed)) && matches!(noted, Some(Step::Load { failed: true, .. }))
}

/// Whether the first load of the row fails and is noted so, and the replies are the row's.
pub fn fails_to_load(alloc: Global, silo: &mut TestedSilo, row: &Worked) -> Result<bool, Fail> {
    let steps = steps_of(alloc, row.lines)?;
    let answered = answers(alloc, silo, steps)?;
    let noted = is_failed_load(answered.get(2), journal(silo).get(2));
    drop(answered);
    Ok(noted && told(alloc, replies(silo))?.as_str() == row.told)
}

#[test]
fn a_load_that_fails_is_noted_so(rt: HostRuntime) -> Result<(), Fail> {
    tried(rt.alloc(), Trial::FailedLoad, &LOADED_TWICE)
}

#[test]
fn each_code_of_a_method_is_told(rt: HostRuntime) -> Result<(), Fail> {
    tried(rt.alloc(), Trial::ByMethods, &REFUSED_METHODS)?;
    tried(rt.alloc(), Trial::ByMethods, &TOO_LARGE)
}

/// Whether the silo gives the row, and was opened with what it stores.
pub fn opens_with(alloc: Global, silo: &mut TestedSilo, row: &Worked) -> Result<bool, Fail> {
    let worked = is_worked(alloc, silo, row)?;
    let opened = stored(alloc, opening(silo))?;
    Ok(worked && opened.as_str() == row.stored)
}

#[test]
fn a_row_of_the_last_version_stays(rt: HostRuntime) -> Result<(), Fail> {
    tried(rt.alloc(), Trial::Opening, &SPENT)
}

/// The age, how many tenants there are, and how many calls of the storage had failed as the silo opened.
pub fn is_opened(silo: &TestedSilo) -> bool {
    silo.age() == 1_000 && silo.tenants().list().len() == 2 && opening_failures(silo) == 0
}

#[test]
fn a_silo_shows_what_it_was_opened_with(rt: HostRuntime) -> Result<(), Fail> {
    tried(rt.alloc(), Trial::Opened, &NOTHING)
}
