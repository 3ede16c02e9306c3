//! The journal of lanes that were served, and its audit.

use crate::asked::{TWO, lanes_of};
use crate::seen::fail_of;
use grain_kinds::Kinds;
use grain_storage::FusedStorage;
use silo_core::{Setup, Silo};
use std::alloc::Global;
use std::sync::Wait;
use std::test::Fail;
use std::thread::Threads;
use tenant_audit::{audit, has_difference, read_journal, write_journal};
use test_helpers::setups::setup_of;
use test_helpers::verdicts::holds;
use worker_host::{FreeGate, Lane, ServeReport, distinct, serve};

/// The text of the journal of a silo that opened empty.
fn written(alloc: Global, silo: &Silo<FusedStorage, Kinds>) -> Result<Vec<u8>, Fail> {
    if !silo.opens_empty() {
        return Err("it didn't open empty".into());
    }
    Ok(write_journal(alloc, silo)?)
}

/// The report of lanes that two workers served, if they may be served.
fn report_of<R: AllocGlobal + Threads + Wait + Sync>(
    rt: &R,
    setup: Result<Setup<FusedStorage, Kinds>, Fail>,
    lanes: &[Lane],
) -> Result<ServeReport<FusedStorage, Kinds>, Fail> {
    let setup = setup?;
    if !distinct(lanes) {
        drop(setup);
        return Err("these lanes can't be served".into());
    }
    match serve(rt, rt.alloc(), setup, lanes, 2, &FreeGate) {
        Ok(report) => Ok(report),
        Err(fault) => Err(fail_of(fault)),
    }
}

/// The text of the journal of a report.
fn text_of(
    alloc: Global,
    report: Result<ServeReport<FusedStorage, Kinds>, Fail>,
) -> Result<Vec<u8>, Fail> {
    let report = report?;
    let text = written(alloc, &report.silo);
    drop(report);
    text
}

/// The text of the journal of two clients' lanes, which two workers served.
fn journal_of_two<R: AllocGlobal + Threads + Wait + Sync>(rt: &R) -> Result<Vec<u8>, Fail> {
    let lanes = lanes_of(rt.alloc(), &TWO)?;
    let setup = setup_of(rt.alloc(), &["red", "blue"], &[], Kinds);
    text_of(rt.alloc(), report_of(rt, setup, &lanes))
}

/// Whether an audit of that journal by two workers finds a difference.
fn differs<R: AllocGlobal + Threads + Wait + Sync>(rt: &R, text: &[u8]) -> Result<bool, Fail> {
    let journal = read_journal(rt.alloc(), text)?;
    match audit(rt, rt.alloc(), &journal, 2) {
        Ok(report) => Ok(has_difference(&report)),
        Err(_) => Err(Fail::from("no memory, or no thread")),
    }
}

/// Also where a turn ran out of memory and was abandoned.
#[test]
fn what_was_served_has_no_difference(rt: HostRuntime) -> Result<(), Fail> {
    let text = journal_of_two(&rt)?;
    holds(!differs(&rt, text.as_slice())?)
}
