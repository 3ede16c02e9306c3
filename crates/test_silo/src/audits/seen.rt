//! Audits of journals, and what is seen of their reports: each report is made, looked at and dropped in one of three
//! functions.

ghost use Rattle.std.specs.Prelude.{◌≤◌};

use crate::audits::gate::TenantsMeet;
use grain_logic::GrainLogic;
use std::alloc::Global;
use std::sync::Wait;
use std::test::Fail;
use std::thread::Threads;
use tenant_audit::{
    AuditFault, Report, audit, audit_under, audit_with, has_difference, read_journal, report_text,
};
use test_helpers::verdicts::holds;

/// What is seen of a report.
#[derive(Drop)]
pub struct Seen {
    pub text: String,
    pub differs: bool,
    /// Whether it says of its second tenant that there are one step, no reply and a row that differs.
    pub has_amber: bool,
}

fn has_amber(report: &Report) -> bool {
    match report.tenants() {
        [_, amber, _] => {
            (amber.steps, amber.replies, amber.rows) == (1, 0, 1) && amber.difference.is_some()
        }
        _ => false,
    }
}

fn look_at(alloc: Global, report: &Report) -> Result<Seen, Fail> {
    Ok(Seen {
        text: report_text(alloc, report)?,
        differs: has_difference(report),
        has_amber: has_amber(report),
    })
}

/// What is seen of a report, if there is one.
fn look_into(alloc: Global, report: Result<Report, AuditFault>) -> Result<Seen, Fail> {
    match report {
        Ok(report) => look_at(alloc, &report),
        Err(_) => Err(Fail::from("no memory, or no thread")),
    }
}

/// What is seen of an audit by the thread that calls, under this logic.
pub fn seen_under<L: GrainLogic + Copy + Drop>(
    alloc: Global,
    text: &[u8],
    logic: L,
) -> Result<Seen, Fail> {
    let journal = read_journal(alloc, text)?;
    let report = audit_under(alloc, &journal, logic)?;
    look_at(alloc, &report)
}

/// What is seen of an audit by `workers` workers, with this gate.
pub fn seen_with<R: AllocGlobal + Threads + Wait + Sync>(
    rt: &R,
    text: &[u8],
    workers: usize,
    gate: &TenantsMeet,
) -> Result<Seen, Fail>
    requires { (1 ≤ workers) × (workers ≤ 64) }
{
    let journal = read_journal(rt.alloc(), text)?;
    let report = audit_with(rt, rt.alloc(), &journal, workers, gate);
    drop(journal);
    look_into(rt.alloc(), report)
}

/// What is seen of an audit by `workers` workers.
pub fn seen_by<R: AllocGlobal + Threads + Wait + Sync>(
    rt: &R,
    text: &[u8],
    workers: usize,
) -> Result<Seen, Fail>
    requires { (1 ≤ workers) × (workers ≤ 64) }
{
    let journal = read_journal(rt.alloc(), text)?;
    let report = audit(rt, rt.alloc(), &journal, workers);
    drop(journal);
    look_into(rt.alloc(), report)
}

/// Fails, unless an audit under this logic reports that.
pub fn reports_under<L: GrainLogic + Copy + Drop>(
    alloc: Global,
    text: &str,
    logic: L,
    wanted: &str,
) -> Result<(), Fail> {
    holds(seen_under(alloc, text.as_bytes(), logic)?.text.as_str() == wanted)
}

/// Fails, unless an audit by one worker, under the logic that the journal names, reports that.
pub fn reports<R: AllocGlobal + Threads + Wait + Sync>(
    rt: &R,
    text: &str,
    wanted: &str,
) -> Result<(), Fail> {
    holds(seen_by(rt, text.as_bytes(), 1)?.text.as_str() == wanted)
}
