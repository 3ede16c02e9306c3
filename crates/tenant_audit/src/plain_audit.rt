//! Audits by one thread, under any logic.

ghost use Rattle.std.specs.Prelude.{IfOk, map};
ghost use Rattle.audit_model.specs.Report.{IsReport};
ghost use Rattle.tenant_audit.specs.ReportView.{tenant_report_of};

use crate::parted_journal::PartedJournal;
use crate::report::{Report, TenantReport, report_on};
use crate::tenants::tenants_of;
use grain_id::HashSeed;
use grain_logic::GrainLogic;
use journal_text::Journal;
use std::alloc::{AllocError, Global};

/// Audits a journal under a logic by the thread that calls: takes every tenant's steps again, each
/// tenant's by a machine of its own, and compares what was recorded with what the machine shows. The
/// report is of the table's tenants in its order, and then of the others of whom the journal has
/// something, ascending. Under the logic that the journal names it is the
/// report of [`audit`](crate::audit).
///
/// # Errors
///
/// Out of memory.
pub fn audit_under<L: GrainLogic + Copy + Drop>(
    alloc: Global,
    journal: &Journal,
    logic: L,
) -> Result<Report, AllocError>
    ensures { IfOk result (λ report. IsReport L.logic journal.now report) }
{
    let reports = reports_under(alloc, journal, logic)?;
    Ok(Report::new(reports))
}

/// What is reported of each tenant, in order.
fn reports_under<L: GrainLogic + Copy + Drop>(
    alloc: Global,
    journal: &Journal,
    logic: L,
) -> Result<Vec<TenantReport>, AllocError>
    ensures { IfOk result (λ reports. IsReport L.logic journal.now (map tenant_report_of reports.items)) }
{
    let seed = HashSeed::fixed();
    let parted = PartedJournal::new(alloc, journal)?;
    let mut reports = Vec::new(alloc);
    'tenants: for tenant in tenants_of(alloc, journal)? {
        reports.push(report_on(alloc, seed, &parted, tenant, logic)?)?;
    }
    Ok(reports)
}
