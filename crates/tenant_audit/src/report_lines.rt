//! A report as text.

ghost use Rattle.std.specs.Prelude.{◌≡◌, ◌++◌, IfOk, OnOk, flat_map, string_bytes};
ghost use Rattle.std.specs.List.{list_any};
ghost use Rattle.std.specs.Option.{is_some};
ghost use Rattle.tenant_audit.specs.ReportView.{tenant_report_of};
ghost use Rattle.tenant_audit.specs.ReportText.{report_line};
ghost use Rattle.audit_model.specs.Report.{TenantReport as Told};
ghost use Rattle.tenant_audit.specs.declared.report.TenantReport.{TenantReport as Reported};

use crate::difference::Difference;
use crate::report::{Report, TenantReport};
use std::alloc::{AllocError, Global};

/// The line that says what is reported of a tenant.
fn line_of(alloc: Global, report: &TenantReport) -> Result<String, AllocError>
    ensures { IfOk result (λ line. string_bytes line ≡ report_line (tenant_report_of report.now)) }
{
    let tenant = report.tenant.text();
    match &report.difference {
        None => {
            let (steps, replies, rows) = (report.steps, report.replies, report.rows);
            format!(in alloc; "tenant {tenant}: {steps} steps, {replies} replies, {rows} rows\n")
        }
        Some(Difference::Step(number)) => {
            format!(in alloc; "tenant {tenant}: step {number} differs\n")
        }
        Some(Difference::Reply(number)) => {
            format!(in alloc; "tenant {tenant}: reply {number} differs\n")
        }
        Some(Difference::Row(grain)) => {
            let grain = grain.text();
            format!(in alloc; "tenant {tenant}: row {grain} differs\n")
        }
    }
}

/// The lines of some tenants' reports.
fn lines_of(alloc: Global, reports: &[TenantReport]) -> Result<String, AllocError>
    ensures { IfOk result (λ text. string_bytes text ≡ flat_map (λ r. report_line (tenant_report_of r)) reports.now) }
{
    let mut text = String::new(alloc);
    'reports: for report in reports {
        let line = line_of(alloc, report)?;
        text.push_str(line.as_str())?;
    }
    Ok(text)
}

/// Whether one of the tenants' reports has a difference.
fn some_differs(reports: &[TenantReport]) -> bool
    ensures { result ≡ list_any (λ (r : Reported). is_some r.difference) reports.now }
{
    reports.iter().any(|report| report.difference.is_some())
}

/// The lines that say what is reported of each tenant.
///
/// # Errors
///
/// Out of memory.
pub fn report_text(alloc: Global, report: &Report) -> Result<String, AllocError>
    ensures { IfOk result (λ text. string_bytes text ≡ flat_map report_line report.now) }
{
    lines_of(alloc, report.tenants())
}

/// Whether there is a difference of some tenant.
pub fn has_difference(report: &Report) -> bool
    ensures { result ≡ list_any (λ (r : Told). is_some r.difference) report.now }
{
    some_differs(report.tenants())
}
