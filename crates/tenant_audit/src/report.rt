//! What an audit reports of one tenant.

ghost use Rattle.std.specs.Prelude.{◌≡◌, IfOk, map};
ghost use Rattle.grain_kinds.specs.Kinds.{logic_of};
ghost use Rattle.audit_model.specs.Report.{IsTenantReport};
ghost use Rattle.tenant_audit.specs.ReportView.{tenant_report_of};

use crate::comparison::first_difference;
use crate::difference::Difference;
use crate::parted_journal::PartedJournal;
use grain_id::{HashSeed, Tenant};
use grain_kinds::{NamedKinds, NamedVersion};
use grain_logic::GrainLogic;
use std::alloc::{AllocError, Global};
use std::marker::{Brand, Model};

/// What an audit says of one tenant: how many steps of the journal concern it, how many replies and rows
/// of it were recorded, and the first difference, if there is one.
#[derive(Debug, Drop)]
pub struct TenantReport {
    pub tenant: Tenant,
    pub steps: usize,
    pub replies: usize,
    pub rows: usize,
    pub difference: Option<Difference>,
}

/// What an audit says of a journal: what is reported of each tenant, the table's in its order, and then
/// the others of whom the journal has a step, a reply or a row, ascending.
#[derive(Debug, Drop)]
pub struct Report {
    tenants: Vec<TenantReport>,
}

impl Model for Report {
    ghost use Rattle.std.specs.Prelude.{List, map};
    ghost use Rattle.std.specs.Coded.{codes};
    ghost use Rattle.audit_model.specs.Report.{TenantReport as Told};
    ghost use Rattle.tenant_audit.specs.ReportView.{tenant_report_of};

    ghost Value = { List Told };

    ghost coded = { Prim.hlevel codes };

    ghost view = { λ r. map tenant_report_of r.tenants.items };
}

impl Report {
    /// The report that has these of each tenant.
    pub(crate) fn new(tenants: Vec<TenantReport>) -> Report
        ensures { result ≡ map tenant_report_of tenants.items }
    {
        Report { tenants }
    }

    /// What is reported of each tenant, in order.
    pub fn tenants(&self) -> &[TenantReport]
        ensures { map tenant_report_of result.now ≡ self.now }
    {
        self.tenants.as_slice()
    }
}

/// What is reported of one tenant, under the logic that the journal names. The maps of its machine hash
/// from the seed.
pub fn report_as_named(
    alloc: Global,
    seed: HashSeed,
    journal: &PartedJournal<'_>,
    tenant: Tenant,
) -> Result<TenantReport, AllocError>
    ensures report { IfOk result (λ report. IsTenantReport (logic_of journal.now.kinds) journal.now (tenant_report_of report)) }
    ensures tenant { IfOk result (λ report. report.tenant ≡ tenant) }
{
    report_at::<Brand>(alloc, seed, journal, tenant)
}

/// What is reported of one tenant, under the version that the journal names.
fn report_at<N: NamedVersion>(
    alloc: Global,
    seed: HashSeed,
    journal: &PartedJournal<'_>,
    tenant: Tenant,
) -> Result<TenantReport, AllocError>
    requires { journal.now.kinds ≡ N.version }
    ensures report { IfOk result (λ report. IsTenantReport (logic_of N.version) journal.now (tenant_report_of report)) }
    ensures tenant { IfOk result (λ report. report.tenant ≡ tenant) }
{
    let version = NamedKinds::<N>::new(journal.journal().kinds());
    report_on(alloc, seed, journal, tenant, version)
}

/// What is reported of one tenant. The maps of its machine hash from the seed.
pub fn report_on<L: GrainLogic + Drop>(
    alloc: Global,
    seed: HashSeed,
    journal: &PartedJournal<'_>,
    tenant: Tenant,
    logic: L,
) -> Result<TenantReport, AllocError>
    ensures report { IfOk result (λ report. IsTenantReport L.logic journal.now (tenant_report_of report)) }
    ensures tenant { IfOk result (λ report. report.tenant ≡ tenant) }
{
    let difference = first_difference(alloc, seed, journal, &tenant, logic)?;
    let steps = journal.steps_for(&tenant).len();
    let replies = journal.replies_for(&tenant).len();
    let rows = journal.rows_for(&tenant).len();
    Ok(TenantReport {
        tenant,
        steps,
        replies,
        rows,
        difference,
    })
}
