//! The reports that one thread makes, and how they are put together.

ghost use Rattle.std.specs.Prelude.{◌≡◌, ◌<◌, ◌++◌, [], IfOk, OnOk, length, slice_index_or, ◌%◌};
ghost use Rattle.std.specs.declared.alloc.Global.{Global as Heap};
ghost use Rattle.std.specs.declared.collections.VecDeque.{VecDeque as Deque};
ghost use Rattle.tenant_audit.specs.inside.Parts.{AreReports, AreParts, IsPart, TakesFirst, if_shared, reported};
ghost use Rattle.tenant_audit.specs.declared.report.TenantReport.{TenantReport as Reported};

use crate::gate::AuditGate;
use crate::parted_journal::PartedJournal;
use crate::report::{TenantReport, report_as_named};
use grain_id::{HashSeed, Tenant};
use journal_text::Journal;
use std::alloc::{AllocError, Global};
use std::collections::VecDeque;
use std::thread::Promise;

/// What threads audit together: a journal, and its tenants, each of whom one of the threads reports.
#[derive(Clone, Copy)]
pub struct SharedAudit<'a> {
    pub journal: &'a Journal,
    pub tenants: &'a [Tenant],
    /// How many threads there are.
    pub threads: usize,
    /// The maps of the tenants' machines hash from it.
    pub seed: HashSeed,
}

/// Which tenants a thread reports: those whose places, counted from 0, leave `place` by `stride`. The maps of
/// their machines hash from the seed.
#[derive(Clone, Copy)]
pub struct Share {
    pub place: usize,
    pub stride: usize,
    pub seed: HashSeed,
}

/// A thread's share of an audit. It promises the reports of the share's tenants.
#[derive(Clone, Copy)]
pub struct AuditShare<'a> {
    pub journal: &'a Journal,
    pub tenants: &'a [Tenant],
    pub share: Share,
}

impl<'a> Promise<Result<VecDeque<TenantReport>, AllocError>> for AuditShare<'a> {
    ghost kept_by = { λ work r. IfOk r (λ reports.
        IsPart work.journal.now work.tenants.now work.share.stride work.share.place 0 reports.items) };
}

impl<'a> AuditShare<'a> {
    /// Adds the report of the tenant at the index, if the share has that one.
    fn keep<G: AuditGate>(
        &self,
        alloc: Global,
        reports: &mut VecDeque<TenantReport>,
        journal: &PartedJournal<'_>,
        gate: &G,
        index: usize,
    ) -> Result<(), AllocError>
        requires stride { 0 < self.now.share.stride }
        requires index { index < length self.now.tenants.now }
        ensures tenants { OnOk result (reported reports.new.items ≡ reported reports.old.items
            ++ if_shared self.now.share.stride self.now.share.place index (slice_index_or self.now.tenants.now index [])) }
        ensures each { OnOk result (AreReports journal.now reports.old.items → AreReports journal.now reports.new.items) }
    {
        if index % self.share.stride == self.share.place {
            let tenant = &self.tenants[index];
            gate.entered(tenant);
            reports.push_back(report_as_named(alloc, self.share.seed, journal, tenant.clone()?)?)?;
        }
        Ok(())
    }

    /// The reports of its tenants, in order.
    fn reports<G: AuditGate>(
        &self,
        alloc: Global,
        gate: &G,
    ) -> Result<VecDeque<TenantReport>, AllocError>
        requires { 0 < self.now.share.stride }
        ensures { IfOk result (λ reports.
            IsPart self.now.journal.now self.now.tenants.now self.now.share.stride self.now.share.place 0 reports.items) }
    {
        let parted = PartedJournal::new(alloc, self.journal)?;
        let mut reports = VecDeque::new(alloc);
        'places: for index in 0..self.tenants.len() {
            self.keep(alloc, &mut reports, &parted, gate, index)?;
        }
        Ok(reports)
    }
}

/// The reports of the tenants of a share, in order.
pub fn part<G: AuditGate>(
    alloc: Global,
    journal: &Journal,
    tenants: &[Tenant],
    gate: &G,
    share: Share,
) -> Result<VecDeque<TenantReport>, AllocError>
    requires { 0 < share.stride }
    ensures { IfOk result (λ reports. IsPart journal.now tenants.now share.stride share.place 0 reports.items) }
{
    let work = AuditShare {
        journal,
        tenants,
        share,
    };
    work.reports(alloc, gate)
}

/// Takes the first report out of the part that has the index.
fn take_next(parts: &mut Vec<VecDeque<TenantReport>>, index: usize) -> TenantReport
    requires some { 0 < length parts.old.items }
    requires first { (d : Deque Reported Heap) → 0 < length (slice_index_or parts.old.items (index % length parts.old.items) d).items }
    ensures taken { TakesFirst parts.old.items (index % length parts.old.items) result parts.new.items }
    ensures len { length parts.new.items ≡ length parts.old.items }
{
    let place = index % parts.len();
    let Some(report) = parts[place].pop_front() else {
        unreachable!()
    };
    report
}

/// The reports of all tenants in order, from the parts.
pub fn merge(
    alloc: Global,
    journal: &Journal,
    tenants: &[Tenant],
    mut parts: Vec<VecDeque<TenantReport>>,
) -> Result<Vec<TenantReport>, AllocError>
    requires some { 0 < length parts.items }
    requires each { AreParts journal.now tenants.now 0 parts.items }
    ensures tenants { IfOk result (λ all. reported all.items ≡ tenants.now) }
    ensures each { IfOk result (λ all. AreReports journal.now all.items) }
{
    // Looked at, so that the proof sees that the journal keeps its rules.
    let _ = journal;
    let mut all = Vec::with_capacity(alloc, tenants.len())?;
    'places: for index in 0..tenants.len() {
        all.push(take_next(&mut parts, index))?;
    }
    Ok(all)
}
