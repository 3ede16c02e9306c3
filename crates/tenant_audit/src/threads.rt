//! The audit by threads.

ghost use Rattle.std.specs.Prelude.{◌≡◌, ◌<◌, ◌≤◌, ℕ, true, false, Ok as ok, map, IfOk, IfErr, IfSome, is_err, length, slice_index_or};
ghost use Rattle.std.specs.List.{list_any};
ghost use Rattle.grain_kinds.specs.Kinds.{logic_of};
ghost use Rattle.audit_model.specs.Report.{IsReport};
ghost use Rattle.tenant_audit.specs.inside.Parts.{AreParts, IsShareOf, fault_of_start};
ghost use Rattle.tenant_audit.specs.declared.threads.AuditFault.TheVariants as faults;

use crate::gate::{AuditGate, FreeAuditGate};
use crate::parts::{AuditShare, Share, SharedAudit, merge, part};
use crate::report::{Report, TenantReport};
use crate::tenants::tenants_of;
use grain_id::{HashSeed, Tenant};
use journal_text::Journal;
use std::alloc::{AllocError, Global};
use std::collections::VecDeque;
use std::sync::Wait;
use std::thread;
use std::thread::{PromisedHandle, Scope, Threads};
use thiserror::Error;

/// The most threads that audit a journal.
pub const MAX_WORKERS: usize = 64;

/// Why there is no report.
#[derive(Clone, Copy, Debug, PartialEq, Eq, Error)]
pub enum AuditFault {
    /// Memory was refused.
    #[error("out of memory")]
    Memory,
    /// A thread couldn't be started.
    #[error("a thread couldn't be started")]
    NoWorker,
}

impl From<AllocError> for AuditFault {
    ghost from_gives = { λ _ fault. fault ≡ faults.Memory };

    fn from(_refused: AllocError) -> AuditFault {
        AuditFault::Memory
    }
}

/// Starts the thread that does this work.
fn start_part<'s, E, G: AuditGate + Sync>(
    scope: &Scope<'s, E>,
    alloc: Global,
    work: AuditShare<'s>,
    gate: &'s G,
) -> Option<PromisedHandle<Result<VecDeque<TenantReport>, AllocError>, AuditShare<'s>>>
    requires { 0 < work.share.stride }
    ensures { IfSome result (λ handle. handle.promise ≡ work.entry) }
{
    scope
        .spawn_with(
            work,
            move || part(alloc, work.journal, work.tenants, gate, work.share),
        )
        .ok()
}

/// Whether memory was refused to one of the threads that gave these.
fn is_any_refused(given: &[Result<VecDeque<TenantReport>, AllocError>]) -> bool
    ensures { result ≡ list_any is_err given.now }
{
    given.iter().any(|part| part.is_err())
}

/// Why there is no report if a thread couldn't be started, by what those gave that were: `Memory` if
/// memory was refused to one of them.
fn start_fault(given: &[Result<VecDeque<TenantReport>, AllocError>]) -> AuditFault
    ensures { result ≡ fault_of_start given.now }
{
    if is_any_refused(given) {
        AuditFault::Memory
    } else {
        AuditFault::NoWorker
    }
}

/// What the threads gave, if memory was refused to none.
fn all_given(
    alloc: Global,
    results: Vec<Result<VecDeque<TenantReport>, AllocError>>,
) -> Result<Vec<VecDeque<TenantReport>>, AllocError>
    ensures { IfOk result (λ parts. map (λ part. ok part) parts.items ≡ results.items) }
{
    let mut parts = Vec::with_capacity(alloc, results.len())?;
    'results: for result in results {
        parts.push(result?)?;
    }
    Ok(parts)
}

/// What the joined threads gave, if all were started and memory was refused to none.
fn joined_parts(
    alloc: Global,
    results: Vec<Result<VecDeque<TenantReport>, AllocError>>,
    all_started: bool,
) -> Result<Vec<VecDeque<TenantReport>>, AuditFault>
    ensures parts { IfOk result (λ parts. (all_started ≡ true) × (map (λ part. ok part) parts.items ≡ results.items)) }
    ensures not_started { all_started ≡ false → IfErr result (λ fault. fault ≡ fault_of_start results.items) }
    ensures refused { all_started ≡ true → IfErr result (λ fault. fault ≡ faults.Memory) }
{
    if !all_started {
        let fault = start_fault(results.as_slice());
        drop(results);
        return Err(fault);
    }
    Ok(all_given(alloc, results)?)
}

impl<'s> SharedAudit<'s> {
    /// Starts a thread for each share, up to the first that can't be started; and whether all were.
    fn start_parts<E, G: AuditGate + Sync>(
        &self,
        scope: &Scope<'s, E>,
        alloc: Global,
        gate: &'s G,
    ) -> Result<
        (
            Vec<PromisedHandle<Result<VecDeque<TenantReport>, AllocError>, AuditShare<'s>>>,
            bool,
        ),
        AllocError,
    >
        requires { 0 < self.now.threads }
        ensures all { IfOk result (λ started. started.1 ≡ true → length started.0.items ≡ self.now.threads) }
        ensures each { IfOk result (λ started. (k : ℕ) (d : _) → k < length started.0.items
            → IsShareOf self.now.journal.now self.now.tenants.now k self.now.threads (slice_index_or started.0.items k d).promise) }
    {
        let mut handles = Vec::with_capacity(alloc, self.threads)?;
        'places: for place in 0..self.threads {
            let share = Share {
                place,
                stride: self.threads,
                seed: self.seed,
            };
            let work = AuditShare {
                journal: self.journal,
                tenants: self.tenants,
                share,
            };
            let Some(handle) = start_part(scope, alloc, work, gate) else {
                return Ok((handles, false));
            };
            handles.push_reserved(handle);
        }
        Ok((handles, true))
    }

    /// The parts of all shares, each made by a thread of its own.
    fn run_parts<E, R: Threads, G: AuditGate + Sync>(
        &self,
        rt: &R,
        scope: &Scope<'s, E>,
        alloc: Global,
        gate: &'s G,
    ) -> Result<Vec<VecDeque<TenantReport>>, AuditFault>
        requires { 0 < self.now.threads }
        ensures len { IfOk result (λ parts. length parts.items ≡ self.now.threads) }
        ensures each { IfOk result (λ parts. AreParts self.now.journal.now self.now.tenants.now 0 parts.items) }
    {
        let (handles, all_started) = self.start_parts(scope, alloc, gate)?;
        let Ok(results) = thread::join_promised(rt, handles) else {
            return Err(AuditFault::Memory);
        };
        joined_parts(alloc, results, all_started)
    }
}

/// Audits a journal, under the logic that it names, by several threads: as many as there are workers, and no more than
/// there are tenants to report. The tenant at each place of the report, counted from 0, goes to the thread whose number
/// is the place modulo the number of threads. The gate is called for each tenant before the tenant's machine starts.
/// The maps of the machines hash from the seed. The report is the same for every number of workers, 1 to 64, and for
/// every seed.
///
/// # Errors
///
/// `Memory` if memory was refused, also in a thread. `NoWorker` if a thread couldn't be started and none of the others
/// ran out of memory: the others are waited for.
pub fn audit_seeded<R: Threads + Wait + Sync, G: AuditGate + Sync>(
    rt: &R,
    alloc: Global,
    seed: HashSeed,
    journal: &Journal,
    workers: usize,
    gate: &G,
) -> Result<Report, AuditFault>
    requires { (1 ≤ workers) × (workers ≤ 64) }
    ensures { IfOk result (λ report. IsReport (logic_of journal.now.kinds) journal.now report) }
{
    let named = tenants_of(alloc, journal)?;
    let tenants = named.as_slice();
    if tenants.is_empty() {
        return Ok(Report::new(Vec::new(alloc)));
    }
    let threads = workers.min(tenants.len());
    let parts = thread::scope(
        thread::scope_env(),
        rt,
        move |scope| -> Result<Vec<VecDeque<TenantReport>>, AuditFault>
            requires { 0 < threads }
            ensures len { IfOk result (λ parts. length parts.items ≡ threads) }
            ensures each { IfOk result (λ parts. AreParts journal.entry.now tenants.entry.now 0 parts.items) }
        {
            let audit = SharedAudit {
                journal,
                tenants,
                threads,
                seed,
            };
            audit.run_parts(rt, scope, alloc, gate)
        },
    )?;
    Ok(Report::new(merge(alloc, journal, tenants, parts)?))
}

/// Audits a journal as [`audit_seeded`], from the seed that everybody knows.
///
/// # Errors
///
/// Those of [`audit_seeded`].
pub fn audit_with<R: Threads + Wait + Sync, G: AuditGate + Sync>(
    rt: &R,
    alloc: Global,
    journal: &Journal,
    workers: usize,
    gate: &G,
) -> Result<Report, AuditFault>
    requires { (1 ≤ workers) × (workers ≤ 64) }
    ensures { IfOk result (λ report. IsReport (logic_of journal.now.kinds) journal.now report) }
{
    audit_seeded(rt, alloc, HashSeed::fixed(), journal, workers, gate)
}

/// Audits a journal by `workers` threads, 1 to 64, or fewer if it has fewer tenants: takes every tenant's steps again,
/// each tenant's by a machine of its own, under the logic that the journal names, and compares what was recorded with
/// what the machine shows. This is [`audit_with`] and a gate that does nothing.
///
/// # Errors
///
/// Those of [`audit_with`].
pub fn audit<R: Threads + Wait + Sync>(
    rt: &R,
    alloc: Global,
    journal: &Journal,
    workers: usize,
) -> Result<Report, AuditFault>
    requires { (1 ≤ workers) × (workers ≤ 64) }
    ensures { IfOk result (λ report. IsReport (logic_of journal.now.kinds) journal.now report) }
{
    audit_with(rt, alloc, journal, workers, &FreeAuditGate)
}
