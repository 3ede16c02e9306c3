//! What serving answers, and what is looked at once the workers have ended.

ghost use Rattle.std.specs.Prelude.{◌≡◌, IfOk, IsTrue, OnOk, map as map_list, true};
ghost use Rattle.silo_model.specs.Opening.{nothing_kept};
ghost use Rattle.silo_model.specs.Pending.{AllQuiet};
ghost use Rattle.lane_model.specs.Lanes.{AreDistinct};
ghost use Rattle.lane_model.specs.Pacing.{is_paced};
ghost use Rattle.lane_model.specs.Serving.{AreServed};
ghost use Rattle.worker_host.specs.SetupCopy.{AreAnswered, AreCopies, HasFailed, IsOpenedSo};

use crate::working::WorkingSilo;
use client_lanes::{Lane, answers, failed_in, lanes_stand};
use grain_id::{GrainId, HashSeed, Tenant};
use grain_logic::GrainLogic;
use grain_storage::{GrainStorage, Row};
use idle_collector::AgeTable;
use lane_workers::{WorkFault, are_same};
use silo_core::{Setup, Silo};
use silo_event::Reply;
use std::alloc::{AllocError, Global};
use tenant_gate::Limits;
use thiserror::Error;

/// Why lanes weren't served.
#[derive(Clone, Copy, Debug, PartialEq, Eq, Error)]
pub enum ServeFault {
    /// Memory was refused.
    #[error("out of memory")]
    Memory,
    /// No thread could be started.
    #[error("no thread could be started")]
    NoWorker,
    /// What the workers left isn't what serving the lanes leaves.
    #[error("what the workers left isn't what serving the lanes leaves")]
    Strayed,
}

impl From<AllocError> for ServeFault {
    ghost use Rattle.worker_host.specs.declared.report.ServeFault.TheVariants as faults;

    ghost from_gives = { λ _ e. e ≡ faults.Memory };

    fn from(_refused: AllocError) -> ServeFault {
        ServeFault::Memory
    }
}

impl From<WorkFault> for ServeFault {
    ghost use Rattle.worker_host.specs.inside.Faults.{fault_of};

    ghost from_gives = { λ why fault. fault ≡ fault_of why };

    fn from(why: WorkFault) -> ServeFault {
        match why {
            WorkFault::Memory => ServeFault::Memory,
            WorkFault::NoWorker => ServeFault::NoWorker,
        }
    }
}

/// The silo after the last step, and for each lane the replies to its client, in order.
#[derive(Drop)]
pub struct ServeReport<S: GrainStorage, L: GrainLogic> {
    pub silo: Silo<S, L>,
    pub answers: Vec<Vec<Reply>>,
}

/// What a silo was opened with: copies that were made before the workers began.
#[derive(Drop)]
pub struct SetupCopy {
    pub tenants: Vec<(Tenant, Limits)>,
    pub age: u64,
    pub ages: AgeTable,
    pub rows: Vec<(GrainId, Row)>,
    pub failures: u64,
}

impl SetupCopy {
    /// What a silo is opened with, of this setup.
    ///
    /// # Errors
    ///
    /// Out of memory.
    pub fn copied<S: GrainStorage, L: GrainLogic>(
        alloc: Global,
        setup: &Setup<S, L>,
    ) -> Result<SetupCopy, AllocError>
        ensures { IfOk result
            (λ opened. AreCopies opened setup.now.tenants setup.now.age setup.now.ages
            (S.rows setup.now.storage) (S.failed setup.now.storage)) }
    {
        let mut tenants = Vec::new(alloc);
        let list = setup.tenants.list();
        for (tenant, limits) in list {
            tenants.push((tenant.clone()?, *limits))?;
        }
        Ok(SetupCopy {
            tenants,
            age: setup.age.millis(),
            ages: setup.ages.clone()?,
            rows: setup.storage.list(alloc)?,
            failures: setup.storage.failures(),
        })
    }
}

/// Whether the silo was opened so.
fn is_opened_so<S: GrainStorage, L: GrainLogic>(silo: &Silo<S, L>, opened: &SetupCopy) -> bool
    ensures { IsTrue result → IsOpenedSo opened.now silo.now }
{
    if silo.age() != opened.age {
        return false;
    }
    if silo.opening_failures() != opened.failures {
        return false;
    }
    if !are_same(opened.tenants.as_slice(), silo.tenants().list()) {
        return false;
    }
    if !are_same(opened.ages.list(), silo.ages().list()) {
        return false;
    }
    are_same(opened.rows.as_slice(), silo.opening())
}

/// Whether as many of the journal's steps failed as calls of the storage did.
fn failures_count<S: GrainStorage, L: GrainLogic>(silo: &Silo<S, L>) -> bool
    ensures { IsTrue result → HasFailed silo.now }
{
    let failed = failed_in(silo.journal()) as u64;
    let Some(sum) = silo.opening_failures().checked_add(failed) else {
        return false;
    };
    sum == silo.failures()
}

/// Strayed, unless this holds.
fn must_hold(holds: bool) -> Result<(), ServeFault>
    ensures { OnOk result (IsTrue holds) }
{
    if holds {
        Ok(())
    } else {
        Err(ServeFault::Strayed)
    }
}

/// What each lane is answered, if what the silo holds is what serving the lanes leaves.
fn served_answers<S: GrainStorage, L: GrainLogic>(
    alloc: Global,
    seed: HashSeed,
    silo: &Silo<S, L>,
    opened: &SetupCopy,
    lanes: &[Lane],
) -> Result<Vec<Vec<Reply>>, ServeFault>
    requires distinct { AreDistinct lanes.now }
    requires paced { is_paced L.logic silo.now.setup silo.now.journal ≡ true }
    requires quiet { AllQuiet silo.now.whole }
    ensures opened { OnOk result (IsOpenedSo opened.now silo.now) }
    ensures served { IfOk result (λ answers. AreServed L.logic silo.now.setup lanes.now silo.now.journal silo.now.whole
        silo.now.failures.at_opening silo.now.failures.now (map_list (λ v. v.items) answers.items)) }
{
    must_hold(lanes_stand(alloc, seed, lanes, silo.journal())?)?;
    must_hold(is_opened_so(silo, opened))?;
    must_hold(failures_count(silo))?;
    Ok(answers(alloc, seed, lanes, silo.replies())?)
}

/// Looks once at what the workers left. Clients are found by hashes from the seed.
pub fn settle<S: GrainStorage + Drop, L: GrainLogic + Drop>(
    alloc: Global,
    seed: HashSeed,
    left: WorkingSilo<S, L>,
    opened: &SetupCopy,
    lanes: &[Lane],
) -> Result<ServeReport<S, L>, ServeFault>
    requires { AreDistinct lanes.now }
    ensures opened { IfOk result (λ report. IsOpenedSo opened.now report.silo) }
    ensures new { IfOk result (λ report. report.silo.setup.kept ≡ nothing_kept) }
    ensures served { IfOk result (λ report. AreServed L.logic report.silo.setup lanes.now report.silo.journal report.silo.whole
        report.silo.failures.at_opening report.silo.failures.now (map_list (λ v. v.items) report.answers.items)) }
    ensures answered { IfOk result (λ report. AreAnswered lanes.now report.silo.whole.replies) }
{
    let silo = left.into_silo();
    must_hold(silo.is_quiet())?;
    let answers = served_answers(alloc, seed, &silo, opened, lanes)?;
    Ok(ServeReport { silo, answers })
}
