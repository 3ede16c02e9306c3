//! Serving lanes by threads.

ghost use Rattle.std.specs.Prelude.{◌≡◌, ◌≤◌, ℕ, List, IfOk, map as map_list};
ghost use Rattle.silo_model.specs.Opening.{new_setup, start_of};
ghost use Rattle.silo_model.specs.Run.{machine_run, restricted_to};
ghost use Rattle.silo_model.specs.Whole.{shown_to};
ghost use Rattle.lane_model.specs.Lanes.{AreDistinct};
ghost use Rattle.lane_model.specs.Serving.{AreServed};
ghost use Rattle.worker_host.specs.SetupCopy.{AreAnswered};

use crate::report::{ServeFault, ServeReport, SetupCopy, settle};
use crate::working::WorkingSilo;
use client_lanes::Lane;
use grain_id::HashSeed;
use grain_logic::GrainLogic;
use grain_storage::GrainStorage;
use lane_workers::{Crew, TurnGate, work_lanes};
use silo_core::Setup;
use std::alloc::Global;
use std::sync::Wait;
use std::thread::Threads;

/// Serves the lanes by the given number of threads, 1 to 64, over one silo of the setup. A lane gives
/// its next step when its last has its reply; a tick or a sweep, when it was applied. Grains and
/// clients are found by hashes from the fixed seed: use `serve_seeded` if a stranger names them.
///
/// What isn't promised: that a turn isn't abandoned without need, that two threads run, or that it
/// returns.
///
/// # Errors
///
/// `Memory`; `NoWorker`, if no thread could be started; `Strayed`, if what the workers left isn't what
/// serving the lanes leaves. The silo is then dropped.
pub fn serve<
    S: GrainStorage + Drop + Send,
    L: GrainLogic + Copy + Send,
    G: TurnGate + Sync,
    R: Threads + Wait + Sync,
>(
    rt: &R,
    alloc: Global,
    setup: Setup<S, L>,
    lanes: &[Lane],
    workers: usize,
    gate: &G,
) -> Result<ServeReport<S, L>, ServeFault>
    requires workers { (1 ≤ workers) × (workers ≤ 64) }
    requires distinct { AreDistinct lanes.now }

    // The silo was opened with the setup's tenants, age, ages and rows, as the storage was then.
    ensures setup { IfOk result (λ report. report.silo.setup ≡ new_setup setup.tenants setup.age setup.ages (S.rows setup.storage)) }
    ensures failures { IfOk result (λ report. report.silo.failures.at_opening ≡ S.failed setup.storage) }

    // The lanes were served.
    ensures served { IfOk result (λ report. AreServed L.logic report.silo.setup lanes.now report.silo.journal report.silo.whole
        report.silo.failures.at_opening report.silo.failures.now (map_list (λ v. v.items) report.answers.items)) }

    // Each client was told as often as its lane asks, in the lane's order.
    ensures answered { IfOk result (λ report. AreAnswered lanes.now report.silo.whole.replies) }

    // Each tenant's part is the run of its own machine over the journal.
    ensures parts { IfOk result (λ report. (tenant : List ℕ) → shown_to tenant report.silo.whole
        ≡ machine_run L.logic (start_of report.silo.setup tenant) (restricted_to tenant report.silo.journal)) }
{
    serve_seeded(rt, alloc, setup, HashSeed::fixed(), lanes, workers, gate)
}

/// Serves the lanes, as `serve` does, with grains and clients that are found by hashes from this seed. The
/// storage has a seed of its own. Nothing that is answered depends on a seed.
///
/// # Errors
///
/// As of `serve`.
pub fn serve_seeded<
    S: GrainStorage + Drop + Send,
    L: GrainLogic + Copy + Send,
    G: TurnGate + Sync,
    R: Threads + Wait + Sync,
>(
    rt: &R,
    alloc: Global,
    setup: Setup<S, L>,
    seed: HashSeed,
    lanes: &[Lane],
    workers: usize,
    gate: &G,
) -> Result<ServeReport<S, L>, ServeFault>
    requires workers { (1 ≤ workers) × (workers ≤ 64) }
    requires distinct { AreDistinct lanes.now }

    // The silo was opened with the setup's tenants, age, ages and rows, as the storage was then.
    ensures setup { IfOk result (λ report. report.silo.setup ≡ new_setup setup.tenants setup.age setup.ages (S.rows setup.storage)) }
    ensures failures { IfOk result (λ report. report.silo.failures.at_opening ≡ S.failed setup.storage) }

    // The lanes were served.
    ensures served { IfOk result (λ report. AreServed L.logic report.silo.setup lanes.now report.silo.journal report.silo.whole
        report.silo.failures.at_opening report.silo.failures.now (map_list (λ v. v.items) report.answers.items)) }

    // Each client was told as often as its lane asks, in the lane's order.
    ensures answered { IfOk result (λ report. AreAnswered lanes.now report.silo.whole.replies) }

    // Each tenant's part is the run of its own machine over the journal.
    ensures parts { IfOk result (λ report. (tenant : List ℕ) → shown_to tenant report.silo.whole
        ≡ machine_run L.logic (start_of report.silo.setup tenant) (restricted_to tenant report.silo.journal)) }
{
    let opened = SetupCopy::copied(alloc, &setup)?;
    let logic = setup.logic;
    let silo = WorkingSilo::seeded(alloc, setup, seed, lanes)?;
    let crew = Crew {
        workers,
        gate,
        logic,
    };
    let left = work_lanes(rt, alloc, silo, lanes, crew)?;
    settle(alloc, seed, left, &opened, lanes)
}
