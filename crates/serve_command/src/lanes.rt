//! Serving the lines of an input by threads.

ghost use Rattle.std.specs.Prelude.{◌≡◌, ◌≤◌, IfOk, IfErr, IfSome, map as map_list};
ghost use Rattle.lane_model.specs.Lanes.{AreDistinct};
ghost use Rattle.silo_core.specs.Reopening.{OpensEmpty};
ghost use Rattle.line_text.specs.Reading.{left_of};
ghost use Rattle.worker_host.specs.declared.report.ServeFault.{ServeFault as ServeFaultValue};
ghost use Rattle.line_service.specs.Asked.{lanes_of, refusals_of};
ghost use Rattle.command_parts.specs.Setups.{setup_of};
ghost use Rattle.serve_command.specs.Lanes.{AreLanesOf, IsServed, LeavesServed, StopsServing, serving_fault};

use crate::fault::ServiceFault;
use client_lanes::Lane;
use command_parts::Start;
use grain_logic::GrainLogic;
use grain_storage::MemoryStorage;
use line_parser::{Line, LineRefusal};
use line_service::asked_by;
use line_text::{Input, LineFault, read_all};
use silo_core::Setup;
use std::alloc::Global;
use std::io::Read;
use std::sync::Wait;
use std::thread::Threads;
use worker_host::{ServeFault, ServeReport, TurnGate, serve_seeded};

/// What became of an input: the silo, each lane's answers, and the refusals of lines of no lane.
#[derive(Drop)]
pub struct ServedInput<L: GrainLogic> {
    pub refusals: Vec<LineRefusal>,
    pub report: ServeReport<MemoryStorage, L>,
    /// The lanes that were served: a program that ends anyway needn't take them apart.
    pub lanes: Vec<Lane>,
}

/// What becomes of a fault of serving.
fn fault_of_serving(fault: ServeFault) -> ServiceFault
    ensures { result ≡ serving_fault fault }
{
    match fault {
        ServeFault::Memory => ServiceFault::Failed(LineFault::Memory),
        ServeFault::NoWorker => ServiceFault::NoWorker,
        ServeFault::Strayed => ServiceFault::Strayed,
    }
}

/// Serves lanes over no rows.
fn serve_lanes<
    H: AllocGlobal + Threads + Wait + Sync,
    L: GrainLogic + Copy + Send,
    G: TurnGate + Sync,
>(
    rt: &H,
    start: Start<L>,
    workers: usize,
    lanes: &[Lane],
    gate: &G,
) -> Result<ServeReport<MemoryStorage, L>, ServeFault>
    requires workers { (1 ≤ workers) × (workers ≤ 64) }
    requires distinct { AreDistinct lanes.now }
    ensures { IfOk result (λ report. LeavesServed L.logic (setup_of start.tenants start.age start.ages) lanes.now report.silo
        (map_list (λ v. v.items) report.answers.items)) }
{
    let alloc = rt.alloc();
    let seed = start.seed;
    let setup = Setup {
        tenants: start.tenants,
        age: start.age,
        ages: start.ages,
        storage: MemoryStorage::seeded(alloc, seed),
        logic: start.logic,
    };
    let report = serve_seeded(rt, alloc, setup, seed, lanes, workers, gate)?;
    // For the proof: a storage in memory never fails.
    let _ = report.silo.storage();
    Ok(report)
}

/// Serves lines that were read, by the given number of threads, 1 to 64, over no rows at the start. Requests go to the
/// lane of their client, ticks and sweeps to nobody's, lanes in the order of their first lines; a line that no lane
/// gives is refused. A gate that watches is called for each turn before the turn's body runs. Grains, rows and clients
/// are found by hashes from the start's seed, on which nothing that is answered depends.
///
/// # Errors
///
/// `Memory`, `NoWorker` and `Strayed`, as of `worker_host::serve`: no line has then been answered.
pub fn serve_read<
    H: AllocGlobal + Threads + Wait + Sync,
    L: GrainLogic + Copy + Send,
    G: TurnGate + Sync,
>(
    rt: &H,
    start: Start<L>,
    workers: usize,
    said: Vec<Line>,
    gate: &G,
) -> Result<ServedInput<L>, ServiceFault>
    requires workers { (1 ≤ workers) × (workers ≤ 64) }
    ensures refused { IfOk result (λ served. served.refusals.items ≡ refusals_of said.items) }
    ensures lanes { IfOk result (λ served. LeavesServed L.logic (setup_of start.tenants start.age start.ages) (lanes_of said.items)
        served.report.silo (map_list (λ v. v.items) served.report.answers.items)) }
    ensures served_lanes { IfOk result (λ served. served.lanes.items ≡ lanes_of said.items) }

    // The silo was opened with these tenants, this age and these ages, no rows, and nothing kept.
    ensures setup { IfOk result (λ served. served.report.silo.setup ≡ setup_of start.tenants start.age start.ages) }
    ensures opens_empty { IfOk result (λ served. OpensEmpty served.report.silo.setup) }

    // It is a fault of serving lanes, or memory was refused.
    ensures fault { IfErr result (λ why. (fault : ServeFaultValue) × (why ≡ serving_fault fault)) }
{
    let Ok(asked) = asked_by(rt.alloc(), start.seed, said) else {
        return Err(ServiceFault::Failed(LineFault::Memory));
    };
    let lanes = asked.lanes.as_slice();
    match serve_lanes(rt, start, workers, lanes, gate) {
        Ok(report) => Ok(ServedInput {
            refusals: asked.refusals,
            report,
            lanes: asked.lanes,
        }),
        Err(fault) => Err(fault_of_serving(fault)),
    }
}

/// Reads all lines of an input, and then serves them as `serve_read` does. What was read ahead comes
/// first.
///
/// # Errors
///
/// Reading comes first, with the faults of `read_all`; then those of `serve_read`. No part of the input has then been answered.
pub fn serve_input<
    H: AllocGlobal + Threads + Wait + Sync,
    L: GrainLogic + Copy + Send,
    R: Read,
    G: TurnGate + Sync,
>(
    rt: &H,
    start: Start<L>,
    workers: usize,
    input: &mut Input<R>,
    gate: &G,
) -> Result<ServedInput<L>, ServiceFault>
    requires workers { (1 ≤ workers) × (workers ≤ 64) }
    ensures served { IfOk result (λ served. IfSome (left_of input.old.lines (R.remaining input.old.reader)) (λ bytes.
        IsServed L.logic (setup_of start.tenants start.age start.ages) bytes (R.remaining input.new.reader) served.refusals.items
        served.report.silo (map_list (λ v. v.items) served.report.answers.items))) }

    ensures served_lanes { IfOk result (λ served. IfSome (left_of input.old.lines (R.remaining input.old.reader)) (λ bytes.
        AreLanesOf bytes (R.remaining input.new.reader) served.lanes.items)) }

    // The silo was opened with these tenants, this age and these ages, no rows, and nothing kept.
    ensures setup { IfOk result (λ served. served.report.silo.setup ≡ setup_of start.tenants start.age start.ages) }
    ensures opens_empty { IfOk result (λ served. OpensEmpty served.report.silo.setup) }

    // Nothing was written yet.
    ensures fault { IfErr result (λ why. StopsServing why (left_of input.old.lines (R.remaining input.old.reader)) input.new.lines.calls) }
{
    let said = read_all(rt.alloc(), input)?;
    match serve_read(rt, start, workers, said, gate) {
        Ok(served) => Ok(served),
        Err(fault) => Err(fault),
    }
}
