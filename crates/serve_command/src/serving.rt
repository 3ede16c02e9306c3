//! Serving the lines of an input by threads, and keeping the journal.

ghost use Rattle.std.specs.Prelude.{◌≡◌, ◌≤◌, false, [], IfOk, IfErr, IfSome, OnOk, map as map_list, option_map, string_bytes};
ghost use Rattle.silo_core.specs.Reopening.{OpensEmpty};
ghost use Rattle.line_text.specs.Reading.{IsFresh};
ghost use Rattle.serve_command.specs.Lanes.{IsServed, StopsServing};
ghost use Rattle.command_parts.specs.Setups.{setup_of, starting, version_of};
ghost use Rattle.silo_words.specs.Words.{nothing_told};
ghost use Rattle.command_parts.specs.Files.{claims};
ghost use Rattle.serve_command.specs.Serving.{ServesLanes, ServingFailsBy, WritesJournalAtMost, service_cause};
ghost use Rattle.serve_command.specs.Telling.{IsTold};

use crate::fault::ServiceFault;
use crate::lanes::{ServedInput, serve_read};
use crate::telling::{reasons_text, with_counts};
use crate::writing::write_served;
use command_parts::{Cause, Start, WholeFiles, cause_of, keep_first, keep_journal};
use grain_logic::GrainLogic;
use line_text::{Input, LineFault, Output, read_all};
use silo_words::Telling;
use std::io::{Read, Write};
use std::mem;
use std::sync::Wait;
use std::thread::Threads;
use worker_host::TurnGate;

/// What a fault of the service is to the program.
fn cause_of_service(fault: ServiceFault) -> Cause
    ensures { result ≡ service_cause fault }
{
    match fault {
        ServiceFault::Failed(why) => cause_of(why),
        ServiceFault::NoWorker => Cause::NoWorker,
        ServiceFault::Strayed => Cause::Strayed,
    }
}

/// What was served, and the diagnostics about it.
#[derive(Drop)]
struct ToldInput<L: GrainLogic> {
    served: ServedInput<L>,
    told: String,
}

/// Reads all lines of the input, and serves them. Returns what was served, with the diagnostics about it.
fn serve_reader<
    H: AllocGlobal + Threads + Wait + Sync,
    L: GrainLogic + Copy + Send,
    R: Read,
    G: TurnGate + Sync,
>(
    rt: &H,
    start: Start<L>,
    workers: usize,
    telling: Telling,
    input: &mut Input<R>,
    gate: &G,
) -> Result<ToldInput<L>, ServiceFault>
    requires workers { (1 ≤ workers) × (workers ≤ 64) }
    requires fresh { IsFresh input.old.lines }
    ensures served { IfOk result (λ told. IfSome (R.remaining input.old.reader) (λ bytes.
        IsServed L.logic (setup_of start.tenants start.age start.ages) bytes (R.remaining input.new.reader) told.served.refusals.items
        told.served.report.silo (map_list (λ v. v.items) told.served.report.answers.items))) }
    ensures opens_empty { IfOk result (λ told. OpensEmpty told.served.report.silo.setup) }
    ensures told { IfOk result (λ told. IsTold telling (R.remaining input.old.reader) told.served.report.silo (string_bytes told.told)) }
    ensures untold { IfOk result (λ told. telling ≡ nothing_told → string_bytes told.told ≡ []) }
    ensures fault { IfErr result (λ why. StopsServing why (R.remaining input.old.reader) input.new.lines.calls) }
{
    let alloc = rt.alloc();
    let said = match read_all(alloc, input) {
        Ok(said) => said,
        Err(why) => return Err(ServiceFault::Failed(why)),
    };
    let lines = said.len();
    let Ok(reasons) = reasons_text(alloc, telling, said.as_slice()) else {
        return Err(ServiceFault::Failed(LineFault::Memory));
    };
    let served = serve_read(rt, start, workers, said, gate)?;
    let Ok(told) = with_counts(alloc, telling, reasons, lines, &served) else {
        return Err(ServiceFault::Failed(LineFault::Memory));
    };
    Ok(ToldInput { served, told })
}

/// Writes the journal of no step to the file at the path, if one is given; reads all lines of the input and serves them
/// by the given number of threads, 1 to 64, over no rows; writes their journal to that file; and then writes what the
/// lines are answered. Returns the diagnostics that were requested.
///
/// # Errors
///
/// In this order: `Write` if the first journal wasn't written, and then nothing is read; `Read` if the last call of the
/// reader failed, or `TooMuch` of the input; `NoWorker` if no thread could be started, and `Strayed` if the threads left
/// what serving doesn't leave; `Write` if the second journal wasn't written, or if a call of the writer failed. `Memory` if
/// memory was refused: if that was while a line was made, the lines before it were written. But for these and the last `Write`
/// nothing was written but to the file at the path, and to this nothing but the two journals.
pub fn serve_lines<
    H: AllocGlobal + Threads + Wait + Sync,
    L: GrainLogic + Copy + Send,
    F: WholeFiles,
    R: Read,
    W: Write,
    G: TurnGate + Sync,
>(
    rt: &H,
    start: Start<L>,
    workers: usize,
    journal: Option<&str>,
    telling: Telling,
    files: &mut F,
    input: &mut Input<R>,
    output: &mut Output<W>,
    gate: &G,
) -> Result<String, Cause>
    requires workers { (1 ≤ workers) × (workers ≤ 64) }
    requires fresh { IsFresh input.old.lines }
    ensures served { IfOk result (λ text. ServesLanes (starting (version_of L.logic start.kinds) start.tenants start.age start.ages)
        (claims F.may_hold F.may_fail F.may_leave files.old files.new) (option_map (λ path. path.now) journal.entry) telling
        (R.remaining input.old.reader) (R.remaining input.new.reader) (W.contents output.old.writer) (W.contents output.new.writer)
        (string_bytes text)) }
    ensures untold { IfOk result (λ text. telling ≡ nothing_told → string_bytes text ≡ []) }
    ensures unfailed { OnOk result (output.new.calls.failed ≡ output.old.calls.failed) }
    ensures out { OnOk result (output.new.calls.held ≡ false) }
    ensures fault { IfErr result (λ why. ServingFailsBy (starting (version_of L.logic start.kinds) start.tenants start.age start.ages)
        (claims F.may_hold F.may_fail F.may_leave files.old files.new) (option_map (λ path. path.now) journal.entry) why
        (R.remaining input.old.reader) (R.remaining input.new.reader) input.new.lines.calls
        (W.contents output.old.writer) (W.contents output.new.writer) output.new.calls) }

    // In every outcome.
    ensures journal { WritesJournalAtMost
        (starting (version_of L.logic start.kinds) start.tenants start.age start.ages)
        (claims F.may_hold F.may_fail F.may_leave files.old files.new)
        (option_map (λ path. path.now) journal.entry)
        (R.remaining input.old.reader) (R.remaining input.new.reader) }
{
    let alloc = rt.alloc();
    let first = keep_first(alloc, files, journal, &start);
    if let Err(why) = first {
        drop(start.tenants);
        drop(start.ages);
        return Err(why);
    }
    let kinds = start.kinds;
    let read = match serve_reader(rt, start, workers, telling, input, gate) {
        Ok(read) => read,
        Err(fault) => return Err(cause_of_service(fault)),
    };
    let kept = keep_journal(alloc, files, journal, &read.served.report.silo, kinds);
    match kept {
        Err(why) => {
            drop(read);
            Err(why)
        }
        Ok(()) => {
            let written = write_served(alloc, &read.served, output);

            // The process ends soon, and gives all of its memory back at once.
            mem::forget(read.served);
            match written {
                Ok(()) => Ok(read.told),
                Err(why) => {
                    drop(read.told);
                    Err(cause_of(why))
                }
            }
        }
    }
}
