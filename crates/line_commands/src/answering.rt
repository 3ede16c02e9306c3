//! Answering each line of an input before the next is read, and keeping the journal.

ghost use Rattle.std.specs.Prelude.{◌≡◌, ◌≢◌, ◌⊎◌, false, true, ℕ, None, IfErr, IfSome, OnOk, option_map};
ghost use Rattle.silo_core.specs.Reopening.{OpensEmpty};
ghost use Rattle.line_text.specs.Reading.{IsFresh};
ghost use Rattle.line_answer.specs.Runs.{AnswersOn, KeepsSetup, StopsOn};
ghost use Rattle.command_parts.specs.Setups.{starting, version_of};
ghost use Rattle.command_parts.specs.Files.{claims};
ghost use Rattle.command_parts.specs.Kept.{KeepsJournal, MayFailAt, WritesAtMost};
ghost use Rattle.line_commands.specs.Answering.{AnsweringFailsBy, AnswersLanes, EndsBy, WritesJournalsAtMost};

use command_parts::{Cause, Start, WholeFiles, cause_of, keep_journal, new_silo};
use grain_logic::GrainLogic;
use grain_storage::MemoryStorage;
use line_answer::{AnsweringSilo, answer_lines};
use line_text::{Input, LineFault, Output};
use silo_core::Silo;
use std::alloc::Global;
use std::io::{Read, Write};
use std::mem;

/// Answers each line of the input before the next is read, followed by at most `sends` deliveries. What was written
/// goes out. After a fault it is flushed, too, but whether that flush failed isn't looked at.
fn answer_reader<L: GrainLogic, R: Read, W: Write>(
    alloc: Global,
    silo: &mut AnsweringSilo<MemoryStorage, L>,
    sends: u64,
    input: &mut Input<R>,
    output: &mut Output<W>,
) -> Result<(), LineFault>
    requires ready { silo.old.stopped ≡ false }
    requires fresh { IsFresh input.old.lines }
    ensures answered { OnOk result (IfSome (R.remaining input.old.reader) (λ bytes. (count : ℕ)
        × AnswersOn silo.old.keeps L.logic sends bytes count silo.old.history silo.new.history (R.remaining input.new.reader)
        (W.contents output.old.writer) (W.contents output.new.writer))) }
    ensures stopped { IfErr result (λ why. IfSome (R.remaining input.old.reader) (λ bytes.
        StopsOn silo.old.keeps L.logic sends bytes input.new.lines (R.remaining input.new.reader) output.new.calls
        silo.old.history silo.new.history (W.contents output.old.writer) (W.contents output.new.writer) why)) }
    ensures setup { OnOk result (silo.old.keeps ≡ true → silo.new.history.setup ≡ silo.old.history.setup) }
    ensures kept { IfErr result (λ why. silo.old.keeps ≡ true → KeepsSetup why silo.old.history silo.new.history) }
    ensures unfailed { OnOk result (output.new.calls.failed ≡ output.old.calls.failed) }
    ensures out { OnOk result (output.new.calls.held ≡ false) }
    ensures failures { silo.new.history.failures.now ≡ 0 }
{
    let done = answer_lines(alloc, input, output, silo, sends);
    // For the proof: a storage in memory never fails.
    let _ = silo.silo().storage();
    match done {
        Ok(_) => Ok(()),
        Err(why) => {
            let _ = output.writer.flush();
            Err(why)
        }
    }
}

/// Keeps the journal of a silo whose lines were answered up to a fault, and gives the cause of this end.
fn keep_after<F: WholeFiles, L: GrainLogic>(
    alloc: Global,
    files: &mut F,
    journal: Option<&str>,
    silo: &Silo<MemoryStorage, L>,
    kinds: u8,
    why: LineFault,
) -> Cause
    requires { why ≢ LineFault.Memory → OpensEmpty silo.now.setup }
    ensures ends { EndsBy why (KeepsJournal (version_of L.logic kinds) (claims F.may_hold F.may_fail F.may_leave files.old files.new)
        (option_map (λ path. path.now) journal.entry) silo.now
        ⊎ MayFailAt (F.may_fail files.old) (option_map (λ path. path.now) journal.entry)) result }
    ensures alone { WritesAtMost (version_of L.logic kinds) (claims F.may_hold F.may_fail F.may_leave files.old files.new)
        (option_map (λ path. path.now) journal.entry) silo.now }
    ensures unwritten { why ≡ LineFault.Memory → files.new ≡ files.old }
{
    if matches!(why, LineFault::Memory) {
        return Cause::Memory;
    }
    match keep_journal(alloc, files, journal, silo, kinds) {
        Err(Cause::Memory) => Cause::Memory,
        _ => cause_of(why),
    }
}

/// Answers each line of the input before the next is read, followed by at most `sends` deliveries. No journal is kept,
/// so that the silo drops its history from time to time.
fn answer_only<L: GrainLogic + Drop, F: WholeFiles, R: Read, W: Write>(
    alloc: Global,
    start: Start<L>,
    sends: u64,
    files: &F,
    input: &mut Input<R>,
    output: &mut Output<W>,
) -> Result<(), Cause>
    requires { IsFresh input.old.lines }
    ensures answered { OnOk result (AnswersLanes (starting (version_of L.logic start.kinds) start.tenants start.age start.ages) sends
        (claims F.may_hold F.may_fail F.may_leave files.now files.now) None
        (R.remaining input.old.reader) (R.remaining input.new.reader) (W.contents output.old.writer) (W.contents output.new.writer)) }
    ensures unfailed { OnOk result (output.new.calls.failed ≡ output.old.calls.failed) }
    ensures out { OnOk result (output.new.calls.held ≡ false) }
    ensures fault { IfErr result (λ why. AnsweringFailsBy
        (starting (version_of L.logic start.kinds) start.tenants start.age start.ages) sends
        (claims F.may_hold F.may_fail F.may_leave files.now files.now) None why
        (R.remaining input.old.reader) (R.remaining input.new.reader) input.new.lines
        (W.contents output.old.writer) (W.contents output.new.writer) output.new.calls) }
{
    let Ok(mut silo) = new_silo(alloc, start) else {
        return Err(Cause::Memory);
    };
    silo.drop_history();
    let done = answer_reader(alloc, &mut silo, sends, input, output);

    // The process ends soon, and gives all of its memory back at once.
    mem::forget(silo);
    match done {
        Ok(()) => Ok(()),
        Err(why) => Err(cause_of(why)),
    }
}

/// The same, and if a path is given, the journal is written there, as [`answer_input`] does.
fn answer_and_keep<L: GrainLogic + Drop, F: WholeFiles, R: Read, W: Write>(
    alloc: Global,
    start: Start<L>,
    sends: u64,
    journal: Option<&str>,
    files: &mut F,
    input: &mut Input<R>,
    output: &mut Output<W>,
) -> Result<(), Cause>
    requires fresh { IsFresh input.old.lines }
    ensures answered { OnOk result (AnswersLanes (starting (version_of L.logic start.kinds) start.tenants start.age start.ages) sends
        (claims F.may_hold F.may_fail F.may_leave files.old files.new) (option_map (λ path. path.now) journal.entry)
        (R.remaining input.old.reader) (R.remaining input.new.reader) (W.contents output.old.writer) (W.contents output.new.writer)) }
    ensures unfailed { OnOk result (output.new.calls.failed ≡ output.old.calls.failed) }
    ensures out { OnOk result (output.new.calls.held ≡ false) }
    ensures fault { IfErr result (λ why. AnsweringFailsBy
        (starting (version_of L.logic start.kinds) start.tenants start.age start.ages) sends
        (claims F.may_hold F.may_fail F.may_leave files.old files.new) (option_map (λ path. path.now) journal.entry) why
        (R.remaining input.old.reader) (R.remaining input.new.reader) input.new.lines
        (W.contents output.old.writer) (W.contents output.new.writer) output.new.calls) }

    // In every outcome.
    ensures journal { WritesJournalsAtMost (starting (version_of L.logic start.kinds) start.tenants start.age start.ages) sends
        (claims F.may_hold F.may_fail F.may_leave files.old files.new) (option_map (λ path. path.now) journal.entry)
        (R.remaining input.old.reader) }
{
    let kinds = start.kinds;
    let Ok(mut silo) = new_silo(alloc, start) else {
        return Err(Cause::Memory);
    };
    let first = keep_journal(alloc, files, journal, silo.silo(), kinds);
    if let Err(why) = first {
        drop(silo);
        return Err(why);
    }
    match answer_reader(alloc, &mut silo, sends, input, output) {
        Ok(()) => {
            let kept = keep_journal(alloc, files, journal, silo.silo(), kinds);

            // The process ends soon, and gives all of its memory back at once.
            mem::forget(silo);
            kept
        }
        Err(why) => {
            let cause = keep_after(alloc, files, journal, silo.silo(), kinds, why);
            mem::forget(silo);
            Err(cause)
        }
    }
}

/// Answers each line of the input before the next is read, followed by at most `sends` deliveries. If a path is given,
/// the journal is written there: that of no step before anything is read, and the whole one at the end, however the
/// input ends. If none is, the silo drops its history from time to time.
///
/// # Errors
///
/// `Write` if the first journal wasn't written, and then nothing is read. Those of `answer_lines`, and then the whole journal
/// was written, or a call at its path failed. `Write` if all was answered and the whole journal wasn't written. `Memory` at
/// any time, and then the whole journal may not be written.
pub fn answer_input<L: GrainLogic + Drop, F: WholeFiles, R: Read, W: Write>(
    alloc: Global,
    start: Start<L>,
    sends: u64,
    journal: Option<&str>,
    files: &mut F,
    input: &mut Input<R>,
    output: &mut Output<W>,
) -> Result<(), Cause>
    requires fresh { IsFresh input.old.lines }
    ensures answered { OnOk result (AnswersLanes (starting (version_of L.logic start.kinds) start.tenants start.age start.ages) sends
        (claims F.may_hold F.may_fail F.may_leave files.old files.new) (option_map (λ path. path.now) journal.entry)
        (R.remaining input.old.reader) (R.remaining input.new.reader) (W.contents output.old.writer) (W.contents output.new.writer)) }
    ensures unfailed { OnOk result (output.new.calls.failed ≡ output.old.calls.failed) }
    ensures out { OnOk result (output.new.calls.held ≡ false) }
    ensures fault { IfErr result (λ why. AnsweringFailsBy
        (starting (version_of L.logic start.kinds) start.tenants start.age start.ages) sends
        (claims F.may_hold F.may_fail F.may_leave files.old files.new) (option_map (λ path. path.now) journal.entry) why
        (R.remaining input.old.reader) (R.remaining input.new.reader) input.new.lines
        (W.contents output.old.writer) (W.contents output.new.writer) output.new.calls) }

    // In every outcome.
    ensures journal { WritesJournalsAtMost (starting (version_of L.logic start.kinds) start.tenants start.age start.ages) sends
        (claims F.may_hold F.may_fail F.may_leave files.old files.new) (option_map (λ path. path.now) journal.entry)
        (R.remaining input.old.reader) }
{
    let Some(_) = journal else {
        return answer_only(alloc, start, sends, files, input, output);
    };
    answer_and_keep(alloc, start, sends, journal, files, input, output)
}
