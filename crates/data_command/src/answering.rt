//! Every line of an input, answered by a silo that goes on where its log ends.

ghost use Rattle.std.specs.Prelude.{◌≡◌, [], false, true, IfErr, IfOk, OnErr, OnOk, Some, option_map};
ghost use Rattle.silo_model.specs.Opening.{opening};
ghost use Rattle.line_text.specs.Reading.{IsFresh};
ghost use Rattle.command_parts.specs.Setups.{started, starting, version_of};
ghost use Rattle.data_command.specs.Data.{AnswersData, DataFailsBy, log_claims};
ghost use Rattle.data_command.specs.Passing.{RunCuts, RunHas, RunLasts};
ghost use Rattle.data_command.specs.Folder.{FolderAnswers, FolderFailsBy, FolderHas, FolderLasts};
ghost use Rattle.data_command.specs.Words.{head_words};
ghost use Rattle.data_command.specs.inside.Starts.{running_cause};

use crate::fault::DataFault;
use crate::found::open_folder;
use crate::head::head_words;
use crate::opening::DataOpening;
use crate::ready::{ReadySilo, ready_silo};
use crate::replacing::replace_log;
use crate::starting::{LogTask, StartedLog, start_log};
use command_parts::{Cause, DataFiles};
use grain_logic::GrainLogic;
use grain_storage::MemoryStorage;
use line_answer::AnsweringSilo;
use line_text::{Input, LineReader, Output};
use log_answer::{LogFault, RunFrom, answer_logged};
use silo_words::Data;
use std::alloc::{AllocError, Global};
use std::io::{Read, Write};
use std::mem;

/// Bytes that one read brings, at most.
const READ_BYTES: usize = 1_048_576;

/// What a fault of the run is to the program.
fn running_cause(fault: LogFault) -> Cause
    ensures { result ≡ running_cause fault }
{
    match fault {
        LogFault::Read => Cause::Read,
        LogFault::Write => Cause::Write,
        LogFault::Memory => Cause::Memory,
        LogFault::TooMuch => Cause::TooMuch,
    }
}

/// Starts the silo's log, then answers each line of the input. A line is in the log before any reply to it is written. A checkpoint takes
/// the place of a log that has lines: after the start, once the log is long, and in the end.
fn answer_on<L: GrainLogic, F: DataFiles, R: Read, W: Write>(
    alloc: Global,
    silo: &mut AnsweringSilo<MemoryStorage, L>,
    task: &mut LogTask,
    files: &mut F,
    input: &mut Input<R>,
    output: &mut Output<W>,
) -> Result<(), DataFault>
    requires ready { silo.old.stopped ≡ false }
    requires opened { silo.old.history.whole ≡ opening silo.old.history.setup }
    requires words { task.old.words.items ≡ head_words
        (started (version_of L.logic task.old.kinds) silo.old.history.setup) task.old.sends }
    requires drops { silo.old.keeps ≡ false }
    requires fresh { IsFresh input.old.lines }
    requires found { F.acts files.old ≡ Some [] → F.begun files.old ≡ option_map (λ bytes. bytes.items) task.old.log }
    ensures answered { OnOk result (AnswersData (started (version_of L.logic task.old.kinds) silo.old.history.setup)
        task.old.sends (log_claims F.begun F.acts F.past F.failed files.old files.new)
        (R.remaining input.old.reader) (R.remaining input.new.reader) (W.contents output.old.writer) (W.contents output.new.writer)) }
    ensures has { OnOk result (task.old.sync ≡ true → RunHas (started (version_of L.logic task.old.kinds) silo.old.history.setup)
        task.old.sends (log_claims F.begun F.acts F.past F.failed files.old files.new) (R.remaining input.old.reader)) }
    ensures output { OnOk result (output.new.calls.failed ≡ output.old.calls.failed) }
    ensures out { OnOk result (output.old.calls.held ≡ false → output.new.calls.held ≡ false) }
    ensures fault { IfErr result (λ why. DataFailsBy (started (version_of L.logic task.old.kinds) silo.old.history.setup) task.old.sends
        (log_claims F.begun F.acts F.past F.failed files.old files.new) why
        (R.remaining input.old.reader) (R.remaining input.new.reader) input.new.lines
        (W.contents output.old.writer) (W.contents output.new.writer)) }
    ensures cut { OnOk result (task.old.sync ≡ true → RunCuts (started (version_of L.logic task.old.kinds) silo.old.history.setup)
        task.old.sends (log_claims F.begun F.acts F.past F.failed files.old files.new)) }
    ensures lasts { task.old.sync ≡ true → RunLasts (started (version_of L.logic task.old.kinds) silo.old.history.setup) task.old.sends
        (log_claims F.begun F.acts F.past F.failed files.old files.new) }
{
    let Ok(lines) = LineReader::with_capacity(alloc, READ_BYTES) else {
        return Err(DataFault::Failed(Cause::Memory));
    };
    let (sync, sends) = (task.sync, task.sends);
    let mut begun = match start_log(alloc, files, silo, task) {
        Ok(begun) => begun,
        Err(why) => {
            drop(lines);
            return Err(why);
        }
    };
    files.set_sync(sync);
    input.lines = lines;
    let mut count = 0;
    let mut ended = false;
    'logs: loop {
        match replace_log(alloc, files, silo, task, &mut begun) {
            Ok(()) => {}
            Err(why) => return Err(DataFault::Failed(why)),
        }
        if ended {
            return Ok(());
        }
        let StartedLog { place, room, .. } = begun;
        let from = RunFrom { place, count, room };
        let ran = match answer_logged(alloc, input, output, files, from, silo, sends) {
            Ok(ran) => ran,
            Err(why) => return Err(DataFault::Failed(running_cause(why))),
        };
        begun = StartedLog {
            place: ran.place,
            has_lines: begun.has_lines || ran.count > count,
            ..begun
        };
        count = ran.count;
        ended = !ran.paused;
    }
}

/// The words of the log's head.
fn words_for<L: GrainLogic>(alloc: Global, opening: &DataOpening<L>) -> Result<Vec<u8>, AllocError>
    ensures { IfOk result (λ words. words.items ≡ head_words
        (starting (version_of L.logic opening.now.start.kinds) opening.now.start.tenants opening.now.start.age opening.now.start.ages)
        opening.now.sends) }
{
    let start = &opening.start;
    head_words(
        alloc,
        start.kinds,
        opening.sends,
        start.age,
        &start.ages,
        &start.tenants,
    )
}

/// Answers each line of the input, followed by at most `opening.sends` deliveries, with a silo that goes on where the
/// folder's checkpoint and the log after it lead. The folder and its log are made if they aren't there. Each line is in the log, and on
/// the disk if `folder.sync` is set, before any reply to it is written. The replies to the lines of one read, which brings
/// at most 1,048,576 bytes, are written together, or in parts if a batch is full before. The silo drops its history
/// from time to time, while it answers the log's lines again and afterwards. A checkpoint takes the place of a log that has lines after the
/// start, once it got 16,777,216 bytes of lines or as many as the last checkpoint has, and at the end of the input.
///
/// # Errors
///
/// `InUse` if another process has the folder; `NoCheckpoint`, `NoLog`, `OtherWords`, `Refused` or `Otherwise` if the silo can't go on with
/// its checkpoint or its log, and then both are as they were. `Read` or `Write` if a call at the folder, of the reader or of the writer
/// failed; `TooMuch` if the input has too many lines or needs too many reads. `Memory` if memory was refused at any
/// time, also if a turn was abandoned for lack of it. After a fault no reply is written to lines that aren't in the
/// log.
pub fn answer_data<L: GrainLogic + Drop, F: DataFiles, R: Read, W: Write>(
    alloc: Global,
    opening: DataOpening<L>,
    folder: Data<'_>,
    files: &mut F,
    input: &mut Input<R>,
    output: &mut Output<W>,
) -> Result<(), DataFault>
    requires fresh { IsFresh input.old.lines }
    ensures answered { OnOk result (FolderAnswers
        (starting (version_of L.logic opening.start.kinds) opening.start.tenants opening.start.age opening.start.ages) opening.sends
        (log_claims F.begun F.acts F.past F.failed files.old files.new)
        (R.remaining input.old.reader) (R.remaining input.new.reader) (W.contents output.old.writer) (W.contents output.new.writer)) }

    // The log has the lines of the input behind those that it had, or had them when a checkpoint took its place.
    ensures has { OnOk result (folder.entry.sync ≡ true → FolderHas
        (starting (version_of L.logic opening.start.kinds) opening.start.tenants opening.start.age opening.start.ages) opening.sends
        (log_claims F.begun F.acts F.past F.failed files.old files.new) (R.remaining input.old.reader)) }
    ensures unfailed { OnOk result (output.new.calls.failed ≡ output.old.calls.failed) }
    ensures out { OnOk result (output.old.calls.held ≡ false → output.new.calls.held ≡ false) }
    ensures fault { IfErr result (λ why. FolderFailsBy
        (starting (version_of L.logic opening.start.kinds) opening.start.tenants opening.start.age opening.start.ages) opening.sends
        (log_claims F.begun F.acts F.past F.failed files.old files.new) why
        (R.remaining input.old.reader) (R.remaining input.new.reader) input.new.lines
        (W.contents output.old.writer) (W.contents output.new.writer)) }

    // In every outcome, at each moment: whatever a crash leaves of the log, what was told is the beginning of what that log answers; and a
    // checkpoint that takes its place says where it leads.
    ensures lasts { folder.entry.sync ≡ true → FolderLasts
        (starting (version_of L.logic opening.start.kinds) opening.start.tenants opening.start.age opening.start.ages) opening.sends
        (log_claims F.begun F.acts F.past F.failed files.old files.new) }
{
    let words = words_for(alloc, &opening)?;
    let found = match open_folder(alloc, files, folder.path) {
        Ok(found) => found,
        Err(why) => {
            drop(opening);
            drop(words);
            return Err(DataFault::Failed(why));
        }
    };
    let ready = match ready_silo(alloc, files, opening, words, found) {
        Ok(ready) => ready,
        Err(why) => return Err(why),
    };
    let ReadySilo { mut silo, mut task } = ready;
    task.sync = folder.sync;
    let done = answer_on(alloc, &mut silo, &mut task, files, input, output);

    // The process ends soon, and gives all of its memory back at once.
    mem::forget(silo);
    done
}
