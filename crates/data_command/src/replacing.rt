//! A checkpoint that takes the place of a log.

ghost use Rattle.std.specs.Prelude.{◌≡◌, ◌⊎◌, false, ℕ, List, true, length, max, None, Ok, take, IfErr, IfOk, IfSome, OnOk};
ghost use Rattle.line_answer.specs.Dropped.{MayDrop};
ghost use Rattle.log_text.specs.Sums.{after, spelled};
ghost use Rattle.log_host.specs.Acts.{Act};
ghost use Rattle.log_answer.specs.Answers.{SameTables};
ghost use Rattle.silo_checkpoint.specs.Saved.{sum_in};
ghost use Rattle.command_parts.specs.Setups.{Start, started, version_of};
ghost use Rattle.data_command.specs.Data.{LogView, NothingFollows, Stands, log_view, since};
ghost use Rattle.data_command.specs.Words.{head_words};
ghost use Rattle.data_command.specs.inside.Replacing.{AreTexts, GoesOnNext, MayBeReplaced, StaysOn};

use crate::starting::{LOG_ROOM, LogTask, StartedLog, is_same};
use command_parts::{Cause, DataFiles};
use grain_logic::GrainLogic;
use grain_storage::MemoryStorage;
use line_answer::AnsweringSilo;
use log_host::LogPlace;
use log_text::{push_head, spell};
use silo_checkpoint::{save, sum_of};
use std::alloc::{AllocError, Global};

/// The text of a checkpoint that says what the silo has, and the head of the log that goes on from it; none if no checkpoint can say it,
/// or if the new log would have the number of the old one.
pub(crate) fn texts_of<L: GrainLogic>(
    alloc: Global,
    silo: &AnsweringSilo<MemoryStorage, L>,
    task: &LogTask,
    number: &[u8],
) -> Result<Option<(Vec<u8>, Vec<u8>)>, AllocError>
    ensures texts { IfOk result (λ found. IfSome found (λ texts. AreTexts (version_of L.logic task.now.kinds) task.now.sends number.now
        silo.now.history.setup task.now.words.items texts.0.items texts.1.items)) }
    ensures none { result ≡ Ok None → NothingFollows (version_of L.logic task.now.kinds) task.now.sends number.now silo.now.history.setup }
{
    let Ok(follows) = str::from_utf8(number) else {
        return Ok(None);
    };
    let Some(text) = save(alloc, silo.silo(), task.kinds, follows, task.sends)? else {
        return Ok(None);
    };
    let next = sum_of(text.as_slice());
    if is_same(spell(next).as_slice(), number) {
        return Ok(None);
    }
    let mut head = Vec::new(alloc);
    push_head(&mut head, task.words.as_slice(), next)?;
    Ok(Some((text, head)))
}

/// The log of that head, which goes on from a checkpoint of that text.
fn next_log(text: &[u8], head: &[u8]) -> StartedLog
    ensures number { result.number ≡ spelled (sum_in text.now) }
    ensures name { result.place.name ≡ take 8 (spelled (sum_in text.now)) }
    ensures sum { result.place.sum ≡ after 0 head.now }
    ensures told { result.place.told ≡ 0 }
    ensures room { result.room ≡ max 16777216 (length text.now) }
{
    let number = spell(sum_of(text));
    StartedLog {
        place: LogPlace::behind_head(number.as_slice(), head),
        number,
        has_lines: false,
        room: LOG_ROOM.max(text.len() as u64),
    }
}

/// Has all that the silo has in a checkpoint in the place of the log, if that has lines, and begins a log that goes on from it, without a
/// batch. The silo's history is dropped. Nothing is done to the folder if no checkpoint can say what the silo has: then the log is to
/// go on as it is.
///
/// # Errors
///
/// `Memory`, and then nothing was done to the folder; `Write` if a call at it failed.
pub(crate) fn replace_log<F: DataFiles, L: GrainLogic>(
    alloc: Global,
    files: &mut F,
    silo: &mut AnsweringSilo<MemoryStorage, L>,
    task: &LogTask,
    log: &mut StartedLog,
) -> Result<(), Cause>
    requires ready { silo.old.stopped ≡ false }
    requires drops { silo.old.keeps ≡ false }
    requires words { task.now.words.items ≡ head_words
        (started (version_of L.logic task.now.kinds) silo.old.history.setup) task.now.sends }

    // However it ends, all that was told stands: the log is as it was, or the checkpoint has all of it.
    ensures stands { (start : Start) (old : LogView) (bytes : List ℕ) (acts : List Act)
        → MayBeReplaced start (version_of L.logic task.now.kinds) task.now.sends task.now.words.items log.old.number
        (since old (log_view F.begun F.acts F.past F.failed files.old)) bytes acts silo.old.history.whole
        → Stands start task.now.sends (since old (log_view F.begun F.acts F.past F.failed files.new)) log.old.number bytes acts }

    // The log goes on, or the next one does where the silo opened again.
    ensures next { OnOk result (StaysOn (version_of L.logic task.now.kinds) task.now.sends silo.new.history.setup
        files.old files.new log.old log.new
        ⊎ GoesOnNext (version_of L.logic task.now.kinds) task.now.sends task.now.words.items
        (log_view F.begun F.acts F.past F.failed files.old) (log_view F.begun F.acts F.past F.failed files.new) log.old.number
        silo.old.history silo.new.history log.new) }
    ensures tables { SameTables silo.old.history.setup silo.new.history.setup }
    ensures dropped { MayDrop false silo.old.history silo.new.history }
    ensures stopped { silo.new.stopped ≡ silo.old.stopped }
    ensures keeps { silo.new.keeps ≡ silo.old.keeps }
    ensures fault { IfErr result (λ why. (why ≡ Cause.Memory) ⊎ ((why ≡ Cause.Write) × (F.failed files.new ≡ true))) }
    ensures unfailed { OnOk result (F.failed files.new ≡ F.failed files.old) }
{
    if !log.has_lines {
        return Ok(());
    }
    // For the proof: where the silo's journal leads, and that all is idle.
    let _ = silo.journal();
    let Ok(true) = silo.reopen(alloc) else {
        return Err(Cause::Memory);
    };
    // For the proof: that its journal has no step now.
    let _ = silo.journal();
    let texts = match texts_of(alloc, silo, task, log.number.as_slice()) {
        Ok(texts) => texts,
        Err(_) => return Err(Cause::Memory),
    };
    let Some((text, head)) = texts else {
        log.room = u64::MAX;
        return Ok(());
    };
    match files.switch(text.as_slice(), head.as_slice()) {
        Ok(()) => {
            *log = next_log(text.as_slice(), head.as_slice());
            Ok(())
        }
        Err(_) => Err(Cause::Write),
    }
}
