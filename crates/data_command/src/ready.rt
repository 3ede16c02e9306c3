//! The silo with which a folder of data is gone on with.

ghost use Rattle.std.specs.Prelude.{◌≡◌, ◌↔◌, ◌⊎◌, ℕ, [], false, true, List, None, Ok, Some, option_map};
ghost use Rattle.std.specs.Prelude.{IfErr, IfOk, IfSome, IsTrue, OnErr, OnOk};
ghost use Rattle.silo_model.specs.Opening.{opening};
ghost use Rattle.grain_storage.specs.Memory.{AreVersioned, IsAscending};
ghost use Rattle.silo_state.specs.KeptParts.{MayResume};
ghost use Rattle.log_text.specs.Head.{head_text};
ghost use Rattle.log_text.specs.Sums.{spelled};
ghost use Rattle.log_host.specs.Files.{Begins, MayBegin};
ghost use Rattle.silo_checkpoint.specs.Answers.{saved_in};
ghost use Rattle.silo_checkpoint.specs.Saved.{HasText, sum_in};
ghost use Rattle.command_parts.specs.Setups.{setup_of, started, starting, version_of};
ghost use Rattle.data_command.specs.Data.{LogView, log_view, since};
ghost use Rattle.data_command.specs.Folder.{FolderLasts, OpeningFailsBy, OpensAt};
ghost use Rattle.data_command.specs.Words.{head_words};
ghost use Rattle.data_command.specs.inside.Ready.{CantGoOn, FailsToRead, HasFound, HasLog, HasNumber, IsReady, IsWrongLog, SaysWords};

use crate::fault::DataFault;
use crate::found::Found;
use crate::head::head_words;
use crate::opening::DataOpening;
use crate::reworded::reworded_ready;
use crate::starting::{LogTask, count_lines, is_same};
use command_parts::{Cause, DataFiles, Start, new_silo};
use grain_logic::GrainLogic;
use grain_storage::MemoryStorage;
use line_answer::AnsweringSilo;
use log_text::{cut_head, is_log, push_head, spell};
use silo_checkpoint::{CheckpointFault, Saved, read_saved, sum_of};
use silo_core::Setup;
use std::alloc::{AllocError, Global};

/// A silo that needn't keep its history, and what its log is begun or continued with.
#[derive(Drop)]
pub(crate) struct ReadySilo<L: GrainLogic> {
    pub(crate) silo: AnsweringSilo<MemoryStorage, L>,
    pub(crate) task: LogTask,
}

/// A silo over no rows that answers lines, and needn't keep its history.
fn dropping_silo<L: GrainLogic + Drop>(
    alloc: Global,
    start: Start<L>,
) -> Result<AnsweringSilo<MemoryStorage, L>, AllocError>
    ensures setup { IfOk result (λ s. s.history.setup ≡ setup_of start.tenants start.age start.ages) }
    ensures opened { IfOk result (λ s. s.history.whole ≡ opening s.history.setup) }
    ensures ready { IfOk result (λ s. s.stopped ≡ false) }
    ensures drops { IfOk result (λ s. s.keeps ≡ false) }
{
    let mut silo = new_silo(alloc, start)?;
    silo.drop_history();
    Ok(silo)
}

/// A silo that goes on from what a checkpoint says, and needn't keep its history; none if it says what no silo can go on with.
fn saved_silo<L: GrainLogic + Drop>(
    alloc: Global,
    start: Start<L>,
    saved: Saved<'_>,
) -> Result<Option<AnsweringSilo<MemoryStorage, L>>, AllocError>
    requires ascending { IsAscending saved.rows.items }
    requires versioned { AreVersioned saved.rows.items }
    ensures setup { IfOk result (λ found. IfSome found (λ s. s.history.setup ≡ (saved_in saved.entry).setup)) }
    ensures opened { IfOk result (λ found. IfSome found (λ s. s.history.whole ≡ opening s.history.setup)) }
    ensures ready { IfOk result (λ found. IfSome found (λ s. s.stopped ≡ false)) }
    ensures drops { IfOk result (λ found. IfSome found (λ s. s.keeps ≡ false)) }
    ensures none { result ≡ Ok None → MayResume L.logic saved.entry.kept → ⊥ }
{
    let seed = start.seed;
    let setup = Setup {
        tenants: saved.tenants,
        age: saved.age,
        ages: saved.ages,
        storage: MemoryStorage::seeded_with_rows(alloc, saved.rows, seed)?,
        logic: start.logic,
    };
    let Some(mut silo) = AnsweringSilo::resumed(alloc, setup, saved.kept, seed)? else {
        return Ok(None);
    };
    silo.drop_history();
    Ok(Some(silo))
}

/// Whether the checkpoint says the number of that logic, this number of deliveries, and these words.
fn says_words(
    alloc: Global,
    saved: &Saved<'_>,
    kinds: u8,
    sends: u64,
    words: &[u8],
) -> Result<bool, AllocError>
    ensures { IfOk result (λ same. IsTrue same ↔ SaysWords (saved_in saved.now) kinds sends words.now) }
{
    let own = head_words(
        alloc,
        saved.kinds,
        saved.sends,
        saved.age,
        &saved.ages,
        &saved.tenants,
    )?;
    Ok(saved.kinds == kinds && saved.sends == sends && is_same(own.as_slice(), words))
}

/// Bytes of the line with which each log begins.
const FORM_BYTES: usize = 11;

/// Whether the bytes are those of a log of that number whose head has these words.
fn is_headed(words: &[u8], number: &[u8], log: &[u8]) -> bool
    ensures { result ≡ true → HasNumber words.now number.now log.now }
{
    match cut_head(words, log) {
        Some((digits, _)) => is_same(digits, number),
        None => false,
    }
}

/// Whether the bytes are those of a log of that number, whatever words its head has: none of their lines begins with `of `, as the one
/// with the number does.
fn has_number(number: &[u8], log: &[u8]) -> bool
    ensures { result ≡ true → (words : List ℕ) × HasNumber words number.now log.now }
{
    'bytes: for at in FORM_BYTES..log.len() {
        if log[at - 1] == b'\n' && log[at..].starts_with(b"of ") {
            return is_headed(&log[FORM_BYTES..at], number, log);
        }
    }
    false
}

/// Whether the log that stands beside a checkpoint goes on from it, and has its number; or whether it is the one whose place the
/// checkpoint takes, whatever words that has.
fn is_own_log(words: &[u8], number: u64, follows: &str, log: &[u8]) -> Result<bool, DataFault>
    ensures own { result ≡ Ok true → HasNumber words.now (spelled number) log.now }
    ensures old { result ≡ Ok false → (before : List ℕ) × HasNumber before follows.now log.now }
    ensures fault { IfErr result (λ why. IsWrongLog words.now (spelled number) follows.now log.now why) }
{
    let Some((digits, behind)) = cut_head(words, log) else {
        if has_number(follows.as_bytes(), log) {
            return Ok(false);
        }
        if is_log(log) {
            return Err(DataFault::OtherWords);
        }
        return Err(DataFault::Refused(1));
    };
    if is_same(digits, spell(number).as_slice()) {
        return Ok(true);
    }
    if is_same(digits, follows.as_bytes()) {
        return Ok(false);
    }
    Err(DataFault::Refused(count_lines(&log[..log.len() - behind.len()])))
}

/// The bytes of a new log of this number, which is begun in the place of the one that is there.
fn new_log<F: DataFiles>(
    alloc: Global,
    files: &mut F,
    words: &[u8],
    number: u64,
) -> Result<Vec<u8>, DataFault>
    ensures log { IfOk result (λ log. log.items ≡ head_text words.now (spelled number)) }
    ensures begun { OnOk result (Begins (F.acts files.old) (F.acts files.new) (F.begun files.new) (head_text words.now (spelled number))) }
    ensures err { OnErr result (MayBegin (F.acts files.old) (F.begun files.old) (F.acts files.new) (F.begun files.new)
        (head_text words.now (spelled number))) }
    ensures acts { F.acts files.new ≡ F.acts files.old }
    ensures past { F.past files.new ≡ F.past files.old }
    ensures fault { IfErr result (λ why. (why ≡ DataFault.Failed Cause.Memory)
        ⊎ ((why ≡ DataFault.Failed Cause.Write) × (F.failed files.new ≡ true))) }
{
    let mut head = Vec::new(alloc);
    push_head(&mut head, words, number)?;
    match files.begin(head.as_slice()) {
        Ok(()) => Ok(head),
        Err(_) => Err(DataFault::Failed(Cause::Write)),
    }
}

/// The silo that starts with what the words say.
fn new_ready<L: GrainLogic + Drop>(
    alloc: Global,
    start: Start<L>,
    task: LogTask,
) -> Result<ReadySilo<L>, DataFault>
    requires words { task.words.items
        ≡ head_words (starting (version_of L.logic start.kinds) start.tenants start.age start.ages) task.sends }
    requires kinds { task.kinds ≡ start.kinds }
    ensures setup { IfOk result (λ r. r.silo.history.setup ≡ setup_of start.tenants start.age start.ages) }
    ensures ready { IfOk result (λ r. (now : LogView) → (now.acts ≡ Some [] → now.begun ≡ option_map (λ bytes. bytes.items) task.log)
        → IsReady (version_of L.logic start.kinds) task.sends now r.silo.history r.silo.stopped r.silo.keeps r.task) }
    ensures fault { IfErr result (λ why. why ≡ DataFault.Failed Cause.Memory) }
{
    match dropping_silo(alloc, start) {
        Ok(silo) => Ok(ReadySilo { silo, task }),
        Err(AllocError) => {
            drop(task);
            Err(DataFault::Failed(Cause::Memory))
        }
    }
}

/// The silo, with a new log in the place of the one that is there.
fn begun_anew<L: GrainLogic + Drop, F: DataFiles>(
    alloc: Global,
    files: &mut F,
    ready: ReadySilo<L>,
) -> Result<ReadySilo<L>, DataFault>
    ensures silo { IfOk result (λ r. r.silo ≡ ready.silo) }
    ensures task { IfOk result (λ r. r.task.words ≡ ready.task.words × (r.task.kinds ≡ ready.task.kinds)
        × (r.task.sends ≡ ready.task.sends) × (option_map (λ bytes. bytes.items) r.task.log
        ≡ Some (head_text ready.task.words.items (spelled ready.task.number)))) }
    ensures begun { OnOk result (Begins (F.acts files.old) (F.acts files.new) (F.begun files.new)
        (head_text ready.task.words.items (spelled ready.task.number))) }
    ensures err { OnErr result (MayBegin (F.acts files.old) (F.begun files.old) (F.acts files.new) (F.begun files.new)
        (head_text ready.task.words.items (spelled ready.task.number))) }
    ensures acts { F.acts files.new ≡ F.acts files.old }
    ensures past { F.past files.new ≡ F.past files.old }
    ensures fault { IfErr result (λ why. (why ≡ DataFault.Failed Cause.Memory)
        ⊎ ((why ≡ DataFault.Failed Cause.Write) × (F.failed files.new ≡ true))) }
{
    let ReadySilo { silo, mut task } = ready;
    match new_log(alloc, files, task.words.as_slice(), task.number) {
        Ok(head) => {
            task.log = Some(head);
            Ok(ReadySilo { silo, task })
        }
        Err(why) => {
            drop(silo);
            drop(task);
            Err(why)
        }
    }
}

/// A silo that goes on from what a checkpoint says, with this task.
fn resumed_ready<L: GrainLogic + Drop>(
    alloc: Global,
    start: Start<L>,
    task: LogTask,
    saved: Saved<'_>,
) -> Result<ReadySilo<L>, DataFault>
    requires ascending { IsAscending saved.rows.items }
    requires versioned { AreVersioned saved.rows.items }
    ensures task { IfOk result (λ r. r.task ≡ task) }
    ensures setup { IfOk result (λ r. r.silo.history.setup ≡ (saved_in saved.entry).setup) }
    ensures opened { IfOk result (λ r. r.silo.history.whole ≡ opening r.silo.history.setup) }
    ensures ready { IfOk result (λ r. r.silo.stopped ≡ false) }
    ensures drops { IfOk result (λ r. r.silo.keeps ≡ false) }
    ensures fault { IfErr result (λ why. (why ≡ DataFault.Failed Cause.Memory)
        ⊎ ((why ≡ DataFault.NoCheckpoint) × (MayResume L.logic saved.entry.kept → ⊥))) }
{
    match saved_silo(alloc, start, saved) {
        Ok(Some(silo)) => Ok(ReadySilo { silo, task }),
        Ok(None) => {
            drop(task);
            Err(DataFault::NoCheckpoint)
        }
        Err(AllocError) => {
            drop(task);
            Err(DataFault::Failed(Cause::Memory))
        }
    }
}

/// What the checkpoint says.
fn read_point(alloc: Global, point: &[u8]) -> Result<Saved<'_>, DataFault>
    ensures says { IfOk result (λ saved. HasText point.now (saved_in saved)) }
    ensures rows { IfOk result (λ saved. IsAscending saved.rows.items × AreVersioned saved.rows.items) }
    ensures fault { IfErr result (FailsToRead point.now) }
{
    match read_saved(alloc, point) {
        Ok(saved) => Ok(saved),
        Err(CheckpointFault::NoCheckpoint) => Err(DataFault::NoCheckpoint),
        Err(CheckpointFault::Memory) => Err(DataFault::Failed(Cause::Memory)),
    }
}

/// What follows from a checkpoint and from the log that stands beside it.
#[derive(Clone, Copy)]
enum Going {
    /// The checkpoint has other words.
    Reworded,
    /// The log goes on from it.
    On,
    /// The log is the one whose place the checkpoint takes, so that a new one is begun.
    Anew,
}

/// What follows from the checkpoint and from the task's log.
fn going_of(alloc: Global, saved: &Saved<'_>, task: &LogTask) -> Result<Going, DataFault>
    ensures other { result ≡ Ok Going.Reworded → SaysWords (saved_in saved.now) task.now.kinds task.now.sends task.now.words.items → ⊥ }
    ensures on { result ≡ Ok Going.On → SaysWords (saved_in saved.now) task.now.kinds task.now.sends task.now.words.items
        × HasLog task.now.words.items (spelled task.now.number) (option_map (λ bytes. bytes.items) task.now.log) }
    ensures anew { result ≡ Ok Going.Anew → SaysWords (saved_in saved.now) task.now.kinds task.now.sends task.now.words.items
        × ((before : List ℕ) × HasLog before (saved_in saved.now).follows (option_map (λ bytes. bytes.items) task.now.log)) }
    ensures fault { IfErr result (CantGoOn task.now.words.items (spelled task.now.number) (saved_in saved.now).follows
        (option_map (λ bytes. bytes.items) task.now.log)) }
{
    let words = task.words.as_slice();
    if !says_words(alloc, saved, task.kinds, task.sends, words)? {
        return Ok(Going::Reworded);
    }
    let Some(log) = &task.log else {
        return Err(DataFault::NoLog);
    };
    if is_own_log(words, task.number, saved.follows, log.as_slice())? {
        Ok(Going::On)
    } else {
        Ok(Going::Anew)
    }
}

/// The silo that goes on from what the checkpoint says. `task` has the number of the log that goes on from it, and the bytes of the one
/// that is there.
fn saved_ready<L: GrainLogic + Drop, F: DataFiles>(
    alloc: Global,
    files: &mut F,
    start: Start<L>,
    task: LogTask,
    point: &[u8],
) -> Result<ReadySilo<L>, DataFault>
    requires words { task.words.items
        ≡ head_words (starting (version_of L.logic start.kinds) start.tenants start.age start.ages) task.sends }
    requires kinds { task.kinds ≡ start.kinds }
    requires number { task.number ≡ sum_in point.now }
    ensures ready { IfOk result (λ r. (old : LogView) → HasFound old (log_view F.begun F.acts F.past F.failed files.old)
        (option_map (λ bytes. bytes.items) task.log) (Some point.now)
        → IsReady (version_of L.logic start.kinds) task.sends
        (log_view F.begun F.acts F.past F.failed files.new) r.silo.history r.silo.stopped r.silo.keeps r.task) }
    ensures opens { IfOk result (λ r. (old : LogView) → HasFound old (log_view F.begun F.acts F.past F.failed files.old)
        (option_map (λ bytes. bytes.items) task.log) (Some point.now)
        → OpensAt (starting (version_of L.logic start.kinds) start.tenants start.age start.ages) task.sends old
        (log_view F.begun F.acts F.past F.failed files.new) (started (version_of L.logic start.kinds) r.silo.history.setup)) }
    ensures fault { IfErr result (λ why. (old : LogView) → HasFound old (log_view F.begun F.acts F.past F.failed files.old)
        (option_map (λ bytes. bytes.items) task.log) (Some point.now)
        → OpeningFailsBy (starting (version_of L.logic start.kinds) start.tenants start.age start.ages) task.sends
        (since old (log_view F.begun F.acts F.past F.failed files.new)) why) }
    ensures lasts { OnErr result ((old : LogView) → HasFound old (log_view F.begun F.acts F.past F.failed files.old)
        (option_map (λ bytes. bytes.items) task.log) (Some point.now)
        → FolderLasts (starting (version_of L.logic start.kinds) start.tenants start.age start.ages) task.sends
        (since old (log_view F.begun F.acts F.past F.failed files.new))) }
{
    let saved = match read_point(alloc, point) {
        Ok(saved) => saved,
        Err(why) => {
            drop(start);
            drop(task);
            return Err(why);
        }
    };
    match going_of(alloc, &saved, &task) {
        Ok(Going::Reworded) => reworded_ready(alloc, files, start, task, saved),
        Ok(Going::On) => resumed_ready(alloc, start, task, saved),
        Ok(Going::Anew) => match resumed_ready(alloc, start, task, saved) {
            Ok(ready) => begun_anew(alloc, files, ready),
            Err(why) => Err(why),
        },
        Err(why) => {
            drop(start);
            drop(task);
            drop(saved);
            Err(why)
        }
    }
}

/// The silo that goes on with what the folder has, which is open.
pub(crate) fn ready_silo<L: GrainLogic + Drop, F: DataFiles>(
    alloc: Global,
    files: &mut F,
    opening: DataOpening<L>,
    words: Vec<u8>,
    found: Found,
) -> Result<ReadySilo<L>, DataFault>
    requires { words.items ≡ head_words (starting (version_of L.logic opening.start.kinds) opening.start.tenants opening.start.age
        opening.start.ages) opening.sends }
    ensures ready { IfOk result (λ r. (old : LogView) → HasFound old (log_view F.begun F.acts F.past F.failed files.old)
        (option_map (λ bytes. bytes.items) found.log) (option_map (λ bytes. bytes.items) found.point)
        → IsReady (version_of L.logic opening.start.kinds) opening.sends
        (log_view F.begun F.acts F.past F.failed files.new) r.silo.history r.silo.stopped r.silo.keeps r.task) }
    ensures opens { IfOk result (λ r. (old : LogView) → HasFound old (log_view F.begun F.acts F.past F.failed files.old)
        (option_map (λ bytes. bytes.items) found.log) (option_map (λ bytes. bytes.items) found.point)
        → OpensAt (starting (version_of L.logic opening.start.kinds) opening.start.tenants opening.start.age
        opening.start.ages) opening.sends old
        (log_view F.begun F.acts F.past F.failed files.new) (started (version_of L.logic opening.start.kinds) r.silo.history.setup)) }
    ensures fault { IfErr result (λ why. (old : LogView) → HasFound old (log_view F.begun F.acts F.past F.failed files.old)
        (option_map (λ bytes. bytes.items) found.log) (option_map (λ bytes. bytes.items) found.point)
        → OpeningFailsBy (starting (version_of L.logic opening.start.kinds) opening.start.tenants opening.start.age
        opening.start.ages) opening.sends (since old (log_view F.begun F.acts F.past F.failed files.new)) why) }
    ensures lasts { OnErr result ((old : LogView) → HasFound old (log_view F.begun F.acts F.past F.failed files.old)
        (option_map (λ bytes. bytes.items) found.log) (option_map (λ bytes. bytes.items) found.point)
        → FolderLasts (starting (version_of L.logic opening.start.kinds) opening.start.tenants opening.start.age
        opening.start.ages) opening.sends (since old (log_view F.begun F.acts F.past F.failed files.new))) }
{
    let DataOpening {
        start,
        number,
        sends,
    } = opening;
    let Found { log, point } = found;
    let mut task = LogTask {
        words,
        kinds: start.kinds,
        number,
        sends,
        sync: false,
        log,
    };
    match point {
        None => new_ready(alloc, start, task),
        Some(point) => {
            task.number = sum_of(point.as_slice());
            saved_ready(alloc, files, start, task, point.as_slice())
        }
    }
}
