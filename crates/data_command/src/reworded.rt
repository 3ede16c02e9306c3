//! A silo that goes on from a checkpoint of other words.

ghost use Rattle.std.specs.Prelude.{◌≡◌, ◌↔◌, ℕ, [], false, IfErr, IfOk, IfSome, IsTrue, None, Ok, OnErr, OnOk, option_map};
ghost use Rattle.grain_storage.specs.Memory.{AreVersioned, IsAscending};
ghost use Rattle.silo_model.specs.Opening.{opening};
ghost use Rattle.silo_state.specs.KeptParts.{MayResume};
ghost use Rattle.log_text.specs.Head.{head_text};
ghost use Rattle.log_text.specs.Sums.{spelled};
ghost use Rattle.silo_checkpoint.specs.Answers.{saved_in};
ghost use Rattle.command_parts.specs.Setups.{setup_of, started, starting, version_of};
ghost use Rattle.data_command.specs.Data.{LogView, log_view, since};
ghost use Rattle.data_command.specs.Folder.{FolderLasts, OpeningFailsBy, OpensAt, carried, first_left_out};
ghost use Rattle.data_command.specs.Words.{head_words};
ghost use Rattle.data_command.specs.inside.Ready.{IsReady};
ghost use Rattle.data_command.specs.inside.Rewording.{FailsToBegin, FromOther, HasSwitched, MayChange, MayNotChange, words_in};

use crate::fault::DataFault;
use crate::head::head_words;
use crate::left::first_left_out;
use crate::ready::ReadySilo;
use crate::replacing::texts_of;
use crate::starting::{LogTask, is_same};
use arrayvec::ArrayString;
use command_parts::{Cause, DataFiles, Start};
use grain_logic::GrainLogic;
use grain_storage::MemoryStorage;
use line_answer::AnsweringSilo;
use log_text::{push_head, spell};
use silo_checkpoint::Saved;
use silo_core::Setup;
use std::alloc::{AllocError, Global};
use tenant_gate::TenantTable;

/// Whether the bytes are those of a log of that number without a batch, whose head has the checkpoint's words.
fn is_empty_log(
    alloc: Global,
    saved: &Saved<'_>,
    number: u64,
    log: &[u8],
) -> Result<bool, AllocError>
    ensures { IfOk result (λ same. IsTrue same ↔ (log.now ≡ head_text (words_in (saved_in saved.now)) (spelled number))) }
{
    let words = head_words(
        alloc,
        saved.kinds,
        saved.sends,
        saved.age,
        &saved.ages,
        &saved.tenants,
    )?;
    let mut head = Vec::new(alloc);
    push_head(&mut head, words.as_slice(), number)?;
    Ok(is_same(log, head.as_slice()))
}

/// A silo of the words that it starts with, which goes on from what a checkpoint says; none if that is what no silo can go on with.
fn carried_silo<L: GrainLogic + Drop>(
    alloc: Global,
    start: Start<L>,
    saved: Saved<'_>,
) -> Result<Option<AnsweringSilo<MemoryStorage, L>>, AllocError>
    requires ascending { IsAscending saved.rows.items }
    requires versioned { AreVersioned saved.rows.items }
    ensures setup { IfOk result (λ found. IfSome found (λ s. s.history.setup
        ≡ carried (setup_of start.tenants start.age start.ages) (saved_in saved.entry).setup)) }
    ensures opened { IfOk result (λ found. IfSome found (λ s. s.history.whole ≡ opening s.history.setup)) }
    ensures ready { IfOk result (λ found. IfSome found (λ s. s.stopped ≡ false)) }
    ensures drops { IfOk result (λ found. IfSome found (λ s. s.keeps ≡ false)) }
    ensures none { result ≡ Ok None → MayResume L.logic saved.entry.kept → ⊥ }
{
    let seed = start.seed;
    let setup = Setup {
        tenants: start.tenants,
        age: start.age,
        ages: start.ages,
        storage: MemoryStorage::seeded_with_rows(alloc, saved.rows, seed)?,
        logic: start.logic,
    };
    let Some(mut silo) = AnsweringSilo::resumed(alloc, setup, saved.kept, seed)? else {
        return Ok(None);
    };
    silo.drop_history();

    // What is kept may have accounts of tenants that it hasn't: they go as it opens again.
    let Ok(true) = silo.reopen(alloc) else {
        return Err(AllocError);
    };
    // For the proof: where its journal leads, and that it has no step.
    let _ = silo.journal();
    Ok(Some(silo))
}

/// Whether a silo of these tenants may go on from a checkpoint of other words: its logic is no newer one than the task's, the task's log
/// goes on from it and has no batch, and no tenant of which something is kept is left out.
fn may_change(
    alloc: Global,
    tenants: &TenantTable,
    task: &LogTask,
    saved: &Saved<'_>,
) -> Result<(), DataFault>
    ensures ok { OnOk result (MayChange task.now.kinds task.now.number (option_map (λ bytes. bytes.items) task.now.log) (saved_in saved.now)
        × (first_left_out tenants.now saved.now.kept saved.now.rows.items ≡ None)) }
    ensures fault { IfErr result (MayNotChange tenants.now task.now.kinds task.now.number (option_map (λ bytes. bytes.items) task.now.log)
        saved.now.kept saved.now.rows.items (saved_in saved.now)) }
{
    if saved.kinds > task.kinds {
        return Err(DataFault::OtherWords);
    }
    let Some(log) = &task.log else {
        return Err(DataFault::NoLog);
    };
    if !is_empty_log(alloc, saved, task.number, log.as_slice())? {
        return Err(DataFault::OtherWords);
    }
    let Some(name) = first_left_out(tenants, saved) else {
        return Ok(());
    };
    match ArrayString::from(name) {
        Ok(tenant) => Err(DataFault::HasTenant(tenant)),
        Err(_) => Err(DataFault::Failed(Cause::Memory)),
    }
}

/// Has what the silo opened with in a checkpoint of its words in the place of the log of the task's number and of the checkpoint before,
/// and begins the log that goes on from it, whose bytes are returned.
fn begin_words<L: GrainLogic, F: DataFiles>(
    alloc: Global,
    files: &mut F,
    silo: &AnsweringSilo<MemoryStorage, L>,
    task: &LogTask,
) -> Result<Vec<u8>, DataFault>
    ensures begun { IfOk result (λ head. HasSwitched (log_view F.begun F.acts F.past F.failed) (version_of L.logic task.now.kinds)
        task.now.sends (spelled task.now.number) silo.now.history.setup task.now.words.items files.old files.new head.items) }
    ensures unknown { F.acts files.old ≡ None → F.acts files.new ≡ None }
    ensures fault { IfErr result (FailsToBegin (log_view F.begun F.acts F.past F.failed) (version_of L.logic task.now.kinds)
        task.now.sends (spelled task.now.number) silo.now.history.setup task.now.words.items files.old files.new) }
{
    let number = spell(task.number);
    let texts = match texts_of(alloc, silo, task, number.as_slice()) {
        Ok(texts) => texts,
        Err(_) => return Err(DataFault::Failed(Cause::Memory)),
    };
    let Some((text, head)) = texts else {
        return Err(DataFault::OtherWords);
    };
    match files.switch(text.as_slice(), head.as_slice()) {
        Ok(()) => Ok(head),
        Err(_) => Err(DataFault::Failed(Cause::Write)),
    }
}

/// The silo that goes on from a checkpoint of other words, whose log has no batch: a checkpoint of its own words takes the place of both.
/// `task` has the number of that log, and its bytes.
pub(crate) fn reworded_ready<L: GrainLogic + Drop, F: DataFiles>(
    alloc: Global,
    files: &mut F,
    start: Start<L>,
    task: LogTask,
    saved: Saved<'_>,
) -> Result<ReadySilo<L>, DataFault>
    requires words { task.words.items
        ≡ head_words (starting (version_of L.logic start.kinds) start.tenants start.age start.ages) task.sends }
    requires kinds { task.kinds ≡ start.kinds }
    requires ascending { IsAscending saved.rows.items }
    requires versioned { AreVersioned saved.rows.items }
    ensures ready { IfOk result (λ r. FromOther (starting (version_of L.logic start.kinds) start.tenants start.age start.ages) task.sends
        (log_view F.begun F.acts F.past F.failed files.old) task.number (option_map (λ bytes. bytes.items) task.log) (saved_in saved.entry)
        (λ old. IsReady (version_of L.logic start.kinds) task.sends
        (log_view F.begun F.acts F.past F.failed files.new) r.silo.history r.silo.stopped r.silo.keeps r.task)) }
    ensures opens { IfOk result (λ r. FromOther (starting (version_of L.logic start.kinds) start.tenants start.age start.ages) task.sends
        (log_view F.begun F.acts F.past F.failed files.old) task.number (option_map (λ bytes. bytes.items) task.log) (saved_in saved.entry)
        (λ old. OpensAt (starting (version_of L.logic start.kinds) start.tenants start.age start.ages) task.sends old
        (log_view F.begun F.acts F.past F.failed files.new) (started (version_of L.logic start.kinds) r.silo.history.setup))) }
    ensures fault { IfErr result (λ why. FromOther (starting (version_of L.logic start.kinds) start.tenants start.age start.ages) task.sends
        (log_view F.begun F.acts F.past F.failed files.old) task.number (option_map (λ bytes. bytes.items) task.log) (saved_in saved.entry)
        (λ old. OpeningFailsBy (starting (version_of L.logic start.kinds) start.tenants start.age start.ages) task.sends
        (since old (log_view F.begun F.acts F.past F.failed files.new)) why)) }
    ensures lasts { OnErr result (FromOther (starting (version_of L.logic start.kinds) start.tenants start.age start.ages) task.sends
        (log_view F.begun F.acts F.past F.failed files.old) task.number (option_map (λ bytes. bytes.items) task.log) (saved_in saved.entry)
        (λ old. FolderLasts (starting (version_of L.logic start.kinds) start.tenants start.age start.ages) task.sends
        (since old (log_view F.begun F.acts F.past F.failed files.new)))) }
{
    match may_change(alloc, &start.tenants, &task, &saved) {
        Ok(()) => {}
        Err(why) => {
            drop(start);
            drop(task);
            drop(saved);
            return Err(why);
        }
    }
    let silo = match carried_silo(alloc, start, saved) {
        Ok(Some(silo)) => silo,
        Ok(None) => {
            drop(task);
            return Err(DataFault::NoCheckpoint);
        }
        Err(AllocError) => {
            drop(task);
            return Err(DataFault::Failed(Cause::Memory));
        }
    };
    match begin_words(alloc, files, &silo, &task) {
        Ok(head) => {
            let mut task = task;
            task.log = Some(head);
            Ok(ReadySilo { silo, task })
        }
        Err(why) => {
            drop(silo);
            drop(task);
            Err(why)
        }
    }
}
