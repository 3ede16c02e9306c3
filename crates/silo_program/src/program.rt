//! What the program does, over any files and streams.

ghost use Rattle.std.specs.Prelude.{◌≡◌, ◌≢◌, ◌≤◌, ◌⊎◌, false, List, ℕ, Option, IfOk, IfErr, OnOk, map, option_map};
ghost use Rattle.std.specs.Io.KnownBytes.{Appends, Keeps};
ghost use Rattle.clap.specs.Words.{Text};
ghost use Rattle.line_text.specs.Reading.{IsFresh, Reading};
ghost use Rattle.silo_words.specs.Ages.{NamesAges};
ghost use Rattle.silo_words.specs.Tenants.{NameTenants};
ghost use Rattle.silo_words.specs.Words.{AskForAnswering, AskForData, AskForServing, AskForSteps, IsWhy, texts_of};
ghost use Rattle.data_command.specs.Data.{LogClaims, log_claims};
ghost use Rattle.silo_program.specs.Arguments.{IsAgesFault, IsTenantsFault};
ghost use Rattle.command_parts.specs.Status.{failure_text};
ghost use Rattle.command_parts.specs.Streams.{BreaksOff, Tells, TellsEnd};
ghost use Rattle.command_parts.specs.Files.{claims};
ghost use Rattle.silo_program.specs.Ends.{AnswersAtOnce, AnswersInFolder, AreRefusedBy, AskForFolder, AskForJournal, EndsAs, EndsServing};
ghost use Rattle.silo_program.specs.Ends.{FailsBy, IsAnsweringFault, IsFaultOf, IsFolderFault, IsNamingFault, IsServingFault};
ghost use Rattle.silo_program.specs.Ends.{IsStreamFault, LeavesFiles, RefusesFolder, RefusesJournal, RefusesLog, RefusesRows};
ghost use Rattle.silo_program.specs.Ends.{ServesSteps, ShowsText};
ghost use Rattle.command_parts.specs.declared.failure.End.{End as EndValue};

use crate::seeding::{random_number, seed_for};
use crate::starting::{Named, start_of};
use command_parts::{
    Cause, DataFiles, End, ProgramFault, WholeFiles, cause_of, say, tell, tell_end,
};
use data_command::{DataOpening, answer_data, explain_data};
use grain_id::HashSeed;
use journal_commands::{audit_file, migrate_file};
use line_commands::{answer_input, answer_steps};
use line_text::{Input, Output};
use rows_command::print_rows;
use serve_command::{asks_to_tell, serve_lines};
use silo_words::{
    AgesFault, Data, Task, Telling, TenantsFault, WordsFault, read_ages, read_tenants, read_words,
};
use std::alloc::Global;
use std::io::{Read, Write};
use std::random::RandomSource;
use std::sync::Wait;
use std::thread::Threads;
use tenant_audit::{AuditGate, FreeAuditGate};
use tenant_gate::Age;
use worker_host::{FreeGate, TurnGate};

/// What `--version` shows.
const VERSION_LINE: &str = "silo 0.2.0\n";

/// Writes a text that was requested.
fn show<W: Write>(output: &mut Output<W>, text: &str) -> Result<End, ProgramFault>
    ensures whole { IfOk result (λ end. (end ≡ End.Well)
        × Appends (W.contents output.old.writer) (W.contents output.new.writer) text.now) }
    ensures unfailed { OnOk result (output.new.calls.failed ≡ output.old.calls.failed) }
    ensures out { OnOk result (output.new.calls.held ≡ false) }
    ensures part { IfErr result (λ why. (why ≡ ProgramFault.Failed Cause.Write)
        × BreaksOff (W.contents output.old.writer) (W.contents output.new.writer) output.new.calls text.now) }
{
    if say(output, text) {
        return Ok(End::Well);
    }
    Err(ProgramFault::Failed(Cause::Write))
}

/// Shows the text that the words request, if they request one, and otherwise returns why they make no task.
fn explain_words<W: Write>(fault: WordsFault, output: &mut Output<W>) -> Result<End, ProgramFault>
    ensures shown { (words : List Text) (from : Option (List ℕ)) → IsWhy words fault
        → IfOk result (λ end. (end ≡ End.Well) × ShowsText words from from (W.contents output.old.writer) (W.contents output.new.writer)) }
    ensures unfailed { OnOk result (output.new.calls.failed ≡ output.old.calls.failed) }
    ensures out { OnOk result (output.new.calls.held ≡ false) }
    ensures fault { (words : List Text) (from : Option (List ℕ)) (reading : Reading) → IsWhy words fault
        → IfErr result (λ why. IsStreamFault words why from from reading
        (W.contents output.old.writer) (W.contents output.new.writer) output.new.calls) }
{
    match fault {
        WordsFault::Memory => Err(ProgramFault::Failed(Cause::Memory)),
        WordsFault::Help(text) => show(output, text.as_str()),
        WordsFault::Version => show(output, VERSION_LINE),
        WordsFault::Wrong(text) => Err(ProgramFault::Refused(text)),
    }
}

fn explain_tenants(alloc: Global, fault: TenantsFault) -> ProgramFault
    ensures { IsTenantsFault fault result }
{
    match fault {
        TenantsFault::Memory => ProgramFault::Failed(Cause::Memory),
        TenantsFault::Refused(number) => {
            match format!(in alloc; "silo: tenant argument {number} is refused\n") {
                Ok(text) => ProgramFault::Refused(text),
                Err(_) => ProgramFault::Failed(Cause::Memory),
            }
        }
    }
}

fn explain_ages(alloc: Global, fault: AgesFault) -> ProgramFault
    ensures { IsAgesFault fault result }
{
    match fault {
        AgesFault::Memory => ProgramFault::Failed(Cause::Memory),
        AgesFault::Refused => match String::from_str(alloc, "silo: ages are refused\n") {
            Ok(text) => ProgramFault::Refused(text),
            Err(_) => ProgramFault::Failed(Cause::Memory),
        },
    }
}

/// Reads the tenant arguments, and then the text of ages.
fn read_named(alloc: Global, arguments: &[&str], ages: Option<&str>) -> Result<Named, ProgramFault>
    ensures named { IfOk result (λ named. NameTenants (map (λ text. text.now) arguments.now) named.tenants
        × NamesAges (option_map (λ text. text.now) ages.entry) named.ages) }
    ensures fault { IfErr result (λ why. IsNamingFault (option_map (λ text. text.now) ages.entry)
        (map (λ text. text.now) arguments.now) why) }
{
    let tenants = match read_tenants(alloc, arguments) {
        Ok(tenants) => tenants,
        Err(fault) => return Err(explain_tenants(alloc, fault)),
    };
    match read_ages(alloc, ages) {
        Ok(ages) => Ok(Named { tenants, ages }),
        Err(fault) => {
            drop(tenants);
            Err(explain_ages(alloc, fault))
        }
    }
}

/// Takes the steps of the input for the tenants of the arguments.
fn take_steps<R: Read, W: Write>(
    alloc: Global,
    seed: HashSeed,
    age: Age,
    ages: Option<&str>,
    arguments: &[&str],
    input: &mut Input<R>,
    output: &mut Output<W>,
) -> Result<End, ProgramFault>
    requires fresh { IsFresh input.old.lines }
    ensures ended { (words : List Text) → AskForSteps words age (option_map (λ text. text.now) ages.entry)
        (map (λ text. text.now) arguments.now)
        → IfOk result (λ end. (end ≡ End.Well) × ServesSteps words
        (R.remaining input.old.reader) (R.remaining input.new.reader)
        (W.contents output.old.writer) (W.contents output.new.writer)) }
    ensures unfailed { OnOk result (output.new.calls.failed ≡ output.old.calls.failed) }
    ensures out { OnOk result (output.new.calls.held ≡ false) }
    ensures fault { (words : List Text) → AskForSteps words age (option_map (λ text. text.now) ages.entry)
        (map (λ text. text.now) arguments.now)
        → IfErr result (λ why. IsStreamFault words why
        (R.remaining input.old.reader) (R.remaining input.new.reader) input.new.lines
        (W.contents output.old.writer) (W.contents output.new.writer) output.new.calls) }
{
    let named = read_named(alloc, arguments, ages)?;
    let start = start_of(seed, named, age);
    match answer_steps(alloc, start, input, output) {
        Ok(()) => Ok(End::Well),
        Err(why) => Err(ProgramFault::Failed(cause_of(why))),
    }
}

/// Answers the lines of the input at once, for the tenants of the arguments.
fn answer_tenants<F: WholeFiles, R: Read, W: Write>(
    alloc: Global,
    seed: HashSeed,
    age: Age,
    ages: Option<&str>,
    sends: u64,
    journal: Option<&str>,
    arguments: &[&str],
    files: &mut F,
    input: &mut Input<R>,
    output: &mut Output<W>,
) -> Result<End, ProgramFault>
    requires fresh { IsFresh input.old.lines }
    ensures ended { (words : List Text) → AskForAnswering words age (option_map (λ text. text.now) ages.entry) sends
        (option_map (λ path. path.now) journal.entry) (map (λ text. text.now) arguments.now)
        → IfOk result (λ end. (end ≡ End.Well) × AnswersAtOnce words (claims F.may_hold F.may_fail F.may_leave files.old files.new)
        (R.remaining input.old.reader) (R.remaining input.new.reader) (W.contents output.old.writer) (W.contents output.new.writer)) }
    ensures unfailed { OnOk result (output.new.calls.failed ≡ output.old.calls.failed) }
    ensures out { OnOk result (output.new.calls.held ≡ false) }
    ensures fault { (words : List Text) → AskForAnswering words age (option_map (λ text. text.now) ages.entry) sends
        (option_map (λ path. path.now) journal.entry) (map (λ text. text.now) arguments.now)
        → IfErr result (λ why. IsAnsweringFault words (claims F.may_hold F.may_fail F.may_leave files.old files.new) why
        (R.remaining input.old.reader) (R.remaining input.new.reader) input.new.lines
        (W.contents output.old.writer) (W.contents output.new.writer) output.new.calls) }
    ensures journal { (words : List Text) (log : LogClaims) → AskForAnswering words age (option_map (λ text. text.now) ages.entry) sends
        (option_map (λ path. path.now) journal.entry) (map (λ text. text.now) arguments.now)
        → LeavesFiles words (claims F.may_hold F.may_fail F.may_leave files.old files.new) log
        (R.remaining input.old.reader) (R.remaining input.new.reader) }
{
    let named = read_named(alloc, arguments, ages)?;
    let start = start_of(seed, named, age);
    match answer_input(alloc, start, sends, journal, files, input, output) {
        Ok(()) => Ok(End::Well),
        Err(why) => Err(ProgramFault::Failed(why)),
    }
}

/// The settings for answering lines with a folder of data: the ages, the most deliveries after a line, the folder, and
/// the tenant arguments.
#[derive(Clone, Copy)]
struct FolderTask<'a> {
    age: Age,
    ages: Option<&'a str>,
    sends: u64,
    folder: Data<'a>,
    arguments: &'a [&'a str],
}

/// Answers the lines of the input at once, for the tenants of the arguments, by a silo that goes on where the log of the folder ends.
fn answer_in_folder<H: AllocGlobal + RandomSource, F: WholeFiles + DataFiles, R: Read, W: Write>(
    rt: &H,
    seed: HashSeed,
    task: &FolderTask<'_>,
    files: &mut F,
    input: &mut Input<R>,
    output: &mut Output<W>,
) -> Result<End, ProgramFault>
    requires fresh { IsFresh input.old.lines }
    ensures ended { (words : List Text) → AskForData words task.now.age (option_map (λ text. text.now) task.now.ages) task.now.sends
        task.now.folder.path.now task.now.folder.sync (map (λ text. text.now) task.now.arguments.now)
        → IfOk result (λ end. (end ≡ End.Well) × AnswersInFolder words (log_claims F.begun F.acts F.past F.failed files.old files.new)
        (R.remaining input.old.reader) (R.remaining input.new.reader) (W.contents output.old.writer) (W.contents output.new.writer)) }
    ensures unfailed { OnOk result (output.new.calls.failed ≡ output.old.calls.failed) }
    ensures out { OnOk result (output.old.calls.held ≡ false → output.new.calls.held ≡ false) }
    ensures fault { (words : List Text) → AskForData words task.now.age (option_map (λ text. text.now) task.now.ages) task.now.sends
        task.now.folder.path.now task.now.folder.sync (map (λ text. text.now) task.now.arguments.now)
        → IfErr result (λ why. IsFolderFault words (claims F.may_hold F.may_fail F.may_leave files.old files.new)
        (log_claims F.begun F.acts F.past F.failed files.old files.new) why
        (R.remaining input.old.reader) (R.remaining input.new.reader) input.new.lines
        (W.contents output.old.writer) (W.contents output.new.writer) output.new.calls) }
    ensures journal { (words : List Text) → AskForData words task.now.age (option_map (λ text. text.now) task.now.ages) task.now.sends
        task.now.folder.path.now task.now.folder.sync (map (λ text. text.now) task.now.arguments.now)
        → LeavesFiles words (claims F.may_hold F.may_fail F.may_leave files.old files.new)
        (log_claims F.begun F.acts F.past F.failed files.old files.new) (R.remaining input.old.reader) (R.remaining input.new.reader) }
{
    let alloc = rt.alloc();
    let number = match random_number(rt) {
        Ok(number) => number,
        Err(why) => return Err(ProgramFault::Failed(why)),
    };
    let named = read_named(alloc, task.arguments, task.ages)?;
    let opening = DataOpening {
        start: start_of(seed, named, task.age),
        number,
        sends: task.sends,
    };
    match answer_data(alloc, opening, task.folder, files, input, output) {
        Ok(()) => Ok(End::Well),
        Err(fault) => Err(explain_data(alloc, fault)),
    }
}

/// Serves the lines of the input for the tenants of the arguments.
fn serve_tenants<
    H: AllocGlobal + Threads + Wait + Sync,
    F: WholeFiles,
    R: Read,
    W: Write,
    G: TurnGate + Sync,
>(
    rt: &H,
    seed: HashSeed,
    workers: usize,
    age: Age,
    ages: Option<&str>,
    journal: Option<&str>,
    telling: Telling,
    arguments: &[&str],
    files: &mut F,
    input: &mut Input<R>,
    output: &mut Output<W>,
    gate: &G,
) -> Result<End, ProgramFault>
    requires workers { (1 ≤ workers) × (workers ≤ 64) }
    requires fresh { IsFresh input.old.lines }
    ensures ended { (words : List Text) → AskForServing words workers age (option_map (λ text. text.now) ages.entry)
        (option_map (λ path. path.now) journal.entry) telling (map (λ text. text.now) arguments.now)
        → IfOk result (λ end. EndsServing end words (claims F.may_hold F.may_fail F.may_leave files.old files.new) telling
        (R.remaining input.old.reader) (R.remaining input.new.reader) (W.contents output.old.writer) (W.contents output.new.writer)) }
    ensures unfailed { OnOk result (output.new.calls.failed ≡ output.old.calls.failed) }
    ensures out { OnOk result (output.new.calls.held ≡ false) }
    ensures fault { (words : List Text) → AskForServing words workers age (option_map (λ text. text.now) ages.entry)
        (option_map (λ path. path.now) journal.entry) telling (map (λ text. text.now) arguments.now)
        → IfErr result (λ why. IsServingFault words (claims F.may_hold F.may_fail F.may_leave files.old files.new) why
        (R.remaining input.old.reader) (R.remaining input.new.reader) input.new.lines
        (W.contents output.old.writer) (W.contents output.new.writer) output.new.calls) }
    ensures journal { (words : List Text) (log : LogClaims) → AskForServing words workers age (option_map (λ text. text.now) ages.entry)
        (option_map (λ path. path.now) journal.entry) telling (map (λ text. text.now) arguments.now)
        → LeavesFiles words (claims F.may_hold F.may_fail F.may_leave files.old files.new) log
        (R.remaining input.old.reader) (R.remaining input.new.reader) }
{
    let named = read_named(rt.alloc(), arguments, ages)?;
    let start = start_of(seed, named, age);
    match serve_lines(
        rt, start, workers, journal, telling, files, input, output, gate,
    ) {
        Ok(text) => {
            if asks_to_tell(telling) {
                return Ok(End::Told(text));
            }
            drop(text);
            Ok(End::Well)
        }
        Err(why) => Err(ProgramFault::Failed(why)),
    }
}

/// Does what the words request, and returns how it ended or why it didn't. The words begin with the program's name, and
/// nothing of the input is read ahead. `turns`, if it watches, is called for each turn that is served, before its body
/// runs, and `audits` for each tenant that is audited: `run_program` passes gates that do nothing.
///
/// # Errors
///
/// Those that `run_program` writes to its `errors`.
pub fn answer<
    H: AllocGlobal + RandomSource + Threads + Wait + Sync,
    F: WholeFiles + DataFiles,
    R: Read,
    W: Write,
    G: TurnGate + Sync,
    A: AuditGate + Sync,
>(
    rt: &H,
    words: &[String],
    files: &mut F,
    input: &mut Input<R>,
    output: &mut Output<W>,
    turns: &G,
    audits: &A,
) -> Result<End, ProgramFault>
    requires { IsFresh input.old.lines }
    ensures ended { IfOk result (λ end. EndsAs end (texts_of words.now) (claims F.may_hold F.may_fail F.may_leave files.old files.new)
        (log_claims F.begun F.acts F.past F.failed files.old files.new)
        (R.remaining input.old.reader) (R.remaining input.new.reader) (W.contents output.old.writer) (W.contents output.new.writer)) }
    ensures unfailed { OnOk result (output.new.calls.failed ≡ output.old.calls.failed) }
    ensures out { OnOk result (output.old.calls.held ≡ false → output.new.calls.held ≡ false) }
    ensures fault { IfErr result (λ why. IsFaultOf (texts_of words.now) (claims F.may_hold F.may_fail F.may_leave files.old files.new)
        (log_claims F.begun F.acts F.past F.failed files.old files.new) why
        (R.remaining input.old.reader) (R.remaining input.new.reader) input.new.lines
        (W.contents output.old.writer) (W.contents output.new.writer) output.new.calls) }
    ensures journal { LeavesFiles (texts_of words.now) (claims F.may_hold F.may_fail F.may_leave files.old files.new)
        (log_claims F.begun F.acts F.past F.failed files.old files.new) (R.remaining input.old.reader) (R.remaining input.new.reader) }
{
    let alloc = rt.alloc();
    let task = match read_words(alloc, words) {
        Ok(task) => task,
        Err(fault) => return explain_words(fault, output),
    };
    let seed = match seed_for(rt, &task) {
        Ok(seed) => seed,
        Err(why) => {
            drop(task);
            return Err(ProgramFault::Failed(why));
        }
    };
    match &task {
        Task::Steps { age, ages, tenants } => {
            take_steps(alloc, seed, *age, *ages, tenants.as_slice(), input, output)
        }
        Task::Answer {
            age,
            ages,
            sends,
            data: Some(folder),
            tenants,
            ..
        } => {
            let wanted = FolderTask {
                age: *age,
                ages: *ages,
                sends: *sends,
                folder: *folder,
                arguments: tenants.as_slice(),
            };
            answer_in_folder(rt, seed, &wanted, files, input, output)
        }
        Task::Answer {
            age,
            ages,
            sends,
            journal,
            data: None,
            tenants,
        } => answer_tenants(
            alloc,
            seed,
            *age,
            *ages,
            *sends,
            *journal,
            tenants.as_slice(),
            files,
            input,
            output,
        ),
        Task::Serve {
            workers,
            age,
            ages,
            journal,
            telling,
            tenants,
        } => serve_tenants(
            rt,
            seed,
            *workers,
            *age,
            *ages,
            *journal,
            *telling,
            tenants.as_slice(),
            files,
            input,
            output,
            turns,
        ),
        Task::Audit { path } => audit_file(rt, seed, path, &*files, output, audits),
        Task::Migrate { path } => migrate_file(alloc, path, &*files, output),
        Task::Rows { folder, tenant } => print_rows(alloc, folder, *tenant, &*files, output),
    }
}

/// The whole program: its answer is the exit status. The words begin with the program's name, and nothing of the input
/// is read ahead. What is promised is so whatever random bytes the system gives.
pub fn run_program<
    H: AllocGlobal + RandomSource + Threads + Wait + Sync,
    F: WholeFiles + DataFiles,
    R: Read,
    W: Write,
    E: Write,
>(
    rt: &H,
    words: &[String],
    files: &mut F,
    input: &mut Input<R>,
    output: &mut Output<W>,
    errors: &mut Output<E>,
) -> u8
    requires { IsFresh input.old.lines }
    ensures status { result ≤ 4 }

    // What the words request was done, and a report was written to the errors if they request one.
    ensures well { result ≡ 0 → (how : EndValue) × (how ≢ End.Differs)
        × EndsAs how (texts_of words.now) (claims F.may_hold F.may_fail F.may_leave files.old files.new)
        (log_claims F.begun F.acts F.past F.failed files.old files.new)
        (R.remaining input.old.reader) (R.remaining input.new.reader) (W.contents output.old.writer) (W.contents output.new.writer)
        × TellsEnd (E.contents errors.old.writer) (E.contents errors.new.writer) errors.new.calls how }

    // An audit was requested, and a tenant differs.
    ensures differs { result ≡ 3 → EndsAs End.Differs (texts_of words.now) (claims F.may_hold F.may_fail F.may_leave files.old files.new)
        (log_claims F.begun F.acts F.past F.failed files.old files.new)
        (R.remaining input.old.reader) (R.remaining input.new.reader) (W.contents output.old.writer) (W.contents output.new.writer) }

    // In every outcome no file was written, or the journal of no step was, to the path that was requested, and then
    // perhaps that of what was served or answered; or a folder of data is requested, and whatever a crash leaves of its
    // log at any moment, the replies that were written are the beginning of what that log answers.
    ensures journal { LeavesFiles (texts_of words.now) (claims F.may_hold F.may_fail F.may_leave files.old files.new)
        (log_claims F.begun F.acts F.past F.failed files.old files.new) (R.remaining input.old.reader) (R.remaining input.new.reader) }
    ensures files { ((path : Text) → ¬ AskForJournal (texts_of words.now) path)
        → ((folder : Text) → ¬ AskForFolder (texts_of words.now) folder) → files.new ≡ files.old }

    // No call of the writer failed, what was written went out, and nothing was written to the errors then but the
    // report that the words request.
    ensures unfailed { (result ≡ 0) ⊎ (result ≡ 3) → output.new.calls.failed ≡ output.old.calls.failed }
    ensures out { (result ≡ 0) ⊎ (result ≡ 3) → output.old.calls.held ≡ false → output.new.calls.held ≡ false }
    ensures quiet { result ≡ 3 → Keeps (E.contents errors.old.writer) (E.contents errors.new.writer) }

    // The program failed, and what was written to the errors says why.
    ensures failed { result ≡ 1 → (why : Cause)
        × FailsBy (texts_of words.now) (claims F.may_hold F.may_fail F.may_leave files.old files.new)
        (log_claims F.begun F.acts F.past F.failed files.old files.new) why
        (R.remaining input.old.reader) (R.remaining input.new.reader) input.new.lines
        (W.contents output.old.writer) (W.contents output.new.writer) output.new.calls
        × Tells (E.contents errors.old.writer) (E.contents errors.new.writer) errors.new.calls (failure_text why) }

    // The arguments are refused, or the folder of data has a log of other words, and what was written to the errors
    // says why.
    ensures refused { result ≡ 2 → (text : Text) × ((AreRefusedBy (texts_of words.now) text × (files.new ≡ files.old))
        ⊎ RefusesFolder (texts_of words.now) (log_claims F.begun F.acts F.past F.failed files.old files.new) text
        (R.remaining input.old.reader) (R.remaining input.new.reader) input.new.lines
        (W.contents output.old.writer) (W.contents output.new.writer))
        × Tells (E.contents errors.old.writer) (E.contents errors.new.writer) errors.new.calls text }
    ensures unread { result ≡ 2 → Keeps (R.remaining input.old.reader) (R.remaining input.new.reader) }
    ensures unwritten { result ≡ 2 → Keeps (W.contents output.old.writer) (W.contents output.new.writer) }
    ensures untouched { result ≡ 2 → ((folder : Text) → ¬ AskForFolder (texts_of words.now) folder) → files.new ≡ files.old }

    // An audit was requested, or a journal to be migrated, the file has no journal, and what was written to the errors
    // says which line is refused; or rows were requested, and what was written to the errors says that the checkpoint is
    // refused; or a folder of data was requested, and what was written to the errors says at which line its log isn't
    // continued.
    ensures no_journal { result ≡ 4 → (text : Text)
        × ((RefusesJournal (texts_of words.now) (claims F.may_hold F.may_fail F.may_leave files.old files.new) text
        (R.remaining input.old.reader) (R.remaining input.new.reader) (W.contents output.old.writer) (W.contents output.new.writer)
        ⊎ RefusesRows (texts_of words.now) (claims F.may_hold F.may_fail F.may_leave files.old files.new) text
        (R.remaining input.old.reader) (R.remaining input.new.reader) (W.contents output.old.writer) (W.contents output.new.writer))
        ⊎ RefusesLog (texts_of words.now) (log_claims F.begun F.acts F.past F.failed files.old files.new) text
        (R.remaining input.old.reader) (R.remaining input.new.reader) input.new.lines
        (W.contents output.old.writer) (W.contents output.new.writer))
        × Tells (E.contents errors.old.writer) (E.contents errors.new.writer) errors.new.calls text }
{
    match answer(rt, words, files, input, output, &FreeGate, &FreeAuditGate) {
        Ok(end) => tell_end(errors, &end),
        Err(fault) => tell(errors, &fault),
    }
}
