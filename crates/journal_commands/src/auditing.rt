//! Auditing the journal of a file.

ghost use Rattle.std.specs.Prelude.{◌≡◌, false, ℕ, List, Option, IfOk, IfErr, OnOk};
ghost use Rattle.std.specs.Io.KnownBytes.{Appends};
ghost use Rattle.line_text.specs.declared.written.WriterCalls.{WriterCalls};
ghost use Rattle.journal_text.specs.JournalAnswers.{IsJournalText};
ghost use Rattle.grain_kinds.specs.Versions.{IsVersion};
ghost use Rattle.grain_kinds.specs.Kinds.{logic_of};
ghost use Rattle.audit_model.specs.Report.{IsReport};
ghost use Rattle.journal_commands.specs.Auditing.{AuditsFile, IsAuditCause, IsAuditFault, IsEndOf, IsReadingFault, IsRefusalOf};
ghost use Rattle.journal_commands.specs.Auditing.{IsWritingCause, MayHoldJournal, file_cause, reports_text};

use command_parts::{Cause, End, FileFault, ProgramFault, WholeFiles, say};
use grain_id::HashSeed;
use line_text::Output;
use std::alloc::Global;
use std::io::Write;
use std::sync::Wait;
use std::thread::Threads;
use tenant_audit::{
    AuditFault, AuditGate, Journal, JournalFault, Report, audit_seeded, has_difference,
    read_journal, report_text,
};

/// How many threads audit a journal.
const AUDIT_WORKERS: usize = 4;

/// What a fault of a file that is read is to the program.
pub fn cause_of_file(fault: FileFault) -> Cause
    ensures { result ≡ file_cause fault }
{
    match fault {
        FileFault::Memory => Cause::Memory,
        FileFault::Failed => Cause::Read,
        FileFault::TooMuch => Cause::TooMuch,
    }
}

/// What is said of bytes that are no journal's, by the number of the line that is refused.
pub fn refuse_line(alloc: Global, number: usize) -> ProgramFault
    ensures { IsRefusalOf number result }
{
    match format!(in alloc; "silo: journal line {number} is refused\n") {
        Ok(text) => ProgramFault::NoJournal(text),
        Err(_) => ProgramFault::Failed(Cause::Memory),
    }
}

/// The journal whose text the bytes are.
fn journal_in(alloc: Global, bytes: &[u8]) -> Result<Journal, ProgramFault>
    ensures journal { IfOk result (λ journal. IsJournalText bytes.now journal) }
    ensures version { IfOk result (λ journal. IsVersion journal.kinds) }
    ensures fault { IfErr result (λ fault. IsReadingFault bytes.now fault) }
{
    match read_journal(alloc, bytes) {
        Ok(journal) => Ok(journal),
        Err(JournalFault::Memory) => Err(ProgramFault::Failed(Cause::Memory)),
        Err(JournalFault::At { line }) => Err(refuse_line(alloc, line)),
    }
}

/// The journal that the file at the path has.
fn journal_at<F: WholeFiles>(alloc: Global, files: &F, path: &str) -> Result<Journal, ProgramFault>
    ensures journal { IfOk result (λ journal. MayHoldJournal (F.may_hold files.now path.now) journal) }
    ensures fault { (before : Option (List ℕ)) (writing : WriterCalls)
        → IfErr result (λ fault. IsAuditFault (F.may_hold files.now path.now) (F.may_fail files.now path.now) fault
        before before writing) }
{
    match files.read_whole(alloc, path) {
        Ok(bytes) => journal_in(alloc, bytes.as_slice()),
        Err(fault) => Err(ProgramFault::Failed(cause_of_file(fault))),
    }
}

/// What the audit reports of each tenant of the journal, under the logic that the journal names. The machines' maps are of
/// the seed.
fn reports_on<H: AllocGlobal + Threads + Wait + Sync, A: AuditGate + Sync>(
    rt: &H,
    seed: HashSeed,
    journal: &Journal,
    gate: &A,
) -> Result<Report, Cause>
    ensures reports { IfOk result (λ reports. IsReport (logic_of journal.now.kinds) journal.now reports) }
    ensures fault { IfErr result (λ cause. IsAuditCause cause) }
{
    match audit_seeded(rt, rt.alloc(), seed, journal, AUDIT_WORKERS, gate) {
        Ok(reports) => Ok(reports),
        Err(AuditFault::Memory) => Err(Cause::Memory),
        Err(AuditFault::NoWorker) => Err(Cause::NoWorker),
    }
}

/// How an audit ends that reports this.
fn end_of(report: &Report) -> End
    ensures { IsEndOf result report.now }
{
    if has_difference(report) {
        End::Differs
    } else {
        End::Well
    }
}

/// Writes what is reported of each tenant.
fn write_reports<W: Write>(
    alloc: Global,
    report: &Report,
    output: &mut Output<W>,
) -> Result<End, Cause>
    ensures written { IfOk result (λ how. IsEndOf how report.now
        × Appends (W.contents output.old.writer) (W.contents output.new.writer) (reports_text report.now)) }
    ensures unfailed { OnOk result (output.new.calls.failed ≡ output.old.calls.failed) }
    ensures out { OnOk result (output.new.calls.held ≡ false) }
    ensures fault { IfErr result (λ cause. IsWritingCause cause
        (W.contents output.old.writer) (W.contents output.new.writer) output.new.calls (reports_text report.now)) }
{
    let Ok(text) = report_text(alloc, report) else {
        return Err(Cause::Memory);
    };
    if say(output, text.as_str()) {
        return Ok(end_of(report));
    }
    Err(Cause::Write)
}

/// Audits the journal that the file at the path has by 4 threads, under the logic that it names, and writes a line for each
/// tenant.
///
/// # Errors
///
/// `Failed` with `Read` if the file isn't read, or with `TooMuch` if its end isn't met by all calls that are made, and
/// then `NoJournal` if it has no journal. `Failed` with
/// `NoWorker` if a thread couldn't be started, with `Write` if a call of the writer failed, and with
/// `Memory` if memory was refused. But for `Write` nothing was written.
pub fn audit_file<
    H: AllocGlobal + Threads + Wait + Sync,
    F: WholeFiles,
    W: Write,
    A: AuditGate + Sync,
>(
    rt: &H,
    seed: HashSeed,
    path: &str,
    files: &F,
    output: &mut Output<W>,
    gate: &A,
) -> Result<End, ProgramFault>
    ensures audited { IfOk result (λ how. AuditsFile (F.may_hold files.now path.now) how
        (W.contents output.old.writer) (W.contents output.new.writer)) }
    ensures unfailed { OnOk result (output.new.calls.failed ≡ output.old.calls.failed) }
    ensures out { OnOk result (output.new.calls.held ≡ false) }
    ensures fault { IfErr result (λ fault. IsAuditFault (F.may_hold files.now path.now) (F.may_fail files.now path.now) fault
        (W.contents output.old.writer) (W.contents output.new.writer) output.new.calls) }
{
    let alloc = rt.alloc();
    let journal = journal_at(alloc, files, path)?;
    let reports = match reports_on(rt, seed, &journal, gate) {
        Ok(reports) => reports,
        Err(cause) => return Err(ProgramFault::Failed(cause)),
    };
    match write_reports(alloc, &reports, output) {
        Ok(how) => Ok(how),
        Err(cause) => Err(ProgramFault::Failed(cause)),
    }
}
