//! Migrating the journal of a file.

ghost use Rattle.std.specs.Prelude.{◌≡◌, false, ℕ, List, Option, IfErr, IfOk, OnOk};
ghost use Rattle.std.specs.Io.KnownBytes.{Appends};
ghost use Rattle.line_text.specs.declared.written.WriterCalls.{WriterCalls};
ghost use Rattle.journal_text.specs.JournalAnswers.{IsMigrated};
ghost use Rattle.tenant_audit.specs.Reading.{NamesNewer};
ghost use Rattle.journal_commands.specs.Auditing.{IsReadingFault};
ghost use Rattle.journal_commands.specs.Migrating.{IsMigrationFault, MayMigrateTo, MigratesFile};
ghost use Rattle.command_parts.specs.Streams.{BreaksOff};

use crate::auditing::{cause_of_file, refuse_line};
use command_parts::{Cause, End, ProgramFault, WholeFiles, say_bytes};
use line_text::Output;
use std::alloc::Global;
use std::io::Write;
use tenant_audit::{JournalFault, migrate_journal};

/// The text, in the form in which journals are written, of the journal whose text the bytes are.
fn text_of(alloc: Global, bytes: &[u8]) -> Result<Vec<u8>, ProgramFault>
    ensures migrated { IfOk result (λ text. IsMigrated bytes.now text.items) }
    ensures known { IfOk result (λ _. NamesNewer bytes.now → ⊥) }
    ensures fault { IfErr result (λ fault. IsReadingFault bytes.now fault) }
{
    match migrate_journal(alloc, bytes) {
        Ok(text) => Ok(text),
        Err(JournalFault::Memory) => Err(ProgramFault::Failed(Cause::Memory)),
        Err(JournalFault::At { line }) => Err(refuse_line(alloc, line)),
    }
}

/// The same of the journal that the file at the path has.
fn text_at<F: WholeFiles>(alloc: Global, files: &F, path: &str) -> Result<Vec<u8>, ProgramFault>
    ensures migrated { IfOk result (λ text. MayMigrateTo (F.may_hold files.now path.now) text.items) }
    ensures fault { (before : Option (List ℕ)) (writing : WriterCalls)
        → IfErr result (λ fault. IsMigrationFault (F.may_hold files.now path.now) (F.may_fail files.now path.now) fault
        before before writing) }
{
    match files.read_whole(alloc, path) {
        Ok(bytes) => text_of(alloc, bytes.as_slice()),
        Err(fault) => Err(ProgramFault::Failed(cause_of_file(fault))),
    }
}

/// Writes a text whole.
fn put<W: Write>(text: &[u8], output: &mut Output<W>) -> Result<End, ProgramFault>
    ensures whole { IfOk result (λ end. (end ≡ End.Well)
        × Appends (W.contents output.old.writer) (W.contents output.new.writer) text.now) }
    ensures unfailed { OnOk result (output.new.calls.failed ≡ output.old.calls.failed) }
    ensures out { OnOk result (output.new.calls.held ≡ false) }
    ensures part { IfErr result (λ why. (why ≡ ProgramFault.Failed Cause.Write)
        × BreaksOff (W.contents output.old.writer) (W.contents output.new.writer) output.new.calls text.now) }
{
    if say_bytes(output, text) {
        return Ok(End::Well);
    }
    Err(ProgramFault::Failed(Cause::Write))
}

/// Writes the journal that the file at the path has, in the form in which journals are written: the same journal, whatever
/// form it has there, and byte for byte if it has this one. It isn't audited.
///
/// # Errors
///
/// `Failed` with `Read` if the file isn't read, or with `TooMuch` if its end isn't met by all calls that are made, and
/// then `NoJournal` if it has no journal. `Failed` with `Write` if a call of the writer failed, and with `Memory` if memory
/// was refused. But for `Write` nothing was written.
pub fn migrate_file<F: WholeFiles, W: Write>(
    alloc: Global,
    path: &str,
    files: &F,
    output: &mut Output<W>,
) -> Result<End, ProgramFault>
    ensures migrated { IfOk result (λ end. (end ≡ End.Well) × MigratesFile (F.may_hold files.now path.now)
        (W.contents output.old.writer) (W.contents output.new.writer)) }
    ensures unfailed { OnOk result (output.new.calls.failed ≡ output.old.calls.failed) }
    ensures out { OnOk result (output.new.calls.held ≡ false) }
    ensures fault { IfErr result (λ fault. IsMigrationFault (F.may_hold files.now path.now) (F.may_fail files.now path.now) fault
        (W.contents output.old.writer) (W.contents output.new.writer) output.new.calls) }
{
    let text = text_at(alloc, files, path)?;
    put(text.as_slice(), output)
}
