//! Printing the rows and the active grains of a folder's checkpoint.

ghost use Rattle.std.specs.Prelude.{◌≡◌, false, ℕ, List, Option, IfErr, IfOk, OnOk, option_map, string_bytes};
ghost use Rattle.std.specs.Io.KnownBytes.{Appends};
ghost use Rattle.line_text.specs.declared.written.WriterCalls.{WriterCalls};
ghost use Rattle.rows_command.specs.Rows.{IsRowsFault, Lists, MayList, PrintsRows, checkpoint_path};
ghost use Rattle.rows_command.specs.inside.Reading.{IsReadingFault, IsRefusal, file_cause};
ghost use Rattle.command_parts.specs.Streams.{BreaksOff};

use crate::reading::listing_of;
use checkpoint_text::CheckpointFault;
use command_parts::{Cause, End, FileFault, ProgramFault, WholeFiles, say};
use line_text::Output;
use std::alloc::{AllocError, Global};
use std::io::Write;

/// The path of the checkpoint in the folder.
fn path_in(alloc: Global, folder: &str) -> Result<String, AllocError>
    ensures { IfOk result (λ path. string_bytes path ≡ checkpoint_path folder.now) }
{
    let mut path = String::from_str(alloc, folder)?;
    path.push_str("/checkpoint")?;
    Ok(path)
}

/// What a fault of a file that is read is to the program.
fn cause_of_file(fault: FileFault) -> Cause
    ensures { result ≡ file_cause fault }
{
    match fault {
        FileFault::Memory => Cause::Memory,
        FileFault::Failed => Cause::Read,
        FileFault::TooMuch => Cause::TooMuch,
    }
}

/// What is said of a checkpoint that is refused.
fn refuse(alloc: Global) -> ProgramFault
    ensures { IsRefusal result }
{
    match String::from_str(alloc, "silo: the checkpoint is refused\n") {
        Ok(text) => ProgramFault::NoJournal(text),
        Err(_) => ProgramFault::Failed(Cause::Memory),
    }
}

/// The lines of the checkpoint whose text the bytes are.
fn text_of(alloc: Global, bytes: &[u8], tenant: Option<&str>) -> Result<String, ProgramFault>
    ensures lists { IfOk result (λ text. Lists bytes.now (option_map (λ name. name.now) tenant.entry) (string_bytes text)) }
    ensures fault { IfErr result (λ fault. IsReadingFault bytes.now fault) }
{
    match listing_of(alloc, bytes, tenant) {
        Ok(text) => Ok(text),
        Err(CheckpointFault::NoCheckpoint) => Err(refuse(alloc)),
        Err(CheckpointFault::Memory) => Err(ProgramFault::Failed(Cause::Memory)),
    }
}

/// The lines of the checkpoint that the file at the path has.
fn text_at<F: WholeFiles>(
    alloc: Global,
    files: &F,
    path: &str,
    tenant: Option<&str>,
) -> Result<String, ProgramFault>
    ensures lists { IfOk result (λ text. MayList (F.may_hold files.now path.now) (option_map (λ name. name.now) tenant.entry)
        (string_bytes text)) }
    ensures fault { (before : Option (List ℕ)) (writing : WriterCalls)
        → IfErr result (λ fault. IsRowsFault (F.may_hold files.now path.now) (F.may_fail files.now path.now)
        (option_map (λ name. name.now) tenant.entry) fault before before writing) }
{
    match files.read_whole(alloc, path) {
        Ok(bytes) => text_of(alloc, bytes.as_slice(), tenant),
        Err(fault) => Err(ProgramFault::Failed(cause_of_file(fault))),
    }
}

/// The lines of the checkpoint in the folder.
fn text_in<F: WholeFiles>(
    alloc: Global,
    files: &F,
    folder: &str,
    tenant: Option<&str>,
) -> Result<String, ProgramFault>
    ensures lists { IfOk result (λ text. MayList (F.may_hold files.now (checkpoint_path folder.now))
        (option_map (λ name. name.now) tenant.entry) (string_bytes text)) }
    ensures fault { (before : Option (List ℕ)) (writing : WriterCalls)
        → IfErr result (λ fault. IsRowsFault (F.may_hold files.now (checkpoint_path folder.now))
        (F.may_fail files.now (checkpoint_path folder.now)) (option_map (λ name. name.now) tenant.entry) fault before before writing) }
{
    match path_in(alloc, folder) {
        Ok(path) => text_at(alloc, files, path.as_str(), tenant),
        Err(_) => Err(ProgramFault::Failed(Cause::Memory)),
    }
}

/// Writes a text whole.
fn put<W: Write>(text: &str, output: &mut Output<W>) -> Result<End, ProgramFault>
    ensures whole { IfOk result (λ end. (end ≡ End.Well)
        × Appends (W.contents output.old.writer) (W.contents output.new.writer) text.now) }
    ensures unfailed { OnOk result (output.new.calls.failed ≡ output.old.calls.failed) }
    ensures out { OnOk result (output.new.calls.held ≡ false) }
    ensures part { IfErr result (λ why. (why ≡ ProgramFault.Failed Cause.Write)
        × BreaksOff (W.contents output.old.writer) (W.contents output.new.writer) output.new.calls text.now) }
{
    if say(output, text) {
        return Ok(End::Well);
    }
    Err(ProgramFault::Failed(Cause::Write))
}

/// Prints the rows and the active grains of the last checkpoint of the folder: of the tenant, if one is named. It takes no lock, and what
/// was answered since isn't in it.
///
/// # Errors
///
/// `Failed` with `Read` if there is no checkpoint or it isn't read, or with `TooMuch` if its end isn't met by all calls that are made, and
/// then `NoJournal` if it is refused. `Failed` with `Write` if a call of the writer failed, and with `Memory` if memory was refused. But
/// for `Write` nothing was printed.
pub fn print_rows<F: WholeFiles, W: Write>(
    alloc: Global,
    folder: &str,
    tenant: Option<&str>,
    files: &F,
    output: &mut Output<W>,
) -> Result<End, ProgramFault>
    ensures printed { IfOk result (λ end. (end ≡ End.Well) × PrintsRows (F.may_hold files.now (checkpoint_path folder.now))
        (option_map (λ name. name.now) tenant.entry) (W.contents output.old.writer) (W.contents output.new.writer)) }
    ensures unfailed { OnOk result (output.new.calls.failed ≡ output.old.calls.failed) }
    ensures out { OnOk result (output.new.calls.held ≡ false) }
    ensures fault { IfErr result (λ fault. IsRowsFault (F.may_hold files.now (checkpoint_path folder.now))
        (F.may_fail files.now (checkpoint_path folder.now)) (option_map (λ name. name.now) tenant.entry) fault
        (W.contents output.old.writer) (W.contents output.new.writer) output.new.calls) }
{
    let text = text_in(alloc, files, folder, tenant)?;
    put(text.as_str(), output)
}
