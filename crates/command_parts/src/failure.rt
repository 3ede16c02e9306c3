//! How the program ends: what it says if it fails, and its status.

ghost use Rattle.std.specs.Prelude.{◌≡◌, ◌≢◌, true, false};
ghost use Rattle.std.specs.Io.KnownBytes.{Appends};
ghost use Rattle.std.specs.IoError.{error_kind};
ghost use Rattle.command_parts.specs.Streams.{BreaksOff, Tells, TellsEnd};
ghost use Rattle.command_parts.specs.Status.{cause_of, end_status, failure_text, status_of, told_text};

use line_text::{LineFault, Output};
use std::io::{self, ErrorKind, Write};
use thiserror::Error;

/// How the program ends if it does what its arguments request.
#[derive(Debug, Drop)]
pub enum End {
    Well,
    /// All is well, and this text about the lines that were served is to be written to standard error.
    Told(String),
    /// An audit found that a tenant differs.
    Differs,
}

/// Why the program fails.
#[derive(Clone, Copy, Debug, PartialEq, Eq, Error)]
pub enum Cause {
    #[error("reading failed")]
    Read,
    #[error("writing failed")]
    Write,
    #[error("out of memory")]
    Memory,
    /// The input has too many lines, or needs too many calls of the reader.
    #[error("too much input")]
    TooMuch,
    /// No thread could be started.
    #[error("no worker")]
    NoWorker,
    /// What the threads left isn't what serving the lanes leaves.
    #[error("lanes strayed")]
    Strayed,
    /// Another process has the folder of data.
    #[error("the data are in use")]
    InUse,
}

/// Why the program doesn't do what its arguments request.
#[derive(Debug, Drop, Error)]
pub enum ProgramFault {
    /// It failed.
    #[error("{0}")]
    Failed(Cause),
    /// The arguments are refused, or the folder of data has a log of other words, with what is said of that.
    #[error("{0}")]
    Refused(String),
    /// The file has no journal, or the log of the folder of data is refused, with what is said of that.
    #[error("{0}")]
    NoJournal(String),
}

/// The status if a tenant differs.
const DIFFERS_STATUS: u8 = 3;

/// The status after a fault of reading, of writing, of memory or of threads, after too much input, or if the data are in use.
const FAILED_STATUS: u8 = 1;

/// The status after a fault of the arguments, or if the data have other words.
const ARGUMENTS_STATUS: u8 = 2;

/// The status if the file has no journal, or the log is refused.
const NO_JOURNAL_STATUS: u8 = 4;

/// What a fault of the lines is to the program.
pub fn cause_of(fault: LineFault) -> Cause
    ensures { result ≡ cause_of fault }
{
    match fault {
        LineFault::Read => Cause::Read,
        LineFault::Write => Cause::Write,
        LineFault::Memory => Cause::Memory,
        LineFault::TooMuch => Cause::TooMuch,
    }
}

/// Writes bytes whole, and says whether that was done. If it wasn't, a call of the writer failed, and a part of them was
/// written: their beginning.
pub fn say_bytes<W: Write>(to: &mut Output<W>, bytes: &[u8]) -> bool
    ensures whole { result ≡ true → Appends (W.contents to.old.writer) (W.contents to.new.writer) bytes.now }
    ensures unfailed { result ≡ true → to.new.calls.failed ≡ to.old.calls.failed }
    ensures out { result ≡ true → to.new.calls.held ≡ false }
    ensures part { result ≡ false → BreaksOff (W.contents to.old.writer) (W.contents to.new.writer) to.new.calls bytes.now }
{
    let whole = to.write_whole(bytes);
    whole.is_ok() && to.flush().is_ok()
}

/// The same of a text.
pub fn say<W: Write>(to: &mut Output<W>, text: &str) -> bool
    ensures whole { result ≡ true → Appends (W.contents to.old.writer) (W.contents to.new.writer) text.now }
    ensures unfailed { result ≡ true → to.new.calls.failed ≡ to.old.calls.failed }
    ensures out { result ≡ true → to.new.calls.held ≡ false }
    ensures part { result ≡ false → BreaksOff (W.contents to.old.writer) (W.contents to.new.writer) to.new.calls text.now }
{
    say_bytes(to, text.as_bytes())
}

fn failure_line(cause: Cause) -> &'static str
    ensures { result.now ≡ failure_text cause }
{
    match cause {
        Cause::Read => "silo: reading failed\n",
        Cause::Write => "silo: writing failed\n",
        Cause::Memory => "silo: out of memory\n",
        Cause::TooMuch => "silo: too much input\n",
        Cause::NoWorker => "silo: no worker\n",
        Cause::Strayed => "silo: lanes strayed\n",
        Cause::InUse => "silo: the data are in use\n",
    }
}

/// Writes why the program fails to `errors`, as much of it as they accept, and returns the exit status.
pub fn tell<E: Write>(errors: &mut Output<E>, fault: &ProgramFault) -> u8
    ensures status { result ≡ status_of fault.now }
    ensures told { Tells (E.contents errors.old.writer) (E.contents errors.new.writer) errors.new.calls (told_text fault.now) }
{
    match fault {
        ProgramFault::Failed(why) => {
            say(errors, failure_line(*why));
            FAILED_STATUS
        }
        ProgramFault::Refused(text) => {
            say(errors, text.as_str());
            ARGUMENTS_STATUS
        }
        ProgramFault::NoJournal(text) => {
            say(errors, text.as_str());
            NO_JOURNAL_STATUS
        }
    }
}

/// Writes the text of the end to `errors`, if it has one, as much of it as they accept, and returns the exit status.
pub fn tell_end<E: Write>(errors: &mut Output<E>, end: &End) -> u8
    ensures status { result ≡ end_status end.now }
    ensures told { TellsEnd (E.contents errors.old.writer) (E.contents errors.new.writer) errors.new.calls end.now }
{
    match end {
        End::Well => 0,
        End::Told(told) => {
            say(errors, told.as_str());
            0
        }
        End::Differs => DIFFERS_STATUS,
    }
}

/// The error text if an argument is not UTF-8.
const NOT_UTF8: &str = "error: an argument is not UTF-8\n";

/// Writes why the program's words couldn't be read to `errors`, as much of it as they accept, and returns the exit
/// status: 1 if memory was refused, and else 2, since a word is not UTF-8.
pub fn refuse_words<E: Write>(fault: &io::Error, errors: &mut Output<E>) -> u8
    ensures memory { error_kind fault.now ≡ ErrorKind.OutOfMemory
        → (result ≡ 1) × Tells (E.contents errors.old.writer) (E.contents errors.new.writer) errors.new.calls (failure_text Cause.Memory) }
    ensures other { error_kind fault.now ≢ ErrorKind.OutOfMemory
        → (result ≡ 2) × Tells (E.contents errors.old.writer) (E.contents errors.new.writer) errors.new.calls NOT_UTF8.now }
{
    if fault.kind() == ErrorKind::OutOfMemory {
        return tell(errors, &ProgramFault::Failed(Cause::Memory));
    }
    say(errors, NOT_UTF8);
    ARGUMENTS_STATUS
}
