//! Reads lines by one of the two readers of `line_parser`, and prints what each line says.
//!
//! Both readers have one contract, so that this shows nothing of it. It shows whether both succeed, and
//! what a proof leaves out: memory that is refused. `gate/compare-readers` runs it.
#![tactic(auto)]

ghost use Rattle.std.specs.Prelude.{◌≡◌, IfOk};
ghost use Rattle.line_parser.specs.Meaning.{meaning_of};

use line_parser::{Line, LineScratch, read_any_line, read_line};
use std::alloc::{AllocError, Global};
use std::io::{BufRead, BufReader, BufWriter, ErrorKind, Write};
use std::process::ExitCode;
use std::rt::Env;
use std::{env, io};

const BUFFER_BYTES: usize = 65_536;

const USAGE: &str = "usage: test_readers quick|json < lines\n";

/// How a line is read: by its tokens if it is usual, or always by its JSON.
#[derive(Clone, Copy)]
enum Way {
    Quick,
    Json,
}

/// The way that a word names.
fn way_of(word: &str) -> Option<Way> {
    match word {
        "quick" => Some(Way::Quick),
        "json" => Some(Way::Json),
        _ => None,
    }
}

/// What a line says, read that way.
fn read_by(
    way: Way,
    alloc: Global,
    scratch: &mut LineScratch,
    line: &[u8],
) -> Result<Line, AllocError>
    ensures { IfOk result (λ said. said ≡ meaning_of line.now) }
{
    match way {
        Way::Quick => read_line(alloc, scratch, line),
        Way::Json => read_any_line(alloc, scratch, line),
    }
}

/// A line, without its end.
fn without_end(line: &[u8]) -> &[u8] {
    match line {
        [before @ .., b'\n'] => before,
        all => all,
    }
}

/// What is printed of a line.
fn text_of(alloc: Global, said: &Line) -> Result<String, AllocError> {
    format!(in alloc; "{said:?}\n")
}

/// What is printed of a line, read that way.
fn text_by(
    alloc: Global,
    way: Way,
    scratch: &mut LineScratch,
    line: &[u8],
) -> Result<String, AllocError> {
    let said = read_by(way, alloc, scratch, without_end(line))?;
    text_of(alloc, &said)
}

/// Prints what each line of the reader says, a line each.
fn print_lines<R: BufRead, W: Write>(
    alloc: Global,
    way: Way,
    reader: &mut R,
    writer: &mut W,
) -> io::Result<()> {
    let mut scratch = LineScratch::new(alloc);
    let mut line = Vec::new(alloc);
    for _ in 0..u64::MAX {
        line.clear();
        if reader.read_until(b'\n', &mut line)? == 0 {
            break;
        }
        let text = text_by(alloc, way, &mut scratch, line.as_slice())?;
        writer.write_all(text.as_str().as_bytes())?;
    }
    writer.flush()
}

/// The way that the first word after the program's name names.
fn asked_way<H: Env + AllocGlobal>(rt: &H) -> io::Result<Option<Way>> {
    match env::args(rt)?.nth(1) {
        Some(word) => Ok(way_of(word.as_str())),
        None => Ok(None),
    }
}

/// Prints what the lines of the input say, read in the way that the words name. Returns whether they name one.
fn run(rt: &HostRuntime) -> io::Result<bool> {
    let alloc = rt.alloc();
    let Some(way) = asked_way(rt)? else {
        return Ok(false);
    };
    let mut reader = BufReader::with_capacity(alloc, BUFFER_BYTES, rt.stdin())?;
    let mut writer = BufWriter::with_capacity(alloc, BUFFER_BYTES, rt.stdout())?;
    print_lines(alloc, way, &mut reader, &mut writer)?;
    Ok(true)
}

fn main(rt: HostRuntime) -> ExitCode {
    let mut errors = rt.stderr();
    match run(&rt) {
        Ok(true) => ExitCode::from(0),
        Ok(false) => {
            let _ = errors.write_all(USAGE.as_bytes());
            ExitCode::from(2)
        }
        Err(fault) if fault.kind() == ErrorKind::OutOfMemory => {
            let _ = errors.write_all(b"test_readers: out of memory\n");
            ExitCode::from(1)
        }
        Err(_) => {
            let _ = errors.write_all(b"test_readers: reading or writing failed\n");
            ExitCode::from(1)
        }
    }
}
