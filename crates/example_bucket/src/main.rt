//! A program to copy, with a kind of grain of its own: it takes the words of `silo answer`, and reads and answers lines as
//! that does. Its kind is in `bucket`.
#![tactic(auto)]

ghost use Rattle.line_text.specs.Reading.{IsFresh};

mod bucket;

use bucket::{Buckets, NUMBER};
use command_parts::{Cause, HostFiles, ProgramFault, Start, WholeFiles, refuse_words, say, tell};
use grain_id::HashSeed;
use host_writing::LimitedWriter;
use line_commands::answer_input;
use line_text::{Input, Output};
use silo_words::{Task, WordsFault, read_ages, read_tenants, read_words};
use std::alloc::Global;
use std::fs::File;
use std::io::{BufWriter, Read, Write};
use std::process::ExitCode;
use std::random::RandomSource;
use std::rt::{Env, Files};
use std::{env, io};
use tenant_gate::Age;

const OUTPUT_BUFFER_BYTES: usize = 65_536;

/// What the system calls the files of the process's streams.
const STDOUT_FILE: &str = "/proc/self/fd/1";

const STDERR_FILE: &str = "/proc/self/fd/2";

type Done = Result<(), ProgramFault>;

/// The fault of words that are refused for this.
fn refused(alloc: Global, why: &str) -> ProgramFault {
    match String::from_str(alloc, why) {
        Ok(text) => ProgramFault::Refused(text),
        Err(_) => ProgramFault::Failed(Cause::Memory),
    }
}

/// A seed that nobody knows before, so that nobody finds names of one hash.
fn random_seed<H: RandomSource>(rt: &H) -> Result<HashSeed, ProgramFault> {
    let mut bytes = [0; 8];
    match rt.fill_bytes(&mut bytes) {
        Ok(()) => Ok(HashSeed::new(u64::from_le_bytes(bytes))),
        Err(_) => Err(ProgramFault::Failed(Cause::Read)),
    }
}

/// What a silo of buckets starts from, for the tenants and the ages that the words name.
fn start_of(
    alloc: Global,
    seed: HashSeed,
    tenants: &[&str],
    age: Age,
    ages: Option<&str>,
) -> Result<Start<Buckets>, ProgramFault> {
    let Ok(tenants) = read_tenants(alloc, tenants) else {
        return Err(refused(alloc, "bucket: a tenant argument is refused\n"));
    };
    match read_ages(alloc, ages) {
        Ok(ages) => Ok(Start {
            seed,
            tenants,
            age,
            ages,
            logic: Buckets,
            kinds: NUMBER,
        }),
        Err(_) => {
            drop(tenants);
            Err(refused(alloc, "bucket: ages are refused\n"))
        }
    }
}

/// Answers the lines of the input, as the task says.
fn answer<H: AllocGlobal + RandomSource, F: WholeFiles, R: Read, W: Write>(
    rt: &H,
    task: &Task,
    files: &mut F,
    input: &mut Input<R>,
    output: &mut Output<W>,
) -> Done
    requires fresh { IsFresh input.old.lines }
{
    let alloc = rt.alloc();
    let Task::Answer {
        age,
        ages,
        sends,
        journal,
        data: None,
        tenants,
    } = task
    else {
        return Err(refused(alloc, "bucket: only `answer` without --data is here\n"));
    };
    let start = start_of(alloc, random_seed(rt)?, tenants.as_slice(), *age, *ages)?;
    match answer_input(alloc, start, *sends, *journal, files, input, output) {
        Ok(()) => Ok(()),
        Err(why) => Err(ProgramFault::Failed(why)),
    }
}

/// Runs the command that the words name, or shows the help or the version.
fn serve<H: AllocGlobal + RandomSource, F: WholeFiles, R: Read, W: Write>(
    rt: &H,
    words: &[String],
    files: &mut F,
    input: &mut Input<R>,
    output: &mut Output<W>,
) -> Done
    requires fresh { IsFresh input.old.lines }
{
    match read_words(rt.alloc(), words) {
        Ok(task) => answer(rt, &task, files, input, output),
        Err(WordsFault::Memory) => Err(ProgramFault::Failed(Cause::Memory)),
        Err(WordsFault::Help(text)) => show(output, text.as_str()),
        Err(WordsFault::Version) => show(output, "bucket 0.1.0\n"),
        Err(WordsFault::Wrong(text)) => Err(ProgramFault::Refused(text)),
    }
}

fn show<W: Write>(output: &mut Output<W>, text: &str) -> Done {
    if say(output, text) {
        return Ok(());
    }
    Err(ProgramFault::Failed(Cause::Write))
}

/// The words that the host gave, the program's name first.
fn words_of<H: Env + AllocGlobal>(rt: &H) -> io::Result<Vec<String>> {
    let mut words = Vec::new(rt.alloc());
    for word in env::args(rt)? {
        words.push(word)?;
    }
    Ok(words)
}

/// Runs the program over the host's files and these streams, and answers its status.
fn run<H, I, O, E>(rt: &H, stdin: I, stdout: O, stderr: E) -> u8
where
    H: Env + AllocGlobal + Files<File = File> + RandomSource,
    I: Read + Drop,
    O: Write + Drop,
    E: Write + Drop,
{
    let mut errors = Output::new(LimitedWriter::new(rt, STDERR_FILE, stderr));
    let mut files = HostFiles::new(rt);
    let words = match words_of(rt) {
        Ok(words) => words,
        Err(fault) => return refuse_words(&fault, &mut errors),
    };
    let fault = ProgramFault::Failed(Cause::Memory);
    let Ok(mut input) = Input::new(rt.alloc(), stdin) else {
        return tell(&mut errors, &fault);
    };
    let stdout = LimitedWriter::new(rt, STDOUT_FILE, stdout);
    let Ok(writer) = BufWriter::with_capacity(rt.alloc(), OUTPUT_BUFFER_BYTES, stdout) else {
        return tell(&mut errors, &fault);
    };
    let mut output = Output::new(writer);
    match serve(rt, &words, &mut files, &mut input, &mut output) {
        Ok(()) => 0,
        Err(fault) => tell(&mut errors, &fault),
    }
}

fn main(rt: HostRuntime) -> ExitCode {
    ExitCode::from(run(&rt, rt.stdin(), rt.stdout(), rt.stderr()))
}
