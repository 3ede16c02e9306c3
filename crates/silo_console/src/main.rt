//! The program `silo`: `main` hands the host's words, files and streams to `run_program` of `silo_program`, and ends with
//! the status that it answers.
#![tactic(auto)]

use host_writing::LimitedWriter;
use silo_program::{
    Cause, HostFiles, Input, Output, ProgramFault, refuse_words, run_program, tell,
};
use std::fs::File;
use std::io::{BufWriter, Read, Write};
use std::process::ExitCode;
use std::random::RandomSource;
use std::rt::{Env, Files};
use std::sync::Wait;
use std::thread::Threads;
use std::{env, io};

const OUTPUT_BUFFER_BYTES: usize = 65_536;

/// What the system calls the files of the process's streams.
const STDOUT_FILE: &str = "/proc/self/fd/1";

const STDERR_FILE: &str = "/proc/self/fd/2";

/// The words that the host gave, the program's name first.
fn words_of<H: Env + AllocGlobal>(rt: &H) -> io::Result<Vec<String>> {
    let mut words = Vec::new(rt.alloc());
    for word in env::args(rt)? {
        words.push(word)?;
    }
    Ok(words)
}

/// Runs the program over the host's files and these streams, and answers its status.
fn run<H, I, O, E>(rt: &H, stdin: I, stdout: O, stderr: E) -> u8
where
    H: Env + AllocGlobal + Files<File = File> + RandomSource + Threads + Wait + Sync,
    I: Read + Drop,
    O: Write + Drop,
    E: Write + Drop,
{
    let mut errors = Output::new(LimitedWriter::new(rt, STDERR_FILE, stderr));
    let mut files = HostFiles::new(rt);
    let words = match words_of(rt) {
        Ok(words) => words,
        Err(fault) => return refuse_words(&fault, &mut errors),
    };
    let fault = ProgramFault::Failed(Cause::Memory);
    let Ok(mut input) = Input::new(rt.alloc(), stdin) else {
        return tell(&mut errors, &fault);
    };
    let stdout = LimitedWriter::new(rt, STDOUT_FILE, stdout);
    let Ok(writer) = BufWriter::with_capacity(rt.alloc(), OUTPUT_BUFFER_BYTES, stdout) else {
        return tell(&mut errors, &fault);
    };
    let mut output = Output::new(writer);
    run_program(rt, &words, &mut files, &mut input, &mut output, &mut errors)
}

fn main(rt: HostRuntime) -> ExitCode {
    ExitCode::from(run(&rt, rt.stdin(), rt.stdout(), rt.stderr()))
}
