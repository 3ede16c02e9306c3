//! Runs of the program over files, a reader and writers in memory.

use silo_program::{DataFiles, Input, MemoryFile, Output, WholeFiles, run_program};
use std::alloc::Global;
use std::io::{self, Write};
use std::random::RandomSource;
use std::sync::Wait;
use std::test::Fail;
use std::thread::Threads;

/// Keeps back what is written until it is flushed.
#[derive(Drop)]
struct HoldingWriter {
    held: Vec<u8>,
    out: Vec<u8>,
}

impl Write for HoldingWriter {
    fn write(&mut self, bytes: &[u8]) -> io::Result<usize> {
        self.held.extend_from_slice(bytes)?;
        Ok(bytes.len())
    }

    fn flush(&mut self) -> io::Result<()> {
        self.out.extend_from_slice(self.held.as_slice())?;
        self.held.clear();
        Ok(())
    }
}

/// Nothing was written.
fn holding(alloc: Global) -> Output<HoldingWriter> {
    Output::new(HoldingWriter {
        held: Vec::new(alloc),
        out: Vec::new(alloc),
    })
}

/// What a run leaves: its status, and what went out to the output and the errors.
#[derive(Drop)]
pub struct Left {
    pub status: u8,
    pub output: Vec<u8>,
    pub errors: Vec<u8>,
}

/// The words of a command line, a space between each two.
pub fn words_of(alloc: Global, text: &str) -> Result<Vec<String>, Fail> {
    let mut words = Vec::new(alloc);
    for word in text.split(' ') {
        words.push(String::from_str(alloc, word)?)?;
    }
    Ok(words)
}

/// A file at `j` that has this text.
pub fn file_of(alloc: Global, text: &str) -> Result<MemoryFile, Fail> {
    let path = String::from_str(alloc, "j")?;
    let bytes = Vec::from_slice(alloc, text.as_bytes())?;
    Ok(MemoryFile { path, bytes })
}

/// Runs the program, which has clauses: its status.
fn run<H: AllocGlobal + RandomSource + Threads + Wait + Sync, F: WholeFiles + DataFiles>(
    rt: &H,
    words: &[String],
    input: &str,
    files: &mut F,
    output: &mut Output<HoldingWriter>,
    errors: &mut Output<HoldingWriter>,
) -> Result<u8, Fail> {
    let mut input = Input::new(rt.alloc(), input.as_bytes())?;
    Ok(run_program(rt, words, files, &mut input, output, errors))
}

/// What a run leaves.
fn left_of<H: AllocGlobal + RandomSource + Threads + Wait + Sync, F: WholeFiles + DataFiles>(
    rt: &H,
    words: &[String],
    input: &str,
    files: &mut F,
) -> Result<Left, Fail> {
    let mut output = holding(rt.alloc());
    let mut errors = holding(rt.alloc());
    let status = run(rt, words, input, files, &mut output, &mut errors)?;
    Ok(Left {
        status,
        output: output.writer.out,
        errors: errors.writer.out,
    })
}

/// Runs the program on these words, this input and these files.
pub fn left_by<H: AllocGlobal + RandomSource + Threads + Wait + Sync, F: WholeFiles + DataFiles>(
    rt: &H,
    words: &str,
    input: &str,
    files: &mut F,
) -> Result<Left, Fail> {
    let words = words_of(rt.alloc(), words)?;
    left_of(rt, &words, input, files)
}
