//! Lines that are run over a reader or a writer that fails.

use crate::failing::{FailingReader, FailingWriter};
use crate::steps::rows::{FIRST_CALL, Worked};
use crate::steps::silos::{TestedSilo, journal};
use crate::steps::trials::{Trial, tried};
use line_protocol::{Input, LineFault, Output, run_lines};
use silo_event::Step;
use std::alloc::{AllocError, Global};
use std::io::{Read, Write};
use std::test::Fail;

/// Runs the lines of the reader: how that ends, but for want of memory.
fn ended<R: Read + Drop, W: Write>(
    alloc: Global,
    silo: &mut TestedSilo,
    reader: R,
    output: &mut Output<W>,
) -> Result<Result<u64, LineFault>, Fail> {
    let mut input = Input::new(alloc, reader)?;
    match run_lines(alloc, &mut input, output, silo) {
        Err(LineFault::Memory) => Err(Fail::from(AllocError)),
        end => Ok(end),
    }
}

/// Whether reading fails after the row's last LF, and the row's replies were written whole.
pub fn is_written(alloc: Global, silo: &mut TestedSilo, row: &Worked) -> Result<bool, Fail> {
    let reader = FailingReader {
        rest: row.lines.as_bytes(),
        fails: true,
    };
    let written: Vec<u8> = Vec::with_capacity(alloc, row.told.len())?;
    let mut output = Output::new(written);
    let end = ended(alloc, silo, reader, &mut output)?;
    Ok(matches!(end, Err(LineFault::Read)) && output.writer.as_slice() == row.told.as_bytes())
}

#[test]
fn what_was_read_is_answered_before_reading_fails(rt: HostRuntime) -> Result<(), Fail> {
    tried(rt.alloc(), Trial::FailingReader, &FIRST_CALL)
}

/// Whether the silo took as many steps, and the last of them ended a turn.
fn has_ended_last(silo: &TestedSilo, count: usize) -> bool {
    let taken = journal(silo);
    taken.len() == count && matches!(taken.last(), Some(Step::End { .. }))
}

/// Whether writing the row's only reply fails, and the silo took the step that was answered.
pub fn is_taken(alloc: Global, silo: &mut TestedSilo, row: &Worked) -> Result<bool, Fail> {
    let reader = FailingReader {
        rest: row.lines.as_bytes(),
        fails: false,
    };
    let mut output = Output::new(FailingWriter);
    let end = ended(alloc, silo, reader, &mut output)?;
    Ok(matches!(end, Err(LineFault::Write)) && has_ended_last(silo, 5))
}

#[test]
fn a_step_whose_answer_is_not_written_was_taken(rt: HostRuntime) -> Result<(), Fail> {
    tried(rt.alloc(), Trial::FailingWriter, &FIRST_CALL)
}
