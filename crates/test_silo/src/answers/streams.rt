//! Lines that are answered over a reader or a writer that fails.

use crate::answers::rows::{COUNTED, COUNTED_UNTIL_IT_FAILS, COUNTED_UNWRITTEN, Worked};
use crate::answers::silos::{TestedSilo, ended, taken};
use crate::answers::trials::{Trial, tried};
use crate::failing::{FailingReader, FailingWriter};
use line_answer::{Input, Output};
use std::alloc::Global;
use std::io;
use std::io::Read;
use std::test::Fail;

/// Reading fails after the last LF, and the replies to what was read are written whole.
#[test]
fn what_was_read_is_answered_before_reading_fails(rt: HostRuntime) -> Result<(), Fail> {
    tried(rt.alloc(), Trial::Lines, &COUNTED_UNTIL_IT_FAILS)
}

/// Whether writing the row's first reply fails, and the first line was answered, by five steps, and no other.
pub fn is_stopped_by_a_writer(
    alloc: Global,
    silo: &mut TestedSilo,
    row: &Worked,
) -> Result<bool, Fail> {
    let reader = FailingReader {
        rest: row.lines.as_bytes(),
        fails: false,
    };
    let mut input = Input::new(alloc, reader)?;
    let mut output = Output::new(FailingWriter);
    let end = ended(alloc, silo, row.most, &mut input, &mut output)?;
    Ok(row.end.is(&end) && taken(silo) == 5)
}

#[test]
fn a_line_whose_answer_is_not_written_was_answered(rt: HostRuntime) -> Result<(), Fail> {
    tried(rt.alloc(), Trial::FailingWriter, &COUNTED_UNWRITTEN)
}

/// Whether `count` empty lines are answered.
pub fn are_empty_answered(alloc: Global, silo: &mut TestedSilo, count: u64) -> Result<bool, Fail> {
    let mut input = Input::new(alloc, io::repeat(b'\n').take(count))?;
    let written: Vec<u8> = Vec::new(alloc);
    let mut output = Output::new(written);
    let end = ended(alloc, silo, 0, &mut input, &mut output)?;
    Ok(matches!(end, Ok(lines) if lines == count))
}

#[test]
fn a_silo_goes_on_behind_a_million_lines(rt: HostRuntime) -> Result<(), Fail> {
    tried(rt.alloc(), Trial::Empty(1_000_001), &COUNTED)
}
