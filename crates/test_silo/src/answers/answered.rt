//! Worked rows, answered line by line.

use crate::answers::rows::{
    COUNTED, COUNTED_BUT_SAVED, End, OTHERS, SENT, SENT_ONE_BY_ONE, SENT_TO_NOBODY, Worked,
};
use crate::answers::silos::{TestedSilo, ended};
use crate::answers::trials::{Trial, tried, tried_by};
use crate::failing::FailingReader;
use line_answer::{Input, Output};
use std::alloc::Global;
use std::test::Fail;

/// Whether the row's lines are answered as it says.
pub fn is_answered(alloc: Global, silo: &mut TestedSilo, row: &Worked) -> Result<bool, Fail> {
    let reader = FailingReader {
        rest: row.lines.as_bytes(),
        fails: matches!(row.end, End::ReadingFails),
    };
    let mut input = Input::new(alloc, reader)?;
    let written: Vec<u8> = Vec::with_capacity(alloc, row.told.len())?;
    let mut output = Output::new(written);
    let end = ended(alloc, silo, row.most, &mut input, &mut output)?;
    Ok(row.end.is(&end) && output.writer.as_slice() == row.told.as_bytes())
}

#[test]
fn each_line_is_answered_before_the_next(rt: HostRuntime) -> Result<(), Fail> {
    tried(rt.alloc(), Trial::Lines, &COUNTED)
}

#[test]
fn a_storage_that_fails_is_told_at_once(rt: HostRuntime) -> Result<(), Fail> {
    tried(rt.alloc(), Trial::Lines, &COUNTED_BUT_SAVED)
}

#[test]
fn what_is_sent_is_delivered_behind_its_line(rt: HostRuntime) -> Result<(), Fail> {
    tried(rt.alloc(), Trial::Lines, &SENT)
}

#[test]
fn what_is_left_goes_on_behind_the_tenants_next_line(rt: HostRuntime) -> Result<(), Fail> {
    tried(rt.alloc(), Trial::Lines, &SENT_ONE_BY_ONE)?;
    tried(rt.alloc(), Trial::Lines, &SENT_TO_NOBODY)
}

#[test]
fn other_lines_are_refused_or_ask_nothing(rt: HostRuntime) -> Result<(), Fail> {
    tried(rt.alloc(), Trial::Lines, &OTHERS)
}

#[test]
fn answers_are_the_same_by_each_seed(rt: HostRuntime) -> Result<(), Fail> {
    for seed in 0..10 {
        tried_by(rt.alloc(), &SENT, seed)?;
    }
    Ok(())
}
