//! What every line of an input says, read before anything is done.

ghost use Rattle.std.specs.Prelude.{◌≤◌, IfOk, IfErr, IfSome, vec_len};
ghost use Rattle.line_text.specs.Limits.{lines_limit};
ghost use Rattle.line_text.specs.Gathered.{ReadsAll, StopsGathering};
ghost use Rattle.line_text.specs.Reading.{left_of};

use crate::fault::LineFault;
use crate::streams::Input;
use line_parser::{Line, LineScratch, read_line};
use std::alloc::Global;
use std::io::Read;

/// Lines that an input may have.
pub const LINES_LIMIT: u64 = 1_000_000;

/// What each line of the input says, in order: at most 1,000,000 lines.
///
/// # Errors
///
/// Those of `run_lines` but `Write`, since nothing is written.
pub fn read_all<R: Read>(alloc: Global, input: &mut Input<R>) -> Result<Vec<Line>, LineFault>
    ensures ok { IfOk result (λ all. IfSome (left_of input.old.lines (R.remaining input.old.reader)) (λ bytes.
        ReadsAll bytes all.items (R.remaining input.new.reader))) }
    ensures bound { IfOk result (λ all. vec_len all ≤ lines_limit) }
    ensures err { IfErr result (λ e. StopsGathering e (left_of input.old.lines (R.remaining input.old.reader)) input.new.lines.calls) }
{
    let mut scratch = LineScratch::new(alloc);
    let mut all = Vec::new(alloc);
    'lines: while (all.len() as u64) < LINES_LIMIT {
        if !input.lines.next_line(&mut input.reader)? {
            return Ok(all);
        }
        let said = read_line(alloc, &mut scratch, input.lines.line())?;
        let Ok(()) = all.push(said) else {
            return Err(LineFault::Memory);
        };
    }
    if input.lines.fill(&mut input.reader)? {
        return Err(LineFault::TooMuch);
    }
    Ok(all)
}
