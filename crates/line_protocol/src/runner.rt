//! Every line of an input, answered in order.

ghost use Rattle.std.specs.Prelude.{◌≡◌, ◌≢◌, ◌≤◌, false, List, ℕ, IfOk, IfErr, IfSome, OnOk};
ghost use Rattle.std.specs.Io.KnownBytes.{Appends};
ghost use Rattle.line_text.specs.Limits.{lines_limit};
ghost use Rattle.line_parser.specs.Meaning.{meaning_of};
ghost use Rattle.line_protocol.specs.LineRuns.{AnswersLine, LineStopsBy, AnswersAll, StopsBy};
ghost use Rattle.line_text.specs.Reading.{left_of};

use crate::answers::answer_line;
use bumpalo::Bump;
use grain_logic::GrainLogic;
use grain_storage::GrainStorage;
use line_parser::LineScratch;
use line_text::{Input, LINES_LIMIT, LineFault, Output};
use silo_core::Silo;
use std::alloc::Global;
use std::io::{Read, Write};

/// Takes what a line says, and writes its text at once.
fn write_answer<W: Write, S: GrainStorage, L: GrainLogic>(
    alloc: Global,
    bump: &mut Bump,
    scratch: &mut LineScratch,
    output: &mut Output<W>,
    silo: &mut Silo<S, L>,
    line: &[u8],
    text: &mut String,
) -> Result<(), LineFault>
    ensures ok { OnOk result ((written : List ℕ) × AnswersLine L.logic silo.old (meaning_of line.now) silo.new written
        × Appends (W.contents output.old.writer) (W.contents output.new.writer) written) }
    ensures err { IfErr result (λ e. LineStopsBy L.logic e (meaning_of line.now) output.new.calls silo.old silo.new
        (W.contents output.old.writer) (W.contents output.new.writer)) }
    ensures unfailed { OnOk result (output.new.calls.failed ≡ output.old.calls.failed) }
{
    answer_line(alloc, bump, scratch, silo, line, text)?;
    output.write_whole(text.as_str().as_bytes())
}

/// Takes the step of each line, and writes what it answers. Answers the number of lines, at most
/// 1,000,000.
///
/// All that one line answers is written in one go, and goes out before a read that may wait. What was
/// read ahead comes first.
///
/// # Errors
///
/// `Read` if a call of the reader failed, and `Write` if a call of the writer failed: the output notes that, so pass one
/// that notes none. `Memory` if memory was refused. `TooMuch` at more than 1,000,000 lines, or if one more call of the
/// reader than 1,073,741,824 would be needed.
pub fn run_lines<R: Read, W: Write, S: GrainStorage, L: GrainLogic>(
    alloc: Global,
    input: &mut Input<R>,
    output: &mut Output<W>,
    silo: &mut Silo<S, L>,
) -> Result<u64, LineFault>
    ensures ok { IfOk result (λ n. IfSome (left_of input.old.lines (R.remaining input.old.reader)) (λ bytes.
        AnswersAll L.logic bytes n silo.old silo.new (R.remaining input.new.reader)
        (W.contents output.old.writer) (W.contents output.new.writer))) }
    ensures err { IfErr result (λ e. IfSome (left_of input.old.lines (R.remaining input.old.reader)) (λ bytes.
        StopsBy L.logic bytes input.new.lines (R.remaining input.new.reader) output.new.calls silo.old silo.new
        (W.contents output.old.writer) (W.contents output.new.writer) e)) }
    ensures bound { IfOk result (λ n. n ≤ lines_limit) }
    ensures unfailed { OnOk result (output.new.calls.failed ≡ output.old.calls.failed) }

    // What was written goes out: all of it at the end, and before the read that failed or that would be one too many.
    ensures out { OnOk result (output.new.calls.held ≡ false) }
    ensures waits { IfErr result (λ e. e ≢ LineFault.Memory → e ≢ LineFault.Write → output.new.calls.held ≡ false) }
{
    // For the proof: the silo's type keeps that its journal leads to what it holds.
    let _ = silo.journal();
    let mut bump = Bump::new(alloc);
    let mut scratch = LineScratch::new(alloc);
    let mut text = String::new(alloc);
    for count in 0..LINES_LIMIT {
        if !input.lines.next_flushed(&mut input.reader, output)? {
            return Ok(count);
        }
        write_answer(
            alloc,
            &mut bump,
            &mut scratch,
            output,
            silo,
            input.lines.line(),
            &mut text,
        )?;
    }
    output.flush()?;
    if input.lines.fill(&mut input.reader)? {
        return Err(LineFault::TooMuch);
    }
    Ok(LINES_LIMIT)
}
