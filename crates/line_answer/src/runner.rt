//! Every line of an input, answered before the next is read.

ghost use Rattle.std.specs.Prelude.{◌≡◌, ◌≢◌, ◌≤◌, false, true, List, ℕ, IfOk, IfErr, IfSome, OnOk};
ghost use Rattle.std.specs.Io.KnownBytes.{Appends};
ghost use Rattle.line_parser.specs.Meaning.{meaning_of};
ghost use Rattle.line_text.specs.Reading.{left_of};
ghost use Rattle.line_answer.specs.Limits.{answered_limit};
ghost use Rattle.line_answer.specs.Runs.{AnswersLine, AnswersOn, KeepsSetup, LineStopsBy, MayStop, StopsOn};

use crate::answering::AnsweringSilo;
use crate::lines::answer_line;
use bumpalo::Bump;
use grain_logic::GrainLogic;
use grain_storage::GrainStorage;
use line_parser::LineScratch;
use line_text::{Input, LineFault, Output};
use std::alloc::Global;
use std::io::{Read, Write};

/// Lines of an input that are answered at once, at most.
pub const ANSWERED_LIMIT: u64 = 1_073_741_824;

/// Answers what a line says, and writes its text at once.
fn write_answer<W: Write, S: GrainStorage, L: GrainLogic>(
    alloc: Global,
    bump: &mut Bump,
    scratch: &mut LineScratch,
    output: &mut Output<W>,
    silo: &mut AnsweringSilo<S, L>,
    most: u64,
    line: &[u8],
    text: &mut String,
) -> Result<(), LineFault>
    requires { silo.old.stopped ≡ false }
    ensures ok { OnOk result ((written : List ℕ) × AnswersLine L.logic most silo.old.history (meaning_of line.now) silo.new.history written
        × Appends (W.contents output.old.writer) (W.contents output.new.writer) written) }
    ensures ready { OnOk result (silo.new.stopped ≡ false) }
    ensures keeps { silo.new.keeps ≡ silo.old.keeps }
    ensures err { IfErr result (λ e. LineStopsBy L.logic most e (meaning_of line.now) output.new.calls silo.old.history silo.new.history
        (W.contents output.old.writer) (W.contents output.new.writer)) }
    ensures stopped { IfErr result (λ e. MayStop e silo.new.stopped) }
    ensures unfailed { OnOk result (output.new.calls.failed ≡ output.old.calls.failed) }
{
    answer_line(alloc, bump, scratch, silo, most, line, text)?;
    output.write_whole(text.as_str().as_bytes())
}

/// Answers each line before the next is read: what a client asks, the clock, and sweeping. After what a client asks, at
/// most `most` of the requests that the grains of its tenant sent are delivered; what is left is delivered after the
/// tenant's next lines. Returns the number of lines, at most 1,073,741,824.
///
/// All that is written for one line is written in one go, and goes out before a read that may wait. What was read ahead
/// comes first. A silo that needn't keep its history drops it between two lines, from time to time: it answers as if it
/// had kept all.
///
/// # Errors
///
/// `Read` if a call of the reader failed, and `Write` if a call of the writer failed: the output notes that, so pass one
/// that notes none. `Memory` if memory was refused: the silo may have stopped. `TooMuch` at more than 1,073,741,824
/// lines, or if one more call of the reader than that would be needed.
pub fn answer_lines<R: Read, W: Write, S: GrainStorage, L: GrainLogic>(
    alloc: Global,
    input: &mut Input<R>,
    output: &mut Output<W>,
    silo: &mut AnsweringSilo<S, L>,
    most: u64,
) -> Result<u64, LineFault>
    requires { silo.old.stopped ≡ false }
    ensures ok { IfOk result (λ n. IfSome (left_of input.old.lines (R.remaining input.old.reader)) (λ bytes.
        AnswersOn silo.old.keeps L.logic most bytes n silo.old.history silo.new.history (R.remaining input.new.reader)
        (W.contents output.old.writer) (W.contents output.new.writer))) }
    ensures err { IfErr result (λ e. IfSome (left_of input.old.lines (R.remaining input.old.reader)) (λ bytes.
        StopsOn silo.old.keeps L.logic most bytes input.new.lines (R.remaining input.new.reader) output.new.calls
        silo.old.history silo.new.history (W.contents output.old.writer) (W.contents output.new.writer) e)) }
    ensures ready { OnOk result (silo.new.stopped ≡ false) }
    ensures stopped { IfErr result (λ e. MayStop e silo.new.stopped) }
    ensures setup { OnOk result (silo.old.keeps ≡ true → silo.new.history.setup ≡ silo.old.history.setup) }
    ensures kept { IfErr result (λ e. silo.old.keeps ≡ true → KeepsSetup e silo.old.history silo.new.history) }
    ensures bound { IfOk result (λ n. n ≤ answered_limit) }
    ensures unfailed { OnOk result (output.new.calls.failed ≡ output.old.calls.failed) }

    // What was written goes out: all of it at the end, and before the read that failed or that would be one too many.
    ensures out { OnOk result (output.new.calls.held ≡ false) }
    ensures waits { IfErr result (λ e. e ≢ LineFault.Memory → e ≢ LineFault.Write → output.new.calls.held ≡ false) }
{
    // For the proof: where the silo's journal leads.
    let _ = silo.journal();
    let mut bump = Bump::new(alloc);
    let mut scratch = LineScratch::new(alloc);
    let mut text = String::new(alloc);
    for count in 0..ANSWERED_LIMIT {
        if !input.lines.next_flushed(&mut input.reader, output)? {
            return Ok(count);
        }
        write_answer(
            alloc,
            &mut bump,
            &mut scratch,
            output,
            silo,
            most,
            input.lines.line(),
            &mut text,
        )?;
        silo.note(alloc, input.lines.line().len());
    }
    output.flush()?;
    if input.lines.fill(&mut input.reader)? {
        return Err(LineFault::TooMuch);
    }
    Ok(ANSWERED_LIMIT)
}
