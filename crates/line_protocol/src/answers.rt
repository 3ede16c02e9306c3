//! What one line leaves in the silo, and its text.

ghost use Rattle.std.specs.Prelude.{OnOk, OnErr, string_bytes};
ghost use Rattle.line_parser.specs.Meaning.{meaning_of};
ghost use Rattle.line_protocol.specs.LineRuns.{AnswersLine, MayTake};
ghost use Rattle.line_parser.specs.declared.line.Line.TheVariants as line;

use bumpalo::Bump;
use grain_logic::GrainLogic;
use grain_storage::GrainStorage;
use line_parser::{Line, LineScratch, read_line};
use line_text::{push_not_now, push_refusal, push_replies};
use silo_core::Silo;
use silo_event::{Answer, Step, StepFault};
use std::alloc::{AllocError, Global};

/// Makes the arena free for the next turn, if the last ones took more than half of its chunk.
fn make_free(bump: &mut Bump) {
    if bump.chunk_capacity() < bump.allocated_bytes() / 2 {
        // It fails only while a block of it is out as an `Allocator`, and no turn leaves one. Then it would only grow.
        drop(bump.reset());
    }
}

/// Takes a step, and puts its text in place of another: the replies that it added, or that it isn't
/// possible now. A turn runs in the arena.
fn answer_step<S: GrainStorage, L: GrainLogic>(
    alloc: Global,
    bump: &mut Bump,
    silo: &mut Silo<S, L>,
    step: Step,
    text: &mut String,
) -> Result<(), AllocError>
    ensures ok { OnOk result (AnswersLine L.logic silo.old (line.Step step) silo.new (string_bytes text.new)) }
    ensures err { OnErr result (MayTake L.logic silo.old (line.Step step) silo.new) }
{
    text.clear();
    let before = silo.replies().len();
    make_free(bump);
    match silo.apply_in(alloc, bump, step) {
        Ok(Answer::Done) => push_replies(alloc, text, &silo.replies()[before..]),
        Ok(Answer::Failed) => push_replies(alloc, text, &silo.replies()[before..]),
        Ok(Answer::NotNow) => {
            push_not_now(text)?;
            text.push_str("\n")
        }
        Err(StepFault::Memory) => Err(AllocError),
        Err(StepFault::Stranger) => unreachable!(),
    }
}

/// Takes what a line says, and puts its text in place of another.
pub(crate) fn answer_line<S: GrainStorage, L: GrainLogic>(
    alloc: Global,
    bump: &mut Bump,
    scratch: &mut LineScratch,
    silo: &mut Silo<S, L>,
    line: &[u8],
    text: &mut String,
) -> Result<(), AllocError>
    ensures ok { OnOk result (AnswersLine L.logic silo.old (meaning_of line.now) silo.new (string_bytes text.new)) }
    ensures err { OnErr result (MayTake L.logic silo.old (meaning_of line.now) silo.new) }
{
    match read_line(alloc, scratch, line)? {
        Line::Nothing => {
            text.clear();
            Ok(())
        }
        Line::Refusal(refusal) => {
            text.clear();
            push_refusal(alloc, text, refusal)?;
            text.push_str("\n")
        }
        Line::Step(step) => answer_step(alloc, bump, silo, step, text),
    }
}
