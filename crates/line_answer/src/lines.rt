//! What one line leaves in the silo, and its text.

ghost use Rattle.std.specs.Prelude.{◌≡◌, ◌++◌, ◌≤◌, false, IfOk, OnOk, drop, length, string_bytes};
ghost use Rattle.line_text.specs.LineTexts.{ended, texts_of};
ghost use Rattle.line_text.specs.Text.{refusal_line};
ghost use Rattle.line_parser.specs.Meaning.{meaning_of};
ghost use Rattle.line_parser.specs.declared.line.Line.TheVariants as line;
ghost use Rattle.line_answer.specs.Runs.{AnswersLineBy};

use crate::answering::AnsweringSilo;
use crate::bringing::is_asked;
use bumpalo::Bump;
use grain_logic::GrainLogic;
use grain_storage::GrainStorage;
use line_parser::{Line, LineRefusal, LineScratch, read_line};
use line_text::{push_not_now, push_refusal, push_replies};
use silo_event::{Reply, Step};
use std::alloc::{AllocError, Global};

/// Adds the line of a refusal, with its LF.
fn refuse(alloc: Global, text: &mut String, refusal: LineRefusal) -> Result<(), AllocError>
    ensures { OnOk result (string_bytes text.new ≡ string_bytes text.old ++ ended (refusal_line refusal)) }
{
    push_refusal(alloc, text, refusal)?;
    text.push_str("\n")
}

/// Adds the lines of the replies after the first `before` ones.
fn push_new(
    alloc: Global,
    text: &mut String,
    replies: &[Reply],
    before: usize,
) -> Result<(), AllocError>
    requires { before ≤ length replies.now }
    ensures { OnOk result (string_bytes text.new ≡ string_bytes text.old ++ texts_of (drop before replies.now)) }
{
    let (_, new) = replies.split_at(before);
    push_replies(alloc, text, new)
}

/// Answers a step that a line says, and puts its text in place of another: the replies that it added, or that it isn't
/// possible now. A step that is no client's to ask is refused as no request. Returns whether there was memory to close its turns.
#[tactic(auto, using(crate::proofs::Asked::asked_line))]
fn answer_said<S: GrainStorage, L: GrainLogic>(
    alloc: Global,
    bump: &mut Bump,
    silo: &mut AnsweringSilo<S, L>,
    step: Step,
    most: u64,
    text: &mut String,
) -> Result<bool, AllocError>
    requires { silo.old.stopped ≡ false }
    ensures ok { IfOk result (λ memory. AnswersLineBy L.logic most silo.old.history (line.Step step) memory silo.new.history
        (string_bytes text.new)) }
    ensures ready { OnOk result (silo.new.stopped ≡ false) }
    ensures keeps { silo.new.keeps ≡ silo.old.keeps }
{
    text.clear();

    // For the proof: what is asked nothing is as idle as it was.
    let _ = silo.journal();
    if !is_asked(&step) {
        drop(step);
        refuse(alloc, text, LineRefusal::NotARequest)?;
        return Ok(true);
    }
    let before = silo.replies().len();
    let taken = silo.answer_in(alloc, bump, step, most)?;
    if taken.done {
        push_new(alloc, text, silo.replies(), before)?;
        return Ok(taken.memory);
    }
    push_not_now(text)?;
    text.push_str("\n")?;
    Ok(taken.memory)
}

/// Answers what a line says, and puts its text in place of another. Turns run in the arena. Returns whether there was memory to close
/// them: a turn for which there is none is abandoned.
///
/// # Errors
///
/// Out of memory: the silo may have stopped.
#[tactic(auto, using(crate::proofs::Asked::nothing_asked))]
pub fn answer_line<S: GrainStorage, L: GrainLogic>(
    alloc: Global,
    bump: &mut Bump,
    scratch: &mut LineScratch,
    silo: &mut AnsweringSilo<S, L>,
    most: u64,
    line: &[u8],
    text: &mut String,
) -> Result<bool, AllocError>
    requires { silo.old.stopped ≡ false }
    ensures ok { IfOk result (λ memory. AnswersLineBy L.logic most silo.old.history (meaning_of line.now) memory silo.new.history
        (string_bytes text.new)) }
    ensures ready { OnOk result (silo.new.stopped ≡ false) }
    ensures keeps { silo.new.keeps ≡ silo.old.keeps }
{
    // For the proof: what is asked nothing is as idle as it was.
    let _ = silo.journal();
    match read_line(alloc, scratch, line)? {
        Line::Nothing => {
            text.clear();
            Ok(true)
        }
        Line::Refusal(refusal) => {
            text.clear();
            refuse(alloc, text, refusal)?;
            Ok(true)
        }
        Line::Step(step) => answer_said(alloc, bump, silo, step, most, text),
    }
}
