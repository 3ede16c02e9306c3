//! What is written for lanes that were served.

ghost use Rattle.std.specs.Prelude.{◌≡◌, ◌++◌, false, true, IfErr, OnOk, string_bytes, flat_map, map as map_list};
ghost use Rattle.std.specs.Io.KnownBytes.{Appends};
ghost use Rattle.std.specs.BTreeMap.{values};
ghost use Rattle.std.specs.FinMap as finite;
ghost use Rattle.line_text.specs.LineTexts.{joined};
ghost use Rattle.line_text.specs.declared.fault.LineFault.TheVariants as line;
ghost use Rattle.line_service.specs.ServedText.{StopsWriting, replies_by_grain, replies_lines, served_lines, served_text};
ghost use Rattle.line_service.specs.inside.Told.{replies_at};
ghost use Rattle.line_service.specs.inside.Written.{LineStops};

use crate::told::{ToldByGrain, told_by_grain};
use line_parser::LineRefusal;
use line_text::{LineFault, Output, push_refusal, push_reply};
use silo_event::Reply;
use std::alloc::{AllocError, Global};
use std::io::Write;

/// What has a line of its own.
pub(crate) trait OneLine {
    ghost use Rattle.std.specs.Prelude.{◌≡◌, ◌++◌, List, ℕ, OnOk, string_bytes};

    /// Its line, with LF.
    ghost line: { Self → List ℕ };

    /// Adds the line. After an `Err` the text may hold a part of it.
    fn push(&self, alloc: Global, text: &mut String) -> Result<(), AllocError>
        ensures { OnOk result (string_bytes text.new ≡ string_bytes text.old ++ line self.now) };
}

impl OneLine for LineRefusal {
    ghost use Rattle.line_service.specs.ServedText.{line_of_refusal};

    ghost line = { line_of_refusal };

    fn push(&self, alloc: Global, text: &mut String) -> Result<(), AllocError> {
        push_refusal(alloc, text, *self)?;
        text.push_str("\n")
    }
}

impl OneLine for Reply {
    ghost use Rattle.line_service.specs.ServedText.{line_of_reply};

    ghost line = { line_of_reply };

    fn push(&self, alloc: Global, text: &mut String) -> Result<(), AllocError> {
        push_reply(alloc, text, self)?;
        text.push_str("\n")
    }
}

impl OneLine for &Reply {
    ghost use Rattle.line_service.specs.ServedText.{line_of_reply};

    ghost line = { λ r. line_of_reply r.now };

    fn push(&self, alloc: Global, text: &mut String) -> Result<(), AllocError> {
        push_reply(alloc, text, *self)?;
        text.push_str("\n")
    }
}

/// Writes one line.
fn write_line<T: OneLine, W: Write>(
    alloc: Global,
    text: &mut String,
    one: &T,
    output: &mut Output<W>,
) -> Result<(), LineFault>
    ensures written { OnOk result (Appends (W.contents output.old.writer) (W.contents output.new.writer) (T.line one.now)) }
    ensures stopped { IfErr result (λ why. LineStops why (T.line one.now) (W.contents output.old.writer) (W.contents output.new.writer)) }
    ensures cause { IfErr result (λ why. why ≡ line.Write → output.new.calls.failed ≡ true) }
    ensures unfailed { OnOk result (output.new.calls.failed ≡ output.old.calls.failed) }
{
    text.clear();
    one.push(alloc, text)?;
    output.write_whole(text.as_str().as_bytes())
}

/// Writes a line for each.
fn write_lines<T: OneLine, W: Write>(
    alloc: Global,
    text: &mut String,
    all: &[T],
    output: &mut Output<W>,
) -> Result<(), LineFault>
    ensures written { OnOk result (Appends (W.contents output.old.writer) (W.contents output.new.writer)
        (joined (map_list T.line all.now))) }
    ensures stopped { IfErr result (λ why. StopsWriting why (map_list T.line all.now)
        (W.contents output.old.writer) (W.contents output.new.writer)) }
    ensures cause { IfErr result (λ why. why ≡ line.Write → output.new.calls.failed ≡ true) }
    ensures unfailed { OnOk result (output.new.calls.failed ≡ output.old.calls.failed) }
{
    let mut rest = all;
    'lines: while let Some((one, others)) = rest.split_first() {
        write_line(alloc, text, one, output)?;
        rest = others;
    }
    Ok(())
}

/// Writes the lines of each lane's replies.
fn write_answers<W: Write>(
    alloc: Global,
    text: &mut String,
    answers: &[Vec<Reply>],
    output: &mut Output<W>,
) -> Result<(), LineFault>
    ensures written { OnOk result (Appends (W.contents output.old.writer) (W.contents output.new.writer)
        (joined (replies_lines (map_list (λ v. v.items) answers.now)))) }
    ensures stopped { IfErr result (λ why. StopsWriting why (replies_lines (map_list (λ v. v.items) answers.now))
        (W.contents output.old.writer) (W.contents output.new.writer)) }
    ensures cause { IfErr result (λ why. why ≡ line.Write → output.new.calls.failed ≡ true) }
    ensures unfailed { OnOk result (output.new.calls.failed ≡ output.old.calls.failed) }
{
    let mut rest = answers;
    'lanes: while let Some((replies, others)) = rest.split_first() {
        write_lines(alloc, text, replies.as_slice(), output)?;
        rest = others;
    }
    Ok(())
}

/// Writes the lines of the replies to each grain.
fn write_each<W: Write>(
    alloc: Global,
    text: &mut String,
    told: ToldByGrain<'_>,
    output: &mut Output<W>,
) -> Result<(), LineFault>
    ensures written { OnOk result (Appends (W.contents output.old.writer) (W.contents output.new.writer)
        (joined (replies_lines (map_list replies_at (values told.entry))))) }
    ensures stopped { IfErr result (λ why. StopsWriting why (replies_lines (map_list replies_at (values told.entry)))
        (W.contents output.old.writer) (W.contents output.new.writer)) }
    ensures cause { IfErr result (λ why. why ≡ line.Write → output.new.calls.failed ≡ true) }
    ensures unfailed { OnOk result (output.new.calls.failed ≡ output.old.calls.failed) }
{
    let mut left = told;
    'grains: while let Some((_, replies)) = left.pop_first() {
        write_lines(alloc, text, replies.as_slice(), output)?;
    }
    Ok(())
}

/// Writes the replies to grains: grains ascending, the replies to each in order.
fn write_told<W: Write>(
    alloc: Global,
    text: &mut String,
    replies: &[Reply],
    output: &mut Output<W>,
) -> Result<(), LineFault>
    ensures written { OnOk result (Appends (W.contents output.old.writer) (W.contents output.new.writer)
        (joined (replies_lines (finite.values (replies_by_grain replies.now))))) }
    ensures stopped { IfErr result (λ why. StopsWriting why (replies_lines (finite.values (replies_by_grain replies.now)))
        (W.contents output.old.writer) (W.contents output.new.writer)) }
    ensures cause { IfErr result (λ why. why ≡ line.Write → output.new.calls.failed ≡ true) }
    ensures unfailed { OnOk result (output.new.calls.failed ≡ output.old.calls.failed) }
{
    let told = told_by_grain(alloc, replies)?;
    write_each(alloc, text, told, output)
}

/// Writes the lines: of the refusals; of each lane's replies; and of the replies to grains.
fn write_parts<W: Write>(
    alloc: Global,
    refusals: &[LineRefusal],
    answers: &[Vec<Reply>],
    replies: &[Reply],
    output: &mut Output<W>,
) -> Result<(), LineFault>
    ensures written { OnOk result (Appends (W.contents output.old.writer) (W.contents output.new.writer)
        (served_text refusals.now (map_list (λ v. v.items) answers.now) replies.now)) }
    ensures stopped { IfErr result (λ why. StopsWriting why
        (served_lines refusals.now (map_list (λ v. v.items) answers.now) replies.now)
        (W.contents output.old.writer) (W.contents output.new.writer)) }
    ensures cause { IfErr result (λ why. why ≡ line.Write → output.new.calls.failed ≡ true) }
    ensures unfailed { OnOk result (output.new.calls.failed ≡ output.old.calls.failed) }
{
    let mut text = String::new(alloc);
    write_lines(alloc, &mut text, refusals, output)?;
    write_answers(alloc, &mut text, answers, output)?;
    write_told(alloc, &mut text, replies, output)
}

/// Writes what was served, line by line: a line for each refusal, in the order of their lines; then the
/// replies of each lane, lanes in order; then the replies to grains, by grain ascending, in the order of
/// kind, tenant and name. What was written goes out. Takes memory for the longest line, and once the lanes'
/// replies are written for each reply to a grain: not for the text.
///
/// # Errors
///
/// `Memory`: the lines before the one that was being made were written, if the writer let them out. `Write` if a call of
/// the writer failed: a part of the text was written, or all of it. The output notes that a call failed, so pass one that
/// notes none.
pub fn write_outcome<W: Write>(
    alloc: Global,
    refusals: &[LineRefusal],
    answers: &[Vec<Reply>],
    replies: &[Reply],
    output: &mut Output<W>,
) -> Result<(), LineFault>
    ensures written { OnOk result (Appends (W.contents output.old.writer) (W.contents output.new.writer)
        (served_text refusals.now (map_list (λ v. v.items) answers.now) replies.now)) }

    // Where memory was refused, the lines before the one that was being made were written whole.
    ensures stopped { IfErr result (λ why. StopsWriting why
        (served_lines refusals.now (map_list (λ v. v.items) answers.now) replies.now)
        (W.contents output.old.writer) (W.contents output.new.writer)) }
    ensures cause { IfErr result (λ why. why ≡ line.Write → output.new.calls.failed ≡ true) }
    ensures unfailed { OnOk result (output.new.calls.failed ≡ output.old.calls.failed) }
    ensures out { OnOk result (output.new.calls.held ≡ false) }
{
    match write_parts(alloc, refusals, answers, replies, output) {
        Ok(()) => output.flush(),
        Err(LineFault::Memory) => {
            // What was written goes out, if it can.
            let _ = output.flush();
            Err(LineFault::Memory)
        }
        Err(why) => Err(why),
    }
}
