//! What is written for lanes that were served.

ghost use Rattle.std.specs.Prelude.{◌≡◌, false, true, IfErr, OnOk, map as map_list};
ghost use Rattle.std.specs.Io.KnownBytes.{Appends};
ghost use Rattle.line_text.specs.declared.fault.LineFault.TheVariants as line;
ghost use Rattle.line_service.specs.ServedText.{StopsWriting, served_lines, served_text};

use crate::lanes::ServedInput;
use grain_logic::GrainLogic;
use line_service::write_outcome;
use line_text::{LineFault, Output};
use std::alloc::Global;
use std::io::Write;

/// Writes what was served, line by line: a line for each refusal, in the order of their lines; then the
/// replies of each lane, lanes in order; then the replies to grains, by grain ascending, in the order of
/// kind, tenant and name. What was written goes out. Takes memory for the longest line, and once the lanes'
/// replies are written for each reply to a grain: not for the text.
///
/// # Errors
///
/// `Memory`: the lines before the one that was being made were written, if the writer let them out. `Write` if a call of
/// the writer failed: a part of the text was written, or all of it. The output notes that a call failed, so pass one that
/// notes none.
pub fn write_served<L: GrainLogic, W: Write>(
    alloc: Global,
    served: &ServedInput<L>,
    output: &mut Output<W>,
) -> Result<(), LineFault>
    ensures written { OnOk result (Appends (W.contents output.old.writer) (W.contents output.new.writer)
        (served_text served.now.refusals.items (map_list (λ v. v.items) served.now.report.answers.items)
        served.now.report.silo.whole.replies)) }

    // Where memory was refused, the lines before the one that was being made were written whole.
    ensures stopped { IfErr result (λ why. StopsWriting why
        (served_lines served.now.refusals.items (map_list (λ v. v.items) served.now.report.answers.items)
        served.now.report.silo.whole.replies)
        (W.contents output.old.writer) (W.contents output.new.writer)) }
    ensures cause { IfErr result (λ why. why ≡ line.Write → output.new.calls.failed ≡ true) }
    ensures unfailed { OnOk result (output.new.calls.failed ≡ output.old.calls.failed) }
    ensures out { OnOk result (output.new.calls.held ≡ false) }
{
    let report = &served.report;
    write_outcome(
        alloc,
        served.refusals.as_slice(),
        report.answers.as_slice(),
        report.silo.replies(),
        output,
    )
}
