//! The text of the diagnostics about lines that were served.

ghost use Rattle.std.specs.Prelude.{◌≡◌, ◌++◌, [], if◌then◌else◌, IfOk, length, string_bytes};
ghost use Rattle.serve_command.specs.Telling.{asks_to_tell};
ghost use Rattle.line_service.specs.Counts.{codes_of, counts_text};
ghost use Rattle.line_service.specs.Reasons.{reasons_behind};

use crate::lanes::ServedInput;
use grain_logic::GrainLogic;
use line_parser::Line;
use line_service::{push_counts, push_reasons};
use silo_words::Telling;
use std::alloc::{AllocError, Global};

/// Whether any diagnostics are requested.
pub fn asks_to_tell(telling: Telling) -> bool
    ensures { result ≡ asks_to_tell telling }
{
    telling.explain_lines || telling.summary
}

/// Which of the lines made no step, and why, if that is requested.
pub fn reasons_text(alloc: Global, telling: Telling, lines: &[Line]) -> Result<String, AllocError>
    ensures { IfOk result (λ text. string_bytes text ≡ (if telling.explain_lines then reasons_behind 0 lines.now else [])) }
{
    let mut text = String::new(alloc);
    if telling.explain_lines {
        push_reasons(&mut text, lines)?;
    }
    Ok(text)
}

/// The text, and then how many lines, answers, refusals by code and steps there are, if that is requested.
pub fn with_counts<L: GrainLogic>(
    alloc: Global,
    telling: Telling,
    text: String,
    lines: usize,
    served: &ServedInput<L>,
) -> Result<String, AllocError>
    ensures { IfOk result (λ told. string_bytes told ≡ string_bytes text ++ (if telling.summary
        then counts_text lines (codes_of served.now.refusals.items served.now.report.silo.whole.replies)
        (length served.now.report.silo.journal) else [])) }
{
    let mut told = text;
    if telling.summary {
        let silo = &served.report.silo;
        let refusals = served.refusals.as_slice();
        let steps = silo.journal().len();
        push_counts(alloc, &mut told, lines, refusals, silo.replies(), steps)?;
    }
    Ok(told)
}
