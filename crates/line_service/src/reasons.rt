//! Which lines of an input made no step, and why.

ghost use Rattle.std.specs.Prelude.{◌≡◌, ◌++◌, OnOk, option_map, decimal, string_bytes};
ghost use Rattle.line_service.specs.Reasons.{reason_line, reason_of, reasons_behind};

use crate::counting::{push, push_number};
use crate::giver::is_given;
use line_parser::{Line, LineRefusal};
use std::alloc::AllocError;

/// Why a line made no step, if it made none and has bytes.
fn reason_of(line: &Line) -> Option<&'static str>
    ensures { option_map (λ reason. reason.now) result ≡ reason_of line.now }
{
    match line {
        Line::Nothing => None,
        Line::Refusal(LineRefusal::TooLong) => Some("line is too long"),
        Line::Refusal(LineRefusal::NotARequest) => Some("line is not a request"),
        Line::Step(step) => {
            if is_given(step) {
                return None;
            }
            Some("step is not one of silo serve")
        }
    }
}

/// Adds why the line of this number made no step.
fn push_reason(text: &mut String, number: usize, line: &Line) -> Result<(), AllocError>
    ensures { OnOk result (string_bytes text.new ≡ string_bytes text.old ++ reason_line number (reason_of line.now)) }
{
    let Some(reason) = reason_of(line) else {
        return Ok(());
    };
    push(text, "silo: line ")?;
    push_number(text, number)?;
    push(text, ": ")?;
    push(text, reason)?;
    push(text, "\n")?;
    Ok(())
}

/// Adds which lines made no step, and why, each by its number from 1.
pub fn push_reasons(text: &mut String, lines: &[Line]) -> Result<(), AllocError>
    ensures { OnOk result (string_bytes text.new ≡ string_bytes text.old ++ reasons_behind 0 lines.now) }
{
    'lines: for at in 0..lines.len() {
        push_reason(text, at + 1, &lines[at])?;
    }
    Ok(())
}
