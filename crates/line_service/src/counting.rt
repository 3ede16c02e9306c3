//! How many lines, answers, refusals by code and steps there are.

ghost use Rattle.std.specs.Prelude.{◌≡◌, ◌≤◌, ◌++◌, ℕ, IfOk, OnOk, codes, decimal, length, string_bytes};
ghost use Rattle.silo_event.specs.Fault.{fault_code};
ghost use Rattle.line_text.specs.Text.{fault_of};
ghost use Rattle.line_service.specs.Counts.{all_codes, code_of, codes_of, count_line, count_of, counts_text, refusals_line, refusals_lines};

use itoa::Buffer;
use line_parser::LineRefusal;
use silo_event::{Fault, Reply};
use std::alloc::{AllocError, Global};

/// Adds a part of a text.
pub fn push(text: &mut String, part: &str) -> Result<(), AllocError>
    ensures { OnOk result (string_bytes text.new ≡ string_bytes text.old ++ part.now) }
{
    text.push_str(part)
}

/// Adds a number.
pub fn push_number(text: &mut String, number: usize) -> Result<(), AllocError>
    ensures { OnOk result (string_bytes text.new ≡ string_bytes text.old ++ decimal number) }
{
    let mut digits = Buffer::new();
    push(text, digits.format(number))?;
    Ok(())
}

/// The error code of a refused line.
fn code_of_refusal(refusal: LineRefusal) -> u8
    ensures { result ≡ fault_code (fault_of refusal) }
{
    match refusal {
        LineRefusal::NotARequest => 10,
        LineRefusal::TooLong => 11,
    }
}

/// The code of a reply: 0 if it is an answer.
fn code_of(reply: &Reply) -> u8
    ensures { result ≡ code_of reply.now.outcome }
{
    match &reply.outcome {
        Ok(_) => 0,
        Err(fault) => fault.code(),
    }
}

/// The code of each refusal of a line, and of each reply.
fn codes_of(
    alloc: Global,
    refusals: &[LineRefusal],
    replies: &[Reply],
) -> Result<Vec<u8>, AllocError>
    ensures { IfOk result (λ list. list.items ≡ codes_of refusals.now replies.now) }
{
    let mut list = Vec::new(alloc);
    'refusals: for refusal in refusals {
        list.push(code_of_refusal(*refusal))?;
    }
    'replies: for reply in replies {
        list.push(code_of(reply))?;
    }
    Ok(list)
}

/// How often the code is in the list.
fn count_of(list: &[u8], code: u8) -> usize
    ensures { result ≡ count_of code list.now }
{
    let mut count = 0;
    'codes: for at in 0..list.len() {
        if list[at] == code {
            count += 1;
        }
    }
    count
}

/// Adds how many there are of what the label says.
fn push_count(text: &mut String, label: &str, count: usize) -> Result<(), AllocError>
    ensures { OnOk result (string_bytes text.new ≡ string_bytes text.old ++ count_line label.now count) }
{
    push(text, "silo: ")?;
    push(text, label)?;
    push(text, ": ")?;
    push_number(text, count)?;
    push(text, "\n")?;
    Ok(())
}

/// Adds how many refusals have this code, if some have it.
fn push_refusals(text: &mut String, code: u8, count: usize) -> Result<(), AllocError>
    ensures { OnOk result (string_bytes text.new ≡ string_bytes text.old ++ refusals_line code count) }
{
    if count == 0 {
        return Ok(());
    }
    push(text, "silo: refusals ")?;
    push_number(text, usize::from(code))?;
    push(text, ": ")?;
    push_number(text, count)?;
    push(text, "\n")?;
    Ok(())
}

/// Adds how many refusals have each of these codes.
fn push_all_refusals(text: &mut String, list: &[u8], all: &[u8]) -> Result<(), AllocError>
    ensures { OnOk result (string_bytes text.new ≡ string_bytes text.old ++ refusals_lines list.now all.now) }
{
    'codes: for code in all {
        push_refusals(text, *code, count_of(list, *code))?;
    }
    Ok(())
}

/// Adds how many refusals have each code.
#[tactic(auto, unfolding(crate::specs::Counts::all_codes))]
fn push_codes(text: &mut String, list: &[u8]) -> Result<(), AllocError>
    ensures { OnOk result (string_bytes text.new ≡ string_bytes text.old ++ refusals_lines list.now all_codes) }
{
    push_all_refusals(
        text,
        list,
        &[
            10, 11, 12, 13, 14, 20, 21, 22, 40, 41, 42, 43, 53, 54, 56, 60, 61, 62, 63, 70,
        ],
    )
}

/// Adds how many lines, answers, refusals by code and steps there are, by the list of codes.
fn push_counted(
    text: &mut String,
    lines: usize,
    list: &[u8],
    steps: usize,
) -> Result<(), AllocError>
    ensures { OnOk result (string_bytes text.new ≡ string_bytes text.old ++ counts_text lines list.now steps) }
{
    push_count(text, "lines", lines)?;
    push_count(text, "answers", count_of(list, 0))?;
    push_codes(text, list)?;
    push_count(text, "steps", steps)?;
    Ok(())
}

/// Adds how many lines, answers, refusals by code and steps there are.
pub fn push_counts(
    alloc: Global,
    text: &mut String,
    lines: usize,
    refusals: &[LineRefusal],
    replies: &[Reply],
    steps: usize,
) -> Result<(), AllocError>
    ensures { OnOk result (string_bytes text.new ≡ string_bytes text.old
        ++ counts_text lines (codes_of refusals.now replies.now) steps) }
{
    let list = codes_of(alloc, refusals, replies)?;
    push_counted(text, lines, list.as_slice(), steps)
}
