//! Whole journals, read.

ghost use Rattle.std.specs.Prelude.{◌≡◌, ◌↔◌, ℕ, ◌++◌, ◌∷◌, ◌+◌, ◌^◌, ◌<◌};
ghost use Rattle.std.specs.Prelude.{IfOk, IfSome, IsTrue, None, Ok as ok, false, length, option_map, slice_index, take};
ghost use Rattle.journal_text.specs.declared.line.Line.TheVariants as lines;
ghost use Rattle.journal_text.specs.JournalAnswers.{NamesKinds, ReadsJournal};
ghost use Rattle.journal_text.specs.inside.Answers.{HasNoBreak, CutsLine, BeginsWithLine, BeginsWithHead};
ghost use Rattle.journal_text.specs.inside.Answers.{AreKinds, BeginsWithAge, BeginsWithKinds, TakesKinds};
ghost use Rattle.journal_text.specs.inside.Answers.{ReadsStart, ReadsRest, start_of};
ghost use Rattle.journal_text.specs.Form.{tells_kinds};
ghost use Rattle.journal_text.specs.Text.{line_text, lines_text, start_lines};
ghost use Rattle.tenant_gate.specs.Age.{IsAge};
ghost use Rattle.journal_text.specs.inside.Draft.{lines_so_far, IsDraft};

use crate::draft::Draft;
use crate::fault::{JournalFault, LineFault};
use crate::form::Form;
use crate::journal::Journal;
use crate::line::Line;
use crate::line_reader::{LineScratch, parse_line};
use memchr::memchr;
use std::alloc::{AllocError, Global};
use tenant_gate::Age;

/// The place of the first LF.
fn break_at(bytes: &[u8]) -> Option<usize>
    ensures none { result ≡ None → HasNoBreak bytes.now }
    ensures some { IfSome result (λ at. (at < length bytes.now) × HasNoBreak (take at bytes.now) × (slice_index bytes.now at ≡ 10)) }
{
    memchr(b'\n', bytes)
}

/// The text before the first LF, and the bytes after that LF, if there is one and the bytes before it are UTF-8.
fn cut_line(bytes: &[u8]) -> Option<(&str, &[u8])>
    ensures { CutsLine bytes.now (option_map (λ cut. (cut.0.now, cut.1.now)) result) }
{
    let Some(at) = break_at(bytes) else {
        return None;
    };
    match str::from_utf8(&bytes[..at]) {
        Ok(text) => Some((text, &bytes[at + 1..])),
        Err(_) => None,
    }
}

/// The line that the bytes begin with, and the bytes after its LF, if they begin with a whole line.
fn next_line<'a>(
    alloc: Global,
    form: Form,
    scratch: &mut LineScratch,
    bytes: &'a [u8],
) -> Result<Option<(Line, &'a [u8])>, AllocError>
    ensures { IfOk result (λ found. BeginsWithLine form bytes.now (option_map (λ next. (next.0, next.1.now)) found)) }
{
    let Some((text, behind)) = cut_line(bytes) else {
        return Ok(None);
    };
    match parse_line(alloc, form, scratch, text) {
        Ok(line) => Ok(Some((line, behind))),
        Err(LineFault::NoForm) => Ok(None),
        Err(LineFault::Memory) => Err(AllocError),
    }
}

/// The number of a logic's line.
fn kinds_of(line: &Line) -> Option<u8>
    ensures some { IfSome result (λ kinds. line.now ≡ lines.Kinds kinds) }
    ensures none { result ≡ None → (kinds : ℕ) → line.now ≡ lines.Kinds kinds → ⊥ }
{
    match line {
        Line::Kinds(kinds) => Some(*kinds),
        _ => None,
    }
}

/// The age of an age's line.
fn age_of(line: &Line) -> Option<Age>
    ensures some { IfSome result (λ age. line.now ≡ lines.Age age) }
    ensures none { result ≡ None → (age : ℕ) → line.now ≡ lines.Age age → ⊥ }
{
    match line {
        Line::Age(age) => Some(*age),
        _ => None,
    }
}

/// The form that the head names, and what follows the head, if the bytes begin with one.
fn next_head(bytes: &[u8]) -> Option<(Form, &[u8])>
    ensures { BeginsWithHead bytes.now (option_map (λ next. (next.0, next.1.now)) result) }
{
    let Some((text, behind)) = cut_line(bytes) else {
        return None;
    };
    match Form::of_head(text) {
        Some(form) => Some((form, behind)),
        None => None,
    }
}

/// The number of a logic, and what follows its line, if the bytes begin with such a line.
fn next_kinds_line<'a>(
    alloc: Global,
    form: Form,
    scratch: &mut LineScratch,
    bytes: &'a [u8],
) -> Result<Option<(u8, &'a [u8])>, AllocError>
    requires { IsTrue (tells_kinds form) }
    ensures { IfOk result (λ found. BeginsWithKinds form bytes.now (option_map (λ next. (next.0, next.1.now)) found)) }
{
    let Some((line, behind)) = next_line(alloc, form, scratch, bytes)? else {
        return Ok(None);
    };
    let kinds = kinds_of(&line);
    drop(line);
    match kinds {
        Some(kinds) => Ok(Some((kinds, behind))),
        None => Ok(None),
    }
}

/// Which logic the kinds have, and what follows the line that says so, if the bytes begin with one. In a form without
/// such a line it is logic 1, and all of the bytes follow.
fn next_kinds<'a>(
    alloc: Global,
    form: Form,
    scratch: &mut LineScratch,
    bytes: &'a [u8],
) -> Result<Option<(u8, &'a [u8])>, AllocError>
    ensures { IfOk result (λ found. TakesKinds form bytes.now (option_map (λ next. (next.0, next.1.now)) found)) }
{
    if form.tells_kinds() {
        next_kinds_line(alloc, form, scratch, bytes)
    } else {
        Ok(Some((1, bytes)))
    }
}

/// The version of the logic that a journal names which begins as these bytes do: there is one if they begin with the head of
/// a form whose journals name it, and with the line that does. The lines after these aren't read.
///
/// # Errors
///
/// Out of memory.
pub fn named_kinds(alloc: Global, bytes: &[u8]) -> Result<Option<u8>, AllocError>
    ensures some { IfOk result (λ found. IfSome found (λ kinds. NamesKinds bytes.now kinds)) }
    ensures none { result ≡ ok None → (kinds : ℕ) → NamesKinds bytes.now kinds → ⊥ }
{
    let Some((form, rest)) = next_head(bytes) else {
        return Ok(None);
    };
    if !form.tells_kinds() {
        return Ok(None);
    }
    let mut scratch = LineScratch::new(alloc);
    match next_kinds_line(alloc, form, &mut scratch, rest)? {
        Some((kinds, _behind)) => Ok(Some(kinds)),
        None => Ok(None),
    }
}

/// The age, and what follows its line, if the bytes begin with such a line.
fn next_age<'a>(
    alloc: Global,
    form: Form,
    scratch: &mut LineScratch,
    bytes: &'a [u8],
) -> Result<Option<(Age, &'a [u8])>, AllocError>
    ensures { IfOk result (λ found. BeginsWithAge form bytes.now (option_map (λ next. (next.0, next.1.now)) found)) }
{
    let Some((line, behind)) = next_line(alloc, form, scratch, bytes)? else {
        return Ok(None);
    };
    let age = age_of(&line);
    drop(line);
    match age {
        Some(age) => Ok(Some((age, behind))),
        None => Ok(None),
    }
}

/// What the first lines say, and the bytes after them.
#[derive(Clone, Copy)]
struct Start<'a> {
    form: Form,
    kinds: u8,
    age: Age,
    behind: &'a [u8],
}

/// The form, the number of the logic, the age, and the bytes after the first lines.
fn read_start<'a>(
    alloc: Global,
    scratch: &mut LineScratch,
    bytes: &'a [u8],
) -> Result<Start<'a>, JournalFault>
    ensures { ReadsStart (λ start. start_of start.form start.kinds start.age start.behind.now) bytes.now result }
{
    let Some((form, rest)) = next_head(bytes) else {
        return Err(JournalFault::At { line: 1 });
    };
    match next_kinds(alloc, form, scratch, rest) {
        Ok(Some((kinds, rest))) => match next_age(alloc, form, scratch, rest) {
            Ok(Some((age, behind))) => Ok(Start {
                form,
                kinds,
                age,
                behind,
            }),
            Ok(None) => {
                let line = form.age_line();
                Err(JournalFault::At { line })
            }
            Err(_) => Err(JournalFault::Memory),
        },
        Ok(None) => Err(JournalFault::At { line: 2 }),
        Err(_) => Err(JournalFault::Memory),
    }
}

/// The journal of a draft, if its last line, which is line `number`, may come there and nothing follows it.
fn closed(
    alloc: Global,
    form: Form,
    draft: Draft,
    steps: u64,
    behind: &[u8],
    number: usize,
) -> Result<Journal, JournalFault>
    requires is_line { steps < 2 ^ 64 }
    requires is_draft { IsDraft form draft }
    requires counted { number ≡ length (lines_so_far form draft) + 1 }
    requires room { number + 1 < 2 ^ 64 }
    ensures { ReadsRest form (lines_text form (lines_so_far form draft) ++ (line_text form (lines.Close steps) ++ 10 ∷ behind.now)) result }
{
    if !draft.close_fits(steps) {
        return Err(JournalFault::At { line: number });
    }
    if !behind.is_empty() {
        return Err(JournalFault::At { line: number + 1 });
    }
    Ok(draft.finish(alloc)?)
}

/// The journal whose lines after the first ones are in `bytes`.
fn read_parts(
    alloc: Global,
    form: Form,
    scratch: &mut LineScratch,
    kinds: u8,
    age: Age,
    bytes: &[u8],
) -> Result<Journal, JournalFault>
    requires are_kinds { AreKinds form kinds }
    requires is_age { IsAge age }
    ensures { ReadsRest form (lines_text form (start_lines form kinds age) ++ bytes.now) result }
{
    let mut draft = Draft::new(alloc, kinds, age);
    let mut rest = bytes;
    let mut number = form.age_line() + 1;
    'lines: loop {
        let Some((line, behind)) = next_line(alloc, form, scratch, rest)? else {
            return Err(JournalFault::At { line: number });
        };
        match line {
            Line::Close(steps) => return closed(alloc, form, draft, steps, behind, number),
            line => {
                if !draft.add(line)? {
                    return Err(JournalFault::At { line: number });
                }
            }
        }
        rest = behind;
        number += 1;
    }
}

/// The journal whose text these bytes are, in any form; messages of the form before become messages of now.
/// Takes time that grows with the number of the bytes.
///
/// # Errors
///
/// `At` with the first line that fits no form in its place, counted from 1, or with one past the
/// last line if the end is missing. `Memory` if memory is refused.
pub fn read_journal(alloc: Global, bytes: &[u8]) -> Result<Journal, JournalFault>
    ensures { ReadsJournal bytes.now result }
{
    let mut scratch = LineScratch::new(alloc);
    match read_start(alloc, &mut scratch, bytes) {
        Ok(start) => read_parts(
            alloc,
            start.form,
            &mut scratch,
            start.kinds,
            start.age,
            start.behind,
        ),
        Err(fault) => Err(fault),
    }
}
