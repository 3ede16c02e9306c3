//! What a line says.

ghost use Rattle.std.specs.Prelude.{◌≡◌, ◌==◌, ◌||◌, drop, IsTrue, IsUtf8, IfSome, IfOk, None, Some, option_map, option_and_then};
ghost use Rattle.json.specs.Word.{head};
ghost use Rattle.serde_json.specs.Read.{read};
ghost use Rattle.serde_json.specs.View.{view};
ghost use Rattle.line_parser.specs.Form.{step_of_json};
ghost use Rattle.line_parser.specs.Meaning.{json_of_line, meaning_by, meaning_of};

use crate::ascii::is_ascii;
use crate::call_members::take_call;
use crate::line::{Line, LineRefusal};
use crate::line_members::{LineMembers, MEMBER_DEPTH, ValueIn, read_members};
use crate::members::members_of_json;
use crate::messages::Messages;
use crate::not_natural::take_not_natural;
use crate::plain::byte_at;
use crate::quick_fault::QuickFault;
use crate::short_line::{members_of_short, short_line};
use crate::step::{call_step_from, step_from, step_of_form};
use grain_id::NameCache;
use json::{Reader, Scratch};
use serde_json::Value;
use silo_event::Step;
use simdutf8::compat::from_utf8;
use std::alloc::{AllocError, Global};

/// The bytes that a line may have, without its LF.
pub const LINE_LIMIT: usize = 65536;

/// The levels to which JSON may nest: 127.
const MOST_LEVELS: usize = MEMBER_DEPTH + 1;

#[tactic(auto, using(crate::proofs::Meaning::json_of_line_none))]
/// The JSON of a line, if it is JSON.
fn read_json(alloc: Global, line: &[u8]) -> Result<Option<Value>, AllocError>
    ensures { IfOk result (λ value. option_map view value ≡ json_of_line line.now) }
{
    match Value::from_slice(alloc, line) {
        Ok(value) => Ok(Some(value)),
        Err(e) if e.is_memory() => Err(AllocError),
        Err(_) => Ok(None),
    }
}

/// What a line says, by the step that it requests.
#[inline(always)]
fn line_of(step: Option<Step>) -> Line
    ensures { result ≡ meaning_by step }
{
    match step {
        Some(step) => Line::Step(step),
        None => Line::Refusal(LineRefusal::NotARequest),
    }
}

/// What is used again from line to line: names and short messages that were read lately, and memory for the parts of a
/// line. What a line says doesn't depend on it.
#[derive(Drop)]
pub struct LineScratch {
    names: NameCache,
    texts: Scratch,
    args: Vec<u8>,
    messages: Messages,
}

impl LineScratch {
    /// No name was read yet. All of it grows to what the lines need.
    pub fn new(alloc: Global) -> LineScratch {
        LineScratch {
            names: NameCache::new(alloc),
            texts: Scratch::new(alloc),
            args: Vec::new(alloc),
            messages: Messages::new(alloc),
        }
    }
}

/// The step that JSON requests.
fn read_step(
    alloc: Global,
    scratch: &mut LineScratch,
    value: &Value,
) -> Result<Option<Step>, AllocError>
    ensures { IfOk result (λ step. step_of_json (view value.now) ≡ step) }
{
    let Some((members, asked)) = members_of_json(value) else {
        return Ok(None);
    };
    step_from(
        alloc,
        &mut scratch.names,
        &mut scratch.messages,
        &members,
        asked,
    )
}

/// The step of a line that has bytes and isn't too long.
fn read_request(
    alloc: Global,
    scratch: &mut LineScratch,
    line: &[u8],
) -> Result<Option<Step>, AllocError>
    ensures { IfOk result (λ step. option_and_then step_of_json (json_of_line line.now) ≡ step) }
{
    let Some(value) = read_json(alloc, line)? else {
        return Ok(None);
    };
    let step = read_step(alloc, scratch, &value);
    drop(value);
    step
}

/// What a line says, by its JSON as `serde_json` reads it: any line. `read_line` says the same, and is
/// mostly faster.
#[cold]
#[inline(never)]
pub fn read_any_line(
    alloc: Global,
    scratch: &mut LineScratch,
    line: &[u8],
) -> Result<Line, AllocError>
    ensures { IfOk result (λ said. said ≡ meaning_of line.now) }
{
    if line.is_empty() {
        return Ok(Line::Nothing);
    }
    if line.len() > LINE_LIMIT {
        return Ok(Line::Refusal(LineRefusal::TooLong));
    }
    let step = read_request(alloc, scratch, line)?;
    Ok(line_of(step))
}

/// The text that the bytes are, if they are UTF-8.
fn text_of(line: &[u8]) -> Option<&str>
    ensures { IfSome result (λ text. (text.now ≡ line.now) × IsUtf8 line.now) }
{
    if is_ascii(line) {
        return Some(unsafe { std::str::from_utf8_unchecked(line) });
    }
    from_utf8(line).ok()
}

/// The step of a line, if it requests one, in one pass over its tokens.
fn read_text_step(
    alloc: Global,
    scratch: &mut LineScratch,
    text: &str,
) -> Result<Option<Step>, QuickFault>
    ensures { IfOk result (λ step. option_and_then step_of_json (read text.now) ≡ step) }
{
    let mut members = LineMembers::none();
    let all = read_members(text, &mut scratch.texts, &mut members, &mut scratch.args)?;
    if !all {
        return Ok(None);
    }
    let step = step_from(
        alloc,
        &mut scratch.names,
        &mut scratch.messages,
        &members,
        ValueIn::Bytes(scratch.args.as_slice()),
    )?;
    Ok(step)
}

/// The step of a line, if it is an `op`, a grain and maybe a turn, in this order and spelled plainly, and requests a
/// step. The step is made from the text alone. If none is returned, the line may still request one.
#[inline(always)]
fn read_short_step(
    alloc: Global,
    scratch: &mut LineScratch,
    text: &str,
) -> Result<Option<Step>, AllocError>
    ensures { IfOk result (λ found. IfSome found (λ step. option_and_then step_of_json (read text.now) ≡ Some step)) }
{
    let Some(line) = short_line(text) else {
        return Ok(None);
    };
    let members = members_of_short(line);
    step_of_form(
        alloc,
        &mut scratch.names,
        &mut scratch.messages,
        &members,
        ValueIn::Bytes(&[]),
        line.form,
    )
}

/// The step of a line, if it is a call in the order in which calls are mostly written. Its members but the argument
/// never go through a table. If none is returned, the line may still request a step.
#[inline(always)]
fn read_call_step(
    alloc: Global,
    scratch: &mut LineScratch,
    text: &str,
) -> Result<Option<Step>, QuickFault>
    ensures { IfOk result (λ found. IfSome found (λ step. option_and_then step_of_json (read text.now) ≡ Some step)) }
{
    let mut members = LineMembers::none();
    let all = take_call(text, &mut scratch.texts, &mut members, &mut scratch.args)?;
    if !all {
        return Ok(None);
    }
    let found = call_step_from(
        alloc,
        &mut scratch.names,
        &mut scratch.messages,
        &members,
        ValueIn::Bytes(scratch.args.as_slice()),
    )?;
    Ok(found)
}

/// What a line says, if its last member has to be a whole number and has another value.
#[inline(never)]
fn read_not_natural(
    alloc: Global,
    scratch: &mut LineScratch,
    text: &str,
) -> Result<Option<Line>, QuickFault>
    ensures { IfOk result (λ found. IfSome found (λ said. said ≡ meaning_by (option_and_then step_of_json (read text.now)))) }
{
    let mut members = LineMembers::none();
    let taken = take_not_natural(text, &mut scratch.texts, &mut members)?;
    if !taken {
        return Ok(None);
    }
    let step = step_from(
        alloc,
        &mut scratch.names,
        &mut scratch.messages,
        &members,
        ValueIn::Bytes(&[]),
    )?;
    Ok(Some(line_of(step)))
}

/// Whether a text is surely no JSON: it breaks off, or nests deeper than 127 levels.
#[inline(never)]
fn is_no_json(scratch: &mut Scratch, text: &str) -> Result<bool, AllocError>
    ensures { IfOk result (λ none. IsTrue none → read text.now ≡ None) }
{
    let mut reader = Reader::new(text, scratch)?;
    match reader.skip_value(MOST_LEVELS) {
        Ok(()) => Ok(false),
        Err(_) => Ok(true),
    }
}

/// What a line says that wasn't read in one pass: one that is no such line as above goes to `serde_json`.
#[cold]
#[inline(never)]
fn read_left(
    alloc: Global,
    scratch: &mut LineScratch,
    text: &str,
    fault: QuickFault,
) -> Result<Line, AllocError>
    requires { meaning_of text.now ≡ meaning_by (option_and_then step_of_json (read text.now)) }
    ensures { IfOk result (λ said. said ≡ meaning_of text.now) }
{
    if let QuickFault::Memory = fault {
        return Err(AllocError);
    }
    match read_not_natural(alloc, scratch, text) {
        Ok(Some(said)) => return Ok(said),
        Ok(None) | Err(QuickFault::LeftToTree) => {}
        Err(QuickFault::Memory) => return Err(AllocError),
    }
    if is_no_json(&mut scratch.texts, text)? {
        return Ok(line_of(None));
    }
    read_any_line(alloc, scratch, text.as_bytes())
}

/// What a line says, in one pass over its tokens.
#[inline(never)]
fn read_text(alloc: Global, scratch: &mut LineScratch, text: &str) -> Result<Line, AllocError>
    requires { meaning_of text.now ≡ meaning_by (option_and_then step_of_json (read text.now)) }
    ensures { IfOk result (λ said. said ≡ meaning_of text.now) }
{
    match read_text_step(alloc, scratch, text) {
        Ok(step) => Ok(line_of(step)),
        Err(fault) => read_left(alloc, scratch, text, fault),
    }
}

/// What a line says that is most likely a call.
#[inline(never)]
fn read_call(alloc: Global, scratch: &mut LineScratch, text: &str) -> Result<Line, AllocError>
    requires { meaning_of text.now ≡ meaning_by (option_and_then step_of_json (read text.now)) }
    ensures { IfOk result (λ said. said ≡ meaning_of text.now) }
{
    match read_call_step(alloc, scratch, text) {
        Ok(Some(step)) => Ok(Line::Step(step)),
        Ok(None) => read_text(alloc, scratch, text),
        Err(fault) => read_left(alloc, scratch, text, fault),
    }
}

/// Whether a line most likely begins as a call does: with `op` and `call`, or with `from`.
#[inline(always)]
fn is_likely_call(text: &str) -> bool
    ensures { result ≡ ((head (drop 7 text.now) == 99) || (head (drop 7 text.now) == 58)) }
{
    let byte = byte_at(text, 7);
    byte == b'c' || byte == b':'
}

/// What a line says, which is given without its LF. The fast paths find it without a tree; a line that they leave goes
/// to `serde_json`.
pub fn read_line(alloc: Global, scratch: &mut LineScratch, line: &[u8]) -> Result<Line, AllocError>
    ensures { IfOk result (λ said. said ≡ meaning_of line.now) }
{
    if line.is_empty() || line.len() > LINE_LIMIT {
        return read_any_line(alloc, scratch, line);
    }
    let Some(text) = text_of(line) else {
        return read_any_line(alloc, scratch, line);
    };
    if is_likely_call(text) {
        return read_call(alloc, scratch, text);
    }
    if let Some(step) = read_short_step(alloc, scratch, text)? {
        return Ok(Line::Step(step));
    }
    read_text(alloc, scratch, text)
}
