//! The lines of a journal, read.

ghost use Rattle.std.specs.Prelude.{◌≡◌, ◌≤◌, ◌<◌, ◌^◌, ◌&&◌, nat_le, ◌++◌, ◌∷◌, [], ℕ, List, Some, IfOk, IfSome, IsTrue};
ghost use Rattle.grain_id.specs.Names.{is_grain};
ghost use Rattle.grain_id.specs.Words.{is_word};
ghost use Rattle.tenant_gate.specs.Table.{are_in_range};
ghost use Rattle.journal_text.specs.inside.Answers.{Reads};
ghost use Rattle.journal_text.specs.inside.Candidates.{kinds_of, age_of, kind_of, limits_of, word_of, tenant_of, recipient_of};
ghost use Rattle.journal_text.specs.inside.Candidates.{outcome_of, reply_of, content_of, version_of, row_of};
ghost use Rattle.journal_text.specs.inside.Candidates.{head_of, step_line, step_of, named_of, candidate_of};
ghost use Rattle.journal_text.specs.Rules.{IsKinds, IsLine, IsParty, IsOutcome, IsRow};
ghost use Rattle.tenant_gate.specs.Age.{IsAge};
ghost use Rattle.journal_text.specs.Form.{HasState, tells_kinds};
ghost use Rattle.grain_id.specs.Names.{same_text};
ghost use Rattle.journal_text.specs.Text.{line_text};
ghost use Rattle.journal_text.specs.inside.Answers.{ReadsLine};

use crate::fault::LineFault;
use crate::fields::{
    cut, parse_caller, parse_grain, parse_number, parse_state, parse_tenant_name, parse_u64,
};
use crate::form::Form;
use crate::line::Line;
use crate::line_writer::push_line;
use crate::recorded::{RecordedFault, RecordedReply, parse_recorded_fault};
use crate::step_reader::parse_step;
use grain_id::{GrainId, IdFault, Kind, NameCache, Tenant};
use grain_storage::Row;
use request_codec::StateBytes;
use silo_event::{Party, Step};
use std::alloc::{AllocError, Global};
use tenant_gate::{Age, Limits, MAX_ACTIVATIONS, MAX_MAILBOX};

/// What is used again for each line.
#[derive(Drop)]
pub(crate) struct LineScratch {
    /// The names that were read last.
    names: NameCache,
    /// The text of the line that was read, written again.
    written: String,
}

impl LineScratch {
    pub(crate) fn new(alloc: Global) -> LineScratch {
        LineScratch {
            names: NameCache::new(alloc),
            written: String::new(alloc),
        }
    }
}

/// Whether a version of the logic may have that number.
fn is_kinds(number: u64) -> bool
    ensures { result ≡ nat_le 1 number && nat_le number 255 }
{
    1 <= number && number <= 255
}

/// What follows `kinds`, in a form that has such a line.
fn parse_kinds(form: Form, field: &str) -> Result<u8, LineFault>
    ensures gives { Reads (λ read. read) result (kinds_of form field.now) }
    ensures is_kinds { IfOk result (λ kinds. IsTrue (tells_kinds form) × IsKinds kinds) }
{
    let number = parse_u64(field)?;
    if form.tells_kinds() && is_kinds(number) {
        Ok(number as u8)
    } else {
        Err(LineFault::NoForm)
    }
}

/// What follows `age`.
fn parse_age(field: &str) -> Result<Age, LineFault>
    ensures gives { Reads (λ read. read) result (age_of field.now) }
    ensures in_range { IfOk result IsAge }
{
    match Age::new(parse_u64(field)?) {
        Some(age) => Ok(age),
        None => Err(LineFault::NoForm),
    }
}

/// The kind of that name.
fn parse_kind_name(alloc: Global, field: &str) -> Result<Kind, LineFault>
    ensures gives { Reads (λ read. read) result (word_of field.now) }
    ensures well_formed { IfOk result (λ kind. IsTrue (is_word kind)) }
{
    match Kind::read(alloc, field) {
        Ok(kind) => Ok(kind),
        Err(IdFault::Memory) => Err(LineFault::Memory),
        Err(IdFault::Kind | IdFault::Tenant | IdFault::Name | IdFault::Client) => {
            Err(LineFault::NoForm)
        }
    }
}

/// What follows `kind`, in a form that may give the ages of kinds.
fn parse_kind(alloc: Global, form: Form, fields: &str) -> Result<(Kind, Age), LineFault>
    ensures gives { Reads (λ read. read) result (kind_of form fields.now) }
    ensures well_formed { IfOk result (λ read. IsTrue (tells_kinds form) × IsTrue (is_word read.0) × IsAge read.1) }
{
    let (name, age) = cut(fields, ' ')?;
    let kind = parse_kind_name(alloc, name)?;
    let age = parse_age(age)?;
    if form.tells_kinds() {
        return Ok((kind, age));
    }
    drop(kind);
    Err(LineFault::NoForm)
}

/// The limits of these numbers.
fn parse_limits(activations: u64, mailbox: u64) -> Result<Limits, LineFault>
    ensures gives { Reads (λ read. read) result (limits_of activations mailbox) }
    ensures in_range { IfOk result (λ limits. IsTrue (are_in_range limits)) }
{
    if activations > u64::from(MAX_ACTIVATIONS) || mailbox > u64::from(MAX_MAILBOX) {
        return Err(LineFault::NoForm);
    }
    let limits = Limits {
        activations: activations as u32,
        mailbox: mailbox as u32,
    };
    if limits.are_in_range() {
        Ok(limits)
    } else {
        Err(LineFault::NoForm)
    }
}

/// What follows `tenant`.
fn parse_tenant(alloc: Global, fields: &str) -> Result<(Tenant, Limits), LineFault>
    ensures gives { Reads (λ read. read) result (tenant_of fields.now) }
    ensures well_formed { IfOk result (λ read. IsTrue (is_word read.0) × IsTrue (are_in_range read.1)) }
{
    let (name, fields) = cut(fields, ' ')?;
    let tenant = parse_tenant_name(alloc, name)?;
    let (activations, mailbox) = cut(fields, ' ')?;
    let activations = parse_u64(activations)?;
    let mailbox = parse_u64(mailbox)?;
    let limits = parse_limits(activations, mailbox)?;
    Ok((tenant, limits))
}

/// Whom a reply is for.
fn parse_recipient(
    alloc: Global,
    names: &mut NameCache,
    who: &str,
    number: &str,
) -> Result<Party, LineFault>
    ensures gives { Reads (λ read. read) result (recipient_of who.now number.now) }
    ensures well_formed { IfOk result IsParty }
{
    match number {
        "-" => {
            let grain = parse_grain(alloc, names, who)?;
            Ok(Party::Grain(grain))
        }
        _ => {
            let caller = parse_caller(alloc, names, who)?;
            let id = parse_number(number)?;
            Ok(Party::Client(caller, id))
        }
    }
}

/// A value, or the fault in its place.
fn parse_outcome(
    alloc: Global,
    form: Form,
    fields: &str,
) -> Result<Result<StateBytes, RecordedFault>, LineFault>
    ensures gives { Reads (λ read. read) result (outcome_of form fields.now) }
    ensures well_formed { IfOk result (IsOutcome form) }
{
    let (word, fields) = cut(fields, ' ')?;
    match word {
        "ok" => {
            let value = parse_state(alloc, form, fields)?;
            Ok(Ok(value))
        }
        "no" => {
            let fault = parse_recorded_fault(alloc, form, fields)?;
            Ok(Err(fault))
        }
        _ => Err(LineFault::NoForm),
    }
}

/// What follows `reply`.
fn parse_reply(
    alloc: Global,
    form: Form,
    names: &mut NameCache,
    fields: &str,
) -> Result<RecordedReply, LineFault>
    ensures gives { Reads (λ read. read) result (reply_of form fields.now) }
    ensures well_formed { IfOk result (λ read. IsParty read.recipient × IsOutcome form read.outcome) }
{
    let (who, fields) = cut(fields, ' ')?;
    let (number, fields) = cut(fields, ' ')?;
    let recipient = parse_recipient(alloc, names, who, number)?;
    let outcome = parse_outcome(alloc, form, fields)?;
    Ok(RecordedReply { recipient, outcome })
}

/// The content of a row.
fn parse_content(alloc: Global, form: Form, field: &str) -> Result<Option<StateBytes>, LineFault>
    ensures gives { Reads (λ read. read) result (content_of form field.now) }
    ensures spelled { IfOk result (λ content. IfSome content (HasState form)) }
{
    match field {
        "-" => Ok(None),
        _ => {
            let state = parse_state(alloc, form, field)?;
            Ok(Some(state))
        }
    }
}

/// The version of a row.
fn parse_version(field: &str) -> Result<u64, LineFault>
    ensures gives { Reads (λ read. read) result (version_of field.now) }
    ensures above { IfOk result (λ version. (1 ≤ version) × (version < 2 ^ 64)) }
{
    let version = parse_u64(field)?;
    if 1 <= version {
        Ok(version)
    } else {
        Err(LineFault::NoForm)
    }
}

/// What follows `row`.
fn parse_row(
    alloc: Global,
    form: Form,
    names: &mut NameCache,
    fields: &str,
) -> Result<(GrainId, Row), LineFault>
    ensures gives { Reads (λ read. read) result (row_of form fields.now) }
    ensures well_formed { IfOk result (λ read. IsTrue (is_grain read.0) × IsRow form read.1) }
{
    let (grain, fields) = cut(fields, ' ')?;
    let grain = parse_grain(alloc, names, grain)?;
    let (version, content) = cut(fields, ' ')?;
    let version = parse_version(version)?;
    let content = parse_content(alloc, form, content)?;
    Ok((grain, Row { version, content }))
}

/// What follows `silo-journal`.
fn parse_head(form: Form, field: &str) -> Result<Line, LineFault>
    ensures gives { Reads (λ read. read) result (head_of form field.now) }
    ensures is_line { IfOk result (IsLine form) }
{
    if field == form.text() {
        Ok(Line::Head)
    } else {
        Err(LineFault::NoForm)
    }
}

/// The line of a step that has fields.
fn parse_step_line(
    alloc: Global,
    form: Form,
    names: &mut NameCache,
    word: &str,
    fields: &str,
) -> Result<Line, LineFault>
    ensures gives { Reads (λ read. read) result (step_line (step_of form word.now fields.now)) }
    ensures is_line { IfOk result (IsLine form) }
{
    let step = parse_step(alloc, form, names, word, fields)?;
    Ok(Line::Step(step))
}

/// The line that a word and the fields after it make, if they make one.
fn parse_named(
    alloc: Global,
    form: Form,
    names: &mut NameCache,
    word: &str,
    fields: &str,
) -> Result<Line, LineFault>
    ensures gives { Reads (λ read. read) result (named_of form word.now fields.now) }
    ensures is_line { IfOk result (IsLine form) }
{
    match word {
        "silo-journal" => parse_head(form, fields),
        "kinds" => {
            let kinds = parse_kinds(form, fields)?;
            Ok(Line::Kinds(kinds))
        }
        "age" => {
            let age = parse_age(fields)?;
            Ok(Line::Age(age))
        }
        "kind" => {
            let (kind, age) = parse_kind(alloc, form, fields)?;
            Ok(Line::Kind(kind, age))
        }
        "tenant" => {
            let (tenant, limits) = parse_tenant(alloc, fields)?;
            Ok(Line::Tenant(tenant, limits))
        }
        "reply" => {
            let reply = parse_reply(alloc, form, names, fields)?;
            Ok(Line::Reply(reply))
        }
        "row" => {
            let (grain, row) = parse_row(alloc, form, names, fields)?;
            Ok(Line::Row(grain, row))
        }
        "close" => {
            let steps = parse_u64(fields)?;
            Ok(Line::Close(steps))
        }
        _ => parse_step_line(alloc, form, names, word, fields),
    }
}

/// What the text may be the line of. A text that isn't one may be read as something too.
#[tactic(auto, unfolding(crate::specs::inside::Candidates::candidate_of))]
fn parse_candidate(
    alloc: Global,
    form: Form,
    names: &mut NameCache,
    text: &str,
) -> Result<Line, LineFault>
    ensures gives { Reads (λ read. read) result (candidate_of form text.now) }
    ensures is_line { IfOk result (IsLine form) }
{
    match text {
        "sweep" => Ok(Line::Step(Step::Sweep)),
        _ => {
            let (word, fields) = cut(text, ' ')?;
            parse_named(alloc, form, names, word, fields)
        }
    }
}

/// The bytes of a text but its last.
fn but_last(text: &str) -> &[u8]
    ensures { (front : List ℕ) (last : ℕ) → text.now ≡ front ++ last ∷ [] → result.now ≡ front }
{
    match text.as_bytes().split_last() {
        Some((_, front)) => front,
        None => text.as_bytes(),
    }
}

/// Whether the text is the line's, which is written again.
fn is_text_of(
    alloc: Global,
    form: Form,
    written: &mut String,
    line: &Line,
    text: &str,
) -> Result<bool, AllocError>
    ensures { IfOk result (λ same. same ≡ same_text (line_text form line.now) text.now) }
{
    written.clear();
    push_line(alloc, form, written, line)?;
    Ok(but_last(written.as_str()) == text.as_bytes())
}

/// The line that was read of a text, if the text is its own.
fn confirmed(
    alloc: Global,
    form: Form,
    written: &mut String,
    line: Line,
    text: &str,
) -> Result<Line, LineFault>
    requires gives { candidate_of form text.now ≡ Some line }
    requires is_line { IsLine form line }
    ensures { ReadsLine form text.now result }
{
    let Ok(same) = is_text_of(alloc, form, written, &line, text) else {
        drop(line);
        return Err(LineFault::Memory);
    };
    if same {
        Ok(line)
    } else {
        drop(line);
        Err(LineFault::NoForm)
    }
}

/// The line whose text in that form this is, without its LF.
///
/// # Errors
///
/// `NoForm` if it is the text of no line, `Memory` if memory is refused.
pub(crate) fn parse_line(
    alloc: Global,
    form: Form,
    scratch: &mut LineScratch,
    text: &str,
) -> Result<Line, LineFault>
    ensures { ReadsLine form text.now result }
{
    match parse_candidate(alloc, form, &mut scratch.names, text) {
        Ok(line) => confirmed(alloc, form, &mut scratch.written, line, text),
        Err(LineFault::NoForm) => Err(LineFault::NoForm),
        Err(LineFault::Memory) => Err(LineFault::Memory),
    }
}
