//! The lines of a journal, put at the end of a text.

ghost use Rattle.std.specs.Prelude.{◌≡◌, ◌++◌, ◌∷◌, [], List, codes, decimal, Ok, Err, IfOk, OnOk, string_bytes};
ghost use Rattle.grain_id.specs.Names.{client_text, grain_text};
ghost use Rattle.silo_event.specs.declared.step.Step.TheVariants as step;
ghost use Rattle.journal_text.specs.declared.line.Line.TheVariants as line;
ghost use Rattle.journal_text.specs.Form.{newest};
ghost use Rattle.hex.specs.Hex.{encode_lower};
ghost use Rattle.request_codec.specs.Written.{old_spelling, text_spelling, spelling};
ghost use Rattle.journal_text.specs.RecordedFault.{code_and_text};
ghost use Rattle.journal_text.specs.Text.{◌␣◌, mark_text, message_text, state_text, recipient_text, outcome_text, step_text, line_text};

use crate::form::Form;
use crate::line::Line;
use crate::recorded::RecordedReply;
use grain_id::{Caller, GrainId, Kind, Tenant};
use grain_storage::Row;
use request_codec::limits::OLD_VERSION;
use request_codec::{Message, StateBytes};
use silo_event::{Party, Refusal, Step};
use std::alloc::{AllocError, Global};
use tenant_gate::Limits;

/// Whether a storage call failed.
fn mark(failed: bool) -> &'static str
    ensures { result.now ≡ mark_text failed }
{
    if failed { "failed" } else { "ok" }
}

fn push_refuse(text: &mut String, caller: &Caller, id: u64, code: Refusal) -> Result<(), AllocError>
    ensures { OnOk result (string_bytes text.new
        ≡ string_bytes text.old ++ (step_text newest (step.Refuse caller.now id code) ++ 10 ∷ [])) }
{
    let caller = caller.text();
    let fault = code.fault();
    let code = fault.code();
    drop(fault);
    write!(text, "refuse {caller} {id} {code}\n")
}

/// The bytes of a message after the first one, which are the same in each form.
fn behind_first(message: &Message) -> &[u8]
    ensures { result.now ≡ text_spelling message.now.method ++ spelling message.now.argument }
{
    match message.bytes().split_first() {
        Some((_, behind)) => behind,
        None => unreachable!(),
    }
}

/// The digits of a message's bytes as they were in the form before, which has another first byte.
fn old_digits(alloc: Global, message: &Message) -> Result<String, AllocError>
    ensures { IfOk result (λ digits. string_bytes digits ≡ encode_lower (old_spelling message.now)) }
{
    let mut bytes = Vec::new(alloc);
    bytes.push(OLD_VERSION)?;
    bytes.extend_from_slice(behind_first(message))?;
    hex::encode(alloc, bytes.as_slice())
}

/// The digits of a message's bytes in that form.
fn message_digits(alloc: Global, form: Form, message: &Message) -> Result<String, AllocError>
    ensures { IfOk result (λ digits. string_bytes digits ≡ message_text form message.now) }
{
    match form {
        Form::First | Form::Second => old_digits(alloc, message),
        Form::Third => hex::encode(alloc, message.bytes()),
    }
}

fn push_call(
    alloc: Global,
    form: Form,
    text: &mut String,
    caller: &Caller,
    id: u64,
    grain: &GrainId,
    message: &Message,
) -> Result<(), AllocError>
    ensures { OnOk result (string_bytes text.new
        ≡ string_bytes text.old ++ (step_text form (step.Call caller.now id grain.now message.now) ++ 10 ∷ [])) }
{
    let caller = caller.text();
    let grain = grain.text();
    let message = message_digits(alloc, form, message)?;
    write!(text, "call {caller} {id} {grain} {message}\n")
}

fn push_poke(
    alloc: Global,
    text: &mut String,
    caller: &Caller,
    id: u64,
    grain: &GrainId,
    state: &StateBytes,
    failed: bool,
) -> Result<(), AllocError>
    ensures { OnOk result (string_bytes text.new
        ≡ string_bytes text.old ++ (step_text newest (step.Poke failed caller.now id grain.now state.now) ++ 10 ∷ [])) }
{
    let caller = caller.text();
    let grain = grain.text();
    let mark = mark(failed);
    let state = hex::encode(alloc, state.bytes())?;
    write!(text, "poke {caller} {id} {grain} {mark} {state}\n")
}

fn push_status(text: &mut String, caller: &Caller, id: u64) -> Result<(), AllocError>
    ensures { OnOk result (string_bytes text.new ≡ string_bytes text.old ++ (step_text newest (step.Status caller.now id) ++ 10 ∷ [])) }
{
    let caller = caller.text();
    write!(text, "status {caller} {id}\n")
}

/// Adds a line of a word and a grain.
fn push_at(text: &mut String, word: &str, grain: &GrainId) -> Result<(), AllocError>
    ensures { OnOk result (string_bytes text.new ≡ string_bytes text.old ++ ((word.now ␣ grain_text grain.now) ++ 10 ∷ [])) }
{
    let grain = grain.text();
    write!(text, "{word} {grain}\n")
}

fn push_load(text: &mut String, grain: &GrainId, failed: bool) -> Result<(), AllocError>
    ensures { OnOk result (string_bytes text.new ≡ string_bytes text.old ++ (step_text newest (step.Load grain.now failed) ++ 10 ∷ [])) }
{
    let grain = grain.text();
    let mark = mark(failed);
    write!(text, "load {grain} {mark}\n")
}

fn push_store(text: &mut String, grain: &GrainId, turn: u64, failed: bool) -> Result<(), AllocError>
    ensures { OnOk result (string_bytes text.new
        ≡ string_bytes text.old ++ (step_text newest (step.Store grain.now turn failed) ++ 10 ∷ [])) }
{
    let grain = grain.text();
    let mark = mark(failed);
    write!(text, "store {grain} {turn} {mark}\n")
}

/// Adds a line of a word, a grain and a turn.
fn push_turn(text: &mut String, word: &str, grain: &GrainId, turn: u64) -> Result<(), AllocError>
    ensures { OnOk result (string_bytes text.new
        ≡ string_bytes text.old ++ ((word.now ␣ grain_text grain.now ␣ decimal turn) ++ 10 ∷ [])) }
{
    let grain = grain.text();
    write!(text, "{word} {grain} {turn}\n")
}

/// Adds a line of a word and a number.
fn push_number(text: &mut String, word: &str, number: u64) -> Result<(), AllocError>
    ensures { OnOk result (string_bytes text.new ≡ string_bytes text.old ++ ((word.now ␣ decimal number) ++ 10 ∷ [])) }
{
    write!(text, "{word} {number}\n")
}

/// Adds a step's line. After an `Err` the text may hold a part of it.
pub(crate) fn push_step(
    alloc: Global,
    form: Form,
    text: &mut String,
    step: &Step,
) -> Result<(), AllocError>
    ensures { OnOk result (string_bytes text.new ≡ string_bytes text.old ++ (step_text form step.now ++ 10 ∷ [])) }
{
    match step {
        Step::Refuse { caller, id, code } => push_refuse(text, caller, *id, *code),
        Step::Call {
            caller,
            id,
            grain,
            message,
        } => push_call(alloc, form, text, caller, *id, grain, message),
        Step::Poke {
            caller,
            id,
            grain,
            state,
            failed,
        } => push_poke(alloc, text, caller, *id, grain, state.state(), *failed),
        Step::Status { caller, id } => push_status(text, caller, *id),
        Step::Deliver { grain } => push_at(text, "deliver", grain),
        Step::Activate { grain } => push_at(text, "activate", grain),
        Step::Load { grain, failed } => push_load(text, grain, *failed),
        Step::Begin { grain } => push_at(text, "begin", grain),
        Step::Store {
            grain,
            turn,
            failed,
        } => push_store(text, grain, *turn, *failed),
        Step::End { grain, turn } => push_turn(text, "end", grain, *turn),
        Step::Abandon { grain, turn } => push_turn(text, "abandon", grain, *turn),
        Step::Tick { now } => push_number(text, "tick", now.get()),
        Step::Sweep => text.push_str("sweep\n"),
    }
}

/// Adds the first line.
pub(crate) fn push_head(form: Form, text: &mut String) -> Result<(), AllocError>
    ensures { OnOk result (string_bytes text.new ≡ string_bytes text.old ++ (line_text form line.Head ++ 10 ∷ [])) }
{
    let number = form.text();
    write!(text, "silo-journal {number}\n")
}

/// Adds the line of the logic of that number.
pub(crate) fn push_kinds(text: &mut String, kinds: u8) -> Result<(), AllocError>
    ensures { OnOk result (string_bytes text.new ≡ string_bytes text.old ++ (line_text newest (line.Kinds kinds) ++ 10 ∷ [])) }
{
    push_number(text, "kinds", u64::from(kinds))
}

/// Adds the line of a kind with an age of `age` milliseconds.
pub(crate) fn push_kind(text: &mut String, kind: &Kind, age: u64) -> Result<(), AllocError>
    ensures { OnOk result (string_bytes text.new ≡ string_bytes text.old ++ (line_text newest (line.Kind kind.now age) ++ 10 ∷ [])) }
{
    let kind = kind.text();
    write!(text, "kind {kind} {age}\n")
}

/// Adds the line of an age of `age` milliseconds.
pub(crate) fn push_age(text: &mut String, age: u64) -> Result<(), AllocError>
    ensures { OnOk result (string_bytes text.new ≡ string_bytes text.old ++ (line_text newest (line.Age age) ++ 10 ∷ [])) }
{
    push_number(text, "age", age)
}

/// Adds the line of a tenant.
pub(crate) fn push_tenant(
    text: &mut String,
    tenant: &Tenant,
    limits: Limits,
) -> Result<(), AllocError>
    ensures { OnOk result (string_bytes text.new
        ≡ string_bytes text.old ++ (line_text newest (line.Tenant tenant.now limits) ++ 10 ∷ [])) }
{
    let tenant = tenant.text();
    let activations = limits.activations;
    let mailbox = limits.mailbox;
    write!(text, "tenant {tenant} {activations} {mailbox}\n")
}

/// Adds who a reply is for, and a space.
fn push_recipient(text: &mut String, recipient: &Party) -> Result<(), AllocError>
    ensures { OnOk result (string_bytes text.new ≡ string_bytes text.old ++ (recipient_text recipient.now ␣ [])) }
{
    match recipient {
        Party::Client(caller, id) => {
            let caller = caller.text();
            let id = *id;
            write!(text, "{caller} {id} ")
        }
        Party::Grain(grain) => {
            let grain = grain.text();
            write!(text, "{grain} - ")
        }
    }
}

/// Adds the line of a reply with a value.
pub(crate) fn push_value(
    alloc: Global,
    text: &mut String,
    recipient: &Party,
    value: &StateBytes,
) -> Result<(), AllocError>
    ensures { OnOk result (string_bytes text.new
        ≡ string_bytes text.old ++ ((codes "reply" ␣ recipient_text recipient.now ␣ outcome_text (Ok value.now)) ++ 10 ∷ [])) }
{
    text.push_str("reply ")?;
    push_recipient(text, recipient)?;
    let value = hex::encode(alloc, value.bytes())?;
    write!(text, "ok {value}\n")
}

/// Adds the line of a reply without one: a fault's code and its text.
pub(crate) fn push_fault(
    text: &mut String,
    recipient: &Party,
    code: u8,
    told: &str,
) -> Result<(), AllocError>
    ensures { OnOk result (string_bytes text.new
        ≡ string_bytes text.old
        ++ ((codes "reply" ␣ recipient_text recipient.now ␣ outcome_text (Err (code_and_text code told.now))) ++ 10 ∷ [])) }
{
    text.push_str("reply ")?;
    push_recipient(text, recipient)?;
    write!(text, "no {code} {told}\n")
}

/// Adds the line of a row.
pub(crate) fn push_row(
    alloc: Global,
    text: &mut String,
    grain: &GrainId,
    row: &Row,
) -> Result<(), AllocError>
    ensures { OnOk result (string_bytes text.new ≡ string_bytes text.old ++ (line_text newest (line.Row grain.now row.now) ++ 10 ∷ [])) }
{
    let grain = grain.text();
    let version = row.version;
    match &row.content {
        Some(state) => {
            let state = hex::encode(alloc, state.bytes())?;
            write!(text, "row {grain} {version} {state}\n")
        }
        None => write!(text, "row {grain} {version} -\n"),
    }
}

/// Adds the last line, with the number of steps.
pub(crate) fn push_close(text: &mut String, steps: u64) -> Result<(), AllocError>
    ensures { OnOk result (string_bytes text.new ≡ string_bytes text.old ++ (line_text newest (line.Close steps) ++ 10 ∷ [])) }
{
    push_number(text, "close", steps)
}

/// Adds the line of a recorded reply.
pub(crate) fn push_recorded(
    alloc: Global,
    text: &mut String,
    reply: &RecordedReply,
) -> Result<(), AllocError>
    ensures { OnOk result (string_bytes text.new ≡ string_bytes text.old ++ (line_text newest (line.Reply reply.now) ++ 10 ∷ [])) }
{
    match &reply.outcome {
        Ok(value) => push_value(alloc, text, &reply.recipient, value),
        Err(fault) => push_fault(text, &reply.recipient, fault.code(), fault.text()),
    }
}

/// Adds a line. After an `Err` the text may hold a part of it.
pub(crate) fn push_line(
    alloc: Global,
    form: Form,
    text: &mut String,
    line: &Line,
) -> Result<(), AllocError>
    ensures { OnOk result (string_bytes text.new ≡ string_bytes text.old ++ (line_text form line.now ++ 10 ∷ [])) }
{
    match line {
        Line::Head => push_head(form, text),
        Line::Kinds(kinds) => push_kinds(text, *kinds),
        Line::Age(age) => push_age(text, age.millis()),
        Line::Kind(kind, age) => push_kind(text, kind, age.millis()),
        Line::Tenant(tenant, limits) => push_tenant(text, tenant, *limits),
        Line::Step(step) => push_step(alloc, form, text, step),
        Line::Reply(reply) => push_recorded(alloc, text, reply),
        Line::Row(grain, row) => push_row(alloc, text, grain, row),
        Line::Close(steps) => push_close(text, *steps),
    }
}
