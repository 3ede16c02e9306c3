//! The text of a reply.

ghost use Rattle.std.specs.Prelude.{◌≡◌, ◌++◌, IfOk, OnOk, string_bytes, codes, decimal};
ghost use Rattle.json.specs.Print.{quoted};
ghost use Rattle.grain_id.specs.Names.{client_text, grain_text};
ghost use Rattle.silo_event.specs.Fault.{fault_code, fault_text};
ghost use Rattle.silo_event.specs.declared.reply.Party.TheVariants as party;
ghost use Rattle.line_text.specs.Text.{line_of, line_to, done_line, refused_line, done_to_grain_line, refused_to_grain_line};
ghost use Rattle.line_text.specs.Text.{fault_line, fault_of, refusal_line, not_now_line};
ghost use Rattle.line_text.specs.LineTexts.{texts_of};

use crate::text::{push, push_natural, push_quoted};
use crate::value_text::push_state;
use grain_id::{Caller, GrainId};
use line_parser::LineRefusal;
use request_codec::StateBytes;
use silo_event::{Fault, Party, Reply};
use std::alloc::{AllocError, Global};

/// Adds a caller's text as JSON. Nothing in it has to be escaped.
fn push_client(text: &mut String, from: &Caller) -> Result<(), AllocError>
    ensures { OnOk result (string_bytes text.new ≡ string_bytes text.old ++ quoted (client_text from.now)) }
{
    push(text, "\"")?;
    push(text, from.text())?;
    push(text, "\"")?;
    Ok(())
}

/// Adds `{"from":F,"id":I,"ok":V}`. Nothing in the caller's text has to be escaped.
fn push_done(
    alloc: Global,
    text: &mut String,
    from: &Caller,
    id: u64,
    state: &StateBytes,
) -> Result<(), AllocError>
    ensures { OnOk result (string_bytes text.new ≡ string_bytes text.old ++ done_line (client_text from.now) id state.now) }
{
    push(text, "{\"from\":\"")?;
    push(text, from.text())?;
    push(text, "\",\"id\":")?;
    push_natural(text, id)?;
    push(text, ",\"ok\":")?;
    push_state(alloc, text, state)?;
    push(text, "}")?;
    Ok(())
}

/// Adds `{"error":C,"from":`.
fn push_code(text: &mut String, fault: &Fault) -> Result<(), AllocError>
    ensures { OnOk result (string_bytes text.new ≡ string_bytes text.old
        ++ (codes "{\"error\":" ++ (decimal (fault_code fault.now) ++ codes ",\"from\":"))) }
{
    push(text, "{\"error\":")?;
    push_natural(text, u64::from(fault.code()))?;
    push(text, ",\"from\":")?;
    Ok(())
}

/// Adds `,"text":T}`.
fn push_why(alloc: Global, text: &mut String, fault: &Fault) -> Result<(), AllocError>
    ensures { OnOk result (string_bytes text.new ≡ string_bytes text.old
        ++ (codes ",\"text\":" ++ (quoted (fault_text fault.now) ++ codes "}"))) }
{
    let why = fault.text(alloc)?;
    push(text, ",\"text\":")?;
    push_quoted(alloc, text, why.as_str())?;
    push(text, "}")?;
    Ok(())
}

/// Adds `{"error":C,"from":F,"id":I,"text":T}`.
fn push_refused(
    alloc: Global,
    text: &mut String,
    from: &Caller,
    id: u64,
    fault: &Fault,
) -> Result<(), AllocError>
    ensures { OnOk result (string_bytes text.new ≡ string_bytes text.old ++ refused_line (client_text from.now) id
        (fault_code fault.now) (fault_text fault.now)) }
{
    push_code(text, fault)?;
    push_client(text, from)?;
    push(text, ",\"id\":")?;
    push_natural(text, id)?;
    push_why(alloc, text, fault)?;
    Ok(())
}

/// Adds `{"from":F,"ok":V}`.
fn push_done_to_grain(
    alloc: Global,
    text: &mut String,
    from: &GrainId,
    state: &StateBytes,
) -> Result<(), AllocError>
    ensures { OnOk result (string_bytes text.new ≡ string_bytes text.old ++ done_to_grain_line (grain_text from.now) state.now) }
{
    push(text, "{\"from\":")?;
    push_quoted(alloc, text, from.text())?;
    push(text, ",\"ok\":")?;
    push_state(alloc, text, state)?;
    push(text, "}")?;
    Ok(())
}

/// Adds `{"error":C,"from":F,"text":T}`.
fn push_refused_to_grain(
    alloc: Global,
    text: &mut String,
    from: &GrainId,
    fault: &Fault,
) -> Result<(), AllocError>
    ensures { OnOk result (string_bytes text.new ≡ string_bytes text.old ++ refused_to_grain_line (grain_text from.now)
        (fault_code fault.now) (fault_text fault.now)) }
{
    push_code(text, fault)?;
    push_quoted(alloc, text, from.text())?;
    push_why(alloc, text, fault)?;
    Ok(())
}

/// Adds the line of a reply to a client.
fn push_to_client(
    alloc: Global,
    text: &mut String,
    from: &Caller,
    id: u64,
    outcome: &Result<StateBytes, Fault>,
) -> Result<(), AllocError>
    ensures { OnOk result (string_bytes text.new ≡ string_bytes text.old ++ line_to (party.Client from.now id) outcome.now) }
{
    match outcome {
        Ok(state) => push_done(alloc, text, from, id, state),
        Err(fault) => push_refused(alloc, text, from, id, fault),
    }
}

/// Adds the line of a reply to a grain.
fn push_to_grain(
    alloc: Global,
    text: &mut String,
    from: &GrainId,
    outcome: &Result<StateBytes, Fault>,
) -> Result<(), AllocError>
    ensures { OnOk result (string_bytes text.new ≡ string_bytes text.old ++ line_to (party.Grain from.now) outcome.now) }
{
    match outcome {
        Ok(state) => push_done_to_grain(alloc, text, from, state),
        Err(fault) => push_refused_to_grain(alloc, text, from, fault),
    }
}

/// Adds the line of a reply to the text, without its LF. After an `Err` the text may hold a part
/// of it.
pub fn push_reply(alloc: Global, text: &mut String, reply: &Reply) -> Result<(), AllocError>
    ensures { OnOk result (string_bytes text.new ≡ string_bytes text.old ++ line_of reply.now) }
{
    match &reply.recipient {
        Party::Client(caller, id) => push_to_client(alloc, text, caller, *id, &reply.outcome),
        Party::Grain(grain) => push_to_grain(alloc, text, grain, &reply.outcome),
    }
}

/// Adds the line of each reply to the text, with its LF. After an `Err` the text may hold some of them,
/// and a part of one.
pub fn push_replies(alloc: Global, text: &mut String, replies: &[Reply]) -> Result<(), AllocError>
    ensures { OnOk result (string_bytes text.new ≡ string_bytes text.old ++ texts_of replies.now) }
{
    for reply in replies {
        push_reply(alloc, text, reply)?;
        text.push_str("\n")?;
    }
    Ok(())
}

/// The line of a reply, without its LF.
pub fn reply_text(alloc: Global, reply: &Reply) -> Result<String, AllocError>
    ensures { IfOk result (λ text. string_bytes text ≡ line_of reply.now) }
{
    let mut text = String::new(alloc);
    push_reply(alloc, &mut text, reply)?;
    Ok(text)
}

/// The line of a refusal, without its LF.
pub fn refusal_text(alloc: Global, refusal: LineRefusal) -> Result<String, AllocError>
    ensures { IfOk result (λ text. string_bytes text ≡ refusal_line refusal) }
{
    let mut text = String::new(alloc);
    push_refusal(alloc, &mut text, refusal)?;
    Ok(text)
}

/// The fault that a refusal of a line stands for.
fn fault_of(refusal: LineRefusal) -> Fault
    ensures { result ≡ fault_of refusal }
{
    match refusal {
        LineRefusal::NotARequest => Fault::NotARequest,
        LineRefusal::TooLong => Fault::TooLong,
    }
}

/// Adds `{"error":C,"text":T}`.
fn push_fault(alloc: Global, text: &mut String, fault: &Fault) -> Result<(), AllocError>
    ensures { OnOk result (string_bytes text.new ≡ string_bytes text.old ++ fault_line fault.now) }
{
    push(text, "{\"error\":")?;
    push_natural(text, u64::from(fault.code()))?;
    push_why(alloc, text, fault)?;
    Ok(())
}

/// Adds the line of a refusal to the text, without its LF. After an `Err` the text may hold a part of it.
pub fn push_refusal(
    alloc: Global,
    text: &mut String,
    refusal: LineRefusal,
) -> Result<(), AllocError>
    ensures { OnOk result (string_bytes text.new ≡ string_bytes text.old ++ refusal_line refusal) }
{
    let fault = fault_of(refusal);
    let pushed = push_fault(alloc, text, &fault);
    drop(fault);
    pushed
}

/// Adds the line of a step that isn't possible now, without its LF. After an `Err` the text is as it was.
pub fn push_not_now(text: &mut String) -> Result<(), AllocError>
    ensures { OnOk result (string_bytes text.new ≡ string_bytes text.old ++ not_now_line) }
{
    text.push_str("{\"text\":\"not now\"}")
}
