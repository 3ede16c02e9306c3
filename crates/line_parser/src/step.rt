//! The step that the members of a line request.

ghost use Rattle.std.specs.Prelude.{◌≡◌, Some, None, IfSome, IfNone, IfOk, option_map};
ghost use Rattle.serde_json.specs.Data.{Data};
ghost use Rattle.line_parser.specs.Form.{where_so, has_members, grain_at, turn_alone, load_of, store_of, tick_of, sweep_of, form_of};
ghost use Rattle.line_parser.specs.Form.{step_of_json};
ghost use Rattle.line_parser.specs.inside.Step.{form_text, of_form, said_by, AreMembersOf, FindsIn, Finds};

use crate::line_members::{LineMembers, ValueIn};
use crate::messages::Messages;
use crate::named::{failed_of, grain_of};
use crate::request::{call_from, poke_from, status_from};
use crate::scan::same_text;
use grain_id::{GrainId, NameCache};
use silo_event::{Moment, Step};
use std::alloc::{AllocError, Global};

/// The forms of a line.
#[derive(Clone, Copy)]
pub(crate) enum Form {
    Call,
    Poke,
    Status,
    Deliver,
    Activate,
    Load,
    Begin,
    Store,
    End,
    Abandon,
    Tick,
    Sweep,
}

/// The word that names a form.
#[inline(always)]
pub(crate) fn word_of(form: Form) -> &'static str
    ensures { result.now ≡ form_text form }
{
    match form {
        Form::Call => "call",
        Form::Poke => "poke",
        Form::Status => "status",
        Form::Deliver => "deliver",
        Form::Activate => "activate",
        Form::Load => "load",
        Form::Begin => "begin",
        Form::Store => "store",
        Form::End => "end",
        Form::Abandon => "abandon",
        Form::Tick => "tick",
        Form::Sweep => "sweep",
    }
}

/// The form, if `op` names it.
#[inline(always)]
fn if_named(op: &str, form: Form) -> Option<Form>
    ensures { IfSome result (λ found. op.now ≡ form_text found) }
{
    if same_text(op, word_of(form)) {
        Some(form)
    } else {
        None
    }
}

/// The form that `op` most likely names: by its length and a byte, one word alone is compared.
#[inline(always)]
fn likely_form(op: &str) -> Option<Form>
    ensures { IfSome result (λ form. op.now ≡ form_text form) }
{
    let bytes = op.as_bytes();
    match bytes.len() {
        3 => if_named(op, Form::End),
        4 => match bytes[0] {
            b'c' => if_named(op, Form::Call),
            b'l' => if_named(op, Form::Load),
            b'p' => if_named(op, Form::Poke),
            _ => if_named(op, Form::Tick),
        },
        5 => match bytes[1] {
            b'e' => if_named(op, Form::Begin),
            b't' => if_named(op, Form::Store),
            _ => if_named(op, Form::Sweep),
        },
        6 => if_named(op, Form::Status),
        7 => match bytes[0] {
            b'd' => if_named(op, Form::Deliver),
            _ => if_named(op, Form::Abandon),
        },
        8 => if_named(op, Form::Activate),
        _ => None,
    }
}

/// The form that `op` names, compared with each word.
#[tactic(auto, unfolding(crate::specs::Form::form_of))]
#[cold]
#[inline(never)]
fn form_of_any(op: &str) -> Option<Form>
    ensures known { IfSome result (λ form. op.now ≡ form_text form) }
    ensures other { IfNone result ((d : Data) → form_of op.now d ≡ None) }
{
    match op {
        "call" => Some(Form::Call),
        "poke" => Some(Form::Poke),
        "status" => Some(Form::Status),
        "deliver" => Some(Form::Deliver),
        "activate" => Some(Form::Activate),
        "load" => Some(Form::Load),
        "begin" => Some(Form::Begin),
        "store" => Some(Form::Store),
        "end" => Some(Form::End),
        "abandon" => Some(Form::Abandon),
        "tick" => Some(Form::Tick),
        "sweep" => Some(Form::Sweep),
        _ => None,
    }
}

/// The form that `op` names.
pub(crate) fn form_of(op: &str) -> Option<Form>
    ensures { (d : Data) → form_of op.now d ≡ said_by result d }
{
    match likely_form(op) {
        Some(form) => Some(form),
        None => form_of_any(op),
    }
}

/// The grain, if there is nothing else beside `op`.
#[inline(always)]
fn grain_from(
    alloc: Global,
    names: &mut NameCache,
    members: &LineMembers<'_>,
) -> Result<Option<GrainId>, AllocError>
    ensures { IfOk result (λ grain. Finds members.now (λ d. where_so (has_members 2 d) (grain_at d)) grain) }
{
    if members.count != 2 {
        return Ok(None);
    }
    grain_of(alloc, names, members)
}

/// The load of a grain, if the members are those of a load.
#[inline(always)]
fn load_from(
    alloc: Global,
    names: &mut NameCache,
    members: &LineMembers<'_>,
) -> Result<Option<Step>, AllocError>
    ensures { IfOk result (λ step. Finds members.now load_of step) }
{
    let Some(failed) = failed_of(members, 2) else {
        return Ok(None);
    };
    let Some(grain) = grain_of(alloc, names, members)? else {
        return Ok(None);
    };
    Ok(Some(Step::Load { grain, failed }))
}

/// The storage call of a turn, if the members are those of one.
#[inline(always)]
fn store_from(
    alloc: Global,
    names: &mut NameCache,
    members: &LineMembers<'_>,
) -> Result<Option<Step>, AllocError>
    ensures { IfOk result (λ step. Finds members.now store_of step) }
{
    let Some(failed) = failed_of(members, 3) else {
        return Ok(None);
    };
    let Some(grain) = grain_of(alloc, names, members)? else {
        return Ok(None);
    };
    let Some(turn) = members.turn else {
        return Ok(None);
    };
    Ok(Some(Step::Store {
        grain,
        turn,
        failed,
    }))
}

/// The grain and the turn, if there is nothing else beside `op`.
#[inline(always)]
fn turn_from(
    alloc: Global,
    names: &mut NameCache,
    members: &LineMembers<'_>,
) -> Result<Option<(GrainId, u64)>, AllocError>
    ensures { IfOk result (λ found. Finds members.now turn_alone found) }
{
    if members.count != 3 {
        return Ok(None);
    }
    let Some(grain) = grain_of(alloc, names, members)? else {
        return Ok(None);
    };
    let Some(turn) = members.turn else {
        return Ok(None);
    };
    Ok(Some((grain, turn)))
}

/// The tick, if the members are those of a tick.
fn tick_from(members: &LineMembers<'_>) -> Option<Step>
    ensures { Finds members.now tick_of result }
{
    if members.count != 2 {
        return None;
    }
    let now = Moment::new(members.moment?)?;
    Some(Step::Tick { now })
}

/// The sweep, if `op` is the only member.
fn sweep_from(members: &LineMembers<'_>) -> Option<Step>
    ensures { Finds members.now sweep_of result }
{
    if members.count != 1 {
        return None;
    }
    Some(Step::Sweep)
}

/// The step that the members request, if they are those of the form.
#[inline(always)]
fn read_form(
    alloc: Global,
    names: &mut NameCache,
    messages: &mut Messages,
    members: &LineMembers<'_>,
    value: ValueIn<'_>,
    form: Form,
) -> Result<Option<Step>, AllocError>
    requires { (d : Data) × AreMembersOf d members.now value }
    ensures { IfOk result (λ step. FindsIn members.now value.entry (of_form form) step) }
{
    match form {
        Form::Call => call_from(alloc, names, messages, members, value),
        Form::Poke => poke_from(alloc, names, members, value),
        Form::Status => status_from(alloc, names, members),
        Form::Deliver => Ok(grain_from(alloc, names, members)?.map(|grain| Step::Deliver {
            grain,
        })),
        Form::Activate => Ok(grain_from(alloc, names, members)?.map(|grain| Step::Activate {
            grain,
        })),
        Form::Load => load_from(alloc, names, members),
        Form::Begin => Ok(grain_from(alloc, names, members)?.map(|grain| Step::Begin { grain })),
        Form::Store => store_from(alloc, names, members),
        Form::End => Ok(turn_from(alloc, names, members)?.map(|(grain, turn)| Step::End {
            grain,
            turn,
        })),
        Form::Abandon => Ok(turn_from(alloc, names, members)?.map(|(grain, turn)| Step::Abandon {
            grain,
            turn,
        })),
        Form::Tick => Ok(tick_from(members)),
        Form::Sweep => Ok(sweep_from(members)),
    }
}

/// The step that the members request.
#[inline(always)]
pub(crate) fn step_from(
    alloc: Global,
    names: &mut NameCache,
    messages: &mut Messages,
    members: &LineMembers<'_>,
    value: ValueIn<'_>,
) -> Result<Option<Step>, AllocError>
    requires { (d : Data) × AreMembersOf d members.now value }
    ensures { IfOk result (λ step. FindsIn members.now value.entry step_of_json step) }
{
    let Some(op) = members.op else {
        return Ok(None);
    };
    let Some(form) = form_of(op) else {
        return Ok(None);
    };
    read_form(alloc, names, messages, members, value, form)
}

/// The step that the members of a line request, whose `op` has to name the form.
#[inline(always)]
pub(crate) fn step_of_form(
    alloc: Global,
    names: &mut NameCache,
    messages: &mut Messages,
    members: &LineMembers<'_>,
    value: ValueIn<'_>,
    form: Form,
) -> Result<Option<Step>, AllocError>
    requires members { (d : Data) × AreMembersOf d members.now value }
    requires named { option_map (λ op. op.now) members.now.op ≡ Some (form_text form) }
    ensures { IfOk result (λ step. FindsIn members.now value.entry step_of_json step) }
{
    read_form(alloc, names, messages, members, value, form)
}

/// The step that the members of a line request, if `op` is `call`. If none is returned, they may still request one.
#[inline(always)]
pub(crate) fn call_step_from(
    alloc: Global,
    names: &mut NameCache,
    messages: &mut Messages,
    members: &LineMembers<'_>,
    value: ValueIn<'_>,
) -> Result<Option<Step>, AllocError>
    requires { (d : Data) × AreMembersOf d members.now value }
    ensures { IfOk result (λ found. IfSome found (λ step. FindsIn members.now value.entry step_of_json (Some step))) }
{
    let Some(op) = members.op else {
        return Ok(None);
    };
    if !same_text(op, word_of(Form::Call)) {
        return Ok(None);
    }
    call_from(alloc, names, messages, members, value)
}
