//! The steps of a journal's lines, read of their fields.

ghost use Rattle.std.specs.Prelude.{◌≡◌, ◌<◌, ◌^◌, IfOk, IsTrue};
ghost use Rattle.grain_id.specs.Names.{is_grain};
ghost use Rattle.journal_text.specs.inside.Answers.{Reads};
ghost use Rattle.journal_text.specs.inside.Candidates.{refuse_of, call_of, poke_of, status_of, load_of};
ghost use Rattle.journal_text.specs.inside.Candidates.{store_of, grain_of, number_of, ◌⊗◌, tick_of, step_of};
ghost use Rattle.journal_text.specs.declared.form.Form.{Form};
ghost use Rattle.journal_text.specs.Rules.{IsStep, IsNumber};

use crate::fault::LineFault;
use crate::fields::{
    cut, parse_caller, parse_grain, parse_mark, parse_message, parse_number, parse_refusal,
    parse_state,
};
use crate::form::Form;
use grain_id::{GrainId, NameCache};
use request_codec::SharedState;
use silo_event::{Moment, Step};
use std::alloc::Global;

/// What follows `refuse`.
fn parse_refuse(
    alloc: Global,
    form: Form,
    names: &mut NameCache,
    fields: &str,
) -> Result<Step, LineFault>
    ensures gives { Reads (λ read. read) result (refuse_of form fields.now) }
    ensures is_step { IfOk result (IsStep form) }
{
    let (caller, fields) = cut(fields, ' ')?;
    let caller = parse_caller(alloc, names, caller)?;
    let (id, code) = cut(fields, ' ')?;
    let id = parse_number(id)?;
    let code = parse_refusal(form, code)?;
    Ok(Step::Refuse { caller, id, code })
}

/// What follows `call`.
fn parse_call(
    alloc: Global,
    form: Form,
    names: &mut NameCache,
    fields: &str,
) -> Result<Step, LineFault>
    ensures gives { Reads (λ read. read) result (call_of form fields.now) }
    ensures is_step { IfOk result (IsStep form) }
{
    let (caller, fields) = cut(fields, ' ')?;
    let caller = parse_caller(alloc, names, caller)?;
    let (id, fields) = cut(fields, ' ')?;
    let id = parse_number(id)?;
    let (grain, message) = cut(fields, ' ')?;
    let grain = parse_grain(alloc, names, grain)?;
    let message = parse_message(alloc, form, message)?;
    Ok(Step::Call {
        caller,
        id,
        grain,
        message,
    })
}

/// What follows `status`.
fn parse_status(alloc: Global, names: &mut NameCache, fields: &str) -> Result<Step, LineFault>
    ensures gives { Reads (λ read. read) result (status_of fields.now) }
    ensures is_step { (form : Form) → IfOk result (IsStep form) }
{
    let (caller, id) = cut(fields, ' ')?;
    let caller = parse_caller(alloc, names, caller)?;
    let id = parse_number(id)?;
    Ok(Step::Status { caller, id })
}

/// What follows `poke`.
fn parse_poke(
    alloc: Global,
    form: Form,
    names: &mut NameCache,
    fields: &str,
) -> Result<Step, LineFault>
    ensures gives { Reads (λ read. read) result (poke_of form fields.now) }
    ensures is_step { IfOk result (IsStep form) }
{
    let (caller, fields) = cut(fields, ' ')?;
    let caller = parse_caller(alloc, names, caller)?;
    let (id, fields) = cut(fields, ' ')?;
    let id = parse_number(id)?;
    let (grain, fields) = cut(fields, ' ')?;
    let grain = parse_grain(alloc, names, grain)?;
    let (mark, state) = cut(fields, ' ')?;
    let failed = parse_mark(mark)?;
    let state = parse_state(alloc, form, state)?;
    Ok(Step::Poke {
        failed,
        caller,
        id,
        grain,
        state: SharedState::new(alloc, state)?,
    })
}

/// What follows `load`.
fn parse_load(alloc: Global, names: &mut NameCache, fields: &str) -> Result<Step, LineFault>
    ensures gives { Reads (λ read. read) result (load_of fields.now) }
    ensures is_step { (form : Form) → IfOk result (IsStep form) }
{
    let (grain, mark) = cut(fields, ' ')?;
    let grain = parse_grain(alloc, names, grain)?;
    let failed = parse_mark(mark)?;
    Ok(Step::Load { grain, failed })
}

/// What follows `store`.
fn parse_store(alloc: Global, names: &mut NameCache, fields: &str) -> Result<Step, LineFault>
    ensures gives { Reads (λ read. read) result (store_of fields.now) }
    ensures is_step { (form : Form) → IfOk result (IsStep form) }
{
    let (grain, fields) = cut(fields, ' ')?;
    let grain = parse_grain(alloc, names, grain)?;
    let (turn, mark) = cut(fields, ' ')?;
    let turn = parse_number(turn)?;
    let failed = parse_mark(mark)?;
    Ok(Step::Store {
        grain,
        turn,
        failed,
    })
}

/// A grain and a turn, as they follow `end` and `abandon`.
fn parse_turn(
    alloc: Global,
    names: &mut NameCache,
    fields: &str,
) -> Result<(GrainId, u64), LineFault>
    ensures gives { Reads (λ read. read) result ((grain_of ⊗ number_of) fields.now) }
    ensures well_formed { IfOk result (λ read. IsTrue (is_grain read.0) × IsNumber read.1) }
{
    let (grain, turn) = cut(fields, ' ')?;
    let grain = parse_grain(alloc, names, grain)?;
    let turn = parse_number(turn)?;
    Ok((grain, turn))
}

/// What follows `tick`.
fn parse_tick(field: &str) -> Result<Step, LineFault>
    ensures gives { Reads (λ read. read) result (tick_of field.now) }
    ensures is_step { (form : Form) → IfOk result (IsStep form) }
{
    let now = parse_number(field)?;
    match Moment::new(now) {
        Some(now) => Ok(Step::Tick { now }),
        None => Err(LineFault::NoForm),
    }
}

/// The step of a word and the fields after it.
pub(crate) fn parse_step(
    alloc: Global,
    form: Form,
    names: &mut NameCache,
    word: &str,
    fields: &str,
) -> Result<Step, LineFault>
    ensures gives { Reads (λ read. read) result (step_of form word.now fields.now) }
    ensures is_step { IfOk result (IsStep form) }
{
    match word {
        "refuse" => parse_refuse(alloc, form, names, fields),
        "call" => parse_call(alloc, form, names, fields),
        "poke" => parse_poke(alloc, form, names, fields),
        "status" => parse_status(alloc, names, fields),
        "deliver" => {
            let grain = parse_grain(alloc, names, fields)?;
            Ok(Step::Deliver { grain })
        }
        "activate" => {
            let grain = parse_grain(alloc, names, fields)?;
            Ok(Step::Activate { grain })
        }
        "load" => parse_load(alloc, names, fields),
        "begin" => {
            let grain = parse_grain(alloc, names, fields)?;
            Ok(Step::Begin { grain })
        }
        "store" => parse_store(alloc, names, fields),
        "end" => {
            let (grain, turn) = parse_turn(alloc, names, fields)?;
            Ok(Step::End { grain, turn })
        }
        "abandon" => {
            let (grain, turn) = parse_turn(alloc, names, fields)?;
            Ok(Step::Abandon { grain, turn })
        }
        "tick" => parse_tick(fields),
        _ => Err(LineFault::NoForm),
    }
}
