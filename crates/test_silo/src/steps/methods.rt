//! A silo that is asked by the method for each kind of step.

use crate::steps::silos::{TestedSilo, apply};
use bumpalo::Bump;
use grain_id::GrainId;
use grain_kinds::Kinds;
use grain_logic::{FinishedTurn, OpenedTurn, run_turn};
use silo_event::{Answer, Step, StepFault};
use std::alloc::{AllocError, Global};
use std::test::Fail;

/// What a client asks, and a delivery. Any other step is a grain's.
fn ask(alloc: Global, silo: &mut TestedSilo, step: Step) -> Result<Answer, StepFault> {
    match step {
        Step::Refuse { caller, id, code } => silo.refuse(alloc, caller, id, code),
        Step::Call {
            caller,
            id,
            grain,
            message,
        } => silo.call(alloc, caller, id, grain, message),
        Step::Poke {
            failed,
            caller,
            id,
            grain,
            state,
        } => silo.poke(alloc, caller, id, grain, state.state().clone()?, failed),
        Step::Status { caller, id } => silo.status(alloc, caller, id),
        Step::Deliver { grain } => silo.deliver(alloc, grain),
        other => move_on(alloc, silo, other),
    }
}

/// What comes of entries and of time.
fn move_on(alloc: Global, silo: &mut TestedSilo, step: Step) -> Result<Answer, StepFault> {
    match step {
        Step::Activate { grain } => silo.activate(alloc, grain),
        Step::Load { grain, failed } => silo.load(alloc, grain, failed),
        Step::Abandon { grain, turn } => silo.abandon(alloc, grain, turn),
        Step::Tick { now } => silo.tick(alloc, now),
        Step::Sweep => silo.sweep(alloc),
        other => silo.apply(alloc, other),
    }
}

/// The turn that is opened.
pub fn begin(
    alloc: Global,
    silo: &mut TestedSilo,
    grain: GrainId,
) -> Result<Option<OpenedTurn>, StepFault> {
    silo.begin(alloc, grain)
}

/// Closes a turn that makes no storage call.
pub fn end(
    alloc: Global,
    silo: &mut TestedSilo,
    turn: &FinishedTurn<Kinds>,
) -> Result<Answer, StepFault> {
    silo.end(alloc, turn)
}

/// Closes a turn that makes a storage call.
fn store(
    alloc: Global,
    silo: &mut TestedSilo,
    turn: &FinishedTurn<Kinds>,
) -> Result<Answer, StepFault> {
    silo.store(alloc, turn, false)
}

/// The turn, run in an arena of its own.
pub fn finished(alloc: Global, turn: OpenedTurn) -> Result<FinishedTurn<Kinds>, AllocError> {
    let bump = Bump::new(alloc);
    match run_turn(alloc, &bump, &Kinds, turn) {
        Ok(finished) => Ok(finished),
        Err(back) => {
            drop(back);
            Err(AllocError)
        }
    }
}

/// Opens a turn and runs it.
fn open(
    alloc: Global,
    silo: &mut TestedSilo,
    turns: &mut Vec<FinishedTurn<Kinds>>,
    grain: GrainId,
) -> Result<Answer, Fail> {
    let Some(turn) = begin(alloc, silo, grain)? else {
        return Ok(Answer::NotNow);
    };
    turns.push(finished(alloc, turn)?)?;
    Ok(Answer::Done)
}

/// Closes a turn. `asks` says whether it makes a storage call.
fn close_turn(
    alloc: Global,
    silo: &mut TestedSilo,
    turn: &FinishedTurn<Kinds>,
    asks: bool,
) -> Result<Answer, StepFault> {
    if asks {
        store(alloc, silo, turn)
    } else {
        end(alloc, silo, turn)
    }
}

/// Closes the turn that was opened last, if there is one, or else by the step.
fn close(
    alloc: Global,
    silo: &mut TestedSilo,
    turns: &mut Vec<FinishedTurn<Kinds>>,
    step: Step,
) -> Result<Answer, Fail> {
    let Some(turn) = turns.pop() else {
        return Ok(apply(alloc, silo, step)?);
    };
    let closed = close_turn(alloc, silo, &turn, matches!(step, Step::Store { .. }));
    drop(turn);
    drop(step);
    Ok(closed?)
}

/// Takes a step by the method for its kind.
pub fn take(
    alloc: Global,
    silo: &mut TestedSilo,
    turns: &mut Vec<FinishedTurn<Kinds>>,
    step: Step,
) -> Result<Answer, Fail> {
    match step {
        Step::Begin { grain } => open(alloc, silo, turns, grain),
        Step::Store { .. } | Step::End { .. } => close(alloc, silo, turns, step),
        other => Ok(ask(alloc, silo, other)?),
    }
}
