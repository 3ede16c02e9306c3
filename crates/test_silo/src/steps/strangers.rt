//! A turn of another silo is a stranger: nothing comes of it.

use crate::steps::methods::{begin, end, finished};
use crate::steps::rows::{ADD_3, ADD_4, FIRST_CALL, NOTHING, Worked};
use crate::steps::silos::{TestedSilo, new_silo, replies};
use crate::steps::trials::{Trial, shown, take_first, tried};
use grain_id::GrainId;
use grain_kinds::Kinds;
use grain_logic::{FinishedTurn, OpenedTurn};
use silo_event::StepFault;
use std::alloc::{AllocError, Global};
use std::test::Fail;
use test_helpers::lines::told;

/// The next turn of the counter, opened.
fn opened(alloc: Global, silo: &mut TestedSilo) -> Result<OpenedTurn, Fail> {
    let grain = GrainId::read(alloc, "counter/red:a")?;
    match begin(alloc, silo, grain)? {
        Some(turn) => Ok(turn),
        None => Err(Fail::from("no turn is opened")),
    }
}

/// The next turn of the counter after the lines, opened and run.
fn turn_behind(
    alloc: Global,
    silo: &mut TestedSilo,
    lines: &str,
) -> Result<FinishedTurn<Kinds>, Fail> {
    take_first(alloc, silo, lines, usize::MAX)?;
    let turn = opened(alloc, silo)?;
    Ok(finished(alloc, turn)?)
}

/// The first turn of another silo, in which 4 is added.
fn turn_of_another(alloc: Global) -> Result<FinishedTurn<Kinds>, Fail> {
    let mut silo = new_silo(alloc, &NOTHING)?;
    let turn = turn_behind(alloc, &mut silo, ADD_4);
    drop(silo);
    turn
}

/// Whether the turn is none of this silo's own.
fn is_stranger(
    alloc: Global,
    silo: &mut TestedSilo,
    turn: &FinishedTurn<Kinds>,
) -> Result<bool, Fail> {
    match end(alloc, silo, turn) {
        Err(StepFault::Stranger) => Ok(true),
        Err(StepFault::Memory) => Err(Fail::from(AllocError)),
        Ok(_) => Ok(false),
    }
}

/// Whether the turn is a stranger, and the silo shows what it showed before.
fn is_left(alloc: Global, silo: &mut TestedSilo, turn: &FinishedTurn<Kinds>) -> Result<bool, Fail> {
    let before = shown(alloc, silo)?;
    let stranger = is_stranger(alloc, silo, turn)?;
    let after = shown(alloc, silo)?;
    Ok(stranger && after.as_str() == before.as_str())
}

/// Whether the silo takes its own turn, and its replies are the row's.
fn is_taken(
    alloc: Global,
    silo: &mut TestedSilo,
    turn: &FinishedTurn<Kinds>,
    row: &Worked,
) -> Result<bool, Fail> {
    let stranger = is_stranger(alloc, silo, turn)?;
    let said = told(alloc, replies(silo))?;
    Ok(!stranger && said.as_str() == row.told)
}

/// Whether the silo leaves another's first turn.
fn leaves_another(alloc: Global, silo: &mut TestedSilo) -> Result<bool, Fail> {
    let other = turn_of_another(alloc)?;
    let left = is_left(alloc, silo, &other);
    drop(other);
    left
}

/// Whether the silo, with its own turn open, leaves another's turn, and then takes its own.
fn tells_apart_from(
    alloc: Global,
    silo: &mut TestedSilo,
    own: &FinishedTurn<Kinds>,
    row: &Worked,
) -> Result<bool, Fail> {
    let left = leaves_another(alloc, silo)?;
    let taken = is_taken(alloc, silo, own, row)?;
    Ok(left && taken)
}

/// The same of its first turn, in which 3 is added.
pub fn tells_apart(alloc: Global, silo: &mut TestedSilo, row: &Worked) -> Result<bool, Fail> {
    let own = turn_behind(alloc, silo, ADD_3)?;
    let apart = tells_apart_from(alloc, silo, &own, row);
    drop(own);
    apart
}

#[test]
fn another_silos_turn_is_a_stranger(rt: HostRuntime) -> Result<(), Fail> {
    tried(rt.alloc(), Trial::Stranger, &FIRST_CALL)
}
