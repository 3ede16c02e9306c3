//! Turns in journals of two grains.

use grain_id::GrainId;
use silo_event::Step;
use std::alloc::Global;
use std::test::Fail;

/// One number for a turn of one of these grains: its own, and a thousand for each grain before.
pub fn code_of(grain: &GrainId, turn: u64) -> u64 {
    match grain.text() {
        "counter/red:a" => turn,
        "counter/blue:a" => turn.wrapping_add(1_000),
        _ => turn.wrapping_add(2_000),
    }
}

/// The turn that the step closes, if it closes one.
fn closed_by(step: &Step) -> Option<u64> {
    match step {
        Step::Store { grain, turn, .. } => Some(code_of(grain, *turn)),
        Step::End { grain, turn } => Some(code_of(grain, *turn)),
        Step::Abandon { grain, turn } => Some(code_of(grain, *turn)),
        Step::Refuse { .. } | Step::Call { .. } | Step::Poke { .. } | Step::Status { .. } => None,
        Step::Deliver { .. } | Step::Activate { .. } | Step::Load { .. } | Step::Begin { .. } =>
            None,
        Step::Tick { .. } | Step::Sweep => None,
    }
}

/// The turns that the journal's steps close, ascending.
pub fn closed_in(alloc: Global, journal: &[Step]) -> Result<Vec<u64>, Fail> {
    let mut codes = Vec::new(alloc);
    for step in journal {
        if let Some(code) = closed_by(step) {
            codes.push(code)?;
        }
    }
    codes.sort()?;
    Ok(codes)
}

/// The grains at which the journal's steps begin a turn, ascending.
pub fn begun_in(alloc: Global, journal: &[Step]) -> Result<Vec<u64>, Fail> {
    let mut codes = Vec::new(alloc);
    for step in journal {
        if let Step::Begin { grain } = step {
            codes.push(code_of(grain, 0))?;
        }
    }
    codes.sort()?;
    Ok(codes)
}

/// The grains of these turns, ascending.
pub fn grains_of(alloc: Global, codes: &[u64]) -> Result<Vec<u64>, Fail> {
    let mut grains = Vec::new(alloc);
    for code in codes {
        grains.push(code.wrapping_sub(*code % 1_000))?;
    }
    grains.sort()?;
    Ok(grains)
}

/// How many turns are open at once by the journal, at most.
pub fn most_open(journal: &[Step]) -> u32 {
    let mut open = 0u32;
    let mut most = 0u32;
    for step in journal {
        if let Step::Begin { .. } = step {
            open = open.saturating_add(1);
        }
        most = most.max(open);
        if closed_by(step).is_some() {
            open = open.saturating_sub(1);
        }
    }
    most
}
