//! The lanes that the lines of an input make up.

use client_lanes::Lane;
use grain_id::{Caller, GrainId, HashSeed};
use line_parser::{Line, LineRefusal};
use line_service::{LanesAndRefusals, asked_by};
use silo_event::{Moment, Step};
use std::alloc::Global;
use std::test::Fail;

/// A client asks under this number.
fn status(alloc: Global, caller: &str, id: u64) -> Result<Line, Fail> {
    Ok(Line::Step(Step::Status {
        caller: Caller::read(alloc, caller)?,
        id,
    }))
}

fn tick(now: u64) -> Result<Line, Fail> {
    Ok(Line::Step(Step::Tick {
        now: Moment::new(now).ok_or("no moment")?,
    }))
}

fn activate(alloc: Global) -> Result<Line, Fail> {
    Ok(Line::Step(Step::Activate {
        grain: GrainId::read(alloc, "counter/red:a")?,
    }))
}

/// Whether the lane is this client's.
fn is_of(alloc: Global, lane: &Lane, caller: &str) -> Result<bool, Fail> {
    let caller = Caller::read(alloc, caller)?;
    Ok(*lane.from() == Some(caller))
}

fn add_status(alloc: Global, lines: &mut Vec<Line>, caller: &str, id: u64) -> Result<(), Fail> {
    let line = status(alloc, caller, id)?;
    lines.push(line)?;
    Ok(())
}

fn add_tick(lines: &mut Vec<Line>, now: u64) -> Result<(), Fail> {
    let line = tick(now)?;
    lines.push(line)?;
    Ok(())
}

/// Lines of two clients and of nobody.
fn mixed(alloc: Global) -> Result<Vec<Line>, Fail> {
    let mut lines = Vec::new(alloc);
    add_status(alloc, &mut lines, "red/c2", 1)?;
    add_tick(&mut lines, 5)?;
    add_status(alloc, &mut lines, "red/c1", 2)?;
    add_status(alloc, &mut lines, "red/c2", 3)?;
    lines.push(Line::Step(Step::Sweep))?;
    Ok(lines)
}

/// Whether the lanes are of the clients and of nobody, in the order of their first lines.
fn are_in_order(alloc: Global, lanes: &[Lane]) -> Result<bool, Fail> {
    let [first, second, third] = lanes else {
        return Ok(false);
    };
    let last = is_of(alloc, third, "red/c1")?;
    Ok(last && second.from().is_none() && is_of(alloc, first, "red/c2")?)
}

/// Whether each lane has its lines, in order.
fn have_their_lines(lanes: &[Lane]) -> bool {
    let [first, second, third] = lanes else {
        return false;
    };
    matches!(
        first.steps(),
        [Step::Status { id: 1, .. }, Step::Status { id: 3, .. }]
    ) && matches!(second.steps(), [Step::Tick { .. }, Step::Sweep])
        && third.steps().len() == 1
}

/// Whether nothing is refused and the lanes have their lines, in the order of their first lines.
fn are_lanes_of_mixed(alloc: Global, asked: &LanesAndRefusals) -> Result<bool, Fail> {
    let in_order = are_in_order(alloc, &asked.lanes)?;
    Ok(in_order && have_their_lines(&asked.lanes) && asked.refusals.is_empty())
}

/// Whether the mixed lines make up their lanes.
fn mixed_lines_ask(alloc: Global) -> Result<bool, Fail> {
    let asked = asked_by(alloc, HashSeed::fixed(), mixed(alloc)?)?;
    let found = are_lanes_of_mixed(alloc, &asked);
    drop(asked);
    found
}

#[test]
fn lanes_stand_in_the_order_of_their_first_lines(rt: HostRuntime) -> Result<(), Fail> {
    assert!(rt; mixed_lines_ask(rt.alloc())?);
    Ok(())
}

/// Lines of which all but the tick are refused or say nothing.
fn refused(alloc: Global) -> Result<Vec<Line>, Fail> {
    let mut lines = Vec::new(alloc);
    lines.push(Line::Refusal(LineRefusal::TooLong))?;
    lines.push(Line::Nothing)?;
    lines.push(activate(alloc)?)?;
    add_tick(&mut lines, 1)?;
    lines.push(Line::Refusal(LineRefusal::TooLong))?;
    Ok(lines)
}

/// Whether there is one lane, and the refusals are those of the lines, in order.
fn are_refused(asked: &LanesAndRefusals) -> bool {
    let in_order = matches!(
        asked.refusals.as_slice(),
        [
            LineRefusal::TooLong,
            LineRefusal::NotARequest,
            LineRefusal::TooLong
        ]
    );
    in_order && asked.lanes.len() == 1
}

#[test]
fn what_no_lane_gives_is_refused_in_order(rt: HostRuntime) -> Result<(), Fail> {
    let alloc = rt.alloc();
    let asked = asked_by(alloc, HashSeed::fixed(), refused(alloc)?)?;
    assert!(rt; are_refused(&asked));
    Ok(())
}
