//! Lanes of clients, and what is looked at once they were served.

use crate::asked::{client, lanes_of};
use client_lanes::{Lane, LaneFault, answers, distinct, failed_in, lanes_stand};
use grain_id::{Caller, GrainId, HashSeed};
use silo_event::{Party, Refusal, Reply, Step};
use std::alloc::Global;
use std::test::Fail;
use test_helpers::lines::steps_of;
use test_helpers::verdicts::holds;

/// The fault of a lane of these steps, if it has one.
fn fault_of(from: Option<Caller>, steps: Vec<Step>) -> Option<LaneFault> {
    Lane::new(from, steps).err()
}

/// Fails, unless the lane of a client, or of nobody, may not give the step of the line at that place.
fn is_foreign(alloc: Global, caller: &str, lines: &str, place: usize) -> Result<(), Fail> {
    let steps = steps_of(alloc, lines)?;
    match fault_of(client(alloc, caller)?, steps) {
        Some(LaneFault::Foreign(first)) => holds(first == place),
        _ => holds(false),
    }
}

const TICK: &str = r#"{"op":"tick","now":1}"#;

const TICK_AND_STATUS: &str = r#"{"op":"tick","now":1}
{"op":"status","from":"red/c1","id":1}
"#;

#[test]
fn a_tick_is_foreign_to_a_client(rt: HostRuntime) -> Result<(), Fail> {
    is_foreign(rt.alloc(), "red/c1", TICK, 0)?;
    is_foreign(rt.alloc(), "", TICK_AND_STATUS, 1)
}

/// A lane of red's first client, with two steps.
const FIRST: (&str, &str) = (
    "red/c1",
    r#"{"op":"status","from":"red/c1","id":0}
{"op":"status","from":"red/c1","id":1}
"#,
);

/// A lane of red's second one.
const SECOND: (&str, &str) = ("red/c2", r#"{"op":"status","from":"red/c2","id":0}"#);

/// A lane of nobody: two ticks, of which the second is earlier than the clock, and a sweep.
const NOBODYS: (&str, &str) = (
    "",
    r#"{"op":"tick","now":5}
{"op":"tick","now":3}
{"op":"sweep"}
"#,
);

static OF_TWO_CLIENTS: [(&str, &str); 2] = [FIRST, SECOND];

static TWICE_OF_ONE: [(&str, &str); 3] = [FIRST, SECOND, FIRST];

static OF_ONE_AND_NOBODY: [(&str, &str); 2] = [FIRST, NOBODYS];

static OF_TWO_AND_NOBODY: [(&str, &str); 3] = [FIRST, NOBODYS, SECOND];

/// Fails, unless these lanes are distinct, or are not.
fn are_distinct(alloc: Global, asked: &[(&str, &str)], wanted: bool) -> Result<(), Fail> {
    holds(distinct(&lanes_of(alloc, asked)?) == wanted)
}

#[test]
fn lanes_are_distinct_by_their_clients(rt: HostRuntime) -> Result<(), Fail> {
    are_distinct(rt.alloc(), &OF_TWO_CLIENTS, true)?;
    are_distinct(rt.alloc(), &TWICE_OF_ONE, false)
}

/// Whether the lanes stand in the journal.
fn stand(alloc: Global, lanes: &[Lane], journal: &[Step]) -> Result<bool, Fail> {
    if !distinct(lanes) {
        return Err(Fail::from("two lanes are of one client"));
    }
    Ok(lanes_stand(alloc, HashSeed::new(7), lanes, journal)?)
}

/// Fails, unless a client's lane and nobody's stand in the journal of these lines, or don't.
fn stand_in(alloc: Global, lines: &str, wanted: bool) -> Result<(), Fail> {
    let lanes = lanes_of(alloc, &OF_ONE_AND_NOBODY)?;
    let journal = steps_of(alloc, lines)?;
    holds(stand(alloc, &lanes, &journal)? == wanted)
}

/// Their journal but for the client's second step.
const WITHOUT: &str = r#"{"op":"status","from":"red/c1","id":0}
{"op":"tick","now":5}
{"op":"sweep"}
"#;

/// That with the step that it lacks.
const WHOLE: &str = r#"{"op":"status","from":"red/c1","id":0}
{"op":"tick","now":5}
{"op":"sweep"}
{"op":"status","from":"red/c1","id":1}
"#;

/// That with a step that is of no lane.
const WITH_A_FOREIGN_STEP: &str = r#"{"op":"status","from":"red/c1","id":0}
{"op":"tick","now":5}
{"op":"sweep"}
{"op":"status","from":"red/c1","id":1}
{"op":"status","from":"red/c2","id":1}
"#;

#[test]
fn a_journal_without_a_step_of_a_lane_is_refused(rt: HostRuntime) -> Result<(), Fail> {
    stand_in(rt.alloc(), WITHOUT, false)?;
    stand_in(rt.alloc(), WHOLE, true)?;
    stand_in(rt.alloc(), WITH_A_FOREIGN_STEP, false)
}

/// Which of the steps a lane takes.
fn taken(alloc: Global, lane: &mut Lane, lines: &str) -> Result<Vec<bool>, Fail> {
    let mut taken = Vec::new(alloc);
    for step in steps_of(alloc, lines)? {
        taken.push(lane.push(step)?)?;
    }
    Ok(taken)
}

const OF_THREE: &str = r#"{"op":"status","from":"red/c1","id":1}
{"op":"status","from":"red/c2","id":2}
{"op":"tick","now":1}
"#;

/// Whether the lane takes the first of those alone.
fn takes_the_first(alloc: Global, lane: &mut Lane) -> Result<bool, Fail> {
    let taken = taken(alloc, lane, OF_THREE)?;
    Ok(taken.as_slice() == [true, false, false].as_slice() && lane.steps().len() == 1)
}

#[test]
fn a_lane_takes_what_it_may_give(rt: HostRuntime) -> Result<(), Fail> {
    let mut lane = Lane::empty(rt.alloc(), client(rt.alloc(), "red/c1")?);
    holds(takes_the_first(rt.alloc(), &mut lane)?)
}

/// A load that failed, one that didn't, a client's step, and a load that failed again.
const LOADS: &str = r#"{"op":"load","grain":"counter/red:a","failed":true}
{"op":"load","grain":"counter/red:a"}
{"op":"status","from":"red/c1","id":1}
{"op":"load","grain":"counter/red:a","failed":true}
"#;

/// Whether a client requests the step at that place.
fn is_asked(journal: &[Step], place: usize) -> bool {
    match journal.get(place) {
        Some(step) => step.asker().is_some(),
        None => false,
    }
}

/// Two steps failed. A client requests the third step, and nobody requests the first.
#[test]
fn failed_loads_are_counted(rt: HostRuntime) -> Result<(), Fail> {
    let journal = steps_of(rt.alloc(), LOADS)?;
    holds(failed_in(&journal) == 2 && !is_asked(&journal, 0) && is_asked(&journal, 2))
}

/// What each lane is answered.
fn answered(alloc: Global, lanes: &[Lane], replies: &[Reply]) -> Result<Vec<Vec<Reply>>, Fail> {
    if !distinct(lanes) {
        return Err(Fail::from("two lanes are of one client"));
    }
    Ok(answers(alloc, HashSeed::new(7), lanes, replies)?)
}

/// A reply to a party, with a refusal.
fn refused(recipient: Party) -> Reply {
    Reply {
        recipient,
        outcome: Err(Refusal::NotWhole.fault()),
    }
}

/// Adds a reply to a client.
fn add_told(alloc: Global, replies: &mut Vec<Reply>, caller: &str, id: u64) -> Result<(), Fail> {
    let caller = Caller::read(alloc, caller)?;
    replies.push(refused(Party::Client(caller, id)))?;
    Ok(())
}

/// Adds the replies to the two clients and a grain.
fn add_replies(alloc: Global, replies: &mut Vec<Reply>) -> Result<(), Fail> {
    add_told(alloc, replies, "red/c2", 7)?;
    let relay = GrainId::read(alloc, "relay/red:r")?;
    replies.push(refused(Party::Grain(relay)))?;
    add_told(alloc, replies, "red/c1", 8)?;
    add_told(alloc, replies, "red/c1", 9)
}

/// Whether the first client is answered twice, the second once, and nobody not at all.
fn are_their_own(answers: &[Vec<Reply>]) -> bool {
    let [first, second, third] = answers else {
        return false;
    };
    let last = match first.get(1) {
        Some(reply) => matches!(reply.recipient, Party::Client(_, 9)),
        None => false,
    };
    last && first.len() == 2 && second.is_empty() && third.len() == 1
}

/// Whether the lanes are answered their own of these replies.
fn are_answered(alloc: Global, lanes: &[Lane], replies: &[Reply]) -> Result<(), Fail> {
    let answers = answered(alloc, lanes, replies)?;
    holds(are_their_own(&answers))
}

#[test]
fn each_lane_is_answered_its_own(rt: HostRuntime) -> Result<(), Fail> {
    let lanes = lanes_of(rt.alloc(), &OF_TWO_AND_NOBODY)?;
    let mut replies = Vec::new(rt.alloc());
    add_replies(rt.alloc(), &mut replies)?;
    are_answered(rt.alloc(), &lanes, &replies)
}
