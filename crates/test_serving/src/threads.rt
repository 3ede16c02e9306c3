//! Lanes that are served by threads: turns that are open at once, and answers in order.

use crate::asked::{FOUR, TWO, calls, lanes_of};
use crate::gates::{Together, TurnsMeet};
use crate::seen::{LEFT, Seen, Served, both_by, red_by, seen_when_served};
use grain_kinds::{Kinds, RestingKinds};
use std::sync::Wait;
use std::test::Fail;
use std::thread::Threads;
use test_helpers::meeting::Meeting;
use test_helpers::verdicts::holds;
use worker_host::{FreeGate, LaneFault, ServeFault};

/// Fails, unless the replies have these numbers.
fn are_told(seen: Result<Seen, Fail>, numbers: &[i64]) -> Result<(), Fail> {
    let seen = seen?;
    let told = seen.numbers.as_slice() == numbers;
    drop(seen);
    holds(told)
}

/// Fails, unless each client has replies with these ids, a line for each lane, and the replies have these numbers.
fn are_told_under(seen: Result<Seen, Fail>, ids: &str, numbers: &[i64]) -> Result<(), Fail> {
    let seen = seen?;
    let told = seen.ids.as_str() == ids && seen.numbers.as_slice() == numbers;
    drop(seen);
    holds(told)
}

/// Serves these lanes where turns meet. Fails, unless the turns meet or miss each other, as `met` says, and the replies
/// have these numbers.
fn is_met<R: AllocGlobal + Threads + Wait + Sync>(
    rt: &R,
    served: Served,
    asked: &[(&str, &str)],
    gate: &TurnsMeet,
    met: bool,
    numbers: &[i64],
) -> Result<(), Fail> {
    let lanes = lanes_of(rt.alloc(), asked)?;
    let seen = seen_when_served(rt, served, &lanes, Kinds, gate);
    are_told(seen, numbers)?;
    holds(gate.meeting.was_missed() != met)
}

#[test]
fn two_turns_are_open_at_once(rt: HostRuntime) -> Result<(), Fail> {
    is_met(&rt, both_by(2), &TWO, &TurnsMeet::new(2), true, &[0, 0])
}

#[test]
fn one_thread_misses(rt: HostRuntime) -> Result<(), Fail> {
    is_met(&rt, both_by(1), &TWO, &TurnsMeet::new(2), false, &[0, 0])
}

/// Two clients that add 1 to a counter, one of whom asks another counter then.
static THREE_TURNS: [(&str, &str); 2] = [
    (
        "red/c1",
        r#"{"op":"call","from":"red/c1","id":1,"grain":"counter/red:a","method":"add","args":{"by":1}}
{"op":"call","from":"red/c1","id":2,"grain":"counter/red:b","method":"get"}
"#,
    ),
    (
        "red/c2",
        r#"{"op":"call","from":"red/c2","id":1,"grain":"counter/red:a","method":"add","args":{"by":1}}
"#,
    ),
];

/// The second client waits for the first one's turn, and so does a worker. When that turn is closed, there
/// are two to run: one for each worker.
#[test]
fn a_worker_that_waits_is_woken(rt: HostRuntime) -> Result<(), Fail> {
    is_met(
        &rt,
        red_by(2),
        &THREE_TURNS,
        &TurnsMeet::later(2),
        true,
        &[0, 1, 2],
    )
}

#[test]
fn four_bodies_run_at_once(rt: HostRuntime) -> Result<(), Fail> {
    let meeting = Meeting::new(4);
    let together = Together { meeting: &meeting };
    let lanes = lanes_of(rt.alloc(), &FOUR)?;
    let seen = seen_when_served(&rt, both_by(4), &lanes, together, &FreeGate);
    are_told(seen, &[0, 0, 0, 0])?;
    holds(!meeting.was_missed())
}

/// What is seen where these lanes are served and nobody watches.
fn seen_of<R: AllocGlobal + Threads + Wait + Sync>(
    rt: &R,
    served: Served,
    asked: &[(&str, &str)],
) -> Result<Seen, Fail> {
    let lanes = lanes_of(rt.alloc(), asked)?;
    seen_when_served(rt, served, &lanes, Kinds, &FreeGate)
}

/// A lane of an `add` of 3, a `get`, and a status.
static THREE_STEPS: [(&str, &str); 1] = [(
    "red/c1",
    r#"{"op":"call","from":"red/c1","id":1,"grain":"counter/red:a","method":"add","args":{"by":3}}
{"op":"call","from":"red/c1","id":2,"grain":"counter/red:a","method":"get"}
{"op":"status","from":"red/c1","id":3}
"#,
)];

/// Serves that lane by this many workers. Fails, unless it is answered in its order. The status reply isn't a number.
fn are_in_order<R: AllocGlobal + Threads + Wait + Sync>(
    rt: &R,
    workers: usize,
) -> Result<(), Fail> {
    let seen = seen_of(rt, red_by(workers), &THREE_STEPS);
    are_told_under(seen, "1 2 3 \n", &[-1, 3, 3])
}

#[test]
fn a_lane_is_answered_in_its_order(rt: HostRuntime) -> Result<(), Fail> {
    are_in_order(&rt, 1)?;
    are_in_order(&rt, 2)?;
    are_in_order(&rt, 4)?;
    are_in_order(&rt, 64)
}

/// Whether these are 1, 2, 3 and so on.
fn count_up(numbers: &[i64]) -> bool {
    let mut wanted = 1;
    for number in numbers {
        if *number != wanted {
            return false;
        }
        wanted = wanted.wrapping_add(1);
    }
    true
}

/// Two lanes of a hundred calls that add 1.
#[test]
fn two_lanes_of_a_hundred_calls(rt: HostRuntime) -> Result<(), Fail> {
    let one = calls(
        rt.alloc(),
        "red/c1",
        0,
        100,
        r#""method":"add","args":{"by":1}"#,
    )?;
    let other = calls(
        rt.alloc(),
        "red/c2",
        0,
        100,
        r#""method":"add","args":{"by":1}"#,
    )?;
    let asked = [("red/c1", one.as_str()), ("red/c2", other.as_str())];
    let seen = seen_of(&rt, red_by(4), &asked)?;
    holds(seen.numbers.len() == 200 && count_up(&seen.numbers))
}

/// Whether each is a `get` of a new counter, or a turn that was abandoned.
fn are_right(numbers: &[i64]) -> bool {
    numbers.iter().all(|number| *number == 0 || *number == LEFT)
}

#[test]
fn served_with_little_memory(rt: HostRuntime) -> Result<(), Fail> {
    let seen = seen_of(&rt, both_by(2), &TWO)?;
    holds(seen.ids.as_str() == "1 \n1 \n" && are_right(&seen.numbers))
}

/// Serves the four lanes with this seed.
fn are_alike_by<R: AllocGlobal + Threads + Wait + Sync>(rt: &R, seed: u64) -> Result<(), Fail> {
    let mut served = both_by(2);
    served.seed = Some(seed);
    are_told(seen_of(rt, served, &FOUR), &[0, 0, 0, 0])
}

/// Grains and clients are found by hashes from other seeds.
#[test]
fn lanes_are_answered_alike_by_each_seed(rt: HostRuntime) -> Result<(), Fail> {
    for seed in 0..10 {
        are_alike_by(&rt, seed)?;
    }
    Ok(())
}

/// A lane that adds 3 to a counter, lets it rest, and gets its value.
static REST: [(&str, &str); 1] = [(
    "red/c1",
    r#"{"op":"call","from":"red/c1","id":1,"grain":"counter/red:a","method":"add","args":{"by":3}}
{"op":"call","from":"red/c1","id":2,"grain":"counter/red:a","method":"rest"}
{"op":"call","from":"red/c1","id":3,"grain":"counter/red:a","method":"get"}
"#,
)];

/// Red's counters go when they are idle for 10, and two workers serve.
static SOONER: Served<'static> = Served {
    tenants: &["red"],
    kinds: &[("counter", 10)],
    seed: None,
    workers: 2,
};

/// What was added is gone with the activation that rests, since nothing was saved.
#[test]
fn grains_are_served_with_their_ages(rt: HostRuntime) -> Result<(), Fail> {
    let lanes = lanes_of(rt.alloc(), &REST)?;
    let seen = seen_when_served(&rt, SOONER, &lanes, RestingKinds, &FreeGate)?;
    holds(seen.ages.as_str() == "counter 10\n" && seen.numbers.as_slice() == [-1, 0, 3].as_slice())
}

#[test]
fn faults_of_lanes_and_serving_have_a_text(rt: HostRuntime) -> Result<(), Fail> {
    let text = format!(in rt.alloc(); "{}; {}", ServeFault::NoWorker, LaneFault::Foreign(2))?;
    holds(
        text.as_str()
            == "no thread could be started; the lane may not give the step at place 2, from 0",
    )
}
