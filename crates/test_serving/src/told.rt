//! The turns for which a gate is called, and how many turns are open at once.

use crate::asked::{FOUR, calls, lane, lanes_of};
use crate::journals::{code_of, grains_of};
use crate::seen::{Seen, both_by, red_by, seen_when_served};
use grain_id::GrainId;
use grain_kinds::Kinds;
use std::alloc::Global;
use std::sync::Wait;
use std::sync::atomic::{AtomicU64, Ordering};
use std::test::Fail;
use std::thread::Threads;
use test_helpers::verdicts::holds;
use worker_host::{FreeGate, Lane, TurnGate};

/// A gate that records the turns for which it was called, as far as it has room.
#[derive(Drop)]
struct Keeper {
    count: AtomicU64,
    told: Vec<AtomicU64>,
}

impl Keeper {
    fn new(alloc: Global, room: u32) -> Result<Keeper, Fail> {
        let mut told = Vec::new(alloc);
        for _ in 0..room {
            told.push(AtomicU64::new(u64::MAX))?;
        }
        let count = AtomicU64::new(0);
        Ok(Keeper { count, told })
    }

    /// What it recorded, ascending. An unused place has the largest number.
    fn codes(&self, alloc: Global) -> Result<Vec<u64>, Fail> {
        let mut codes = Vec::new(alloc);
        for told in &self.told {
            codes.push(told.load(Ordering::SeqCst))?;
        }
        codes.sort()?;
        Ok(codes)
    }
}

impl TurnGate for Keeper {
    fn entered(&self, grain: &GrainId, turn: u64) {
        let place = self.count.fetch_add(1, Ordering::SeqCst) as usize;
        if let Some(told) = self.told.as_slice().get(place) {
            told.store(code_of(grain, turn), Ordering::SeqCst);
        }
    }
}

/// Whether a gate was called for exactly those four turns that the journal begins and closes.
fn is_told_of_each(alloc: Global, gate: &Keeper, seen: &Seen) -> Result<bool, Fail> {
    let told = gate.codes(alloc)?;
    let grains = grains_of(alloc, told.as_slice())?;
    let closed = told.as_slice() == seen.closed.as_slice();
    let begun = grains.as_slice() == seen.begun.as_slice();
    Ok(told.len() == 4 && closed && begun)
}

#[test]
fn a_gate_is_told_of_each_turn(rt: HostRuntime) -> Result<(), Fail> {
    let alloc = rt.alloc();
    let gate = Keeper::new(alloc, 4)?;
    let lanes = lanes_of(alloc, &FOUR)?;
    let seen = seen_when_served(&rt, both_by(4), &lanes, Kinds, &gate)?;
    holds(is_told_of_each(alloc, &gate, &seen)?)
}

/// The lane of a client of red, with a `get` of one counter.
fn lane_of_reader(alloc: Global, number: u32) -> Result<Lane, Fail> {
    let caller = format!(in alloc; "red/c{number}")?;
    let lines = calls(alloc, caller.as_str(), 1, 2, r#""method":"get""#)?;
    lane(alloc, caller.as_str(), lines.as_str())
}

/// The lanes of `count` such clients.
fn lanes_of_readers(alloc: Global, count: u32) -> Result<Vec<Lane>, Fail> {
    let mut lanes = Vec::new(alloc);
    for number in 0..count {
        lanes.push(lane_of_reader(alloc, number)?)?;
    }
    Ok(lanes)
}

/// Serves forty readers by one worker with this gate. Fails, unless the most turns that are open at once are `most`.
fn are_open_by_one<R: AllocGlobal + Threads + Wait + Sync, G: TurnGate + Sync>(
    rt: &R,
    gate: &G,
    most: u32,
) -> Result<(), Fail> {
    let lanes = lanes_of_readers(rt.alloc(), 40)?;
    holds(seen_when_served(rt, red_by(1), &lanes, Kinds, gate)?.open == most)
}

#[test]
fn a_worker_alone_takes_several_turns_at_once(rt: HostRuntime) -> Result<(), Fail> {
    let gate = Keeper::new(rt.alloc(), 0)?;
    are_open_by_one(&rt, &gate, 32)
}

/// Where no gate watches, short turns are served one after another.
#[test]
fn a_worker_alone_serves_short_turns_at_once(rt: HostRuntime) -> Result<(), Fail> {
    are_open_by_one(&rt, &FreeGate, 1)
}
