//! Silos that answer at once, and calls of them, each in a function without clauses: the clauses of a call stand before
//! all later goals of the body that makes it.

use grain_id::HashSeed;
use grain_kinds::Kinds;
use grain_logic::GrainLogic;
use grain_storage::{FusedStorage, MemoryStorage};
use line_answer::{AnsweringSilo, Input, LineFault, Output, answer_lines};
use silo_core::{Setup, Silo};
use silo_event::{Moment, Reply, Step};
use std::alloc::{AllocError, Global};
use std::io::{Read, Write};
use std::test::Fail;
use test_helpers::setups::{Ages, setup_over};

/// A silo of counters, sheets and relays over rows in memory, of whose calls one may fail.
pub type TestedSilo = AnsweringSilo<FusedStorage, Kinds>;

/// Over no rows. The storage fails that call, or none if it is 0. Red and blue have 3 activations, and grains are idle for 5
/// milliseconds.
fn setup(alloc: Global, fails_at: u64) -> Result<Setup<FusedStorage, Kinds>, Fail> {
    let storage = FusedStorage::new(MemoryStorage::new(alloc), fails_at);
    let ages = Ages { age: 5, kinds: &[] };
    setup_over(alloc, &["red", "blue"], 3, ages, storage, Kinds)
}

/// A silo of any logic: the one that is named would stand in the goals.
fn opened<L: GrainLogic + Drop>(
    alloc: Global,
    setup: Setup<FusedStorage, L>,
    seed: Option<u64>,
) -> Result<AnsweringSilo<FusedStorage, L>, AllocError> {
    match seed {
        Some(seed) => AnsweringSilo::seeded(alloc, setup, HashSeed::new(seed)),
        None => AnsweringSilo::new(alloc, setup),
    }
}

/// A silo over no rows, whose storage fails that call, or none if it is 0. Its grains are found by hashes from this seed, if there is
/// one.
pub fn new_silo(alloc: Global, fails_at: u64, seed: Option<u64>) -> Result<TestedSilo, Fail> {
    Ok(opened(alloc, setup(alloc, fails_at)?, seed)?)
}

/// Answers the lines of the reader: how that ends, but for want of memory.
pub fn ended<R: Read, W: Write>(
    alloc: Global,
    silo: &mut TestedSilo,
    most: u64,
    input: &mut Input<R>,
    output: &mut Output<W>,
) -> Result<Result<u64, LineFault>, Fail> {
    if silo.is_stopped() {
        return Err(Fail::from("the silo has stopped"));
    }
    match answer_lines(alloc, input, output, silo, most) {
        Err(LineFault::Memory) => Err(Fail::from(AllocError)),
        end => Ok(end),
    }
}

/// Answers a tick.
pub fn tick(alloc: Global, silo: &mut TestedSilo, now: u64) -> Result<bool, Fail> {
    if silo.is_stopped() {
        return Err(Fail::from("the silo has stopped"));
    }
    let now = Moment::new(now).ok_or("no moment")?;
    Ok(silo.answer(alloc, Step::Tick { now }, 0)?)
}

/// Answers sweeping.
pub fn sweep(alloc: Global, silo: &mut TestedSilo) -> Result<bool, Fail> {
    if silo.is_stopped() {
        return Err(Fail::from("the silo has stopped"));
    }
    Ok(silo.answer(alloc, Step::Sweep, 0)?)
}

/// Notes that a line of `bytes` bytes was answered.
pub fn note(alloc: Global, silo: &mut TestedSilo, bytes: usize) {
    silo.note(alloc, bytes);
}

/// From now on the silo keeps no history.
pub fn drop_history(silo: &mut TestedSilo) {
    silo.drop_history();
}

pub fn keeps_history(silo: &TestedSilo) -> bool {
    silo.keeps_history()
}

pub fn replies(silo: &TestedSilo) -> &[Reply] {
    silo.replies()
}

pub fn journal(silo: &TestedSilo) -> &[Step] {
    silo.journal()
}

/// How many steps the silo inside took.
pub fn taken(silo: &TestedSilo) -> usize {
    taken_alone(silo.silo())
}

/// How many steps the silo took.
pub fn taken_alone(silo: &Silo<FusedStorage, Kinds>) -> usize {
    silo.journal().len()
}

pub fn alone(silo: TestedSilo) -> Silo<FusedStorage, Kinds> {
    silo.into_silo()
}
