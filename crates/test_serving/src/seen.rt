//! Lanes that are served, and what is seen of the report: each report is looked at and dropped in one function.

use crate::journals::{begun_in, closed_in, most_open};
use grain_id::{HashSeed, Kind};
use grain_logic::GrainLogic;
use grain_storage::FusedStorage;
use request_codec::{Datum, decode_state};
use silo_core::{Setup, Silo};
use silo_event::{Party, Reply, Step};
use std::alloc::{AllocError, Global};
use std::sync::Wait;
use std::test::Fail;
use std::thread::Threads;
use test_helpers::setups::{ages_told, setup_of};
use worker_host::{Lane, ServeFault, ServeReport, TurnGate, distinct, serve_seeded};

/// The code of a turn that was abandoned.
const ABANDONED: u8 = 70;

/// What stands for a turn that was abandoned, among the numbers of replies.
pub const LEFT: i64 = -70;

/// The number that a value is, or -1 if it is another one.
fn int_of(value: &Datum) -> i64 {
    match value {
        Datum::Int(number) => *number,
        _ => -1,
    }
}

/// The number that a reply has: `LEFT` if the turn was abandoned, or -1 if the reply is another value or fault.
fn number_of(alloc: Global, reply: &Reply) -> Result<i64, Fail> {
    match &reply.outcome {
        Ok(state) => {
            let value = decode_state(alloc, state)?;
            let number = int_of(&value);
            drop(value);
            Ok(number)
        }
        Err(fault) => Ok(if fault.code() == ABANDONED { LEFT } else { -1 }),
    }
}

/// Adds the numbers of the replies in one lane.
fn add_numbers(alloc: Global, replies: &[Reply], all: &mut Vec<i64>) -> Result<(), Fail> {
    for reply in replies {
        all.push(number_of(alloc, reply)?)?;
    }
    Ok(())
}

/// The numbers of the replies in each lane, all together, ascending.
fn numbers_of(alloc: Global, answers: &[Vec<Reply>]) -> Result<Vec<i64>, Fail> {
    let mut all = Vec::new(alloc);
    for replies in answers {
        add_numbers(alloc, replies, &mut all)?;
    }
    all.sort()?;
    Ok(all)
}

/// Adds a line of the ids of the requests to which a client has replies.
fn add_ids(replies: &[Reply], text: &mut String) -> Result<(), Fail> {
    for reply in replies {
        if let Party::Client(_, id) = &reply.recipient {
            write!(text, "{id} ")?;
        }
    }
    text.push('\n')?;
    Ok(())
}

/// Those ids, a line for each lane.
fn ids_of(alloc: Global, answers: &[Vec<Reply>]) -> Result<String, Fail> {
    let mut text = String::new(alloc);
    for replies in answers {
        add_ids(replies, &mut text)?;
    }
    Ok(text)
}

/// What is seen of a report.
#[derive(Drop)]
pub struct Seen {
    /// The ids of the requests to which each client has replies, a line for each lane.
    pub ids: String,
    /// The numbers of the replies, ascending.
    pub numbers: Vec<i64>,
    /// The grains at which turns begin.
    pub begun: Vec<u64>,
    /// The turns that are closed.
    pub closed: Vec<u64>,
    /// How many turns are open at once, at most.
    pub open: u32,
    /// The kinds that have an age of their own, a line each.
    pub ages: String,
}

fn look_at(
    alloc: Global,
    journal: &[Step],
    answers: &[Vec<Reply>],
    ages: &[(Kind, u64)],
) -> Result<Seen, Fail> {
    let ids = ids_of(alloc, answers)?;
    let numbers = numbers_of(alloc, answers)?;
    let ages = ages_told(alloc, ages)?;
    let begun = begun_in(alloc, journal)?;
    Ok(Seen {
        ids,
        numbers,
        begun,
        closed: closed_in(alloc, journal)?,
        open: most_open(journal),
        ages,
    })
}

fn journal<L: GrainLogic>(silo: &Silo<FusedStorage, L>) -> &[Step] {
    silo.journal()
}

fn ages<L: GrainLogic>(silo: &Silo<FusedStorage, L>) -> &[(Kind, u64)] {
    silo.ages().list()
}

fn seed_of(seed: Option<u64>) -> HashSeed {
    match seed {
        Some(seed) => HashSeed::new(seed),
        None => HashSeed::fixed(),
    }
}

/// Why there is no report.
pub fn fail_of(fault: ServeFault) -> Fail {
    match fault {
        ServeFault::Memory => AllocError.into(),
        ServeFault::NoWorker => "no thread, and so no memory".into(),
        ServeFault::Strayed => "the lanes strayed".into(),
    }
}

/// Serves lanes, if they may be served, with grains that are found by hashes from this seed.
fn reported<
    R: AllocGlobal + Threads + Wait + Sync,
    L: GrainLogic + Copy + Send + Drop,
    G: TurnGate + Sync,
>(
    rt: &R,
    setup: Result<Setup<FusedStorage, L>, Fail>,
    seed: HashSeed,
    lanes: &[Lane],
    workers: usize,
    gate: &G,
) -> Result<ServeReport<FusedStorage, L>, Fail> {
    let setup = setup?;
    if workers < 1 || workers > 64 || !distinct(lanes) {
        drop(setup);
        return Err("these lanes can't be served".into());
    }
    match serve_seeded(rt, rt.alloc(), setup, seed, lanes, workers, gate) {
        Ok(report) => Ok(report),
        Err(fault) => Err(fail_of(fault)),
    }
}

/// How lanes are served.
#[derive(Clone, Copy)]
pub struct Served<'a> {
    pub tenants: &'a [&'a str],
    /// The ages of kinds that have one of their own.
    pub kinds: &'a [(&'a str, u64)],
    pub seed: Option<u64>,
    pub workers: usize,
}

/// The lanes of red, served by this many workers.
pub fn red_by(workers: usize) -> Served<'static> {
    Served {
        tenants: &["red"],
        kinds: &[],
        seed: None,
        workers,
    }
}

/// The lanes of red and blue, served by this many workers.
pub fn both_by(workers: usize) -> Served<'static> {
    Served {
        tenants: &["red", "blue"],
        kinds: &[],
        seed: None,
        workers,
    }
}

/// What is seen of a report.
fn seen_in<L: GrainLogic + Drop>(
    alloc: Global,
    report: Result<ServeReport<FusedStorage, L>, Fail>,
) -> Result<Seen, Fail> {
    let report = report?;
    let silo = &report.silo;
    let seen = look_at(alloc, journal(silo), &report.answers, ages(silo));
    drop(report);
    seen
}

/// What is seen where these lanes are served.
pub fn seen_when_served<
    R: AllocGlobal + Threads + Wait + Sync,
    L: GrainLogic + Copy + Send + Drop,
    G: TurnGate + Sync,
>(rt: &R, served: Served, lanes: &[Lane], logic: L, gate: &G) -> Result<Seen, Fail> {
    let setup = setup_of(rt.alloc(), served.tenants, served.kinds, logic);
    let seed = seed_of(served.seed);
    seen_in(
        rt.alloc(),
        reported(rt, setup, seed, lanes, served.workers, gate),
    )
}
