//! Silos, and calls of them, each in a function without clauses: the clauses of a call stand before all later goals of
//! the body that makes it.

use crate::steps::rows::{Opened, Worked};
use bumpalo::Bump;
use grain_id::{GrainId, Kind, Tenant};
use grain_kinds::Kinds;
use grain_logic::GrainLogic;
use grain_storage::{FusedStorage, MemoryStorage, Row};
use request_codec::StateBytes;
use silo_core::{RunReport, Setup, Silo};
use silo_event::{Answer, Reply, Step, StepFault};
use std::alloc::{AllocError, Global};
use std::test::Fail;
use test_helpers::setups::{Ages, setup_over};

/// A silo over rows in memory, of whose calls one may fail.
pub type SiloOf<L> = Silo<FusedStorage, L>;

/// A silo of counters, sheets and relays.
pub type TestedSilo = SiloOf<Kinds>;

/// The counter's row, of the last version and with 3.
fn last_version(alloc: Global) -> Result<MemoryStorage, Fail> {
    let grain = GrainId::read(alloc, "counter/red:a")?;
    let row = Row {
        version: 18_446_744_073_709_551_615,
        content: Some(StateBytes::read(alloc, &[3, 0, 0, 0, 0, 0, 0, 0, 3])?),
    };
    Ok(MemoryStorage::with_rows(alloc, vec![in alloc; (grain, row)]?)?)
}

/// The sheet's row, whose state is as long as one may be.
fn longest_state(alloc: Global) -> Result<MemoryStorage, Fail> {
    let grain = GrainId::read(alloc, "sheet/red:s")?;
    let mut bytes = Vec::from_slice(alloc, b"\x06\0\0\0\x01\0\0\0\x01a\x04\0\x03\xff\xf1")?;
    bytes.resize(262_144, b'x')?;
    let row = Row {
        version: 1,
        content: Some(StateBytes::read(alloc, bytes.as_slice())?),
    };
    Ok(MemoryStorage::with_rows(alloc, vec![in alloc; (grain, row)]?)?)
}

/// The rows over which a silo is opened.
fn rows_of_opening(alloc: Global, opened: Opened) -> Result<MemoryStorage, Fail> {
    match opened {
        Opened::OverNone => Ok(MemoryStorage::new(alloc)),
        Opened::OverTheLastVersion => last_version(alloc),
        Opened::OverTheLongestState => longest_state(alloc),
    }
}

fn open<L: GrainLogic + Drop>(
    alloc: Global,
    setup: Setup<FusedStorage, L>,
) -> Result<SiloOf<L>, AllocError> {
    Silo::new(alloc, setup)
}

/// A silo of this logic with these ages, over the row's rows, whose storage fails the row's call.
pub fn silo_of<L: GrainLogic + Drop>(
    alloc: Global,
    logic: L,
    ages: Ages,
    row: &Worked,
) -> Result<SiloOf<L>, Fail> {
    let storage = FusedStorage::new(rows_of_opening(alloc, row.opened)?, row.fails_at);
    let setup = setup_over(alloc, &["red", "blue"], 2, ages, storage, logic)?;
    Ok(open(alloc, setup)?)
}

/// A silo of counters, sheets and relays for the row.
pub fn new_silo(alloc: Global, row: &Worked) -> Result<TestedSilo, Fail> {
    let ages = Ages {
        age: 1_000,
        kinds: &[],
    };
    silo_of(alloc, Kinds, ages, row)
}

/// Takes the steps in one run.
pub fn run<L: GrainLogic>(alloc: Global, silo: &mut SiloOf<L>, steps: Vec<Step>) -> RunReport {
    silo.run(alloc, steps)
}

/// Takes the steps in one run that isn't stopped: what was answered.
pub fn answers<L: GrainLogic>(
    alloc: Global,
    silo: &mut SiloOf<L>,
    steps: Vec<Step>,
) -> Result<Vec<Answer>, Fail> {
    let report = run(alloc, silo, steps);
    if report.stopped {
        return Err(Fail::from(AllocError));
    }
    Ok(report.answers)
}

pub fn apply(alloc: Global, silo: &mut TestedSilo, step: Step) -> Result<Answer, StepFault> {
    silo.apply(alloc, step)
}

/// Takes a step in this arena.
pub fn apply_in(
    alloc: Global,
    bump: &Bump,
    silo: &mut TestedSilo,
    step: Step,
) -> Result<Answer, StepFault> {
    silo.apply_in(alloc, bump, step)
}

pub fn replies<L: GrainLogic>(silo: &SiloOf<L>) -> &[Reply] {
    silo.replies()
}

pub fn journal(silo: &TestedSilo) -> &[Step] {
    silo.journal()
}

pub fn rows<L: GrainLogic>(
    alloc: Global,
    silo: &SiloOf<L>,
) -> Result<Vec<(GrainId, Row)>, AllocError> {
    silo.rows(alloc)
}

pub fn ages_of<L: GrainLogic>(silo: &SiloOf<L>) -> &[(Kind, u64)] {
    silo.ages().list()
}

pub fn opening(silo: &TestedSilo) -> &[(GrainId, Row)] {
    silo.opening()
}

pub fn failures(silo: &TestedSilo) -> u64 {
    silo.failures()
}

pub fn opening_failures(silo: &TestedSilo) -> u64 {
    silo.opening_failures()
}

pub fn replies_of(
    alloc: Global,
    silo: &TestedSilo,
    tenant: &Tenant,
) -> Result<Vec<Reply>, AllocError> {
    silo.replies_of(alloc, tenant)
}

pub fn rows_of(
    alloc: Global,
    silo: &TestedSilo,
    tenant: &Tenant,
) -> Result<Vec<(GrainId, Row)>, AllocError> {
    silo.rows_of(alloc, tenant)
}
