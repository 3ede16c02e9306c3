//! Rows of grains that rest and stay, and of kinds that have an age of their own, each in one run.

use crate::steps::refusals::are_done;
use crate::steps::rows::{COLLECTED, KNOWS_NO_REST, NOTHING, ONE_KIND_GOES, RESTS, STAYS, Worked};
use crate::steps::silos::{SiloOf, ages_of, answers, silo_of};
use crate::steps::trials::is_shown;
use grain_kinds::{Kinds, RestingKinds};
use grain_logic::GrainLogic;
use std::alloc::Global;
use std::test::Fail;
use test_helpers::lines::steps_of;
use test_helpers::setups::{Ages, ages_told};
use test_helpers::verdicts::holds;

/// Whether the silo does all steps of the row in one run, and gives the row.
fn is_run<L: GrainLogic>(alloc: Global, silo: &mut SiloOf<L>, row: &Worked) -> Result<bool, Fail> {
    let steps = steps_of(alloc, row.lines)?;
    let done = are_done(answers(alloc, silo, steps)?.as_slice());
    Ok(done && is_shown(alloc, silo, row)?)
}

/// Whether the silo does so, and its ages of kinds make these lines.
fn is_aged<L: GrainLogic>(
    alloc: Global,
    silo: &mut SiloOf<L>,
    aged: &str,
    row: &Worked,
) -> Result<bool, Fail> {
    let ages = ages_told(alloc, ages_of(silo))?;
    Ok(ages.as_str() == aged && is_run(alloc, silo, row)?)
}

/// Runs the row on a new silo of this logic with these ages. Fails, unless its ages of kinds make these lines.
fn run_anew<L: GrainLogic + Drop>(
    alloc: Global,
    logic: L,
    ages: Ages,
    aged: &str,
    row: &Worked,
) -> Result<(), Fail> {
    let mut silo = silo_of(alloc, logic, ages, row)?;
    let run = is_aged(alloc, &mut silo, aged, row);
    drop(silo);
    holds(run?)
}

/// All kinds have this age.
fn alike(age: u64) -> Ages<'static> {
    Ages { age, kinds: &[] }
}

/// Runs the row where grains may rest and stay, and have this age.
fn run_resting(alloc: Global, age: u64, row: &Worked) -> Result<(), Fail> {
    run_anew(alloc, RestingKinds, alike(age), "", row)
}

/// Runs the row where grains have this age, and neither rest nor stay.
fn run_unrested(alloc: Global, age: u64, row: &Worked) -> Result<(), Fail> {
    run_anew(alloc, Kinds, alike(age), "", row)
}

/// Counters go sooner.
static TWO_AGES: Ages<'static> = Ages {
    age: 1_000,
    kinds: &[("counter", 10)],
};

#[test]
fn each_kind_goes_by_its_own_age(rt: HostRuntime) -> Result<(), Fail> {
    run_anew(
        rt.alloc(),
        RestingKinds,
        TWO_AGES,
        "counter 10\n",
        &ONE_KIND_GOES,
    )
}

#[test]
fn a_grain_stays(rt: HostRuntime) -> Result<(), Fail> {
    run_resting(rt.alloc(), 10, &STAYS)
}

#[test]
fn a_grain_rests(rt: HostRuntime) -> Result<(), Fail> {
    run_resting(rt.alloc(), 900_000, &RESTS)
}

#[test]
fn without_ages_all_is_as_before(rt: HostRuntime) -> Result<(), Fail> {
    let alloc = rt.alloc();
    run_resting(alloc, 1_000, &COLLECTED)?;
    run_unrested(alloc, 1_000, &COLLECTED)?;
    run_unrested(alloc, 900_000, &KNOWS_NO_REST)
}

/// Both kinds go sooner.
static THREE_AGES: Ages<'static> = Ages {
    age: 1_000,
    kinds: &[("sheet", 20), ("counter", 10)],
};

#[test]
fn a_silo_shows_its_ages(rt: HostRuntime) -> Result<(), Fail> {
    run_anew(
        rt.alloc(),
        RestingKinds,
        THREE_AGES,
        "counter 10\nsheet 20\n",
        &NOTHING,
    )
}
