//! Calls that are served at once, beside the same calls taken step by step.

use crate::steps::silos::{TestedSilo, apply};
use crate::steps::trials::{Way, are_alike, take_first};
use bumpalo::Bump;
use grain_id::GrainId;
use silo_event::Step;
use std::alloc::{AllocError, Global};
use std::test::Fail;
use test_helpers::lines::steps_of;
use test_helpers::verdicts::holds;

/// What brings two grains up.
static BEFORE: &str =
    r#"{"op":"call","from":"red/c1","id":1,"grain":"counter/red:a","method":"add","args":{"by":1}}
{"op":"activate","grain":"counter/red:a"}
{"op":"load","grain":"counter/red:a"}
{"op":"begin","grain":"counter/red:a"}
{"op":"end","grain":"counter/red:a","turn":1}
{"op":"call","from":"red/c1","id":2,"grain":"relay/red:r","method":"join","args":{"grain":"counter/red:a"}}
{"op":"activate","grain":"relay/red:r"}
{"op":"load","grain":"relay/red:r"}
{"op":"begin","grain":"relay/red:r"}
{"op":"end","grain":"relay/red:r","turn":2}
"#;

/// The calls after that: of a turn that writes, of one that reads, of one that has no value, and of one that sends;
/// then of a turn that makes a storage call, of a grain that has no activation, of a caller of another tenant, and of
/// the grain whose turn is open; and after a tick the first and the second call of a grain that was idle. A sweep shows
/// from when that grain is due.
static CALLS: &str =
    r#"{"op":"call","from":"red/c1","id":3,"grain":"counter/red:a","method":"add","args":{"by":2}}
{"op":"call","from":"red/c2","id":4,"grain":"counter/red:a","method":"get","args":null}
{"op":"call","from":"red/c1","id":5,"grain":"counter/red:a","method":"add","args":{"by":"two"}}
{"op":"call","from":"red/c1","id":6,"grain":"relay/red:r","method":"send","args":{"method":"add","args":{"by":3}}}
{"op":"call","from":"red/c1","id":7,"grain":"counter/red:a","method":"save","args":null}
{"op":"call","from":"blue/c1","id":8,"grain":"counter/blue:b","method":"get","args":null}
{"op":"call","from":"blue/c1","id":9,"grain":"counter/red:a","method":"get","args":null}
{"op":"call","from":"red/c1","id":10,"grain":"counter/red:a","method":"get","args":null}
{"op":"tick","now":500000}
{"op":"call","from":"red/c1","id":11,"grain":"relay/red:r","method":"send","args":{"method":"add","args":{"by":4}}}
{"op":"call","from":"red/c1","id":12,"grain":"relay/red:r","method":"send","args":{"method":"add","args":{"by":5}}}
{"op":"tick","now":1000000}
{"op":"sweep"}
"#;

/// Which of these steps were served at once.
static AT_ONCE: &str = "yes yes yes yes no no no no no yes yes no no ";

fn serve_at_once(alloc: Global, bump: &Bump, silo: &mut TestedSilo, step: Step) -> Option<Step> {
    silo.serve_at_once(alloc, bump, step)
}

fn first_waiting(silo: &TestedSilo, grain: &GrainId) -> Option<u64> {
    silo.first_waiting(grain)
}

/// The grain of a call.
fn called(step: &Step) -> Result<Option<GrainId>, AllocError> {
    match step {
        Step::Call { grain, .. } => Ok(Some(grain.clone()?)),
        _ => Ok(None),
    }
}

/// Begins the turn of the grain's first waiting request and ends it, if there is one.
fn serve_waiting(alloc: Global, silo: &mut TestedSilo, grain: GrainId) -> Result<(), Fail> {
    let Some(turn) = first_waiting(silo, &grain) else {
        return Ok(());
    };
    let begin = Step::Begin {
        grain: grain.clone()?,
    };
    apply(alloc, silo, begin)?;
    apply(alloc, silo, Step::End { grain, turn })?;
    Ok(())
}

/// Takes a step; and if it is a call, begins its turn and ends it, step by step.
fn serve_by_steps(alloc: Global, silo: &mut TestedSilo, call: Step) -> Result<(), Fail> {
    let called = called(&call);
    apply(alloc, silo, call)?;
    match called? {
        Some(grain) => serve_waiting(alloc, silo, grain),
        None => Ok(()),
    }
}

/// Serves a call at once, if the silo does so. A call comes back as it was, too, if memory is refused on its way: so it is tried
/// once more.
fn serve_or_give_back(
    alloc: Global,
    bump: &Bump,
    silo: &mut TestedSilo,
    call: Step,
) -> Option<Step> {
    match serve_at_once(alloc, bump, silo, call) {
        Some(back) => serve_at_once(alloc, bump, silo, back),
        None => None,
    }
}

/// Takes a call at once if the silo does so, and step by step otherwise. Adds to the text whether it was taken at once.
fn serve_one(
    alloc: Global,
    bump: &mut Bump,
    silo: &mut TestedSilo,
    call: Step,
    told: &mut String,
) -> Result<(), Fail> {
    match serve_or_give_back(alloc, bump, silo, call) {
        Some(back) => {
            serve_by_steps(alloc, silo, back)?;
            told.push_str("no ")?;
        }
        None => told.push_str("yes ")?,
    }
    drop(bump.reset());
    Ok(())
}

/// Brings the grains up, then takes the calls, each at once if the silo does so. Fails, unless it did so with exactly
/// those calls for which `AT_ONCE` says so.
pub fn take_at_once(alloc: Global, silo: &mut TestedSilo, lines: &str) -> Result<(), Fail> {
    take_first(alloc, silo, BEFORE, usize::MAX)?;
    let mut bump = Bump::new(alloc);
    let mut told = String::new(alloc);
    for call in steps_of(alloc, lines)? {
        serve_one(alloc, &mut bump, silo, call, &mut told)?;
    }
    holds(told.as_str() == AT_ONCE)
}

/// Brings the grains up, then takes the calls, each step by step.
pub fn take_by_steps(alloc: Global, silo: &mut TestedSilo, lines: &str) -> Result<(), Fail> {
    take_first(alloc, silo, BEFORE, usize::MAX)?;
    for call in steps_of(alloc, lines)? {
        serve_by_steps(alloc, silo, call)?;
    }
    Ok(())
}

#[test]
fn a_call_at_once_is_its_three_steps(rt: HostRuntime) -> Result<(), Fail> {
    are_alike(rt.alloc(), Way::AtOnce, Way::BySteps, CALLS)
}
