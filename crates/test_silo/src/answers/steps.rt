//! A silo that is asked step by step, and what it shows.

use crate::answers::rows::COUNTED;
use crate::answers::silos::{TestedSilo, journal, replies, sweep, taken, tick};
use crate::answers::trials::{Trial, tried_to};
use silo_event::Step;
use std::alloc::Global;
use std::test::Fail;

/// Whether the silo took this tick first and was swept last, and made no reply.
fn is_swept(silo: &TestedSilo, at: u64) -> bool {
    let taken = journal(silo);
    let ticked = matches!(taken.first(), Some(Step::Tick { now }) if now.get() == at);
    ticked && matches!(taken.last(), Some(Step::Sweep)) && replies(silo).is_empty()
}

/// Whether a silo takes a tick, refuses an earlier one, and is swept.
pub fn is_asked(alloc: Global, silo: &mut TestedSilo) -> Result<bool, Fail> {
    let later = tick(alloc, silo, 7)?;
    let earlier = tick(alloc, silo, 6)?;
    let swept = sweep(alloc, silo)?;
    Ok(later && !earlier && swept && taken(silo) == 2 && is_swept(silo, 7))
}

/// Its steps are shown when it is a silo alone, too.
#[test]
fn steps_are_answered_one_by_one(rt: HostRuntime) -> Result<(), Fail> {
    tried_to(rt.alloc(), Trial::Steps, &COUNTED, 2)
}
