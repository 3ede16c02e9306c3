//! A silo that drops its history, and goes on where it was.

use crate::answers::rows::COUNTED;
use crate::answers::silos::{TestedSilo, drop_history, keeps_history, note, replies, taken, tick};
use crate::answers::trials::{Trial, tried_to};
use std::alloc::Global;
use std::test::Fail;

/// Bytes of a line with which a history is dropped.
const MANY: usize = 16_777_216;

/// Whether the history is dropped once it may be and is large: a tick stands in it until then, and it is empty after.
fn drops(alloc: Global, silo: &mut TestedSilo) -> bool {
    note(alloc, silo, MANY);
    let kept = keeps_history(silo) && taken(silo) == 1;
    drop_history(silo);
    note(alloc, silo, 1);
    let small = !keeps_history(silo) && taken(silo) == 1;
    note(alloc, silo, MANY);
    kept && small && taken(silo) == 0 && replies(silo).is_empty()
}

/// Whether a silo takes a tick, drops its history, and still refuses an earlier tick.
pub fn is_dropped(alloc: Global, silo: &mut TestedSilo) -> Result<bool, Fail> {
    let first = tick(alloc, silo, 7)?;
    let dropped = drops(alloc, silo);
    let earlier = tick(alloc, silo, 6)?;
    let later = tick(alloc, silo, 8)?;
    Ok(first && dropped && !earlier && later)
}

/// Only the steps since then are shown.
#[test]
fn a_history_is_dropped(rt: HostRuntime) -> Result<(), Fail> {
    tried_to(rt.alloc(), Trial::Dropped, &COUNTED, 1)
}
