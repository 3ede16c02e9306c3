//! Steps that are taken in one arena, which is reset between some of them.

use crate::steps::rows::{COLLECTED, OVERWRITTEN, SENT, Worked};
use crate::steps::silos::{TestedSilo, apply_in};
use crate::steps::trials::{Way, are_alike};
use bumpalo::Bump;
use std::alloc::Global;
use std::test::Fail;
use test_helpers::lines::steps_of;

/// Takes the steps of the lines in one arena that is reset after every other step.
pub fn take_in_one_arena(alloc: Global, silo: &mut TestedSilo, lines: &str) -> Result<(), Fail> {
    let mut bump = Bump::new(alloc);
    let mut resets = false;
    for step in steps_of(alloc, lines)? {
        apply_in(alloc, &bump, silo, step)?;
        if resets {
            drop(bump.reset());
        }
        resets = !resets;
    }
    Ok(())
}

/// Fails, unless one arena serves the row as well as many.
fn is_served(alloc: Global, row: &Worked) -> Result<(), Fail> {
    are_alike(alloc, Way::InOneArena, Way::First(usize::MAX), row.lines)
}

#[test]
fn one_arena_serves_all_steps(rt: HostRuntime) -> Result<(), Fail> {
    let alloc = rt.alloc();
    is_served(alloc, &OVERWRITTEN)?;
    is_served(alloc, &COLLECTED)?;
    is_served(alloc, &SENT)
}
