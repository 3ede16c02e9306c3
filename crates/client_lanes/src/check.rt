//! What is looked at once the workers have ended: one pass over the journal, with what is left of each
//! lane.

ghost use Rattle.std.specs.Prelude.{◌≡◌, ◌==◌, ◌↔◌, IsTrue, IfOk, Some, count_by, length};
ghost use Rattle.indexmap.specs.IndexMap.{IsUnique, values};
ghost use Rattle.std.specs.List.{list_all};
ghost use Rattle.lane_model.specs.Lanes.{AreDistinct, LanesStand, done_steps_of, has_failed as failed_step, is_used_up, remaining_of};
ghost use Rattle.lane_model.specs.Lanes.{same_lane, without_ticks_below};
ghost use Rattle.client_lanes.specs.inside.Passing.{Passes, Takes, left_in, steps_at};

use crate::lane::Lane;
use grain_id::{Caller, HashSeed};
use indexmap::IndexMap;
use silo_event::{Step, same_but_failed};
use std::alloc::{AllocError, Global};
use std::collections::VecDeque;

/// What is left of each lane.
type Left<'l> = IndexMap<Option<Caller>, VecDeque<&'l Step>, HashSeed>;

/// Whether the lanes stand in the journal, and each of its steps that a lane gives is of one of them.
/// One pass over the journal, with a look-up for each step that a lane gives, by a hash from the seed.
///
/// # Errors
///
/// Out of memory.
pub fn lanes_stand(
    alloc: Global,
    seed: HashSeed,
    lanes: &[Lane],
    journal: &[Step],
) -> Result<bool, AllocError>
    requires { AreDistinct lanes.now }
    ensures { IfOk result (λ stand. IsTrue stand ↔ LanesStand lanes.now journal.now) }
{
    let mut left = all_left(alloc, seed, lanes)?;
    let mut rest = journal;
    'steps: while let Some((step, others)) = rest.split_first() {
        if !take_next(&mut left, step)? {
            return Ok(false);
        }
        rest = others;
    }
    Ok(is_used_up(&left))
}

/// Before the first step all that is done of each lane is left.
fn all_left<'l>(alloc: Global, seed: HashSeed, lanes: &'l [Lane]) -> Result<Left<'l>, AllocError>
    ensures { IfOk result (λ left. left_in left ≡ remaining_of lanes.now) }
{
    let mut left = IndexMap::with_hasher(alloc, seed);
    let mut rest = lanes;
    'lanes: while let Some((lane, earlier)) = rest.split_last() {
        let key = key_of(lane)?;
        let steps = done_steps(alloc, lane)?;
        left.insert(key, steps)?;
        rest = earlier;
    }
    Ok(left)
}

/// Whose the lane is, or none if it is nobody's.
fn key_of(lane: &Lane) -> Result<Option<Caller>, AllocError>
    ensures { IfOk result (λ key. key ≡ lane.now.from) }
{
    match lane.from() {
        Some(caller) => Ok(Some(caller.clone()?)),
        None => Ok(None),
    }
}

/// The steps of the lane that are done.
fn done_steps<'l>(alloc: Global, lane: &'l Lane) -> Result<VecDeque<&'l Step>, AllocError>
    ensures { IfOk result (λ done. steps_at done ≡ done_steps_of lane.now) }
{
    match lane.from() {
        Some(_) => all_steps(alloc, lane.steps()),
        None => done_ticks(alloc, lane.steps()),
    }
}

/// All of the steps.
fn all_steps<'l>(alloc: Global, steps: &'l [Step]) -> Result<VecDeque<&'l Step>, AllocError>
    ensures { IfOk result (λ all. steps_at all ≡ steps.now) }
{
    let mut all = VecDeque::with_capacity(alloc, steps.len())?;
    for step in steps {
        all.push_back(step)?;
    }
    Ok(all)
}

/// The steps without the ticks that are below an earlier one.
fn done_ticks<'l>(alloc: Global, steps: &'l [Step]) -> Result<VecDeque<&'l Step>, AllocError>
    ensures { IfOk result (λ done. steps_at done ≡ without_ticks_below 0 steps.now) }
{
    let mut done = VecDeque::new(alloc);
    let mut clock = 0;
    let mut rest = steps;
    'steps: while let Some((step, others)) = rest.split_first() {
        rest = others;
        if let Step::Tick { now } = step {
            if now.get() < clock {
                continue;
            }
            clock = now.get();
        }
        done.push_back(step)?;
    }
    Ok(done)
}

/// Takes a step of the journal from what is left of its lane, and says whether it was the next there.
/// A step that no lane gives takes nothing.
fn take_next(left: &mut Left<'_>, step: &Step) -> Result<bool, AllocError>
    ensures { IfOk result (λ next. Passes (left_in left.old) step.now next (left_in left.new)) }
{
    match step {
        Step::Refuse { caller, .. } => take_asked(left, caller, step),
        Step::Call { caller, .. } => take_asked(left, caller, step),
        Step::Poke { caller, .. } => take_asked(left, caller, step),
        Step::Status { caller, .. } => take_asked(left, caller, step),
        Step::Deliver { .. } => Ok(true),
        Step::Activate { .. } => Ok(true),
        Step::Load { .. } => Ok(true),
        Step::Begin { .. } => Ok(true),
        Step::Store { .. } => Ok(true),
        Step::End { .. } => Ok(true),
        Step::Abandon { .. } => Ok(true),
        Step::Tick { .. } => Ok(take_first(left, &None, step)),
        Step::Sweep => Ok(take_first(left, &None, step)),
    }
}

/// Takes a step from what is left of this client's lane, and says whether it was the next there.
fn take_asked(left: &mut Left<'_>, caller: &Caller, step: &Step) -> Result<bool, AllocError>
    ensures { IfOk result (λ next. Takes (left_in left.old) (Some caller.now) step.now next (left_in left.new)) }
{
    let giver = Some(caller.clone()?);
    Ok(take_first(left, &giver, step))
}

/// Takes a step from what is left of this lane, and says whether it was the next there.
fn take_first(left: &mut Left<'_>, giver: &Option<Caller>, step: &Step) -> bool
    ensures { Takes (left_in left.old) giver.now step.now result (left_in left.new) }
{
    let Some(steps) = left.get_mut(giver) else {
        return false;
    };
    let Some(first) = steps.front() else {
        return false;
    };
    if !same_but_failed(step, first) {
        return false;
    }
    steps.pop_front();
    true
}

/// Whether nothing is left of any lane.
fn is_used_up(left: &Left<'_>) -> bool
    ensures { result ≡ is_used_up (Some (left_in left.now)) }
{
    are_empty(left)
}

/// Whether no steps stand there for any lane.
fn are_empty(left: &Left<'_>) -> bool
    ensures empty { result ≡ list_all (λ steps. length steps.items == 0) (values left.now) }
    ensures unique { IsUnique same_lane left.now }
{
    // For the proof: no lane stands there twice.
    let _ = left.len();
    left.values().all(|steps| steps.is_empty())
}

/// In how many of the steps the storage failed.
pub fn failed_in(journal: &[Step]) -> usize
    ensures { result ≡ count_by failed_step journal.now }
{
    let mut failed = 0;
    let mut rest = journal;
    'steps: while let Some((step, others)) = rest.split_first() {
        if step.has_failed() {
            failed += 1;
        }
        rest = others;
    }
    failed
}
