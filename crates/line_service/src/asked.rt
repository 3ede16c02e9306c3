//! What the lines of an input request.

ghost use Rattle.std.specs.Prelude.{◌≡◌, ◌++◌, ◌∷◌, [], IfOk, List, OnOk, Some};
ghost use Rattle.silo_event.specs.declared.step.Step.{Step as StepValue};
ghost use Rattle.lane_model.specs.Asking.{asker_of};
ghost use Rattle.lane_model.specs.Lanes.{AreDistinct};
ghost use Rattle.line_service.specs.Asked.{giver_of, lanes_by, lanes_of, refusals_of};
ghost use Rattle.line_service.specs.inside.Places.{ArePlaced};

use crate::giver::{asker_of, is_given};
use crate::lane_places::LanePlaces;
use client_lanes::Lane;
use grain_id::HashSeed;
use line_parser::{Line, LineRefusal};
use silo_event::Step;
use std::alloc::{AllocError, Global};

/// What the lines of an input request: lanes, and refusals of the lines that belong to no lane.
#[derive(Drop)]
pub struct LanesAndRefusals {
    /// The lanes, in the order of their first lines.
    pub lanes: Vec<Lane>,
    /// The refusals of the lines that are of no lane, in order.
    pub refusals: Vec<LineRefusal>,
}

/// The lanes that the lines make up, and the refusals of the other lines that have bytes. A step goes
/// to the lane that gives it; a step that no lane gives, or that has the mark of a failure, is refused
/// as no request. One pass over the lines, with a look-up for each step, by a hash from the seed.
///
/// # Errors
///
/// Out of memory.
pub fn asked_by(
    alloc: Global,
    seed: HashSeed,
    lines: Vec<Line>,
) -> Result<LanesAndRefusals, AllocError>
    ensures lanes { IfOk result (λ asked. asked.lanes.items ≡ lanes_of lines.items) }
    ensures refusals { IfOk result (λ asked. asked.refusals.items ≡ refusals_of lines.items) }
    ensures distinct { IfOk result (λ asked. AreDistinct asked.lanes.items) }
{
    let mut lanes = Vec::new(alloc);
    let mut refusals = Vec::new(alloc);
    let mut places = LanePlaces::seeded(alloc, seed);
    'lines: for line in lines {
        match line {
            Line::Nothing => {}
            Line::Refusal(refusal) => refusals.push(refusal)?,
            Line::Step(step) => {
                if is_given(&step) {
                    add_step(alloc, &mut lanes, &mut places, step)?;
                } else {
                    refusals.push(LineRefusal::NotARequest)?;
                }
            }
        }
    }
    Ok(LanesAndRefusals { lanes, refusals })
}

/// Adds a step after those of the lane that gives it. If it is the first of its lane, the lane is added
/// after the others.
fn add_step(
    alloc: Global,
    lanes: &mut Vec<Lane>,
    places: &mut LanePlaces,
    step: Step,
) -> Result<(), AllocError>
    requires given { giver_of step ≡ Some (asker_of step) }
    requires placed { ArePlaced places.now lanes.now.items }
    ensures lanes { OnOk result ((steps : List StepValue) → lanes.old.items ≡ lanes_by steps → lanes.new.items
        ≡ lanes_by (steps ++ step ∷ [])) }
    ensures placed { OnOk result (ArePlaced places.new lanes.new.items) }
{
    if let Some(place) = places.place_for(&step) {
        lanes[place].add(step)?;
        return Ok(());
    }
    let giver = asker_of(&step)?;
    let from = asker_of(&step)?;
    let mut lane = Lane::empty(alloc, from);
    lane.add(step)?;
    let place = lanes.len();
    lanes.push(lane)?;
    places.put(giver, place)?;
    Ok(())
}
