//! Lanes: what a client asks in order, or ticks and sweeps, which are nobody's.

ghost use Rattle.std.specs.Prelude.{◌≡◌, ◌↔◌, ◌++◌, ◌∷◌, [], true, IsTrue, IsOk, IfOk, IfErr, OnOk, OnErr, if◌then◌else◌};
ghost use Rattle.std.specs.List.{list_any};
ghost use Rattle.lane_model.specs.Lanes.{AreDistinct, IsLane, may_give, same_lane};
ghost use Rattle.client_lanes.specs.Foreign.{FindsForeign, IsFirstForeign};

use crate::giving::may_give;
use grain_id::Caller;
use silo_event::Step;
use std::alloc::{AllocError, Global};
use std::marker::Model;
use thiserror::Error;

/// What a client asks in order; or, of nobody, ticks and sweeps. Each step is one that the lane may
/// give.
#[derive(Drop)]
pub struct Lane {
    from: Option<Caller>,
    steps: Vec<Step>,
}

impl Model for Lane {
    ghost use Rattle.std.specs.Coded.{codes};
    ghost use Rattle.request_codec.specs.Code.{coded_tree};
    ghost use Rattle.lane_model.specs.Lanes as lanes;

    ghost Value = { lanes.Lane };

    ghost coded = { Prim.hlevel (codes, coded_tree) };

    ghost view = { λ lane. record { from = lane.from; steps = lane.steps.items } };

    ghost invariant = { λ lane. lanes.IsLane (record { from = lane.from; steps = lane.steps.items }) };
}

/// Why steps are no lane.
#[derive(Clone, Copy, Debug, PartialEq, Eq, Error)]
pub enum LaneFault {
    /// The step at this place, from 0, is the first that the lane may not give.
    #[error("the lane may not give the step at place {0}, from 0")]
    Foreign(usize),
}

impl Lane {
    /// The lane of a client, whose steps are a `Refuse`, `Call`, `Poke` or `Status` of that client,
    /// without the mark of a failure; or nobody's, whose steps are a `Tick` or a `Sweep`.
    ///
    /// # Errors
    ///
    /// `Foreign` with the place of the first step that is another.
    pub fn new(from: Option<Caller>, steps: Vec<Step>) -> Result<Lane, LaneFault>
        ensures lane { IsOk result ↔ IsLane (record { from = from; steps = steps.items }) }
        ensures as_given { IfOk result (λ lane. lane ≡ record { from = from; steps = steps.items }) }
        ensures foreign { IfErr result (λ fault. IsFirstForeign from steps.items fault) }
    {
        if let Some(place) = first_foreign(&from, steps.as_slice()) {
            return Err(LaneFault::Foreign(place));
        }
        Ok(Lane { from, steps })
    }

    /// A lane without steps.
    pub fn empty(alloc: Global, from: Option<Caller>) -> Lane
        ensures { result ≡ record { from = from; steps = [] } }
    {
        Lane {
            from,
            steps: Vec::new(alloc),
        }
    }

    /// Adds a step after the others, if the lane may give it, and returns whether it may.
    ///
    /// # Errors
    ///
    /// Out of memory: the lane is as before.
    pub fn push(&mut self, step: Step) -> Result<bool, AllocError>
        ensures given { IfOk result (λ given. given ≡ may_give self.old.from step) }
        ensures added { OnOk result (self.new ≡ (if may_give self.old.from step
            then record self.old { steps = self.old.steps ++ step ∷ [] } else self.old)) }
        ensures unchanged { OnErr result (self.new ≡ self.old) }
    {
        if !may_give(&self.from, &step) {
            return Ok(false);
        }
        self.add(step)?;
        Ok(true)
    }

    /// Adds a step that the lane may give, after the others.
    ///
    /// # Errors
    ///
    /// Out of memory: the lane is as before.
    pub fn add(&mut self, step: Step) -> Result<(), AllocError>
        requires { may_give self.old.from step ≡ true }
        ensures added { OnOk result (self.new ≡ record self.old { steps = self.old.steps ++ step ∷ [] }) }
        ensures unchanged { OnErr result (self.new ≡ self.old) }
    {
        self.steps.push(step)?;
        Ok(())
    }

    /// Whose the lane is, or none if it is nobody's.
    pub fn from(&self) -> &Option<Caller>
        ensures { result.now ≡ self.now.from }
    {
        &self.from
    }

    /// Its steps, in order.
    pub fn steps(&self) -> &[Step]
        ensures steps { result.now ≡ self.now.steps }
        ensures own { IsLane self.now }
    {
        self.steps.as_slice()
    }
}

/// The place of the first step that the lane may not give.
fn first_foreign(from: &Option<Caller>, steps: &[Step]) -> Option<usize>
    ensures { FindsForeign from.now steps.now result }
{
    for place in 0..steps.len() {
        if !may_give(from, &steps[place]) {
            return Some(place);
        }
    }
    None
}

/// Whether no two lanes are of one client, and at most one is nobody's. Compares each lane with those
/// after it, and takes no memory.
pub fn distinct(lanes: &[Lane]) -> bool
    ensures { IsTrue result ↔ AreDistinct lanes.now }
{
    let mut rest = lanes;
    'lanes: while let Some((lane, others)) = rest.split_first() {
        if has_from(others, lane.from()) {
            return false;
        }
        rest = others;
    }
    true
}

/// Whether one of the lanes is this client's, or nobody's.
fn has_from(lanes: &[Lane], from: &Option<Caller>) -> bool
    ensures { result ≡ list_any (λ lane. same_lane from.now lane.from) lanes.now }
{
    lanes.iter().any(|lane| *from == lane.from)
}
