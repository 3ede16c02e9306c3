//! A grain that is idle: the plan of a message's turn there, and how the grain gets another state.

ghost use Rattle.std.specs.Prelude.{◌≡◌, IfOk, IfSome, Some};
ghost use Rattle.std.specs.FinMap as map;
ghost use Rattle.silo_model.specs.Machine.{Entry};
ghost use Rattle.silo_state.specs.Shown.{entry_of};
ghost use Rattle.silo_state.specs.inside.AtOnce.{IsIdleAt, PlansAt, PlansIdle, renewed, put_state};

use crate::activations::Activations;
use activation_directory::{Activation, Phase};
use bumpalo::Bump;
use grain_id::GrainId;
use grain_logic::{GrainLogic, OwnedPlan, plan_turn};
use request_codec::{Message, StateBytes};
use silo_event::Moment;
use std::alloc::{AllocError, Global};

impl<L: GrainLogic> Activations<L> {
    /// The plan of a turn with this message at the grain, if the grain is idle and doesn't rest. The turn runs in this
    /// arena. The next look-up of the grain finds it sooner.
    ///
    /// # Errors
    ///
    /// Out of memory.
    pub fn plan_idle(
        &mut self,
        alloc: Global,
        bump: &Bump,
        logic: &L,
        grain: &GrainId,
        message: &Message,
    ) -> Result<Option<OwnedPlan>, AllocError>
        ensures planned { IfOk result (λ found. IfSome found (λ plan. PlansIdle L.logic grain.now (map.get self.old.entries grain.now)
            message.now plan)) }
        ensures unchanged { self.new ≡ self.old }
    {
        let Some(activation) = self.directory.get_mut(grain) else {
            return Ok(None);
        };
        plan_idle(alloc, bump, logic, grain, activation, message)
    }

    /// The grain's activation has this state, if one is given and it is ready, and is used now. Takes no memory.
    pub fn renew(&mut self, grain: &GrainId, state: Option<StateBytes>)
        ensures entries { (e : Entry) → map.get self.old.entries grain.now ≡ Some e
            → self.new.entries ≡ map.insert self.old.entries grain.now
            (record e { phase = renewed e.phase state; last = self.old.times.clock }) }
        ensures times { self.new.times ≡ self.old.times }
    {
        let Some(activation) = self.directory.get_mut(grain) else {
            return;
        };
        renew(activation, state, self.clock);
    }
}

/// The state of an activation, if it is idle and doesn't rest.
fn idle_state(activation: &Activation) -> Option<&StateBytes>
    ensures { IfSome result (λ state. IsIdleAt (entry_of activation.now) state.now) }
{
    let Phase::Ready { state, .. } = &activation.phase else {
        return None;
    };
    if !activation.mailbox.is_idle() {
        return None;
    }
    if activation.resting {
        return None;
    }
    Some(state)
}

/// The plan of a turn with this message at the grain's activation, if that is idle and doesn't rest.
fn plan_idle<L: GrainLogic>(
    alloc: Global,
    bump: &Bump,
    logic: &L,
    grain: &GrainId,
    activation: &Activation,
    message: &Message,
) -> Result<Option<OwnedPlan>, AllocError>
    ensures { IfOk result (λ found. IfSome found (λ plan. PlansAt L.logic grain.now (entry_of activation.now) message.now plan)) }
{
    let Some(state) = idle_state(activation) else {
        return Ok(None);
    };
    let plan = plan_turn(alloc, bump, logic, grain, state, message)?;
    Ok(Some(plan))
}

/// It has this state, if one is given and it is ready, and was last used at this moment.
fn renew(activation: &mut Activation, state: Option<StateBytes>, clock: Moment)
    ensures { activation.new ≡ record activation.old { phase = put_state activation.old.phase state; last = clock } }
{
    activation.last = clock;
    let Some(state) = state else {
        return;
    };
    let Phase::Ready { version, .. } = &activation.phase else {
        drop(state);
        return;
    };
    let version = *version;
    activation.phase = Phase::Ready { state, version };
}
