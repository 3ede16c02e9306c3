//! How a request reaches an activation, or a new one.

ghost use Rattle.std.specs.Prelude.{◌≡◌, OnOk, OnErr, IfOk};
ghost use Rattle.silo_state.specs.inside.Arrivals.{arrived, IsFirst};

use activation_directory::{Activation, Phase};
use silo_event::Moment;
use std::alloc::{AllocError, Global};
use turn_mailbox::{Mailbox, Request};

/// One request more waits, from this moment on.
#[inline(always)]
pub fn arrive(
    activation: &mut Activation,
    request: Request,
    clock: Moment,
) -> Result<(), AllocError>
    ensures arrived { OnOk result (activation.new ≡ arrived activation.old activation.new.mailbox.capacity request clock) }
    ensures unchanged { OnErr result (activation.new ≡ activation.old) }
{
    activation.mailbox.make_room()?;
    match activation.mailbox.push(request) {
        Ok(()) => {}
        Err(_) => unreachable!(),
    }
    activation.last = clock;
    Ok(())
}

/// An activation that waits to be activated, with one request. Its mailbox grows as more wait.
#[inline(never)]
pub fn first(alloc: Global, request: Request, clock: Moment) -> Result<Activation, AllocError>
    ensures { IfOk result (λ a. IsFirst request clock a) }
{
    let mut mailbox = Mailbox::new(alloc, 1)?;
    match mailbox.push(request) {
        Ok(()) => {}
        Err(_) => unreachable!(),
    }
    Ok(Activation {
        phase: Phase::Waiting,
        mailbox,
        last: clock,
        until: 0,
        resting: false,
        noted: 0,
    })
}
