//! Copies: each equals its source.

ghost use Rattle.std.specs.Prelude.{◌≡◌, IfOk};

use crate::fault::Fault;
use crate::reply::{Party, Reply};
use crate::step::Step;
use std::alloc::AllocError;

/// A copy of the step.
///
/// # Errors
///
/// `AllocError` if memory is refused.
pub fn copy_of_step(step: &Step) -> Result<Step, AllocError>
    ensures { IfOk result (λ copy. copy ≡ step.now) }
{
    step.clone()
}

/// A copy of the reply.
///
/// # Errors
///
/// `AllocError` if memory is refused.
pub fn copy_of_reply(reply: &Reply) -> Result<Reply, AllocError>
    ensures { IfOk result (λ copy. copy ≡ reply.now) }
{
    reply.clone()
}

/// A copy of the party.
///
/// # Errors
///
/// `AllocError` if memory is refused.
pub fn copy_of_party(party: &Party) -> Result<Party, AllocError>
    ensures { IfOk result (λ copy. copy ≡ party.now) }
{
    party.clone()
}

/// A copy of the fault.
///
/// # Errors
///
/// `AllocError` if memory is refused.
pub fn copy_of_fault(fault: &Fault) -> Result<Fault, AllocError>
    ensures { IfOk result (λ copy. copy ≡ fault.now) }
{
    fault.clone()
}
