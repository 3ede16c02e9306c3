//! How the answer to a request becomes a reply.

ghost use Rattle.std.specs.Prelude.{◌≡◌, ◌<◌, ◌≤◌, ◌+◌, ◌++◌, Err, flat_map, length, IfOk, vec_len, vec_capacity};
ghost use Rattle.silo_model.specs.Calls.{reply_to};
ghost use Rattle.silo_model.specs.Methods.{method_fault};
ghost use Rattle.silo_model.specs.Turns.{outcome_of};
ghost use Rattle.silo_state.specs.Reads.{refused};

use grain_logic::MethodFault;
use request_codec::StateBytes;
use silo_event::{Fault, Party, Reply};
use std::alloc::AllocError;
use std::collections::VecDeque;
use turn_mailbox::Request;

/// A client gets the answer as a reply, and a grain gets no answer to what it requested.
pub fn tell(replies: &mut Vec<Reply>, recipient: Party, outcome: Result<StateBytes, Fault>)
    requires { vec_len replies.old < vec_capacity replies.old }
    ensures told { replies.new.items ≡ replies.old.items ++ reply_to recipient outcome }
    ensures room { vec_capacity replies.new ≡ vec_capacity replies.old }
    ensures len { vec_len replies.new ≤ vec_len replies.old + 1 }
{
    match recipient {
        Party::Client(caller, id) => replies.push_reserved(Reply {
            recipient: Party::Client(caller, id),
            outcome,
        }),
        Party::Grain(_) => drop(outcome),
    }
}

/// Each of these requests that is a client's gets the reply that the storage failed, in order.
pub fn refuse_all(replies: &mut Vec<Reply>, mut waiting: VecDeque<Request>)
    requires { length waiting.items + vec_len replies.old ≤ vec_capacity replies.old }
    ensures { replies.new.items ≡ replies.old.items ++ flat_map refused waiting.items }
{
    while let Some(request) = waiting.pop_front() {
        tell(replies, request.sender, Err(Fault::StorageFailed));
    }
}

/// The outcome of a plan, again.
pub fn copied(
    outcome: &Result<StateBytes, MethodFault>,
) -> Result<Result<StateBytes, MethodFault>, AllocError>
    ensures { IfOk result (λ copy. copy ≡ outcome.now) }
{
    match outcome {
        Ok(answer) => Ok(Ok(answer.clone()?)),
        Err(why) => Ok(Err(*why)),
    }
}

/// The outcome in the reply to a turn's sender, by the plan's outcome.
pub fn told(outcome: Result<StateBytes, MethodFault>) -> Result<StateBytes, Fault>
    ensures { result ≡ outcome_of outcome }
{
    match outcome {
        Ok(answer) => Ok(answer),
        Err(why) => Err(fault_of_method(why)),
    }
}

/// The fault in the reply to a request whose method has no value: one of the codes 60 to 63.
fn fault_of_method(why: MethodFault) -> Fault
    ensures { result ≡ method_fault why }
{
    match why {
        MethodFault::UnknownMethod => Fault::UnknownMethod,
        MethodFault::Misfit => Fault::Misfit,
        MethodFault::OutOfRange => Fault::OutOfRange,
        MethodFault::TooLarge => Fault::TooLarge,
    }
}
