//! Accepted requests.

ghost use Rattle.std.specs.Prelude.{◌≡◌};
ghost use Rattle.turn_mailbox.specs.Contents.{is_from};

use grain_id::Caller;
use request_codec::Message;
use silo_event::Party;
use std::alloc::AllocError;

/// A request that was accepted.
#[derive(Debug, Drop)]
pub struct Request {
    /// Its number among its tenant's requests, which is its turn's number.
    pub number: u64,
    /// Whether its method only reads.
    pub reading: bool,
    pub sender: Party,
    pub message: Message,
}

impl Clone for Request {
    ghost is_clone = { λ request copy. copy ≡ request };

    fn clone(&self) -> Result<Request, AllocError> {
        Ok(Request {
            number: self.number,
            reading: self.reading,
            sender: self.sender.clone()?,
            message: self.message.clone()?,
        })
    }
}

impl Request {
    /// Whether this client sent it.
    pub fn is_from(&self, client: &Caller) -> bool
        ensures { result ≡ is_from client.now self.now }
    {
        match &self.sender {
            Party::Client(caller, _) => caller == client,
            Party::Grain(_) => false,
        }
    }
}
