//! What is kept of a known tenant.

ghost use Rattle.std.specs.Prelude.{◌≡◌, ◌+◌, ◌<◌, ◌≤◌, ◌++◌, IfOk, IfSome, OnOk, OnErr, length, map};
ghost use Rattle.grain_logic.specs.Finished.{sent};
ghost use Rattle.silo_model.specs.Calls.{last_number};
ghost use Rattle.silo_model.specs.Opening.{fresh_account};
ghost use Rattle.silo_model.specs.Turns.{sent_by};
ghost use Rattle.tenant_machine.specs.inside.Sends.{sends_of, first_place, without_first, FindsSend};

use grain_id::GrainId;
use request_codec::Message;
use std::alloc::{AllocError, Global};
use std::marker::Model;
use tenant_gate::Limits;

/// A call that a grain sent, and that is not yet delivered.
#[derive(Drop)]
pub struct Sent {
    pub source: GrainId,
    pub target: GrainId,
    pub message: Message,
}

/// What is kept of a known tenant: its limits, how many requests of it were accepted, and what its
/// grains sent, in order.
#[derive(Drop)]
pub struct Account {
    limits: Limits,
    count: u64,
    sends: Vec<Sent>,
}

impl Model for Account {
    ghost use Rattle.std.specs.Prelude.{◌≤◌};
    ghost use Rattle.std.specs.Coded.{codes};
    ghost use Rattle.request_codec.specs.Code.{coded_tree};
    ghost use Rattle.silo_model.specs.Machine as model;
    ghost use Rattle.silo_model.specs.Calls.{last_number};
    ghost use Rattle.tenant_machine.specs.inside.Sends.{sends_of};

    ghost Value = { model.Account };

    ghost coded = { Prim.hlevel (codes, coded_tree) };

    ghost view = { λ a. record { limits = a.limits; count = a.count; sends = sends_of a.sends.items } };

    ghost invariant = { λ a. a.count ≤ last_number };
}

/// The place of the first call that the grain sent.
fn place_of(sends: &[Sent], grain: &GrainId) -> Option<usize>
    ensures place { result ≡ first_place grain.now sends.now }
    ensures bound { IfSome result (λ place. place < length sends.now) }
{
    'places: for place in 0..sends.len() {
        if sends[place].source == *grain {
            return Some(place);
        }
    }
    None
}

impl Account {
    /// Nothing accepted, and nothing sent.
    pub fn new(alloc: Global, limits: Limits) -> Account
        ensures { result ≡ fresh_account limits }
    {
        Account {
            limits,
            count: 0,
            sends: Vec::new(alloc),
        }
    }

    /// What the tenant may have.
    pub fn limits(&self) -> Limits
        ensures { result ≡ self.now.limits }
    {
        self.limits
    }

    /// How many requests were accepted.
    pub fn count(&self) -> u64
        ensures count { result ≡ self.now.count }
        ensures bound { result ≤ last_number }
    {
        self.count
    }

    /// One request more was accepted.
    pub fn count_one(&mut self)
        requires { self.old.count < last_number }
        ensures { self.new ≡ record self.old { count = self.old.count + 1 } }
    {
        self.count += 1;
    }

    /// The first call that the grain sent.
    pub fn first_from(&self, grain: &GrainId) -> Option<&Sent>
        ensures { FindsSend grain.now self.now.sends result }
    {
        let Some(place) = place_of(self.sends.as_slice(), grain) else {
            return None;
        };
        self.sends.as_slice().get(place)
    }

    /// The first call that the grain sent is taken out. Takes no memory.
    pub fn take_first(&mut self, grain: &GrainId)
        ensures { self.new ≡ record self.old { sends = without_first grain.now self.old.sends } }
    {
        if let Some(place) = place_of(self.sends.as_slice(), grain) {
            drop(self.sends.remove(place));
        }
    }

    /// Its grains sent these, after what they sent before.
    ///
    /// # Errors
    ///
    /// Out of memory: the account is as before.
    pub fn send(&mut self, mut sent: Vec<Sent>) -> Result<(), AllocError>
        ensures done { OnOk result (self.new ≡ record self.old { sends = self.old.sends ++ sends_of sent.items }) }
        ensures unchanged { OnErr result (self.new ≡ self.old) }
    {
        self.sends.append(&mut sent)?;
        Ok(())
    }
}

/// The calls that a grain sends, of which a turn has the targets and the messages.
///
/// # Errors
///
/// Out of memory.
pub fn sent_by(
    alloc: Global,
    source: &GrainId,
    sends: &[(GrainId, Message)],
) -> Result<Vec<Sent>, AllocError>
    ensures { IfOk result (λ calls. sends_of calls.items ≡ sent_by source.now (map sent sends.now)) }
{
    let mut calls = Vec::new(alloc);
    for (target, message) in sends {
        calls.push(Sent {
            source: source.clone()?,
            target: target.clone()?,
            message: message.clone()?,
        })?;
    }
    Ok(calls)
}
