//! What is kept of a known tenant.

ghost use Rattle.std.specs.Prelude.{◌≡◌, ◌+◌, ◌<◌, ◌≤◌, IfOk, map};
ghost use Rattle.tenant_accounts.specs.Kept.{fresh_account, last_number};
ghost use Rattle.tenant_accounts.specs.Sends.{send_of, sent_by};

use grain_id::GrainId;
use request_codec::Message;
use std::alloc::{AllocError, Global};
use std::collections::{BTreeMap, VecDeque};
use std::marker::Model;
use tenant_gate::Limits;

mod index;
mod resuming;
mod sends;

/// A call that a grain sent, and that is not yet delivered.
#[derive(Drop)]
pub struct Sent {
    pub source: GrainId,
    pub target: GrainId,
    pub message: Message,
}

impl Sent {
    /// A copy of it.
    pub(crate) fn copied(&self) -> Result<Sent, AllocError>
        ensures { IfOk result (λ copy. send_of copy ≡ send_of self.now) }
    {
        Ok(Sent {
            source: self.source.clone()?,
            target: self.target.clone()?,
            message: self.message.clone()?,
        })
    }
}

/// What is kept of a known tenant: its limits, how many requests of it were accepted, and what its
/// grains sent, in order.
///
/// What was sent is kept by numbers that rise, and an index has the numbers of each grain's own: so
/// the first of a grain is found by two look-ups, however much was sent. How many bytes the messages
/// have is counted as they come and go.
#[derive(Drop)]
pub struct Account {
    limits: Limits,
    count: u64,
    pub(crate) sends: BTreeMap<u64, Sent>,
    index: BTreeMap<GrainId, VecDeque<u64>>,
    next: u64,
    bytes: u64,
}

impl Model for Account {
    ghost use Rattle.std.specs.Prelude.{◌≡◌, ◌≤◌, map};
    ghost use Rattle.std.specs.Coded.{codes};
    ghost use Rattle.request_codec.specs.Code.{coded_tree};
    ghost use Rattle.tenant_accounts.specs.Kept as kept;
    ghost use Rattle.tenant_accounts.specs.Kept.{last_number};
    ghost use Rattle.tenant_accounts.specs.Sends.{send_of, sent_bytes};
    ghost use Rattle.tenant_accounts.specs.inside.Undelivered.{IsIndexed};

    ghost Value = { kept.Account };

    ghost coded = { Prim.hlevel (codes, coded_tree) };

    ghost view = { λ a. record { limits = a.limits; count = a.count; sends = map (λ e. send_of e.1) a.sends.entries } };

    ghost invariant = { λ a. (a.count ≤ last_number) × IsIndexed a.sends.entries a.index a.next × (a.bytes ≡ sent_bytes (map (λ e. send_of
        e.1) a.sends.entries)) };
}

impl Account {
    /// Nothing accepted, and nothing sent.
    pub(crate) fn new(alloc: Global, limits: Limits) -> Account
        ensures { result ≡ fresh_account limits }
    {
        Account {
            limits,
            count: 0,
            sends: BTreeMap::new(alloc),
            index: BTreeMap::new(alloc),
            next: 0,
            bytes: 0,
        }
    }

    /// What the tenant may have.
    pub fn limits(&self) -> Limits
        ensures { result ≡ self.now.limits }
    {
        self.limits
    }

    /// How many requests were accepted.
    pub fn count(&self) -> u64
        ensures count { result ≡ self.now.count }
        ensures bound { result ≤ last_number }
    {
        self.count
    }

    /// One request more was accepted.
    pub fn count_one(&mut self)
        requires { self.old.count < last_number }
        ensures { self.new ≡ record self.old { count = self.old.count + 1 } }
    {
        self.count += 1;
    }
}

/// The calls that a grain sends, of which a turn has the targets and the messages.
pub(crate) fn sent_by(
    alloc: Global,
    source: &GrainId,
    sends: &[(GrainId, Message)],
) -> Result<VecDeque<Sent>, AllocError>
    ensures { IfOk result (λ calls. map send_of calls.items ≡ sent_by source.now sends.now) }
{
    let mut calls = VecDeque::new(alloc);
    for (target, message) in sends {
        calls.push_back(Sent {
            source: source.clone()?,
            target: target.clone()?,
            message: message.clone()?,
        })?;
    }
    Ok(calls)
}
