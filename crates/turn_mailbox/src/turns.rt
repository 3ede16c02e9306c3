//! The open turns of one grain, by number.

ghost use Rattle.std.specs.Prelude.{◌≡◌, ◌==◌, OnOk, OnErr, IfErr};
ghost use Rattle.std.specs.Option.{option_copied};
ghost use Rattle.std.specs.List.{list_any};
ghost use Rattle.std.specs.FinMap as map;
ghost use Rattle.std.specs.Ordering.{nat_cmp};
ghost use Rattle.std.specs.BTreeMap.{values, IsOrdered};
ghost use Rattle.turn_mailbox.specs.Contents.{is_from};
ghost use Rattle.turn_mailbox.specs.inside.Beside.{is_one, is_from_one};

use crate::request::Request;
use grain_id::Caller;
use std::alloc::Global;
use std::collections::BTreeMap;
use std::marker::Model;

/// The open turns. One of them stands in place, and takes no memory: mostly one is open at a time.
/// Further ones stand in a map.
#[derive(Drop)]
pub struct Turns {
    one: Option<Request>,
    others: BTreeMap<u64, Request>,
}

impl Model for Turns {
    ghost use Rattle.std.specs.Coded.{codes};
    ghost use Rattle.std.specs.Ordering.{nat_cmp};
    ghost use Rattle.std.specs.FinMap.{FinMap, from_entries};
    ghost use Rattle.request_codec.specs.Code.{coded_tree};
    ghost use Rattle.turn_mailbox.specs.declared.request.Request.{Request};
    ghost use Rattle.turn_mailbox.specs.Kept.{by_number_code};
    ghost use Rattle.turn_mailbox.specs.inside.Beside.{with_one, IsBeside};

    ghost Value = { FinMap nat_cmp Request };

    ghost coded = { Prim.hlevel (codes, by_number_code, coded_tree) };

    ghost view = { λ t. with_one t.one (from_entries t.others.entries) };

    ghost invariant = { λ t. IsBeside t.one (from_entries t.others.entries) };
}

/// Whether the turn in place has that number.
fn is_one(one: &Option<Request>, number: u64) -> bool
    ensures { result ≡ is_one number one.now }
{
    match one {
        Some(turn) => turn.number == number,
        None => false,
    }
}

/// Whether the request of the turn in place came from this client.
fn is_from_one(one: &Option<Request>, client: &Caller) -> bool
    ensures { result ≡ is_from_one client.now one.now }
{
    match one {
        Some(turn) => turn.is_from(client),
        None => false,
    }
}

/// Whether the request of some turn of the map came from this client.
fn is_from_any(others: &BTreeMap<u64, Request>, client: &Caller) -> bool
    ensures any { result ≡ list_any (is_from client.now) (values others.now) }
    ensures ordered { IsOrdered nat_cmp others.now }
{
    others.values().any(|turn| turn.is_from(client))
}

impl Turns {
    /// No turn is open.
    pub fn new(alloc: Global) -> Turns
        ensures { result ≡ map.empty }
    {
        Turns {
            one: None,
            others: BTreeMap::new(alloc),
        }
    }

    /// Whether no turn is open.
    pub fn is_empty(&self) -> bool
        ensures { result ≡ (map.len self.now == 0) }
    {
        match &self.one {
            Some(_) => false,
            None => self.others.len() == 0,
        }
    }

    /// The turn of that number.
    pub fn get(&self, number: u64) -> Option<&Request>
        ensures { option_copied result ≡ map.get self.now number }
    {
        if is_one(&self.one, number) {
            return self.one.as_ref();
        }
        self.others.get(&number)
    }

    ghost use Rattle.turn_mailbox.specs.Kept.{IsSomeTurn};

    /// One of the turns.
    pub fn some(&self) -> Option<&Request>
        ensures { IsSomeTurn self.now (option_copied result) }
    {
        match &self.one {
            Some(turn) => Some(turn),
            None => {
                let (_, turn) = self.others.first_key_value()?;
                Some(turn)
            }
        }
    }

    /// Opens a turn, in place of that of its number, if there is one. Takes memory only if another is
    /// open.
    ///
    /// # Errors
    ///
    /// Out of memory: the request comes back, and the turns are as before.
    pub fn insert(&mut self, request: Request) -> Result<(), Request>
        ensures opened { OnOk result (self.new ≡ map.insert self.old request.number request) }
        ensures given_back { IfErr result (λ back. back ≡ request) }
        ensures unchanged { OnErr result (self.new ≡ self.old) }
    {
        if is_one(&self.one, request.number) {
            self.one = Some(request);
            return Ok(());
        }
        if self.is_empty() {
            self.one = Some(request);
            return Ok(());
        }
        match self.others.insert(request.number, request) {
            Ok(_) => Ok(()),
            Err(refused) => {
                let (_, request) = refused.value;
                Err(request)
            }
        }
    }

    /// Closes the turn of that number. Takes no memory.
    pub fn remove(&mut self, number: u64) -> Option<Request>
        ensures found { result ≡ map.get self.old number }
        ensures removed { self.new ≡ map.remove self.old number }
    {
        if is_one(&self.one, number) {
            return self.one.take();
        }
        self.others.remove(&number)
    }

    /// Whether the request of some turn came from this client. Looks at every turn.
    pub fn has_from(&self, client: &Caller) -> bool
        ensures { result ≡ list_any (is_from client.now) (map.values self.now) }
    {
        is_from_any(&self.others, client) || is_from_one(&self.one, client)
    }
}
