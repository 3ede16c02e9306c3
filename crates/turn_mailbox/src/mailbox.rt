//! The requests of one grain: those that wait, in their order, and the open turns, by number.

ghost use Rattle.std.specs.Prelude.{◌≡◌, ◌↔◌, ◌<◌, ◌≤◌, ◌++◌, ◌∷◌, [], true, None, if◌then◌else◌, OnOk, OnErr, IsErr, IfOk, IfErr};
ghost use Rattle.std.specs.Prelude.{length, slice_get};
ghost use Rattle.std.specs.Option.{option_copied};
ghost use Rattle.std.specs.List.{list_any};
ghost use Rattle.std.specs.FinMap as map;
ghost use Rattle.turn_mailbox.specs.Contents.{may_begin, begun, turn_of, is_idle, has_from, is_from, Finishes};

use crate::request::Request;
use crate::turns::Turns;
use grain_id::{Caller, GrainId};
use request_codec::StateBytes;
use silo_event::OpenedTurn;
use std::alloc::{AllocError, Global};
use std::collections::VecDeque;
use std::marker::Model;
use thiserror::Error;

/// No turn of that number is open.
#[derive(Clone, Copy, Debug, PartialEq, Eq, Error)]
#[error("no turn of that number is open")]
pub struct NoTurn;

/// The requests of one grain.
#[derive(Drop)]
pub struct Mailbox {
    waiting: VecDeque<Request>,
    turns: Turns,
    capacity: usize,
}

impl Model for Mailbox {
    ghost use Rattle.std.specs.Coded.{codes};
    ghost use Rattle.std.specs.VecDeque.{deque_len, deque_capacity};
    ghost use Rattle.request_codec.specs.Code.{coded_tree};
    ghost use Rattle.turn_mailbox.specs.Kept.{by_number_code, IsMailbox};
    ghost use Rattle.turn_mailbox.specs.Contents.{Contents};

    ghost Value = { Contents };

    ghost coded = { Prim.hlevel (codes, by_number_code, coded_tree) };

    ghost view = { λ m. record { waiting = m.waiting.items; opened = m.turns; capacity = m.capacity } };

    ghost invariant = { λ m. IsMailbox (deque_len m.waiting) (deque_capacity m.waiting) m.turns m.capacity };
}

impl Mailbox {
    /// Nothing waits and no turn is open. The memory for the requests that may wait, `capacity` of
    /// them, is taken here.
    pub fn new(alloc: Global, capacity: usize) -> Result<Mailbox, AllocError>
        ensures { IfOk result (λ m. m ≡ record { waiting = []; opened = map.empty; capacity = capacity }) }
    {
        Ok(Mailbox {
            waiting: VecDeque::with_capacity(alloc, capacity)?,
            turns: Turns::new(alloc),
            capacity,
        })
    }

    /// How many requests wait.
    pub fn len(&self) -> usize
        ensures count { result ≡ length self.now.waiting }
        ensures bound { result ≤ self.now.capacity }
    {
        self.waiting.len()
    }

    /// The request at that place among those that wait, from 0.
    pub fn at(&self, place: usize) -> Option<&Request>
        ensures { option_copied result ≡ slice_get self.now.waiting place }
    {
        self.waiting.get(place)
    }

    /// The request of the open turn of that number.
    pub fn opened(&self, number: u64) -> Option<&Request>
        ensures { option_copied result ≡ map.get self.now.opened number }
    {
        self.turns.get(number)
    }

    /// Makes room for one more request to wait. Takes memory only if the mailbox is full.
    ///
    /// # Errors
    ///
    /// Out of memory: the mailbox is as before.
    pub fn make_room(&mut self) -> Result<(), AllocError>
        ensures room { OnOk result (length self.new.waiting < self.new.capacity) }
        ensures had_room { length self.old.waiting < self.old.capacity → self.new ≡ self.old }
        ensures refused { OnErr result (length self.old.waiting ≡ self.old.capacity) }
        ensures kept { self.new ≡ record self.old { capacity = self.new.capacity } }
        ensures unchanged { OnErr result (self.new ≡ self.old) }
    {
        if self.waiting.len() < self.capacity {
            return Ok(());
        }
        self.waiting.reserve(1)?;
        self.capacity = self.waiting.capacity();
        Ok(())
    }

    /// Adds a request after those that wait. It comes back if the mailbox is full. Takes no memory.
    pub fn push(&mut self, request: Request) -> Result<(), Request>
        ensures full { IsErr result ↔ (length self.old.waiting ≡ self.old.capacity) }
        ensures given_back { IfErr result (λ back. back ≡ request) }
        ensures unchanged { OnErr result (self.new ≡ self.old) }
        ensures waits { OnOk result (self.new ≡ record self.old { waiting = self.old.waiting ++ request ∷ [] }) }
    {
        if self.waiting.len() == self.capacity {
            return Err(request);
        }
        self.waiting.push_back_reserved(request);
        Ok(())
    }

    /// Whether no request waits and no turn is open.
    pub fn is_idle(&self) -> bool
        ensures { result ≡ is_idle self.now }
    {
        self.waiting.is_empty() && self.turns.is_empty()
    }

    /// Whether the first waiting request may begin: one that only reads, if each open turn only reads,
    /// and another, if no turn is open. Looks at one open turn, since a turn that writes is open alone.
    pub fn may_begin(&self) -> bool
        ensures { result ≡ may_begin self.now }
    {
        let Some(front) = self.waiting.front() else {
            return false;
        };
        match self.turns.some() {
            Some(turn) => front.reading && turn.reading,
            None => true,
        }
    }

    /// Opens a turn of the first waiting request, if it may begin: for this grain, in this state. If
    /// nothing may begin there is no turn. A turn of that number that is open already is replaced.
    ///
    /// # Errors
    ///
    /// Out of memory: the mailbox is as before.
    pub fn begin(
        &mut self,
        grain: &GrainId,
        state: &StateBytes,
    ) -> Result<Option<OpenedTurn>, AllocError>
        ensures turn { IfOk result (λ turn. turn ≡ (if may_begin self.old then turn_of grain.now state.now self.old.waiting else None)) }
        ensures begun { OnOk result (self.new ≡ (if may_begin self.old then begun self.old self.old.waiting else self.old)) }
        ensures unchanged { OnErr result (self.new ≡ self.old) }
    {
        if !self.may_begin() {
            return Ok(None);
        }
        let Some(front) = self.at(0) else {
            return Ok(None);
        };
        let turn = OpenedTurn {
            grain: grain.clone()?,
            number: front.number,
            reading: front.reading,
            state: state.clone()?,
            message: front.message.clone()?,
        };
        self.open_front()?;
        Ok(Some(turn))
    }

    /// Makes the first waiting request an open turn, if it may begin, and says whether it did: as
    /// `begin`, with no turn handed out.
    ///
    /// # Errors
    ///
    /// Out of memory: the mailbox is as before.
    pub fn open(&mut self) -> Result<bool, AllocError>
        ensures opened { IfOk result (λ opened. opened ≡ may_begin self.old) }
        ensures begun { OnOk result (self.new ≡ (if may_begin self.old then begun self.old self.old.waiting else self.old)) }
        ensures unchanged { OnErr result (self.new ≡ self.old) }
    {
        let may = self.may_begin();
        if may {
            self.open_front()?;
        }
        Ok(may)
    }

    /// Makes the first waiting request an open turn.
    fn open_front(&mut self) -> Result<(), AllocError>
        requires { may_begin self.old ≡ true }
        ensures begun { OnOk result (self.new ≡ begun self.old self.old.waiting) }
        ensures unchanged { OnErr result (self.new ≡ self.old) }
    {
        let Some(request) = self.waiting.pop_front() else {
            return Ok(());
        };
        match self.turns.insert(request) {
            Ok(()) => Ok(()),
            Err(request) => {
                self.waiting.push_front_reserved(request);
                Err(AllocError)
            }
        }
    }

    /// Whether a request of this client waits or is open. Looks at every request.
    pub fn has_from(&self, client: &Caller) -> bool
        ensures { result ≡ has_from self.now client.now }
    {
        self.has_waiting_from(client) || self.turns.has_from(client)
    }

    /// Whether a request that waits came from this client.
    fn has_waiting_from(&self, client: &Caller) -> bool
        ensures { result ≡ list_any (is_from client.now) self.now.waiting }
    {
        self.waiting.iter().any(|request| request.is_from(client))
    }

    /// The requests that wait, out of a mailbox that goes. Takes no memory.
    pub fn into_waiting(self) -> VecDeque<Request>
        ensures { result.items ≡ self.waiting }
    {
        let Mailbox {
            waiting,
            turns: _,
            capacity: _,
        } = self;
        waiting
    }

    /// Closes the turn of that number: its request. Takes no memory.
    pub fn finish(&mut self, number: u64) -> Result<Request, NoTurn>
        ensures { Finishes self.old number result self.new }
    {
        let Some(request) = self.turns.remove(number) else {
            return Err(NoTurn);
        };
        Ok(request)
    }
}
