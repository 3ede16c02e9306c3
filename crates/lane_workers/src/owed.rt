//! How many answers each client is owed, and which lane is its own. It is owed an answer for each time it asked, less
//! the replies to it that were looked at.

ghost use Rattle.std.specs.Prelude.{◌≡◌, ◌+◌, ◌-◌, ◌≤◌, ◌==◌, true, false, length, drop, if◌then◌else◌};
ghost use Rattle.std.specs.Prelude.{IfOk, IsFalse, IsTrue, OnErr, OnOk};
ghost use Rattle.grain_id.specs.Names.{Client, client_eq};
ghost use Rattle.lane_model.specs.Asking.{asker_of, ids_told};
ghost use Rattle.lane_workers.specs.Owing.{asks_if, asks_once, is_told, owing_to};

use client_lanes::Lane;
use grain_id::{Caller, HashSeed};
use indexmap::IndexMap;
use silo_event::{Party, Reply, Step};
use std::alloc::{AllocError, Global};
use std::collections::VecDeque;

/// What is known of a client.
#[derive(Clone, Copy)]
pub struct Owed {
    /// How many answers it is owed.
    pub count: u64,
    /// The place of its lane among the lanes, if it is known: a hint.
    pub lane: Option<usize>,
}

/// How many answers each client is owed. One that isn't there is owed none.
pub type Owing = IndexMap<Caller, Owed, HashSeed>;

/// Nobody is owed anything; the clients of the lanes are known. They are found by hashes from the seed.
///
/// # Errors
///
/// Out of memory.
pub fn none_owed(alloc: Global, seed: HashSeed, lanes: &[Lane]) -> Result<Owing, AllocError>
    ensures { IfOk result (λ owing. (client : Client) → owing_to owing client ≡ 0) }
{
    let mut owing = IndexMap::with_hasher(alloc, seed);
    'lanes: for (index, lane) in lanes.iter().enumerate() {
        know(&mut owing, lane.from(), index)?;
    }
    Ok(owing)
}

/// The client of a lane, if it has one, is known and is owed nothing.
///
/// # Errors
///
/// Out of memory.
fn know(owing: &mut Owing, client: &Option<Caller>, lane: usize) -> Result<(), AllocError>
    ensures { OnOk result (((client : Client) → owing_to owing.old client ≡ 0) → (client : Client) → owing_to owing.new client ≡ 0) }
{
    if let Some(caller) = client {
        let known = Owed {
            count: 0,
            lane: Some(lane),
        };
        owing.insert(caller.clone()?, known)?;
    }
    Ok(())
}

/// Counts one more answer that is owed to the client that asks by the step, if one asks and may. It may if it is owed
/// exactly as many answers as it has replies after the first `seen`, which weren't looked at yet. Returns whether it
/// may ask; true if nobody asks.
///
/// # Errors
///
/// Out of memory, or the count would overflow, and the client may ask: each client is owed as many answers as before.
pub fn ask(
    owing: &mut Owing,
    step: &Step,
    replies: &[Reply],
    seen: usize,
) -> Result<bool, AllocError>
    requires { seen ≤ length replies.now }
    ensures may { IfOk result (λ asked. asked ≡ is_told owing.old (drop seen replies.now) (asker_of step.now)) }
    ensures asked { IfOk result (λ asked. (client : Client) → owing_to owing.new client
        ≡ owing_to owing.old client + asks_if asked (asker_of step.now) client) }
    ensures refused { OnErr result (is_told owing.old (drop seen replies.now) (asker_of step.now) ≡ true) }
    ensures unchanged { OnErr result ((client : Client) → owing_to owing.new client ≡ owing_to owing.old client) }
{
    let Some(caller) = step.asker() else {
        return Ok(true);
    };
    let (_, new) = replies.split_at(seen);
    let told = told_by(new, caller);
    ask_if(owing, caller, told)
}

/// Counts one more answer that is owed to the client, if it is owed exactly `told` answers, and returns whether it is.
///
/// # Errors
///
/// Out of memory, or the count would overflow, and the client may ask: each client is owed as many answers as before.
fn ask_if(owing: &mut Owing, caller: &Caller, told: u64) -> Result<bool, AllocError>
    ensures may { IfOk result (λ asked. asked ≡ (owing_to owing.old caller.now == told)) }
    ensures asked { IfOk result (λ asked. (client : Client) → owing_to owing.new client
        ≡ owing_to owing.old client + (if client_eq caller.now client then (if asked then 1 else 0) else 0)) }
    ensures refused { OnErr result ((owing_to owing.old caller.now == told) ≡ true) }
    ensures unchanged { OnErr result ((client : Client) → owing_to owing.new client ≡ owing_to owing.old client) }
{
    if let Some(owed) = owing.get_mut(caller) {
        return ask_more(owed, told);
    }
    if told != 0 {
        return Ok(false);
    }
    let first = Owed {
        count: 1,
        lane: None,
    };
    owing.insert(caller.clone()?, first)?;
    Ok(true)
}

/// Counts one more answer, if exactly `told` are owed, and returns whether they are.
///
/// # Errors
///
/// The count would overflow, and `told` are owed: as many are owed as before.
fn ask_more(owed: &mut Owed, told: u64) -> Result<bool, AllocError>
    ensures may { IfOk result (λ asked. asked ≡ (owed.old.count == told)) }
    ensures asked { IfOk result (λ asked. owed.new.count ≡ owed.old.count + (if asked then 1 else 0)) }
    ensures refused { OnErr result ((owed.old.count == told) ≡ true) }
    ensures unchanged { OnErr result (owed.new ≡ owed.old) }
{
    if owed.count != told {
        return Ok(false);
    }
    let Some(more) = owed.count.checked_add(1) else {
        return Err(AllocError);
    };
    owed.count = more;
    Ok(true)
}

/// Accounts for a step by which this client, if any, asked last: if it wasn't done, it isn't asked. Takes no
/// memory.
pub fn settle(owing: &mut Owing, asker: &Option<Caller>, done: bool)
    ensures done { IsTrue done → (client : Client) → owing_to owing.new client ≡ owing_to owing.old client }
    ensures not_done { IsFalse done → (client : Client)
        → owing_to owing.new client ≡ owing_to owing.old client - asks_once asker.now client }
{
    if done {
        return;
    }
    if let Some(caller) = asker {
        let _ = tell(owing, caller);
    }
}

/// Accounts for a step by which a client, if any, asked last, and that is asked no more. Takes no memory.
pub fn take_back(owing: &mut Owing, step: &Step)
    ensures { (client : Client) → owing_to owing.new client ≡ owing_to owing.old client - asks_once (asker_of step.now) client }
{
    if let Some(caller) = step.asker() {
        let _ = tell(owing, caller);
    }
}

/// Counts one answer less for the client, and returns which lane is its own, if that is known. Takes no memory.
fn tell(owing: &mut Owing, caller: &Caller) -> Option<usize>
    ensures { (client : Client) → owing_to owing.new client ≡ owing_to owing.old client - (if client_eq caller.now client then 1 else 0) }
{
    let owed = owing.get_mut(caller)?;
    owed.count = owed.count.saturating_sub(1);
    owed.lane
}

/// Counts the replies after the first `seen` as answers to their clients, and adds their clients' lanes at the end of
/// `told`.
///
/// # Errors
///
/// Out of memory: the replies are counted all the same.
pub fn tell_new(
    owing: &mut Owing,
    replies: &[Reply],
    seen: usize,
    told: &mut VecDeque<usize>,
) -> Result<(), AllocError>
    requires { seen ≤ length replies.now }
    ensures { (client : Client) → owing_to owing.new client ≡ owing_to owing.old client - length (ids_told client (drop seen replies.now)) }
{
    let (_, new) = replies.split_at(seen);
    tell_all(owing, new, told)
}

/// Counts the replies as answers to their clients, and adds their clients' lanes at the end of `told`.
///
/// # Errors
///
/// Out of memory: the replies are counted all the same.
fn tell_all(
    owing: &mut Owing,
    replies: &[Reply],
    told: &mut VecDeque<usize>,
) -> Result<(), AllocError>
    ensures { (client : Client) → owing_to owing.new client ≡ owing_to owing.old client - length (ids_told client replies.now) }
{
    let mut noted = Ok(());
    let mut rest = replies;
    'replies: while let Some((reply, others)) = rest.split_first() {
        if let Party::Client(caller, _) = &reply.recipient {
            let lane = tell(owing, caller);
            if !note(told, lane) {
                noted = Err(AllocError);
            }
        }
        rest = others;
    }
    noted
}

/// Adds a lane at the end of `told`, if there is one, and returns whether there was memory.
fn note(told: &mut VecDeque<usize>, lane: Option<usize>) -> bool {
    match lane {
        Some(place) => told.push_back(place).is_ok(),
        None => true,
    }
}

/// How many of the replies are to the client.
fn told_by(replies: &[Reply], client: &Caller) -> u64
    ensures { result ≡ length (ids_told client.now replies.now) }
{
    let mut count = 0;
    let mut rest = replies;
    'replies: while let Some((reply, others)) = rest.split_first() {
        if let Party::Client(caller, _) = &reply.recipient {
            if caller == client {
                count += 1;
            }
        }
        rest = others;
    }
    count
}
