//! What each lane is answered.

ghost use Rattle.std.specs.Prelude.{◌≡◌, ◌++◌, [], IfOk, OnOk, Some, false, map as map_list};
ghost use Rattle.grain_id.specs.Names.{Client};
ghost use Rattle.lane_model.specs.Lanes.{AreDistinct, same_lane};
ghost use Rattle.lane_model.specs.Serving.{replies_to};
ghost use Rattle.client_lanes.specs.inside.RepliesByClient.{only_to, told_by, told_to};

use crate::lane::Lane;
use grain_id::{Caller, HashSeed};
use indexmap::IndexMap;
use silo_event::{Party, Reply, copy_of_reply};
use std::alloc::{AllocError, Global};

/// The replies to each client, in order.
type RepliesByClient = IndexMap<Caller, Vec<Reply>, HashSeed>;

/// For each lane the replies to its client, in order; for nobody's lane none. One pass over the
/// replies, with a look-up for each reply to a client, by a hash from the seed. A list has room for a
/// reply to each of its lane's steps from the start.
///
/// # Errors
///
/// Out of memory.
pub fn answers(
    alloc: Global,
    seed: HashSeed,
    lanes: &[Lane],
    replies: &[Reply],
) -> Result<Vec<Vec<Reply>>, AllocError>
    requires { AreDistinct lanes.now }
    ensures { IfOk result (λ answers. map_list (λ v. v.items) answers.items
        ≡ map_list (λ lane. replies_to lane.from replies.now) lanes.now) }
{
    let mut told = none_told(alloc, seed, lanes)?;
    tell_all(alloc, &mut told, replies)?;
    let mut answers = Vec::with_capacity(alloc, lanes.len())?;
    let mut rest = lanes;
    'lanes: while let Some((lane, others)) = rest.split_first() {
        answers.push(take_of(alloc, &mut told, lane.from()))?;
        rest = others;
    }
    Ok(answers)
}

/// No client has a reply yet. There is room for a reply to each step of the lanes.
fn none_told(alloc: Global, seed: HashSeed, lanes: &[Lane]) -> Result<RepliesByClient, AllocError>
    ensures { IfOk result (λ told. (client : Client) → told_to told client ≡ []) }
{
    let mut told: RepliesByClient = IndexMap::with_hasher(alloc, seed);
    let mut rest = lanes;
    'lanes: while let Some((lane, others)) = rest.split_first() {
        expect(alloc, &mut told, lane)?;
        rest = others;
    }
    Ok(told)
}

/// Makes room for a reply to each step of the lane, if it is a client's.
fn expect(alloc: Global, told: &mut RepliesByClient, lane: &Lane) -> Result<(), AllocError>
    ensures { OnOk result (((client : Client) → told_to told.old client ≡ []) → (client : Client) → told_to told.new client ≡ []) }
{
    if let Some(client) = lane.from() {
        let room = Vec::with_capacity(alloc, lane.steps().len())?;
        told.insert(client.clone()?, room)?;
    }
    Ok(())
}

/// Adds the replies after those that their clients have.
fn tell_all(alloc: Global, told: &mut RepliesByClient, replies: &[Reply]) -> Result<(), AllocError>
    ensures { OnOk result ((client : Client) → told_to told.new client ≡ told_to told.old client ++ replies_to (Some client) replies.now) }
{
    let mut rest = replies;
    'replies: while let Some((reply, others)) = rest.split_first() {
        if let Party::Client(caller, _) = &reply.recipient {
            add(alloc, told, caller, reply)?;
        }
        rest = others;
    }
    Ok(())
}

/// Adds a reply after those that the client has.
fn add(
    alloc: Global,
    told: &mut RepliesByClient,
    caller: &Caller,
    reply: &Reply,
) -> Result<(), AllocError>
    ensures { OnOk result ((client : Client) → told_to told.new client ≡ told_to told.old client ++ only_to caller.now client reply.now) }
{
    if let Some(list) = told.get_mut(caller) {
        let copy = copy_of_reply(reply)?;
        list.push(copy)?;
        return Ok(());
    }
    let copy = copy_of_reply(reply)?;
    let first = vec![in alloc; copy]?;
    let key = caller.clone()?;
    told.insert(key, first)?;
    Ok(())
}

/// Takes out the replies to the lane's client. Takes no memory.
fn take_of(alloc: Global, told: &mut RepliesByClient, from: &Option<Caller>) -> Vec<Reply>
    ensures taken { result.items ≡ told_by told.old from.now }
    ensures others { (client : Client) → same_lane from.now (Some client) ≡ false → told_to told.new client ≡ told_to told.old client }
{
    let Some(client) = from else {
        return Vec::new(alloc);
    };
    match told.swap_remove(client) {
        Some(list) => list,
        None => Vec::new(alloc),
    }
}
