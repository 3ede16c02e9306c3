//! Steps that may bring a request, which is then served: what a client asks, and what a grain sent.

ghost use Rattle.std.specs.Prelude.{◌≡◌, ◌&&◌, ◌==◌, false, true, IfOk, Some, length};
ghost use Rattle.std.specs.FinMap as map;
ghost use Rattle.std.specs.Option.{option_copied};
ghost use Rattle.grain_id.specs.Names.{Client};
ghost use Rattle.silo_event.specs.Asker.{asker_of};
ghost use Rattle.silo_event.specs.Failed.{has_failed};
ghost use Rattle.silo_event.specs.declared.step.Step.{Step};
ghost use Rattle.silo_model.specs.Pending.{sends_of};
ghost use Rattle.answer_model.specs.Answering.{called_grain, is_asked, too_many_wait};
ghost use Rattle.line_answer.specs.Delivering.{Delivers, HasDelivered, IsOldest};
ghost use Rattle.line_answer.specs.Trying.{AnswersBy, Brings, EndsIn};

use crate::serving::{make_free, serve, take};
use bumpalo::Bump;
use grain_id::{Caller, GrainId};
use grain_logic::GrainLogic;
use grain_storage::GrainStorage;
use silo_core::Silo;
use silo_event::Step;
use std::alloc::{AllocError, Global};

/// While more calls of a tenant wait to be delivered, or the messages of those that wait have more bytes, the turns of those that are
/// delivered are abandoned.
const WAITING_CALLS: usize = 10_000;

const WAITING_BYTES: u64 = 1_048_576;

/// Once the messages of what was delivered after a line have as many bytes, no more is delivered.
const DELIVERED_BYTES: u64 = 262_144;

/// What became of a step: whether it was possible, and whether there was memory to close the turns that it brought.
#[derive(Clone, Copy, Debug, PartialEq, Eq)]
pub struct Taken {
    pub done: bool,
    pub memory: bool,
}

/// Takes a step, and serves the request that it brought to the grain, if it was accepted: then there is no reply to
/// anybody yet. With `gives_up` the request's turn is abandoned.
///
/// # Errors
///
/// Out of memory: some of it may have been done.
fn bring<S: GrainStorage, L: GrainLogic>(
    alloc: Global,
    bump: &mut Bump,
    silo: &mut Silo<S, L>,
    step: Step,
    grain: Option<GrainId>,
    gives_up: bool,
) -> Result<Taken, AllocError>
    requires { has_failed step ≡ false }
    ensures { IfOk result (λ taken. Brings L.logic silo.old step grain gives_up taken.done taken.memory silo.new) }
{
    let before = told(silo);
    let done = take(alloc, bump, silo, step)?;
    let Some(grain) = grain else {
        return Ok(Taken { done, memory: true });
    };
    let after = told(silo);
    if is_same(before, after) {
        let memory = serve(alloc, bump, silo, grain, gives_up)?;
        return Ok(Taken { done, memory });
    }
    drop(grain);
    Ok(Taken { done, memory: true })
}

/// How many replies there are.
fn told<S: GrainStorage, L: GrainLogic>(silo: &Silo<S, L>) -> usize
    ensures { result ≡ length silo.now.whole.replies }
{
    silo.replies().len()
}

fn both(one: bool, other: bool) -> bool
    ensures { result ≡ (one && other) }
{
    one && other
}

fn is_same(before: usize, after: usize) -> bool
    ensures { result ≡ (after == before) }
{
    after == before
}

/// The oldest of what a tenant's grains sent: who sent it to whom, how many bytes its message has, and whether its turn is to be
/// abandoned.
#[derive(Drop)]
struct OldestCall {
    source: GrainId,
    target: GrainId,
    bytes: u64,
    gives_up: bool,
}

/// Whether too many calls that the tenant's grains sent wait, or too many bytes of their messages.
fn too_many_wait<S: GrainStorage, L: GrainLogic>(silo: &Silo<S, L>, tenant: &str) -> bool
    ensures { result ≡ too_many_wait (sends_of (map.get silo.now.whole.accounts tenant.now)) }
{
    silo.sent_calls(tenant) > WAITING_CALLS || silo.sent_bytes(tenant) > WAITING_BYTES
}

/// The oldest of what the tenant's grains sent, if there is one.
///
/// # Errors
///
/// Out of memory.
fn oldest<S: GrainStorage, L: GrainLogic>(
    silo: &Silo<S, L>,
    tenant: &str,
) -> Result<Option<OldestCall>, AllocError>
    ensures { IfOk result (λ found. IsOldest (sends_of (map.get silo.now.whole.accounts tenant.now)) found) }
{
    let Some(sent) = silo.oldest_sent(tenant) else {
        return Ok(None);
    };
    Ok(Some(OldestCall {
        source: sent.source.clone()?,
        target: sent.target.clone()?,
        bytes: sent.message.bytes().len() as u64,
        gives_up: too_many_wait(silo, tenant),
    }))
}

/// Delivers the oldest of what the tenant's grains sent. Returns whether there was memory to close its turn.
///
/// # Errors
///
/// Out of memory: some of it may have been done.
fn deliver_found<S: GrainStorage, L: GrainLogic>(
    alloc: Global,
    bump: &mut Bump,
    silo: &mut Silo<S, L>,
    tenant: &str,
    found: OldestCall,
) -> Result<bool, AllocError>
    requires { IsOldest (sends_of (map.get silo.old.whole.accounts tenant.now)) (Some found) }
    ensures { IfOk result (λ memory. Delivers L.logic silo.old tenant.now found.bytes memory silo.new) }
{
    let OldestCall {
        source,
        target,
        gives_up,
        ..
    } = found;
    let taken = bring(
        alloc,
        bump,
        silo,
        Step::Deliver { grain: source },
        Some(target),
        gives_up,
    )?;
    Ok(taken.memory)
}

/// Delivers at most `most` of the requests that the tenant's grains sent, the oldest first, until their messages have 262,144 bytes.
/// Returns whether there was memory to close their turns.
///
/// # Errors
///
/// Out of memory: some of it may have been done.
fn deliver<S: GrainStorage, L: GrainLogic>(
    alloc: Global,
    bump: &mut Bump,
    silo: &mut Silo<S, L>,
    tenant: &str,
    most: u64,
) -> Result<bool, AllocError>
    ensures { IfOk result (λ memory. HasDelivered L.logic most tenant.now silo.old memory silo.new) }
{
    let mut room = DELIVERED_BYTES;
    let mut memory = true;
    for _ in 0..most {
        if room == 0 {
            return Ok(memory);
        }
        let Some(found) = oldest(silo, tenant)? else {
            return Ok(memory);
        };
        room = room.saturating_sub(found.bytes);
        let had = deliver_found(alloc, bump, silo, tenant, found)?;
        memory = both(had, memory);
    }
    Ok(memory)
}

/// Whether a client asks it, or it is the clock or sweeping; and it has no mark of a failure.
pub fn is_asked(step: &Step) -> bool
    ensures { result ≡ is_asked step.now }
{
    match step {
        Step::Refuse { .. } => true,
        Step::Call { .. } => true,
        Step::Poke { failed, .. } => !*failed,
        Step::Status { .. } => true,
        Step::Deliver { .. } => false,
        Step::Activate { .. } => false,
        Step::Load { .. } => false,
        Step::Begin { .. } => false,
        Step::Store { .. } => false,
        Step::End { .. } => false,
        Step::Abandon { .. } => false,
        Step::Tick { .. } => true,
        Step::Sweep => true,
    }
}

/// The grain that a call asks.
fn called_grain(step: &Step) -> Result<Option<GrainId>, AllocError>
    ensures { IfOk result (λ grain. grain ≡ called_grain step.now) }
{
    match step {
        Step::Call { grain, .. } => Ok(Some(grain.clone()?)),
        _ => Ok(None),
    }
}

/// The client that asks.
fn asker_of(step: &Step) -> Result<Option<Caller>, AllocError>
    ensures { IfOk result (λ asker. asker ≡ asker_of step.now) }
{
    match step.asker() {
        Some(caller) => Ok(Some(caller.clone()?)),
        None => Ok(None),
    }
}

/// The client whose call was served at once, if that was done last.
fn last_caller<S: GrainStorage, L: GrainLogic>(silo: &Silo<S, L>) -> Option<&Caller>
    ensures { (call : Step) → EndsIn silo.now.journal call → option_copied result ≡ asker_of call }
{
    let steps = silo.journal();
    let Some(place) = steps.len().checked_sub(3) else {
        return None;
    };
    let Some(call) = steps.get(place) else {
        return None;
    };
    call.asker()
}

/// If the last thing done was a client's call that was served at once, delivers at most `most` of the requests that the
/// grains of the client's tenant sent, the oldest first. Mostly there is none. Returns whether there was memory to close their turns.
///
/// # Errors
///
/// Out of memory: some of it may have been done.
fn deliver_behind<S: GrainStorage, L: GrainLogic>(
    alloc: Global,
    bump: &mut Bump,
    silo: &mut Silo<S, L>,
    most: u64,
) -> Result<bool, AllocError>
    ensures { IfOk result (λ memory. (call : Step) (caller : Client) → EndsIn silo.old.journal call → asker_of call ≡ Some caller
        → HasDelivered L.logic most caller.tenant silo.old memory silo.new) }
{
    let Some(caller) = last_caller(silo) else {
        return Ok(true);
    };
    let Some(_source) = silo.oldest_sender(caller.tenant()) else {
        return Ok(true);
    };
    let caller = caller.clone()?;
    let delivered = deliver(alloc, bump, silo, caller.tenant(), most);
    drop(caller);
    delivered
}

/// Answers what isn't served at once.
///
/// # Errors
///
/// Out of memory: some of it may have been done.
fn answer_by_steps<S: GrainStorage, L: GrainLogic>(
    alloc: Global,
    bump: &mut Bump,
    silo: &mut Silo<S, L>,
    step: Step,
    most: u64,
) -> Result<Taken, AllocError>
    requires { is_asked step ≡ true }
    ensures { IfOk result (λ taken. AnswersBy L.logic most silo.old step taken.done taken.memory silo.new) }
{
    let asker = asker_of(&step)?;
    let grain = called_grain(&step)?;
    let taken = bring(alloc, bump, silo, step, grain, false)?;
    let Some(caller) = asker else {
        return Ok(taken);
    };
    let memory = deliver(alloc, bump, silo, caller.tenant(), most)?;
    drop(caller);
    Ok(Taken {
        done: taken.done,
        memory: both(taken.memory, memory),
    })
}

/// Answers what a client asks, a tick or a sweep, followed by at most `most` deliveries: a call is mostly served at
/// once. Turns run in the arena, one after another.
///
/// # Errors
///
/// Out of memory: some of it may have been done.
pub fn answer_step<S: GrainStorage, L: GrainLogic>(
    alloc: Global,
    bump: &mut Bump,
    silo: &mut Silo<S, L>,
    step: Step,
    most: u64,
) -> Result<Taken, AllocError>
    requires { is_asked step ≡ true }
    ensures { IfOk result (λ taken. AnswersBy L.logic most silo.old step taken.done taken.memory silo.new) }
{
    let Some(back) = silo.serve_at_once(alloc, bump, step) else {
        make_free(bump);
        let memory = deliver_behind(alloc, bump, silo, most)?;
        return Ok(Taken { done: true, memory });
    };
    answer_by_steps(alloc, bump, silo, back, most)
}
