//! How an open turn is closed, and its sender gets the reply if it is a client.

ghost use Rattle.std.specs.Prelude.{◌≡◌, ◌≤◌, ◌+◌, ◌<◌, ◌++◌, Some, IsSome, Err, flat_map, length, if◌then◌else◌, vec_len, vec_capacity};
ghost use Rattle.std.specs.Option.{option_map, option_and_then};
ghost use Rattle.std.specs.FinMap as map;
ghost use Rattle.grain_logic.specs.Laws.{IsKeep};
ghost use Rattle.grain_logic.specs.Planned.{keep_of};
ghost use Rattle.silo_event.specs.declared.fault.Fault.TheVariants.{StorageFailed};
ghost use Rattle.silo_model.specs.Calls.{reply_to};
ghost use Rattle.silo_model.specs.Machine.{Entry};
ghost use Rattle.silo_state.specs.Shown.{phase_of};
ghost use Rattle.silo_state.specs.Closings.{ClosesTold, EndsTold};
ghost use Rattle.tenant_machine.specs.inside.Closings.{ClosesBy};

use crate::entries::Entries;
use activation_directory::Phase;
use grain_id::GrainId;
use grain_logic::{GrainLogic, Keep};
use grain_storage::StoreFault;
use request_codec::StateBytes;
use silo_event::{Fault, Moment, Reply};
use silo_state::storing::StorageAnswer;
use silo_state::telling::{refuse_all, tell};
use std::alloc::AllocError;

/// A turn that is closed: of which grain, under which number, and whether no request waits there.
#[derive(Clone, Copy)]
pub struct ClosedTurn<'a> {
    pub grain: &'a GrainId,
    pub turn: u64,
    pub idle_after: bool,
}

/// Closes an open turn, which said `keep` of its activation, and replies to its sender, if that is a client. The
/// activation is dropped if it rests and is idle then. Takes no memory.
pub fn close_turn<L: GrainLogic>(
    entries: &mut Entries<L>,
    replies: &mut Vec<Reply>,
    closing: ClosedTurn<'_>,
    now: Moment,
    phase: Option<Phase>,
    keep: Keep,
    outcome: Result<StateBytes, Fault>,
)
    requires in_range { IsKeep (keep_of keep) }
    requires is_open { IsSome (option_and_then (λ e. map.get e.turns closing.turn) (map.get entries.old closing.grain.now)) }
    requires room { vec_len replies.old < vec_capacity replies.old }
    ensures { ClosesTold entries.old replies.old.items closing.entry.grain.now closing.entry.turn
        (option_map phase_of phase) (keep_of keep) now outcome entries.new replies.new.items }
{
    let Some(sender) = entries.close(closing.grain, closing.turn, phase, keep, now) else {
        unreachable!()
    };
    tell(replies, sender, outcome);
}

/// Ends the activation of a grain in its open turn, and replies with the reason to the turn's sender, if that is a
/// client. Requests that wait at the grain wait for a new activation, and the grain's entry is dropped if none waits.
/// Takes no memory.
fn end_activation<L: GrainLogic>(
    entries: &mut Entries<L>,
    replies: &mut Vec<Reply>,
    closing: ClosedTurn<'_>,
    last: Moment,
    why: Fault,
)
    requires is_open { IsSome (option_and_then (λ e. map.get e.turns closing.turn) (map.get entries.old closing.grain.now)) }
    requires room { vec_len replies.old < vec_capacity replies.old }
    ensures { EndsTold entries.old replies.old.items closing.entry.grain.now closing.entry.turn closing.entry.idle_after last
        (Err why) entries.new replies.new.items }
{
    let phase = Some(Phase::Waiting);
    let Some(sender) = entries.close(closing.grain, closing.turn, phase, Keep::Same, last) else {
        unreachable!()
    };
    drop_if(entries, closing.grain, closing.idle_after);
    tell(replies, sender, Err(why));
}

/// Takes the grain's activation out, if nothing waits at it.
fn drop_if<L: GrainLogic>(entries: &mut Entries<L>, grain: &GrainId, idle_after: bool)
    ensures { entries.new ≡ (if idle_after then map.remove entries.old grain.now else entries.old) }
{
    if idle_after {
        drop(entries.remove(grain));
    }
}

/// Closes an open turn by what the storage returned, and replies to the turn's sender, if that is a client. If the row
/// has another version than the grain's state stands on, the activation ends. Takes no memory.
///
/// # Errors
///
/// Out of memory, if that is what the storage answered: the turn stays open.
pub fn close_by<L: GrainLogic>(
    entries: &mut Entries<L>,
    replies: &mut Vec<Reply>,
    closing: ClosedTurn<'_>,
    now: Moment,
    last: Moment,
    stored: Result<StorageAnswer, StoreFault>,
    named: GrainId,
) -> Result<bool, AllocError>
    requires is_open { IsSome (option_and_then (λ e. map.get e.turns closing.turn) (map.get entries.old closing.grain.now)) }
    requires room { vec_len replies.old < vec_capacity replies.old }
    requires named { named ≡ closing.grain.now }
    ensures { ClosesBy entries.old replies.old.items closing.entry.grain.now closing.entry.turn closing.entry.idle_after now last stored
        result entries.new replies.new.items }
{
    let stored = match stored {
        Ok(stored) => stored,
        Err(fault) => return close_refused(entries, replies, closing, now, last, fault, named),
    };
    let phase = Phase::Ready {
        state: stored.state,
        version: stored.version,
    };
    let told = Ok(stored.told);
    close_turn(
        entries,
        replies,
        closing,
        now,
        Some(phase),
        Keep::Same,
        told,
    );
    Ok(true)
}

/// Closes an open turn whose storage call was refused.
fn close_refused<L: GrainLogic>(
    entries: &mut Entries<L>,
    replies: &mut Vec<Reply>,
    closing: ClosedTurn<'_>,
    now: Moment,
    last: Moment,
    fault: StoreFault,
    named: GrainId,
) -> Result<bool, AllocError>
    requires is_open { IsSome (option_and_then (λ e. map.get e.turns closing.turn) (map.get entries.old closing.grain.now)) }
    requires room { vec_len replies.old < vec_capacity replies.old }
    requires named { named ≡ closing.grain.now }
    ensures { ClosesBy entries.old replies.old.items closing.entry.grain.now closing.entry.turn closing.entry.idle_after now last
        (Err fault) result entries.new replies.new.items }
{
    match fault {
        StoreFault::Failed => {
            let why = Err(Fault::StorageFailed);
            close_turn(entries, replies, closing, now, None, Keep::Same, why);
            Ok(true)
        }
        StoreFault::Spent => {
            let why = Err(Fault::VersionsSpent(named));
            close_turn(entries, replies, closing, now, None, Keep::Same, why);
            Ok(true)
        }
        StoreFault::Stale(_) => {
            let why = Fault::StateChanged(named);
            end_activation(entries, replies, closing, last, why);
            Ok(true)
        }
        StoreFault::Memory => Err(AllocError),
    }
}

/// Takes the grain's activation out. Each request of a client that waits there gets the reply that the storage failed.
pub fn unload<L: GrainLogic>(entries: &mut Entries<L>, replies: &mut Vec<Reply>, grain: &GrainId)
    requires { (e : Entry) → map.get entries.old grain.now ≡ Some e → length e.queue + vec_len replies.old ≤ vec_capacity replies.old }
    ensures gone { entries.new ≡ map.remove entries.old grain.now }
    ensures told { (e : Entry) → map.get entries.old grain.now ≡ Some e
        → replies.new.items ≡ replies.old.items ++ flat_map (λ q. reply_to q.sender (Err StorageFailed)) e.queue }
{
    let Some(activation) = entries.remove(grain) else {
        return;
    };
    refuse_all(replies, activation.mailbox.into_waiting());
}
