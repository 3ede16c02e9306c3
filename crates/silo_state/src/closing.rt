//! How an open turn is closed, and its sender gets the reply if it is a client.

ghost use Rattle.std.specs.Prelude.{◌≡◌, ◌<◌, IsSome, Err, if◌then◌else◌, vec_len, vec_capacity};
ghost use Rattle.std.specs.Option.{option_map, option_and_then};
ghost use Rattle.std.specs.FinMap as map;
ghost use Rattle.grain_logic.specs.Laws.{IsKeep};
ghost use Rattle.grain_logic.specs.Planned.{keep_of};
ghost use Rattle.silo_state.specs.Shown.{phase_of};
ghost use Rattle.silo_state.specs.Closings.{ClosesTold, EndsTold, ClosesBy, answer_failed};

use crate::activations::Activations;
use crate::storing::StorageAnswer;
use crate::telling::tell;
use activation_directory::Phase;
use grain_id::GrainId;
use grain_logic::{GrainLogic, Keep};
use grain_storage::StoreFault;
use request_codec::StateBytes;
use silo_event::{Answer, Fault, Moment, Reply, StepFault};

/// A turn that is closed: of which grain, under which number, and whether no request waits there.
#[derive(Clone, Copy)]
pub struct ClosedTurn<'a> {
    pub grain: &'a GrainId,
    pub turn: u64,
    pub idle_after: bool,
}

/// Closes an open turn now, and replies to its sender, if that is a client. The activation rests or stays as the turn
/// said, and is dropped if it rests and is idle then. Takes no memory.
#[inline(always)]
pub fn close_turn<L: GrainLogic>(
    activations: &mut Activations<L>,
    replies: &mut Vec<Reply>,
    closing: ClosedTurn<'_>,
    phase: Option<Phase>,
    keep: Keep,
    outcome: Result<StateBytes, Fault>,
)
    requires in_range { IsKeep (keep_of keep) }
    requires is_open { IsSome (option_and_then (λ e. map.get e.turns closing.turn) (map.get activations.old.entries closing.grain.now)) }
    requires room { vec_len replies.old < vec_capacity replies.old }
    ensures closes { ClosesTold activations.old.entries replies.old.items closing.entry.grain.now closing.entry.turn
        (option_map phase_of phase) (keep_of keep)
        activations.old.times.clock outcome activations.new.entries replies.new.items }
    ensures times { activations.new.times ≡ activations.old.times }
{
    let now = activations.clock();
    let Some(sender) = activations.close(closing.grain, closing.turn, phase, keep, now) else {
        unreachable!()
    };
    tell(replies, sender, outcome);
}

/// Ends the activation of a grain in its open turn, and replies with the reason to the turn's sender, if that is a
/// client. Requests that wait at the grain wait for a new activation, and the grain's entry is dropped if none waits.
/// Takes no memory.
fn end_activation<L: GrainLogic>(
    activations: &mut Activations<L>,
    replies: &mut Vec<Reply>,
    closing: ClosedTurn<'_>,
    last: Moment,
    why: Fault,
)
    requires is_open { IsSome (option_and_then (λ e. map.get e.turns closing.turn) (map.get activations.old.entries closing.grain.now)) }
    requires room { vec_len replies.old < vec_capacity replies.old }
    ensures ends { EndsTold activations.old.entries replies.old.items closing.entry.grain.now closing.entry.turn closing.entry.idle_after
        last
        (Err why) activations.new.entries replies.new.items }
    ensures times { activations.new.times ≡ activations.old.times }
{
    let phase = Some(Phase::Waiting);
    let Some(sender) = activations.close(closing.grain, closing.turn, phase, Keep::Same, last)
    else {
        unreachable!()
    };
    drop_if(activations, closing.grain, closing.idle_after);
    tell(replies, sender, Err(why));
}

/// Takes the grain's activation out, if nothing waits at it.
fn drop_if<L: GrainLogic>(activations: &mut Activations<L>, grain: &GrainId, idle_after: bool)
    ensures left { activations.new.entries ≡ (if idle_after then map.remove activations.old.entries grain.now
        else activations.old.entries) }
    ensures times { activations.new.times ≡ activations.old.times }
{
    if idle_after {
        drop(activations.remove(grain));
    }
}

/// Closes an open turn by what the storage returned, and replies to the turn's sender, if that is a client. If the row
/// has another version than the grain's state stands on, the activation ends. Takes no memory.
///
/// # Errors
///
/// `Memory` if that is what the storage answered: the turn stays open.
pub fn close_by<L: GrainLogic>(
    activations: &mut Activations<L>,
    replies: &mut Vec<Reply>,
    closing: ClosedTurn<'_>,
    last: Moment,
    failed: bool,
    stored: Result<StorageAnswer, StoreFault>,
    named: GrainId,
) -> Result<Answer, StepFault>
    requires is_open { IsSome (option_and_then (λ e. map.get e.turns closing.turn) (map.get activations.old.entries closing.grain.now)) }
    requires room { vec_len replies.old < vec_capacity replies.old }
    requires named { named ≡ closing.grain.now }
    ensures closes { ClosesBy activations.old.entries replies.old.items closing.entry.grain.now closing.entry.turn closing.entry.idle_after
        activations.old.times.clock last failed stored result activations.new.entries replies.new.items }
    ensures times { activations.new.times ≡ activations.old.times }
{
    let stored = match stored {
        Ok(stored) => stored,
        Err(fault) => return close_refused(
            activations,
            replies,
            closing,
            last,
            failed,
            fault,
            named,
        ),
    };
    let phase = Phase::Ready {
        state: stored.state,
        version: stored.version,
    };
    close_turn(
        activations,
        replies,
        closing,
        Some(phase),
        Keep::Same,
        Ok(stored.told),
    );
    Ok(Answer::Done)
}

/// Closes an open turn whose storage call was refused.
fn close_refused<L: GrainLogic>(
    activations: &mut Activations<L>,
    replies: &mut Vec<Reply>,
    closing: ClosedTurn<'_>,
    last: Moment,
    failed: bool,
    fault: StoreFault,
    named: GrainId,
) -> Result<Answer, StepFault>
    requires is_open { IsSome (option_and_then (λ e. map.get e.turns closing.turn) (map.get activations.old.entries closing.grain.now)) }
    requires room { vec_len replies.old < vec_capacity replies.old }
    requires named { named ≡ closing.grain.now }
    ensures closes { ClosesBy activations.old.entries replies.old.items closing.entry.grain.now closing.entry.turn closing.entry.idle_after
        activations.old.times.clock last failed (Err fault) result activations.new.entries replies.new.items }
    ensures times { activations.new.times ≡ activations.old.times }
{
    match fault {
        StoreFault::Failed => {
            let why = Err(Fault::StorageFailed);
            close_turn(activations, replies, closing, None, Keep::Same, why);
            Ok(answer_failed(failed))
        }
        StoreFault::Spent => {
            let why = Err(Fault::VersionsSpent(named));
            close_turn(activations, replies, closing, None, Keep::Same, why);
            Ok(Answer::Done)
        }
        StoreFault::Stale(_) => {
            let why = Fault::StateChanged(named);
            end_activation(activations, replies, closing, last, why);
            Ok(Answer::Done)
        }
        StoreFault::Memory => Err(StepFault::Memory),
    }
}

/// The answer of a step in which a storage call failed, or which is marked so.
fn answer_failed(failed: bool) -> Answer
    ensures { result ≡ answer_failed failed }
{
    if failed {
        return Answer::Done;
    }
    Answer::Failed
}
