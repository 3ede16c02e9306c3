//! What becomes of one activation.

ghost use Rattle.std.specs.Prelude.{◌≡◌, ◌+◌, ◌&&◌, false, IfOk, OnOk, OnErr, Some};
ghost use Rattle.activation_directory.specs.declared.activation.Phase.TheVariants.{Ready};
ghost use Rattle.grain_logic.specs.Laws.{IsKeep};
ghost use Rattle.grain_logic.specs.Planned.{keep_of};
ghost use Rattle.idle_collector.specs.Ages.{kind_age};
ghost use Rattle.silo_model.specs.Turns.{until_by, resting_by};
ghost use Rattle.silo_state.specs.inside.Changes.{Starts, turn_at, opens_at, mail_begun, EndsTurn};
ghost use Rattle.silo_state.specs.Shown.{phase_of, entry_of};
ghost use Rattle.silo_model.specs.Idle.{is_idle, due_moment};
ghost use Rattle.silo_state.specs.inside.Notes.{none_waits, due_at};
ghost use Rattle.silo_state.specs.Reads.{is_loading, is_quiet};
ghost use Rattle.silo_state.specs.Work.{first_number, step_at, work_at};

use activation_directory::{Activation, Phase};
use grain_id::GrainId;
use grain_logic::{Keep, OpenedTurn};
use idle_collector::AgeTable;
use request_codec::StateBytes;
use silo_event::{Answer, Moment, Party, Step};
use std::alloc::AllocError;
use tenant_gate::Age;

/// What is to do with a grain's activation.
#[derive(Clone, Copy, Debug, PartialEq, Eq)]
pub enum PossibleStep {
    /// It begins to load.
    Activate,
    /// It gets its state.
    Load,
    /// Its first waiting request becomes an open turn.
    Begin,
}

impl PossibleStep {
    /// The step that does it.
    pub fn at(self, grain: GrainId) -> Step
        ensures { result ≡ step_at grain self }
    {
        match self {
            PossibleStep::Activate => Step::Activate { grain },
            PossibleStep::Load => Step::Load {
                grain,
                failed: false,
            },
            PossibleStep::Begin => Step::Begin { grain },
        }
    }
}

/// What is to do with it, if anything is: at most one of the three is possible.
pub fn possible_work(activation: &Activation) -> Option<PossibleStep>
    ensures { result ≡ work_at activation.now.mailbox activation.now.phase }
{
    match activation.phase {
        Phase::Waiting => Some(PossibleStep::Activate),
        Phase::Loading => Some(PossibleStep::Load),
        Phase::Ready { .. } => {
            if activation.mailbox.may_begin() {
                Some(PossibleStep::Begin)
            } else {
                None
            }
        }
    }
}

/// It begins to load, if it waits.
pub fn start(activation: &mut Activation) -> Answer
    ensures { Starts activation.old result activation.new }
{
    match activation.phase {
        Phase::Waiting => {
            activation.phase = Phase::Loading;
            Answer::Done
        }
        _ => Answer::NotNow,
    }
}

/// Its first waiting request becomes an open turn, if it is ready and the request may begin.
pub fn begin(grain: &GrainId, activation: &mut Activation) -> Result<Option<OpenedTurn>, AllocError>
    ensures turn { IfOk result (λ turn. turn ≡ turn_at grain.now activation.old.mailbox activation.old.phase) }
    ensures begun { OnOk result (activation.new ≡ record activation.old {
      mailbox = mail_begun activation.old.mailbox
          activation.old.phase;
    }) }
    ensures unchanged { OnErr result (activation.new ≡ activation.old) }
{
    match &activation.phase {
        Phase::Waiting => Ok(None),
        Phase::Loading => Ok(None),
        Phase::Ready { state, .. } => activation.mailbox.begin(grain, state),
    }
}

/// The same, with no turn handed out: whether one was opened.
pub fn open(activation: &mut Activation) -> Result<bool, AllocError>
    ensures opened { IfOk result (λ opened. opened ≡ opens_at activation.old.mailbox activation.old.phase) }
    ensures begun { OnOk result (activation.new ≡ record activation.old {
      mailbox = mail_begun activation.old.mailbox
          activation.old.phase;
    }) }
    ensures unchanged { OnErr result (activation.new ≡ activation.old) }
{
    match activation.phase {
        Phase::Waiting => Ok(false),
        Phase::Loading => Ok(false),
        Phase::Ready { .. } => activation.mailbox.open(),
    }
}

/// It is ready with this state, which stands on this version. It neither rests nor stays.
pub fn make_ready(activation: &mut Activation, state: StateBytes, version: Option<u64>)
    ensures { activation.new ≡ record activation.old { phase = Ready state version; until = 0; resting = false } }
{
    activation.phase = Phase::Ready { state, version };
    activation.until = 0;
    activation.resting = false;
}

/// Until when an activation stays after a turn that closed at this moment and said this of it.
fn until_by(keep: Keep, clock: Moment, until: u64) -> u64
    requires { IsKeep (keep_of keep) }
    ensures { result ≡ until_by clock (keep_of keep) until }
{
    match keep {
        Keep::Same => until,
        Keep::Rest => 0,
        Keep::Stay(time) => clock.get() + time,
    }
}

/// Whether an activation rests after a turn that said this of it.
fn resting_by(keep: Keep, resting: bool) -> bool
    ensures { result ≡ resting_by (keep_of keep) resting }
{
    match keep {
        Keep::Same => resting,
        Keep::Rest => true,
        Keep::Stay(_) => false,
    }
}

/// Closes its turn of that number, and returns who sent the turn's request, if it is open. The activation is then in
/// this phase, if one is given, was last used at this moment, and rests or stays as the turn said.
#[inline(always)]
pub fn close(
    activation: &mut Activation,
    turn: u64,
    phase: Option<Phase>,
    keep: Keep,
    last: Moment,
) -> Option<Party>
    requires { IsKeep (keep_of keep) }
    ensures { EndsTurn activation.old turn phase (keep_of keep) last result activation.new }
{
    let Ok(request) = activation.mailbox.finish(turn) else {
        return None;
    };
    if let Some(phase) = phase {
        activation.phase = phase;
    }
    activation.last = last;
    activation.until = until_by(keep, last, activation.until);
    activation.resting = resting_by(keep, activation.resting);
    Some(request.sender)
}

/// Whether no request waits.
pub fn none_waits(activation: &Activation) -> bool
    ensures { result ≡ none_waits (entry_of activation.now) }
{
    activation.mailbox.len() == 0
}

/// The number of the first request that waits, if one does.
#[tactic(auto, using(crate::proofs::Works::first_waits))]
pub fn first_waiting(activation: &Activation) -> Option<u64>
    ensures { result ≡ first_number (entry_of activation.now).queue }
{
    let Some(first) = activation.mailbox.at(0) else {
        return None;
    };
    Some(first.number)
}

/// Whether it is ready, no request waits and no turn is open.
pub fn is_idle(activation: &Activation) -> bool
    ensures { result ≡ is_idle (entry_of activation.now) }
{
    match activation.phase {
        Phase::Ready { .. } => activation.mailbox.is_idle(),
        _ => false,
    }
}

/// Whether it goes once its turn is closed: it rests, and is idle.
pub fn goes(activation: &Activation) -> bool
    ensures { result ≡ ((entry_of activation.now).resting && is_idle (entry_of activation.now)) }
{
    activation.resting && is_idle(activation)
}

/// The moment from which the grain's activation is due, if it is idle: the age of its kind after it was
/// last used, and not before the moment until which it stays.
pub fn due_moment(grain: &GrainId, activation: &Activation, ages: &AgeTable, age: Age) -> u64
    ensures { result ≡ due_moment (kind_age ages.now age grain.now.kind) (entry_of activation.now) }
{
    due_if_used(grain, activation.last, ages, age).max(activation.until)
}

/// The moment from which an activation of the grain is due that was last used at this moment, unless it stays longer.
pub fn due_if_used(grain: &GrainId, last: Moment, ages: &AgeTable, age: Age) -> u64
    ensures { result ≡ last + kind_age ages.now age grain.now.kind }
{
    last.get() + ages.age_of(grain.kind(), age)
}

/// The moment from which it is due, if it is ready, no request waits and no turn is open.
pub fn due_at(grain: &GrainId, activation: &Activation, ages: &AgeTable, age: Age) -> Option<u64>
    ensures { result ≡ due_at (kind_age ages.now age grain.now.kind) (Some (entry_of activation.now)) }
{
    if is_idle(activation) {
        return Some(due_moment(grain, activation, ages, age));
    }
    None
}

/// Whether it loads.
pub fn is_loading(activation: &Activation) -> bool
    ensures { result ≡ is_loading (phase_of activation.now.phase) }
{
    match activation.phase {
        Phase::Loading => true,
        _ => false,
    }
}

/// Whether no request waits and no turn is open.
pub fn is_quiet(activation: &Activation) -> bool
    ensures { result ≡ is_quiet (entry_of activation.now) }
{
    activation.mailbox.is_idle()
}
