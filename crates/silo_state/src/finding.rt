//! What is found of a turn that is to be run, or closed.

ghost use Rattle.std.specs.Prelude.{◌≡◌, None, Some, true, false, IfNone, IfOk, IfSome};
ghost use Rattle.std.specs.Option.{option_map};
ghost use Rattle.activation_directory.specs.declared.activation.Phase.TheVariants.{Ready};
ghost use Rattle.silo_state.specs.Shown.{entry_of};
ghost use Rattle.silo_state.specs.Finds.{open_in, IsOf, IsOpenTurn, Finds, PlansIfOpen, AsksIfOpen, asks};
ghost use Rattle.grain_logic.specs.Planned.{storage_call};

use crate::change;
use activation_directory::{Activation, Phase};
use bumpalo::Bump;
use grain_id::GrainId;
use grain_logic::{GrainLogic, OpenedTurn, OwnedPlan, StoreCall, plan_turn};
use request_codec::{Message, StateBytes};
use std::alloc::{AllocError, Global};

/// What is found of a turn that is to be closed.
#[derive(Clone, Copy, Debug)]
pub enum TurnMatch {
    /// The grain isn't ready, or no such turn of it is open.
    NotOpen,
    /// The finished turn was made of another kind, state or message.
    Stranger,
    /// It is the turn's own. The grain's state stands on this version, and `idle_after` says whether the
    /// grain is idle after the turn, if no other turn is open.
    Own {
        version: Option<u64>,
        idle_after: bool,
    },
}

/// How a grain stands whose turn is open.
#[derive(Clone, Copy, Debug)]
pub struct GrainAtClose {
    /// The version that its state stands on.
    pub version: Option<u64>,
    /// Whether it is idle after the turn, if no other turn is open.
    pub idle_after: bool,
}

/// Whether a finished turn was made of this kind of grain, this state and this message.
fn is_of(kind: &str, state: &StateBytes, message: &Message, input: &OpenedTurn) -> bool
    ensures own { result ≡ true → IsOf kind.now state.now message.now input.now }
    ensures other { result ≡ false → IsOf kind.now state.now message.now input.now → ⊥ }
{
    let same_kind = input.grain.kind() == kind;
    if !same_kind {
        return false;
    }
    let same_message = input.message == *message;
    if !same_message {
        return false;
    }
    input.state == *state
}

/// Whether a plan uses the storage.
pub fn asks_storage(call: StoreCall) -> bool
    ensures { result ≡ asks (storage_call call) }
{
    match call {
        StoreCall::None => false,
        StoreCall::Read => true,
        StoreCall::Write => true,
        StoreCall::Clear => true,
    }
}

/// An open turn of a ready activation, and how its grain stands.
#[derive(Clone, Copy)]
struct OpenTurn<'a> {
    state: &'a StateBytes,
    message: &'a Message,
    at_close: GrainAtClose,
}

/// The activation's open turn of that number. None if the activation isn't ready, or no such turn is open.
#[inline(always)]
fn open_turn(activation: &Activation, turn: u64) -> Option<OpenTurn<'_>>
    ensures none { IfNone result (open_in (entry_of activation.now) turn (entry_of activation.now).phase ≡ None) }
    ensures found { IfSome result (λ found. IsOpenTurn (Some (entry_of activation.now)) turn found.state.now found.message.now
        found.at_close) }
{
    let Phase::Ready { state, version } = &activation.phase else {
        return None;
    };
    let Some(request) = activation.mailbox.opened(turn) else {
        return None;
    };
    let at_close = GrainAtClose {
        version: *version,
        idle_after: change::none_waits(activation),
    };
    Some(OpenTurn {
        state,
        message: &request.message,
        at_close,
    })
}

/// What is found of the activation's turn of that number.
pub fn find(grain: &GrainId, activation: &Activation, turn: u64, input: &OpenedTurn) -> TurnMatch
    ensures { Finds grain.now (Some (entry_of activation.now)) turn input.now result }
{
    let Some(found) = open_turn(activation, turn) else {
        return TurnMatch::NotOpen;
    };
    if is_of(grain.kind(), found.state, found.message, input) {
        return TurnMatch::Own {
            version: found.at_close.version,
            idle_after: found.at_close.idle_after,
        };
    }
    TurnMatch::Stranger
}

/// What an open turn asks of the storage, and the state of its grain.
#[derive(Drop)]
pub struct AskedTurn {
    pub state: StateBytes,
    pub call: StoreCall,
}

/// The plan of the activation's open turn of that number, and how its grain stands. None if the activation isn't ready,
/// or no such turn is open.
///
/// # Errors
///
/// Out of memory.
#[inline(always)]
pub fn plan_open<L: GrainLogic>(
    alloc: Global,
    bump: &Bump,
    logic: &L,
    grain: &GrainId,
    activation: &Activation,
    turn: u64,
) -> Result<Option<(OwnedPlan, GrainAtClose)>, AllocError>
    ensures { IfOk result (λ found. PlansIfOpen L.logic grain.now (Some (entry_of activation.now)) turn found) }
{
    let Some(found) = open_turn(activation, turn) else {
        return Ok(None);
    };
    let planned = plan_turn(alloc, bump, logic, grain, found.state, found.message)?;
    Ok(Some((planned, found.at_close)))
}

/// What the activation's open turn of that number asks of the storage, and how its grain stands. None if the activation isn't ready,
/// or no such turn is open.
///
/// # Errors
///
/// Out of memory.
#[inline(always)]
pub fn ask_open<L: GrainLogic>(
    alloc: Global,
    bump: &Bump,
    logic: &L,
    grain: &GrainId,
    activation: &Activation,
    turn: u64,
) -> Result<Option<(AskedTurn, GrainAtClose)>, AllocError>
    ensures { IfOk result (λ found. AsksIfOpen L.logic grain.now (Some (entry_of activation.now)) turn found) }
{
    let Some(found) = open_turn(activation, turn) else {
        return Ok(None);
    };
    let state = found.state.clone()?;
    let planned = plan_turn(alloc, bump, logic, grain, &state, found.message)?;
    let call = planned.store;
    drop(planned);
    Ok(Some((AskedTurn { state, call }, found.at_close)))
}

/// Ready in the state after a turn, if that is another one than before.
pub fn ready_in(state: Option<StateBytes>, version: Option<u64>) -> Option<Phase>
    ensures { result ≡ option_map (λ state. Ready state version) state }
{
    match state {
        Some(state) => Some(Phase::Ready { state, version }),
        None => None,
    }
}
