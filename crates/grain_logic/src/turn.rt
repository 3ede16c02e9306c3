//! Turns whose plan was made.

ghost use Rattle.std.specs.Prelude.{◌≡◌, map, IfOk, IfSome, MatchResult};
ghost use Rattle.request_codec.specs.Call.{asks};
ghost use Rattle.request_codec.specs.Tree.{Tree};
ghost use Rattle.turn_arena.specs.NodeValue.{node_value};
ghost use Rattle.grain_logic.specs.Adding.{adds_number};
ghost use Rattle.grain_logic.specs.Finished.{plan_at, planned_shown, sent, turn_plan};
ghost use Rattle.grain_logic.specs.Laws.{FitsField, FitsMessage, FitsState, IsKeep};
ghost use Rattle.grain_logic.specs.Planned.{keep_of, storage_call};
ghost use Rattle.grain_logic.specs.Setting.{sets_field};

use crate::adding::{added, number_in};
use crate::arguments::text_and_value;
use crate::fault::MethodFault;
use crate::logic::GrainLogic;
use crate::plan::{Keep, StoreCall};
use crate::reading::{asked_in, number_asked, state_in};
use crate::setting::set_planned;
use crate::shortcut::Shortcut;
use crate::writing::written;
use bumpalo::Bump;
use grain_id::GrainId;
use request_codec::{Message, StateBytes};
use silo_event::OpenedTurn;
use std::alloc::{AllocError, Global};
use std::marker::{Model, PhantomData};
use turn_arena::Node;

/// What a turn resulted in, in bytes of its own.
#[derive(Clone, Drop)]
pub struct OwnedPlan {
    /// The state after the turn, if it is another one.
    pub state: Option<StateBytes>,
    /// The answer, or the code of its fault.
    pub outcome: Result<StateBytes, MethodFault>,
    /// What is asked of the storage.
    pub store: StoreCall,
    /// What is sent, in order: at most 4 calls, a grain and the message for it, each.
    pub sends: Vec<(GrainId, Message)>,
    /// What is said of the activation.
    pub keep: Keep,
}

/// A turn whose plan was made. It is seen as the turn that was opened; its plan is the logic's.
#[derive(Drop)]
pub struct FinishedTurn<L: GrainLogic> {
    opened: OpenedTurn,
    planned: OwnedPlan,
    of: PhantomData<L>,
}

impl<L: GrainLogic> Model for FinishedTurn<L> {
    ghost use Rattle.std.specs.Prelude.{◌≡◌};
    ghost use Rattle.silo_event.specs.declared.opened_turn.OpenedTurn.{OpenedTurn};
    ghost use Rattle.grain_logic.specs.Finished.{planned_shown, coded_turn, turn_plan};

    ghost Value = { OpenedTurn };

    ghost coded = { coded_turn };

    ghost view = { λ f. f.opened };

    ghost invariant = { λ f. planned_shown f.opened.state f.planned ≡ turn_plan L.logic f.opened };
}

/// A number of bytes, raised to the next larger multiple of a step, which is a thirty-second to an eighth of it. Below
/// 1,024 it stays as it is. Blocks of states that grow a little then have the same sizes, so that one fits where
/// another was.
fn in_steps(bytes: usize) -> usize {
    let step = match bytes {
        0..1_024 => return bytes,
        1_024..4_096 => 128,
        4_096..16_384 => 512,
        16_384..65_536 => 2_048,
        65_536..262_144 => 8_192,
        _ => 32_768,
    };
    bytes.saturating_add(step) - bytes % step
}

/// How many bytes the state after the turn has about: what a message adds to it is mostly no longer than the message.
fn room_for(state: &StateBytes, message: &Message) -> usize
    ensures { FitsState state.now }
{
    let bytes = state.bytes().len();
    in_steps(bytes.saturating_add(message.bytes().len()))
}

/// The number, if adding it to the state is all that a turn of the message does.
#[inline(always)]
fn addend<L: GrainLogic>(logic: &L, grain: &GrainId, message: &Message) -> Option<i64>
    ensures { IfSome result (λ by. (state : Tree) → plan_at L.logic grain.now state message.now ≡ adds_number state by) }
{
    let (method, name, number) = number_asked(message)?;
    let Shortcut::Adds(by) = logic.shortcut(grain.kind(), method) else {
        return None;
    };
    if name == by {
        return Some(number);
    }
    None
}

/// The name and the value, if setting that field of the state is all that a turn of the method does.
fn field_set<'a, L: GrainLogic>(
    logic: &L,
    kind: &str,
    method: &str,
    argument: Node<'a>,
) -> Option<(&'a str, Node<'a>)>
    requires { FitsMessage (asks method.now (node_value argument)) }
    ensures sets { IfSome result
        (λ put. (state : Tree)
        → L.logic.plan kind.now method.now state (node_value argument.entry) ≡ sets_field state (put.0.now, node_value put.1)) }
    ensures fits { IfSome result (λ put. FitsField (node_value put.1)) }
{
    let Shortcut::Sets(first, second) = logic.shortcut(kind, method) else {
        return None;
    };
    let (name, value) = text_and_value(argument, first, second)?;
    Some((name, value))
}

/// The plan by the values of the message and the state, which are read into the arena.
#[inline(never)]
fn plan_in<L: GrainLogic>(
    alloc: Global,
    bump: &Bump,
    logic: &L,
    grain: &GrainId,
    state: &StateBytes,
    message: &Message,
) -> Result<OwnedPlan, AllocError>
    ensures { IfOk result (λ planned. planned_shown state.now planned ≡ plan_at L.logic grain.now state.now message.now) }
{
    let room = room_for(state, message);
    let kind = grain.kind();
    let (method, argument) = asked_in(bump, message)?;
    if let Some((name, value)) = field_set(logic, kind, method, argument) {
        return set_planned(alloc, room, state, name, value);
    }
    let read = state_in(bump, state)?;
    let plan = logic.plan(alloc, bump, kind, method, read, argument)?;
    written(alloc, room, plan)
}

/// The plan of a message at a grain in this state, in bytes of its own: what needs the arena is left there.
///
/// # Errors
///
/// Out of memory.
pub fn plan_turn<L: GrainLogic>(
    alloc: Global,
    bump: &Bump,
    logic: &L,
    grain: &GrainId,
    state: &StateBytes,
    message: &Message,
) -> Result<OwnedPlan, AllocError>
    ensures plan { IfOk result (λ planned. planned_shown state.now planned ≡ plan_at L.logic grain.now state.now message.now) }
{
    if let Some(by) = addend(logic, grain, message) {
        return Ok(added(alloc, number_in(bump, state)?, by));
    }
    plan_in(alloc, bump, logic, grain, state, message)
}

/// Makes the plan of a turn. If memory is refused, the opened turn comes back.
pub fn run_turn<L: GrainLogic>(
    alloc: Global,
    bump: &Bump,
    logic: &L,
    opened: OpenedTurn,
) -> Result<FinishedTurn<L>, OpenedTurn>
    ensures { MatchResult result (λ finished. finished ≡ opened) (λ back. back ≡ opened) }
{
    match plan_turn(
        alloc,
        bump,
        logic,
        &opened.grain,
        &opened.state,
        &opened.message,
    ) {
        Ok(planned) => Ok(FinishedTurn {
            opened,
            planned,
            of: PhantomData,
        }),
        Err(AllocError) => Err(opened),
    }
}

impl<L: GrainLogic> FinishedTurn<L> {
    /// The turn that was opened.
    pub fn input(&self) -> &OpenedTurn
        ensures { result.now ≡ self.now }
    {
        &self.opened
    }

    /// The grain whose turn it is.
    pub fn grain(&self) -> &GrainId
        ensures { result.now ≡ self.now.grain }
    {
        &self.opened.grain
    }

    /// The turn's number in its tenant.
    pub fn number(&self) -> u64
        ensures { result ≡ self.now.number }
    {
        self.opened.number
    }

    /// The turn's plan: what it resulted in.
    pub fn plan(&self) -> &OwnedPlan
        ensures plan { planned_shown self.now.state result.now ≡ turn_plan L.logic self.now }
    {
        &self.planned
    }

    /// The state after the turn.
    pub fn state(&self) -> &StateBytes
        ensures { result.now ≡ (turn_plan L.logic self.now).state }
    {
        match &self.planned.state {
            Some(state) => state,
            None => &self.opened.state,
        }
    }

    /// The answer, or the code of its fault.
    pub fn outcome(&self) -> &Result<StateBytes, MethodFault>
        ensures { result.now ≡ (turn_plan L.logic self.now).outcome }
    {
        &self.planned.outcome
    }

    /// What is asked of the storage.
    pub fn store_call(&self) -> StoreCall
        ensures { storage_call result ≡ (turn_plan L.logic self.now).storage }
    {
        self.planned.store
    }

    /// What is sent, in order: a grain and the message for it, each.
    pub fn sends(&self) -> &[(GrainId, Message)]
        ensures { map sent result.now ≡ (turn_plan L.logic self.now).sends }
    {
        self.planned.sends.as_slice()
    }

    /// What is said of the grain's activation.
    pub fn keep(&self) -> Keep
        ensures same { keep_of result ≡ (turn_plan L.logic self.now).keep }
        ensures in_range { IsKeep (keep_of result) }
    {
        self.planned.keep
    }
}
