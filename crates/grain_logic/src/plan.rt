//! What a turn results in: its plan.

ghost use Rattle.std.specs.Prelude.{◌≡◌};
ghost use Rattle.request_codec.specs.Tree.{Tree};
ghost use Rattle.turn_arena.specs.NodeValue.{node_value};
ghost use Rattle.grain_logic.specs.Planned.{keep_of, outcome_shown, plan_shown, storage_call};
ghost use Rattle.grain_logic.specs.Shared.{keeps, becomes, says, asks_storage};

use crate::fault::MethodFault;
use grain_id::GrainId;
use std::alloc::Global;
use turn_arena::Node;

/// What a turn asks of the storage.
#[derive(Clone, Copy, Debug, PartialEq, Eq)]
pub enum StoreCall {
    None,
    Read,
    Write,
    Clear,
}

/// The most milliseconds that a turn may ask the activation to stay: a day.
pub const MAX_STAY_MILLISECONDS: u64 = 86_400_000;

/// What a turn says of the grain's activation. It says nothing, `Same`, in a method that only reads, with a fault for
/// its answer, and if it asks the storage.
#[derive(Clone, Copy, Debug, PartialEq, Eq)]
pub enum Keep {
    /// Nothing.
    Same,
    /// It rests: it goes as soon as no request waits and no turn is open.
    Rest,
    /// It stays for at least this many milliseconds, 1 to 86,400,000, however long it is idle, unless another turn of the
    /// grain closes before.
    Stay(u64),
}

/// A call that a turn sends to a grain.
#[derive(Drop)]
pub struct Send<'a> {
    pub target: GrainId,
    pub method: &'a str,
    pub args: Node<'a>,
}

/// What a turn results in, with its values in the turn's arena.
#[derive(Drop)]
pub struct Plan<'a> {
    /// The state after the turn, if it is another one.
    pub state: Option<Node<'a>>,
    /// The answer, or the code of its fault.
    pub outcome: Result<Node<'a>, MethodFault>,
    /// What is asked of the storage.
    pub store: StoreCall,
    /// What is sent, in order: at most 4 calls.
    pub sends: Vec<Send<'a>>,
    /// What is said of the activation.
    pub keep: Keep,
}

impl<'a> Plan<'a> {
    /// The plan that keeps the state, asks nothing of the storage and sends nothing.
    pub fn keeps(alloc: Global, outcome: Result<Node<'a>, MethodFault>) -> Plan<'a>
        ensures { (state : Tree) → plan_shown state result ≡ keeps state (outcome_shown outcome.entry) }
    {
        Plan {
            state: None,
            outcome,
            store: StoreCall::None,
            sends: Vec::new(alloc),
            keep: Keep::Same,
        }
    }

    /// The plan that makes a new state, asks nothing of the storage and sends nothing.
    pub fn becomes(alloc: Global, state: Node<'a>, answer: Node<'a>) -> Plan<'a>
        ensures { (kept : Tree) → plan_shown kept result ≡ becomes (node_value state.entry) (node_value answer.entry) }
    {
        Plan {
            state: Some(state),
            outcome: Ok(answer),
            store: StoreCall::None,
            sends: Vec::new(alloc),
            keep: Keep::Same,
        }
    }

    /// The plan that keeps the state, answers null, and says this of the activation.
    pub fn says(alloc: Global, keep: Keep) -> Plan<'a>
        ensures { (state : Tree) → plan_shown state result ≡ says (keep_of keep) state }
    {
        Plan {
            state: None,
            outcome: Ok(Node::Null),
            store: StoreCall::None,
            sends: Vec::new(alloc),
            keep,
        }
    }

    /// The plan that leaves all to the storage.
    pub fn asks(alloc: Global, store: StoreCall) -> Plan<'a>
        ensures { (state : Tree) → plan_shown state result ≡ asks_storage (storage_call store) state }
    {
        Plan {
            state: None,
            outcome: Ok(Node::Null),
            store,
            sends: Vec::new(alloc),
            keep: Keep::Same,
        }
    }
}
