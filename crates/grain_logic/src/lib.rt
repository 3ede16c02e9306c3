//! What a logic of grains is, and the turns that run one.
//!
//! A layer above may rely on this: a logic says which kinds it knows, which methods only read, the
//! empty state of a kind, and the plan of a method, a state and an argument. What a logic is, and its
//! laws, are in `specs/Logic.antt` and `specs/Laws.antt`. A `FinishedTurn` holds the logic's plan of the
//! turn that it was made of, and only `run_turn` makes one. No kind of grain stands here: `specs/Counters.antt` is the
//! smallest logic, of which the definitions above speak where they need one.
//!
//! For a logic of one's own: `arguments` takes an argument apart, `shared` has the methods of every
//! kind, `length` says whether a value is too long for a state, `adding` reads a number of a state, and
//! `state_of` writes a state.
#![tactic(auto)]

pub mod adding;
pub mod arguments;
mod fault;
pub mod laws;
pub mod length;
mod logic;
mod plan;
mod reading;
mod same;
mod setting;
pub mod shared;
mod shortcut;
mod turn;
mod writing;

pub use fault::MethodFault;
pub use logic::GrainLogic;
pub use plan::{Keep, MAX_STAY_MILLISECONDS, Plan, Send, StoreCall};
pub use shortcut::Shortcut;
pub use silo_event::OpenedTurn;
pub use turn::{FinishedTurn, OwnedPlan, plan_turn, run_turn};
pub use writing::state_of;
