//! The kinds of grains that the program runs.
//!
//! A layer above may rely on this: each version of the table in `specs/Kinds.antt` is a logic
//! (`grain_logic::GrainLogic`) and lawful, and a later one answers whatever an earlier one knows as the
//! earlier one does. Each kind and each method has in the table the version since which it stands.
//! What names a logic alone stands on `grain_logic`; a change of a kind is none of it.
#![tactic(auto)]

mod kinds;
pub mod laws;
mod versions;

pub use grain_logic::{
    FinishedTurn, GrainLogic, Keep, MAX_STAY_MILLISECONDS, MethodFault, OpenedTurn, OwnedPlan,
    Plan, Send, StoreCall, plan_turn, run_turn, state_of,
};
pub use versions::{
    Kinds, KindsAt, NamedKinds, NamedVersion, NewestKinds, RestingKinds, Version, newest,
};
