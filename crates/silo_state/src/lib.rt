//! What a silo holds of all its tenants, and what each kind of step does to it.
//!
//! A layer above may rely on this: a silo's state is seen as the whole of `silo_model` and the count of the
//! storage's failed calls, and each call is one kind of step: what it answers and leaves is what the
//! model says (`specs/Moves.antt`). How the parts that the state is made of are seen is in
//! `specs/Shown.antt`, which requests are marked as readers in `specs/Marks.antt`, and of which moment the
//! collector's note of each entry is in `specs/inside/Notes.antt`: `Activations` alone keep them.
//!
//! The modules that are public work on one activation, on one value or on the storage alone. A plain
//! machine of one tenant, which shares no directory, collector or accounts with the state, stands on them.
#![tactic(auto)]

mod activations;
pub mod arrival;
pub mod change;
mod closing;
pub mod finding;
mod parts;
pub mod reading;
mod state;
pub mod status;
pub mod storing;
pub mod telling;
mod values;
mod version;

pub use change::PossibleStep;
pub use parts::{GrainParts, KeptParts};
pub use state::{SiloState, StateSetup};
