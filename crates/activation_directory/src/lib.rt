//! Which activation a grain has.
//!
//! A layer above may rely on this: a directory is seen as a finite map from grains to activations, and
//! those grains, each once, in the order in which `at` shows them; `get_mut` lends an activation where it
//! stands, and `count` is a tenant's part of the map. What a directory shows is in `specs/Register.antt`, a tenant's number in
//! `specs/inside/Counts.antt`, what a write through `get_mut` leaves in `specs/inside/Lending.antt`, how values stand
//! at places and are found by keys in `specs/inside/Places.antt`, and how index, slab and numbers stay together
//! in `specs/inside/Kept.antt`.
#![tactic(auto)]

mod activation;
mod counts;
mod directory;
mod latest_place;

pub use activation::{Activation, Phase};
pub use directory::Directory;
