//! What serving a silo to several clients means, as definitions: the lanes in which clients ask, their
//! pace, what there is to do that no client requests, and what is left when all were served.
//!
//! No code runs here. A layer above may rely on this: every law of `specs/` is the contract of a
//! function of [`laws`].
#![tactic(auto)]

pub mod laws;
