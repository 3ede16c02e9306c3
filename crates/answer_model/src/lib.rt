//! What it means that a silo answers each request before the next is looked at, as definitions: the
//! steps that it takes for what a client asks, and what it is then.
//!
//! No code runs here. A layer above may rely on this: every law of `specs/` is the contract of a
//! function of [`laws`].
#![tactic(auto)]

pub mod laws;
