//! Lemmas on finite maps, lists and options that several crates cite.
//!
//! No code runs here.
#![tactic(auto)]
