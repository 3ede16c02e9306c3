//! Guards: laws that say of the definitions of `silo_model`, `answer_model`, `lane_model` and
//! `audit_model` what a silo does, in the subject's words, so that a definition that says otherwise
//! is refused.
//!
//! No code runs here, and nothing stands on it: every law of `specs/` is the contract of a function
//! of [`laws`].
#![tactic(auto)]

pub mod laws;
