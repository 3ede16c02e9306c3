//! What the crates of tests share: setups of silos, steps from lines and texts of what a silo shows, a place where threads
//! meet, and how a test ends.
//!
//! None of it has a contract: a test looks at what comes out when it runs. It stands in a crate of its own, so that it is
//! proved once, and beside what the tests wait for.
#![tactic(auto)]

pub mod lines;
pub mod meeting;
pub mod setups;
pub mod verdicts;
