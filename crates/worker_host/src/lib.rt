//! Workers: a silo that is served to several clients by threads.
//!
//! One lock holds the silo. A worker takes steps under it until there are turns to run; their bodies run
//! without it. A short turn is run under it, where no gate watches.
//!
//! A layer above may rely on this: where `serve` answers `Ok`, the lanes stand in the silo's journal at
//! their clients' pace, nothing is left to do, and each lane has its answers.
#![tactic(auto)]

mod report;
mod work;
mod working;

pub use client_lanes::{Lane, LaneFault, distinct};
pub use lane_workers::{FreeGate, TurnGate};
pub use report::{ServeFault, ServeReport};
pub use work::{serve, serve_seeded};
