//! The command `silo rows`: what the last checkpoint of a folder of data has, as lines of JSON.
//!
//! A layer above may rely on this: `print_rows` prints a line for each stored row and then one for each active grain, of all
//! tenants or of one, exactly as they stand in the checkpoint; it reads that file alone, and writes none. The lines are in
//! `specs/Listing.antt`, and what is read and which fault comes when is in `specs/Rows.antt`.
#![tactic(auto)]

pub mod laws;
mod lines;
mod printing;
mod reading;

pub use printing::print_rows;
