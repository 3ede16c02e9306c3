//! Journals, and their audit.

mod gate;
mod reports;
mod resting;
mod seen;
