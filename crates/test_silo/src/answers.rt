//! Lines that are answered at once, worked by hand.
//!
//! Any of these tests may be refused its memory: it passes all the same, or says so.

mod answered;
mod dropping;
mod rows;
mod silos;
mod steps;
mod streams;
mod trials;
