//! Silos that take steps: worked rows of lines, with the replies to them and what is stored after them.
//!
//! Any of these tests may be refused its memory: it passes all the same, or says so.

mod ages;
mod arenas;
mod at_once;
mod methods;
mod refusals;
mod reopening;
mod rows;
mod silos;
mod strangers;
mod streams;
mod todo;
mod trials;
mod worked;
