//! Tests of the crates below the silo: worked rows, limits, and bytes that are not to be believed.
//!
//! They stand in a crate of their own, since a crate with tests is proved twice, with them and without.
//! Each module is named for what it tests. Any of them may be refused its memory, and then says so.
#![tactic(auto)]

#[cfg(test)]
mod ages;
#[cfg(test)]
mod codec;
#[cfg(test)]
mod collector;
#[cfg(test)]
mod compare;
#[cfg(test)]
mod directory;
#[cfg(test)]
mod events;
#[cfg(test)]
mod fault_texts;
#[cfg(test)]
mod gate;
#[cfg(test)]
mod journal_texts;
#[cfg(test)]
mod journals;
#[cfg(test)]
mod kinds;
#[cfg(test)]
mod laws;
#[cfg(test)]
mod mailbox;
#[cfg(test)]
mod names;
#[cfg(test)]
mod rows;
#[cfg(test)]
mod storage;
#[cfg(test)]
mod values;
