//! The whole program over a reader, writers and a file in memory, and the lanes that its lines make up.
//!
//! They stand in a crate of their own, since a crate with tests is proved twice, with them and without.
#![tactic(auto)]

#[cfg(test)]
mod asked;
#[cfg(test)]
mod at_once;
#[cfg(test)]
mod endless;
#[cfg(test)]
mod journals;
#[cfg(test)]
mod kept;
#[cfg(test)]
mod rows;
#[cfg(test)]
mod runs;
#[cfg(test)]
mod told;
