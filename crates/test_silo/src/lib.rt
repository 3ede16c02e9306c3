//! Worked runs of whole silos: of steps, of lines that are answered at once, and audits of their journals; over storages, readers
//! and writers that fail, and memory that is refused. Those of lanes that threads serve stand in `test_serving`.
//!
//! They are in a crate of their own, since a crate with tests is proved twice, with them and without. What is tried is
//! a row of a table wherever it can be; a silo is made, tried and dropped in few functions, whatever is tried with it.
#![tactic(auto)]

#[cfg(test)]
mod answers;
#[cfg(test)]
mod audits;
#[cfg(test)]
mod failing;
#[cfg(test)]
mod steps;
