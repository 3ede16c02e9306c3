//! Lanes of clients, the threads that serve them, and the audit of what was served.
//!
//! They stand in a crate of their own, since it waits for `worker_host`, and the tests of whole silos in `test_silo` needn't.
#![tactic(auto)]

#[cfg(test)]
mod asked;
#[cfg(test)]
mod gates;
#[cfg(test)]
mod journals;
#[cfg(test)]
mod lanes;
#[cfg(test)]
mod seen;
#[cfg(test)]
mod served;
#[cfg(test)]
mod threads;
#[cfg(test)]
mod told;
