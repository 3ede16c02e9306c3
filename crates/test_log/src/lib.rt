//! Tests of logs and checkpoints: their texts, batches that are kept before their replies are written, and silos that start again.
#![tactic(auto)]

#[cfg(test)]
mod checkpoints;
#[cfg(test)]
mod commits;
#[cfg(test)]
mod laws;
#[cfg(test)]
mod restarts;
#[cfg(test)]
mod saved;
#[cfg(test)]
mod texts;
