//! What is kept of a tenant's requests that act once: of each caller the greatest number that acted, and the replies that it hasn't seen.
#![tactic(auto)]

mod caller;
pub mod laws;
mod receipts;
#[cfg(test)]
mod tests;
mod verdict;

pub use caller::{CallerReceipts, Receipt};
pub use receipts::TenantReceipts;
pub use verdict::Verdict;
