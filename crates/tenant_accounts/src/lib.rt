//! What a silo keeps of each tenant that it knows: the limits, how many requests were accepted, and what the tenant's grains sent and is
//! not yet delivered.
//!
//! A layer above may rely on this: the accounts are seen as one map by the tenants' names (`specs/Kept.antt`), each call changes one
//! account at most, and a call that is refused for want of memory leaves all as it was. What a grain sent comes out in the order in
//! which it was sent (`specs/Sends.antt`), and which number a tenant's next request has is in `specs/inside/Numbers.antt`.
//!
//! The definitions are those of the silo as a whole: `silo_model` says with them what each step does to an account.
#![tactic(auto)]

mod account;
mod accounts;
mod parts;
mod resuming;

pub use account::{Account, Sent};
pub use accounts::{Accounts, LAST_NUMBER};
pub use parts::AccountParts;
