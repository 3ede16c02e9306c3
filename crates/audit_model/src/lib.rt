//! The report of an audit, as definitions: the first difference between what a journal recorded of a
//! tenant and what the tenant's own machine does, and what a report says of all tenants.
//!
//! No code runs here. A layer above may rely on this: every law of `specs/Report.antt` is the
//! contract of a function of [`laws`].
#![tactic(auto)]

pub mod laws;
