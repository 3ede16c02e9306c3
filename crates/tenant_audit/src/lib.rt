//! The journal of a silo as text, and the audit of a journal: each tenant's steps are taken again by a
//! machine of the tenant's own, and what was recorded is compared with what the machine shows.
//!
//! A layer above may rely on this: a [`TenantMachine`] is seen as the machine of `silo_model`, the
//! [`Report`] of [`audit`] is the one report that `audit_model` defines under the logic that the journal
//! names, and the journal of a silo that opened with no rows has no difference.
#![tactic(auto)]

mod comparison;
mod difference;
mod gate;
pub mod laws;
mod parted_journal;
mod parts;
mod plain_audit;
mod reading;
mod replies;
mod report;
mod report_lines;
mod rows;
mod steps_of_tenant;
mod tenants;
mod threads;
mod writing;

pub use difference::Difference;
pub use gate::{AuditGate, FreeAuditGate};
pub use grain_kinds::Version as JournalKinds;
pub use journal_text::{Journal, JournalFault};
pub use plain_audit::audit_under;
pub use reading::{migrate_journal, read_journal};
pub use report::{Report, TenantReport};
pub use report_lines::{has_difference, report_text};
pub use tenant_machine::TenantMachine;
pub use threads::{AuditFault, MAX_WORKERS, audit, audit_seeded, audit_with};
pub use writing::write_journal;
