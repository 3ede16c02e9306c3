//! The commands of the program `silo` on the journal of a file: `silo audit` and `silo migrate`.
//!
//! A layer above may rely on this: `audit_file` audits the journal of a file and writes a line for each tenant, and
//! `migrate_file` writes the journal of a file in the form in which journals are written. What comes of them stands in
//! `specs/Auditing.antt` and in `specs/Migrating.antt`.
#![tactic(auto)]

mod auditing;
mod migrating;

pub use auditing::audit_file;
pub use migrating::migrate_file;
