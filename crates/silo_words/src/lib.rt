//! The words of the command line: what they ask the program to do.
//!
//! A layer above may rely on this: `read_words` returns a task exactly as the words request it, and otherwise why they
//! request none; `read_tenants` returns the table that a task's tenant arguments name, or the number of the first that
//! is refused; `read_ages` returns the ages that its text of ages names. Only this crate knows `clap`. What words
//! request is defined by `clap`'s own account of what it makes of them, in `specs/Words.antt`; what a tenant argument
//! is, in `specs/Tenants.antt`; and what the text of ages is, in `specs/Ages.antt`. `command` declares the subcommands
//! to `clap`, `task` reads what it found, `fault` what it says instead, `tenants` the tenant arguments, `ages` the
//! ages, and `parts` what both are made of.
#![tactic(auto)]

mod ages;
mod command;
mod fault;
mod laws;
mod parts;
mod reading;
mod task;
mod tenants;

pub use ages::{AgesFault, read_ages};
pub use fault::{
    ANSWER_EXAMPLE, AUDIT_EXAMPLE, MIGRATE_EXAMPLE, ROWS_EXAMPLE, SERVE_EXAMPLE, SILO_EXAMPLE,
    STEPS_EXAMPLE, WordsFault,
};
pub use laws::words_are_told_apart;
pub use reading::read_words;
pub use task::{Data, Task, Telling};
pub use tenants::{TenantsFault, read_tenants};
