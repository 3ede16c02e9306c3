//! What a line of JSON says: a step, a refusal, or nothing.
//!
//! A layer above may rely on this: `read_line` answers exactly what a line says, for all twelve forms.
//! What a line says is in `specs/Meaning.antt`, and the forms are in `specs/Form.antt`.
#![tactic(auto)]

mod argument;
mod ascii;
mod asked;
mod call_members;
mod faults;
mod fields;
mod line;
mod line_members;
mod members;
mod messages;
mod named;
mod not_natural;
mod number;
mod plain;
mod plain_argument;
mod plain_members;
mod quick_fault;
mod reading;
mod request;
mod scan;
mod short_line;
mod slots;
mod step;
mod tokens;

pub use line::{Line, LineRefusal};
pub use reading::{LINE_LIMIT, LineScratch, read_any_line, read_line};
