//! The lines of a journal.

use crate::recorded::RecordedReply;
use grain_id::{GrainId, Kind, Tenant};
use grain_storage::Row;
use silo_event::Step;
use tenant_gate::{Age, Limits};

/// A line of a journal.
#[derive(Drop)]
pub enum Line {
    /// The first line, which names the form.
    Head,
    /// Which logic the kinds have, by its number.
    Kinds(u8),
    /// How long an idle grain stays.
    Age(Age),
    /// How long an idle grain of that kind stays.
    Kind(Kind, Age),
    /// A tenant with its limits.
    Tenant(Tenant, Limits),
    /// A step.
    Step(Step),
    /// A recorded reply.
    Reply(RecordedReply),
    /// A recorded row.
    Row(GrainId, Row),
    /// The last line, with the number of steps.
    Close(u64),
}
