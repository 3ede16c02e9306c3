//! What a checkpoint says.

use grain_id::GrainId;
use grain_storage::Row;
use idle_collector::AgeTable;
use silo_state::KeptParts;
use tenant_gate::{Age, TenantTable};

/// What a checkpoint says, as it is read: the number of the log that it replaces, as it is spelled; the number by which journals name
/// the logic of the kinds; how many calls that grains sent are delivered after a line; and with what a silo opens, the rows
/// ascending.
#[derive(Drop)]
pub struct Saved<'a> {
    pub follows: &'a str,
    pub kinds: u8,
    pub sends: u64,
    pub tenants: TenantTable,
    pub age: Age,
    pub ages: AgeTable,
    pub rows: Vec<(GrainId, Row)>,
    pub kept: KeptParts,
}
