//! What a silo is opened with.

use grain_logic::GrainLogic;
use grain_storage::GrainStorage;
use idle_collector::AgeTable;
use tenant_gate::{Age, TenantTable};

/// What a silo is opened with: the tenants that it serves, after how long an idle activation may go, at
/// most 64 kinds for which that is another time, where its rows are kept, and what its grains do.
#[derive(Drop)]
pub struct Setup<S: GrainStorage, L: GrainLogic> {
    pub tenants: TenantTable,
    pub age: Age,
    pub ages: AgeTable,
    pub storage: S,
    pub logic: L,
}
