//! Which rows are a tenant's.

ghost use Rattle.std.specs.Prelude.{◌≡◌, IfOk, filter};
ghost use Rattle.silo_model.specs.Whole.{is_of};

use grain_id::{GrainId, Tenant};
use grain_storage::Row;
use std::alloc::{AllocError, Global};

/// The rows whose grains are the tenant's, in order.
///
/// # Errors
///
/// Out of memory.
pub fn stored_of(
    alloc: Global,
    rows: Vec<(GrainId, Row)>,
    tenant: &Tenant,
) -> Result<Vec<(GrainId, Row)>, AllocError>
    ensures { IfOk result (λ found. found.items ≡ filter (λ entry. is_of tenant.now entry.0) rows.items) }
{
    let mut found = Vec::new(alloc);
    for entry in rows {
        if entry.0.tenant() == tenant.text() {
            found.push(entry)?;
        }
    }
    Ok(found)
}
