//! The first row in which a record differs.

ghost use Rattle.std.specs.Prelude.{◌≡◌, ◌↔◌, IsTrue, IfOk};
ghost use Rattle.std.specs.FinMap.{entries};
ghost use Rattle.std.specs.List.Sorted.{IsStrictlySortedBy};
ghost use Rattle.std.specs.Map.{keys_of};
ghost use Rattle.grain_id.specs.Names.{grain_cmp};
ghost use Rattle.grain_storage.specs.Memory.{rows_of};
ghost use Rattle.grain_storage.specs.Rows.{Rows};
ghost use Rattle.tenant_audit.specs.inside.Comparison.{IsFirstRow, lesser_of};
ghost use Rattle.tenant_audit.specs.inside.Parted.{pointees};

use grain_id::GrainId;
use grain_storage::Row;
use std::alloc::{AllocError, Global};

/// The lesser of two grains.
fn lesser(grain: &GrainId, other: &GrainId) -> Result<GrainId, AllocError>
    ensures { IfOk result (λ least. least ≡ lesser_of grain.now other.now) }
{
    if grain < other {
        return grain.clone();
    }
    other.clone()
}

/// Whether both are of one grain and one row.
fn is_same(recorded: &(GrainId, Row), own: &(GrainId, Row)) -> bool
    ensures { IsTrue result ↔ (recorded.now ≡ own.now) }
{
    recorded.0 == own.0 && Row::eq(&recorded.1, &own.1)
}

/// The least grain whose recorded row isn't the own row, or of which only one of the two has a row. Both
/// ascend.
pub fn first_row_apart(
    recorded: &[&(GrainId, Row)],
    own: &[(GrainId, Row)],
) -> Result<Option<GrainId>, AllocError>
    requires { IsStrictlySortedBy grain_cmp (keys_of (pointees recorded.now)) }
    ensures { IfOk result (λ grain. (rows : Rows) → own.now ≡ entries rows → IsFirstRow (rows_of (pointees recorded.now)) rows grain) }
{
    let mut held = own;
    'recorded: for stored in recorded {
        let Some((row, others)) = held.split_first() else {
            return Ok(Some(stored.0.clone()?));
        };
        if !is_same(stored, row) {
            return Ok(Some(lesser(&stored.0, &row.0)?));
        }
        held = others;
    }
    match held.split_first() {
        Some((row, _)) => Ok(Some(row.0.clone()?)),
        None => Ok(None),
    }
}
