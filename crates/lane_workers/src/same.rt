//! Lists that are compared entry by entry.

ghost use Rattle.std.specs.Prelude.{◌≡◌, ◌↔◌, IsTrue};

use grain_id::{GrainId, Kind, Tenant};
use grain_storage::Row;
use tenant_gate::Limits;

/// What may be the same as another of its type.
pub trait SameAs {
    ghost use Rattle.std.specs.Prelude.{◌≡◌, ◌↔◌, IsTrue};

    /// Whether it is the same as the other.
    fn is_same_as(&self, other: &Self) -> bool
        ensures { IsTrue result ↔ (self.now ≡ other.now) };
}

impl SameAs for (Tenant, Limits) {
    fn is_same_as(&self, other: &(Tenant, Limits)) -> bool {
        self.0 == other.0 && self.1 == other.1
    }
}

impl SameAs for (Kind, u64) {
    fn is_same_as(&self, other: &(Kind, u64)) -> bool {
        self.0 == other.0 && self.1 == other.1
    }
}

impl SameAs for (GrainId, Row) {
    fn is_same_as(&self, other: &(GrainId, Row)) -> bool {
        self.0 == other.0 && same_row(&self.1, &other.1)
    }
}

/// Whether two rows are the same.
fn same_row(row: &Row, other: &Row) -> bool
    ensures { IsTrue result ↔ (row.now ≡ other.now) }
{
    if row.version != other.version {
        return false;
    }
    match (&row.content, &other.content) {
        (Some(content), Some(another)) => *content == *another,
        (None, None) => true,
        _ => false,
    }
}

/// Whether two lists are the same.
pub fn are_same<T: SameAs>(list: &[T], others: &[T]) -> bool
    ensures { IsTrue result ↔ (list.now ≡ others.now) }
{
    let mut rest = list;
    let mut left = others;
    'entries: while let Some((entry, more)) = rest.split_first() {
        let Some((other, fewer)) = left.split_first() else {
            return false;
        };
        if !entry.is_same_as(other) {
            return false;
        }
        rest = more;
        left = fewer;
    }
    left.is_empty()
}
