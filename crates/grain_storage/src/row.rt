//! What is stored of a grain.

ghost use Rattle.std.specs.Prelude.{◌≡◌, ◌↔◌, IsTrue};
ghost use Rattle.std.specs.Cmp.{partial_equiv_from_equiv};
ghost use Rattle.grain_storage.specs.inside.RowEquality.{same_row, same_row_equiv};

use request_codec::StateBytes;
use std::alloc::AllocError;

/// A stored row: its version, from 1 up, and its content, or none where it was cleared.
#[derive(Debug, Drop)]
pub struct Row {
    pub version: u64,
    pub content: Option<StateBytes>,
}

impl Clone for Row {
    ghost is_clone = { λ row copy. copy ≡ row };

    fn clone(&self) -> Result<Row, AllocError> {
        let content = match &self.content {
            Some(content) => Some(content.clone()?),
            None => None,
        };
        Ok(Row {
            version: self.version,
            content,
        })
    }
}

/// Two rows are equal exactly where they have the same version, and the same content or both none.
impl PartialEq for Row {
    ghost eq = { same_row };

    ghost laws = { partial_equiv_from_equiv same_row_equiv };

    fn eq(&self, other: &Row) -> bool
        ensures by_parts { result ≡ same_row self.now other.now }
        ensures by_value { IsTrue result ↔ (self.now ≡ other.now) }
    {
        if self.version != other.version {
            return false;
        }
        match (&self.content, &other.content) {
            (Some(content), Some(other)) => StateBytes::eq(content, other),
            (None, None) => true,
            (Some(_), None) => false,
            (None, Some(_)) => false,
        }
    }
}

impl Eq for Row {
    ghost laws = { same_row_equiv };
}
