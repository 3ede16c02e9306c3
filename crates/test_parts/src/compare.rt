//! What is found beside what is wanted.

use std::fmt::Debug;
use std::test::Fail;

/// Fails and shows both, if they differ.
pub fn same<T: PartialEq + Debug + Drop>(found: T, wanted: T) -> Result<(), Fail> {
    if found == wanted {
        return Ok(());
    }
    Err(Fail::new(format_args!("{found:?} in place of {wanted:?}")))
}

/// The same for a row of a table, which the failure names.
pub fn same_at<T: PartialEq + Debug + Drop>(row: &str, found: T, wanted: T) -> Result<(), Fail> {
    if found == wanted {
        return Ok(());
    }
    Err(Fail::new(format_args!("at {row}: {found:?} in place of {wanted:?}")))
}

/// Fails if a copy isn't equal.
pub fn same_copy<T: Clone + PartialEq + Drop>(it: &T) -> Result<(), Fail> {
    same(it.clone()? == *it, true)
}

/// Whether two texts are the same. A call of this costs less proof than `==` of what is lent.
pub fn is_text(one: &str, other: &str) -> bool {
    one == other
}

/// Whether bytes are the same.
pub fn are_bytes(some: &[u8], others: &[u8]) -> bool {
    some == others
}
