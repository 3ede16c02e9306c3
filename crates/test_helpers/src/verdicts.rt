//! How a test ends. `assert!` of what may fail takes a second or two of proof, a call of this next to nothing.

use std::test::Fail;

/// Fails, unless it is so.
pub fn holds(it_is_so: bool) -> Result<(), Fail> {
    if it_is_so {
        Ok(())
    } else {
        Err(Fail::from("another value came out"))
    }
}
