//! Versions of rows, and how replies to clients give them.

ghost use Rattle.std.specs.Prelude.{◌≡◌, IfOk, decimal};
ghost use Rattle.request_codec.specs.Tree.{text};
ghost use Rattle.silo_model.specs.Stores.{version_value};
ghost use Rattle.silo_state.specs.inside.Versions.{version_after, cleared_version, IsVersion};

use crate::values::state_of;
use request_codec::{Datum, StateBytes};
use std::alloc::{AllocError, Global};

/// The version that a row has after a write, by the one before it. The last version stays.
pub fn version_after(version: Option<u64>) -> u64
    ensures after { result ≡ version_after version }
    ensures bound { IsVersion version }
{
    match version {
        Some(version) => version.saturating_add(1),
        None => 1,
    }
}

/// The version that a row has after a clearing, by the one before it. No row stays none.
pub fn cleared_version(version: Option<u64>) -> Option<u64>
    ensures after { result ≡ cleared_version version }
    ensures bound { IsVersion version }
{
    match version {
        Some(version) => Some(version_after(Some(version))),
        None => None,
    }
}

/// A version in a reply to a client: its decimal text, or null.
///
/// # Errors
///
/// Out of memory.
pub fn version_value(alloc: Global, version: Option<u64>) -> Result<StateBytes, AllocError>
    ensures { IfOk result (λ value. value ≡ version_value version) }
{
    match version {
        Some(version) => decimal(alloc, version),
        None => state_of(alloc, &Datum::Null),
    }
}

/// The decimal text of a number.
fn decimal(alloc: Global, number: u64) -> Result<StateBytes, AllocError>
    ensures { IfOk result (λ value. value ≡ text (decimal number)) }
{
    StateBytes::decimal(alloc, number)
}
