//! A tenant's status, as a client gets it.

ghost use Rattle.std.specs.Prelude.{◌≡◌, ◌<◌, ◌^◌, IfOk};
ghost use Rattle.silo_state.specs.Status.{status_value};

use crate::values::state_of;
use request_codec::{Datum, StateBytes};
use std::alloc::{AllocError, Global};
use std::collections::BTreeMap;

/// How many activations there are, the clock, and how many requests were accepted, as one value.
///
/// # Errors
///
/// Out of memory.
pub fn status_value(
    alloc: Global,
    active: usize,
    clock: u64,
    requests: u64,
) -> Result<StateBytes, AllocError>
    requires active { active < 2 ^ 63 }
    requires clock { clock < 2 ^ 63 }
    requires requests { requests < 2 ^ 63 }
    ensures { IfOk result (λ value. value ≡ status_value active clock requests) }
{
    let mut fields = BTreeMap::new(alloc);
    let name = String::from_str(alloc, "activations")?;
    drop(fields.insert(name, Datum::Int(active as i64))?);
    let name = String::from_str(alloc, "clock")?;
    drop(fields.insert(name, Datum::Int(clock as i64))?);
    let name = String::from_str(alloc, "requests")?;
    drop(fields.insert(name, Datum::Int(requests as i64))?);
    state_of(alloc, &Datum::Map(fields))
}
