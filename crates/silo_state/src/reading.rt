//! What a row gives to a grain.

ghost use Rattle.std.specs.Prelude.{◌≡◌, true};
ghost use Rattle.silo_state.specs.Reads.{ReadsState};

use grain_id::GrainId;
use grain_logic::GrainLogic;
use grain_storage::{GrainStorage, StoreFault};
use request_codec::StateBytes;
use std::alloc::Global;

/// The state that a grain of a known kind gets from its row, and the version that it stands on: the
/// row's content, or the kind's empty state.
///
/// # Errors
///
/// `Failed` or `Memory`: the rows are as before.
pub fn read_state<S: GrainStorage, L: GrainLogic>(
    alloc: Global,
    storage: &mut S,
    logic: &L,
    grain: &GrainId,
) -> Result<(StateBytes, Option<u64>), StoreFault>
    requires { L.logic.knows grain.now.kind ≡ true }
    ensures { ReadsState L.logic (S.rows storage.old) (S.failed storage.old) grain.now result (S.rows storage.new) (S.failed storage.new) }
{
    let row = match storage.read(alloc, grain) {
        Ok(row) => row,
        Err(why) => return Err(why),
    };
    let Some(row) = row else {
        return Ok((logic.empty(alloc, grain.kind())?, None));
    };
    let version = row.version;
    match row.content {
        Some(state) => Ok((state, Some(version))),
        None => Ok((logic.empty(alloc, grain.kind())?, Some(version))),
    }
}
