//! What a turn asks of the storage, and what it is given.

ghost use Rattle.std.specs.Prelude.{◌≡◌, Ok, true};
ghost use Rattle.grain_logic.specs.Planned.{storage_call};
ghost use Rattle.grain_storage.specs.Rows.{written, cleared};
ghost use Rattle.silo_state.specs.Finds.{asks};
ghost use Rattle.silo_state.specs.inside.Storing.{read_again, with_state, given, Gives, GivesMarked};

use crate::reading::read_state;
use crate::version::{cleared_version, version_after, version_value};
use grain_id::GrainId;
use grain_logic::{GrainLogic, StoreCall};
use grain_storage::{GrainStorage, StoreFault};
use request_codec::StateBytes;
use std::alloc::Global;

/// What the storage returned for a turn: the state that its grain has then, the version that the state stands on, and
/// that version as it is in the reply to the turn's sender.
#[derive(Drop)]
pub struct StorageAnswer {
    pub state: StateBytes,
    pub version: Option<u64>,
    pub told: StateBytes,
}

/// Makes this storage call for a turn of a grain in this state, which stands on this version. If `failed`, the storage
/// isn't called.
///
/// # Errors
///
/// As the storage's, and `Failed` if `failed`. The rows are then as before.
pub fn ask<S: GrainStorage, L: GrainLogic>(
    alloc: Global,
    storage: &mut S,
    logic: &L,
    grain: &GrainId,
    state: &StateBytes,
    version: Option<u64>,
    call: StoreCall,
    failed: bool,
) -> Result<StorageAnswer, StoreFault>
    requires known { L.logic.knows grain.now.kind ≡ true }
    requires asking { asks (storage_call call) ≡ true }
    ensures { GivesMarked failed (given L.logic (S.rows storage.old) grain.now state.now version (storage_call call)) (S.rows storage.old)
        (S.failed storage.old) result (S.rows storage.new) (S.failed storage.new) }
{
    if failed {
        return Err(StoreFault::Failed);
    }
    match call {
        StoreCall::None => unreachable!(),
        StoreCall::Read => read(alloc, storage, logic, grain),
        StoreCall::Write => write(alloc, storage, grain, state, version),
        StoreCall::Clear => clear(alloc, storage, logic, grain, version),
    }
}

/// The row's content again, or the kind's empty state.
fn read<S: GrainStorage, L: GrainLogic>(
    alloc: Global,
    storage: &mut S,
    logic: &L,
    grain: &GrainId,
) -> Result<StorageAnswer, StoreFault>
    requires { L.logic.knows grain.now.kind ≡ true }
    ensures { Gives (Ok (read_again L.logic (S.rows storage.old) grain.now)) (S.rows storage.old) (S.failed storage.old) result (S.rows
        storage.new) (S.failed storage.new) }
{
    let (state, version) = match read_state(alloc, storage, logic, grain) {
        Ok(found) => found,
        Err(why) => return Err(why),
    };
    let told = version_value(alloc, version)?;
    Ok(StorageAnswer {
        state,
        version,
        told,
    })
}

/// The state becomes the content of the row. The version in the reply is made before the storage is called.
fn write<S: GrainStorage>(
    alloc: Global,
    storage: &mut S,
    grain: &GrainId,
    state: &StateBytes,
    version: Option<u64>,
) -> Result<StorageAnswer, StoreFault>
    ensures { Gives (with_state state.now (written (S.rows storage.old) grain.now version state.now)) (S.rows storage.old) (S.failed
        storage.old) result (S.rows storage.new) (S.failed storage.new) }
{
    let content = state.clone()?;
    let state = state.clone()?;
    let told = version_value(alloc, Some(version_after(version)))?;
    match storage.write(alloc, grain, version, content) {
        Ok(version) => Ok(StorageAnswer {
            state,
            version: Some(version),
            told,
        }),
        Err(why) => Err(why),
    }
}

/// The row loses its content, and the grain has its kind's empty state. The row's version in the reply is made before
/// the storage is called.
fn clear<S: GrainStorage, L: GrainLogic>(
    alloc: Global,
    storage: &mut S,
    logic: &L,
    grain: &GrainId,
    version: Option<u64>,
) -> Result<StorageAnswer, StoreFault>
    requires { L.logic.knows grain.now.kind ≡ true }
    ensures { Gives (with_state (L.logic.empty grain.now.kind) (cleared (S.rows storage.old) grain.now version)) (S.rows storage.old)
        (S.failed storage.old) result (S.rows storage.new) (S.failed storage.new) }
{
    let state = logic.empty(alloc, grain.kind())?;
    let told = version_value(alloc, cleared_version(version))?;
    match storage.clear(alloc, grain, version) {
        Ok(version) => Ok(StorageAnswer {
            state,
            version,
            told,
        }),
        Err(why) => Err(why),
    }
}
