//! What a folder of data has.

ghost use Rattle.std.specs.Prelude.{◌≡◌, IfErr, IfOk, OnErr, option_map};
ghost use Rattle.data_command.specs.Data.{IsFound, IsFoundPoint, LeavesLog, log_claims};
ghost use Rattle.data_command.specs.Folder.{FailsToOpen};
ghost use Rattle.data_command.specs.inside.Starts.{opening_cause};

use command_parts::{Cause, DataFiles};
use log_host::OpenFault;
use std::alloc::Global;

/// The bytes of a folder's log and of its checkpoint, if they are there.
#[derive(Drop)]
pub(crate) struct Found {
    pub(crate) log: Option<Vec<u8>>,
    pub(crate) point: Option<Vec<u8>>,
}

/// What a fault of opening is to the program.
fn opening_cause(fault: OpenFault) -> Cause
    ensures { result ≡ opening_cause fault }
{
    match fault {
        OpenFault::Memory => Cause::Memory,
        OpenFault::InUse => Cause::InUse,
        OpenFault::Read => Cause::Read,
        OpenFault::Write => Cause::Write,
    }
}

/// Opens the folder for this process alone, and reads what it has.
pub(crate) fn open_folder<F: DataFiles>(
    alloc: Global,
    files: &mut F,
    path: &str,
) -> Result<Found, Cause>
    ensures left { LeavesLog (log_claims F.begun F.acts F.past F.failed files.old files.new) }
    ensures acts { F.acts files.new ≡ F.acts files.old }
    ensures log { IfOk result (λ found. IsFound (log_claims F.begun F.acts F.past F.failed files.old files.new)
        (option_map (λ bytes. bytes.items) found.log)) }
    ensures point { IfOk result (λ found. IsFoundPoint (log_claims F.begun F.acts F.past F.failed files.old files.new)
        (option_map (λ bytes. bytes.items) found.point)) }
    ensures fault { IfErr result (λ why. FailsToOpen why (F.failed files.new)) }
{
    let log = match files.open(alloc, path) {
        Ok(log) => log,
        Err(why) => return Err(opening_cause(why)),
    };
    match files.checkpoint(alloc) {
        Ok(point) => Ok(Found { log, point }),
        Err(why) => Err(opening_cause(why)),
    }
}
