//! Why a folder of data isn't gone on with, and what is said of it.

ghost use Rattle.std.specs.Prelude.{◌≡◌};
ghost use Rattle.data_command.specs.Texts.{IsDataFault};

use arrayvec::ArrayString;
use command_parts::{Cause, ProgramFault};
use std::alloc::{AllocError, Global};

/// Why the lines of an input were not all answered, with a folder of data.
#[derive(Clone, Copy, Debug, PartialEq, Eq)]
pub enum DataFault {
    /// It failed.
    Failed(Cause),

    /// The folder's checkpoint says nothing with which a silo can go on.
    NoCheckpoint,

    /// The folder has a checkpoint, and no log.
    NoLog,

    /// The folder's checkpoint or log has other words, with which the silo can't go on.
    OtherWords,

    /// Something is kept of this tenant, which the silo's own words leave out.
    HasTenant(ArrayString<32>),

    /// That line of the log, counted from 1, is refused.
    Refused(u128),

    /// The batch that ends with that line of the log, counted from 1, would now get other replies than its mark
    /// records.
    Otherwise(u128),
}

impl From<AllocError> for DataFault {
    ghost use Rattle.data_command.specs.declared.fault.DataFault.TheVariants as fault;
    ghost use Rattle.command_parts.specs.declared.failure.Cause.TheVariants as cause;

    ghost from_gives = { λ _ e. e ≡ fault.Failed cause.Memory };

    fn from(_refused: AllocError) -> DataFault {
        DataFault::Failed(Cause::Memory)
    }
}

/// What the program says of a tenant that is left out.
fn tell_tenant(alloc: Global, tenant: &ArrayString<32>) -> ProgramFault
    ensures { IsDataFault (DataFault.HasTenant tenant.now) result }
{
    let name = tenant.as_str();
    match format!(in alloc; "silo: the data have the tenant {name}\n") {
        Ok(text) => ProgramFault::Refused(text),
        Err(_) => ProgramFault::Failed(Cause::Memory),
    }
}

/// What the program says of a fault, and how it ends: with status 1 if it failed, 2 for other words or a tenant that is left out, and 4
/// for a checkpoint or a line of the log that is refused.
pub fn explain_data(alloc: Global, fault: DataFault) -> ProgramFault
    ensures { IsDataFault fault result }
{
    match fault {
        DataFault::Failed(why) => ProgramFault::Failed(why),
        DataFault::NoCheckpoint => match String::from_str(
            alloc,
            "silo: the checkpoint is refused\n",
        ) {
            Ok(text) => ProgramFault::NoJournal(text),
            Err(_) => ProgramFault::Failed(Cause::Memory),
        },
        DataFault::NoLog => match String::from_str(alloc, "silo: the log is missing\n") {
            Ok(text) => ProgramFault::NoJournal(text),
            Err(_) => ProgramFault::Failed(Cause::Memory),
        },
        DataFault::OtherWords => match String::from_str(
            alloc,
            "silo: the data have other words\n",
        ) {
            Ok(text) => ProgramFault::Refused(text),
            Err(_) => ProgramFault::Failed(Cause::Memory),
        },
        DataFault::HasTenant(tenant) => tell_tenant(alloc, &tenant),
        DataFault::Refused(line) => match format!(in alloc; "silo: log line {line} is refused\n") {
            Ok(text) => ProgramFault::NoJournal(text),
            Err(_) => ProgramFault::Failed(Cause::Memory),
        },
        DataFault::Otherwise(line) => {
            match format!(in alloc; "silo: log line {line} is answered otherwise\n") {
                Ok(text) => ProgramFault::NoJournal(text),
                Err(_) => ProgramFault::Failed(Cause::Memory),
            }
        }
    }
}
