//! Keeping the journal of a silo in a file.

ghost use Rattle.std.specs.Prelude.{◌≡◌, IfErr, IfOk, OnOk, option_map};
ghost use Rattle.journal_text.specs.Text.{journal_text};
ghost use Rattle.silo_core.specs.Reopening.{OpensEmpty};
ghost use Rattle.command_parts.specs.Files.{claims};
ghost use Rattle.command_parts.specs.Journals.{HasNoDifference, ReadsAgain, silo_journal};
ghost use Rattle.command_parts.specs.Kept.{IsKeepingCause, KeepsJournal, WritesAtMost};
ghost use Rattle.command_parts.specs.Setups.{version_of};

use crate::failure::Cause;
use crate::files::{FileFault, WholeFiles};
use grain_logic::GrainLogic;
use grain_storage::GrainStorage;
use silo_core::Silo;
use silo_journal::write_journal;
use std::alloc::{AllocError, Global};

/// The text of the silo's journal, under the number of its logic.
fn text_of<S: GrainStorage, L: GrainLogic>(
    alloc: Global,
    silo: &Silo<S, L>,
    kinds: u8,
) -> Result<Vec<u8>, AllocError>
    requires { OpensEmpty silo.now.setup }
    ensures text { IfOk result (λ text. text.items ≡ journal_text (silo_journal (version_of L.logic kinds) silo.now)) }
    ensures is_journal { OnOk result (ReadsAgain (version_of L.logic kinds) silo.now) }
    ensures no_difference { OnOk result (HasNoDifference (version_of L.logic kinds) silo.now) }
{
    write_journal(alloc, silo, kinds)
}

/// Writes the journal of the silo, under the number of its logic, to the file at the path, if there is a path.
pub fn keep_journal<F: WholeFiles, S: GrainStorage, L: GrainLogic>(
    alloc: Global,
    files: &mut F,
    journal: Option<&str>,
    silo: &Silo<S, L>,
    kinds: u8,
) -> Result<(), Cause>
    requires { OpensEmpty silo.now.setup }
    ensures kept { OnOk result (KeepsJournal (version_of L.logic kinds) (claims F.may_hold F.may_fail F.may_leave files.old files.new)
        (option_map (λ path. path.now) journal.entry) silo.now) }
    ensures alone { WritesAtMost (version_of L.logic kinds) (claims F.may_hold F.may_fail F.may_leave files.old files.new)
        (option_map (λ path. path.now) journal.entry) silo.now }
    ensures fault { IfErr result (λ why. IsKeepingCause (F.may_fail files.old) (option_map (λ path. path.now) journal.entry) why) }
{
    let Some(path) = journal else {
        return Ok(());
    };
    let Ok(text) = text_of(alloc, silo, kinds) else {
        return Err(Cause::Memory);
    };
    match files.write_whole(alloc, path, text.as_slice()) {
        Ok(()) => Ok(()),
        Err(FileFault::Memory) => Err(Cause::Memory),
        Err(FileFault::Failed | FileFault::TooMuch) => Err(Cause::Write),
    }
}
