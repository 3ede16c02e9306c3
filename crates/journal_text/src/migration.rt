//! Journals of any form, written in the newest.

ghost use Rattle.journal_text.specs.JournalAnswers.{MigratesJournal};

use crate::fault::JournalFault;
use crate::journal_reader::read_journal;
use crate::journal_writer::text_of;
use std::alloc::Global;

/// The text, in the form in which journals are written, of the journal whose text these bytes are in any
/// form. A journal that has that form comes back byte for byte. Nothing is audited: a journal that an
/// audit finds a difference in is migrated as any other.
///
/// # Errors
///
/// Those of [`read_journal`].
pub fn migrate_journal(alloc: Global, bytes: &[u8]) -> Result<Vec<u8>, JournalFault>
    ensures { MigratesJournal bytes.now result }
{
    match read_journal(alloc, bytes) {
        Ok(journal) => {
            let text = text_of(alloc, &journal);
            drop(journal);
            Ok(text?)
        }
        Err(fault) => Err(fault),
    }
}
