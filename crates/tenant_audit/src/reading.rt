//! Journals of the versions of the logic that there are, read.

ghost use Rattle.std.specs.Prelude.{◌↔◌, IfOk, IsTrue};
ghost use Rattle.tenant_audit.specs.Reading.{MigratesKnown, NamesNewer, ReadsKnown};

use grain_kinds::newest;
use journal_text::{Journal, JournalFault, named_kinds};
use std::alloc::{AllocError, Global};

/// The line of a journal that names the version of its logic.
const VERSION_LINE: usize = 2;

/// Whether the bytes begin as a journal of a version that there isn't yet.
fn names_newer(alloc: Global, bytes: &[u8]) -> Result<bool, AllocError>
    ensures { IfOk result (λ newer. IsTrue newer ↔ NamesNewer bytes.now) }
{
    match named_kinds(alloc, bytes)? {
        Some(kinds) => Ok(kinds > newest()),
        None => Ok(false),
    }
}

/// The journal whose text these bytes are, in any form and of any version of the logic that there is; messages of the form
/// before become messages of now. Takes time that grows with the number of the bytes.
///
/// # Errors
///
/// `At` with line 2 if that names a version newer than [`newest`], whatever follows. Else those of
/// [`journal_text::read_journal`].
pub fn read_journal(alloc: Global, bytes: &[u8]) -> Result<Journal, JournalFault>
    ensures { ReadsKnown bytes.now result }
{
    let newer = names_newer(alloc, bytes)?;
    if newer {
        return Err(JournalFault::At { line: VERSION_LINE });
    }
    journal_text::read_journal(alloc, bytes)
}

/// The journal whose text these bytes are, of any version of the logic that there is, as a text in the form in which
/// journals are written. A journal that has that form comes back byte for byte. Nothing is audited: a journal that an audit
/// finds a difference in is migrated as any other.
///
/// # Errors
///
/// Those of [`read_journal`].
pub fn migrate_journal(alloc: Global, bytes: &[u8]) -> Result<Vec<u8>, JournalFault>
    ensures { MigratesKnown bytes.now result }
{
    if names_newer(alloc, bytes)? {
        return Err(JournalFault::At { line: VERSION_LINE });
    }
    journal_text::migrate_journal(alloc, bytes)
}
