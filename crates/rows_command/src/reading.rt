//! The rows and the active grains of a checkpoint, read and listed.

ghost use Rattle.std.specs.Prelude.{◌≡◌, ◌↔◌, IfOk, IsTrue, option_map, string_bytes};
ghost use Rattle.checkpoint_text.specs.Answers.{checkpoint_in};
ghost use Rattle.rows_command.specs.Listing.{listing};
ghost use Rattle.rows_command.specs.Rows.{IsOpening};
ghost use Rattle.rows_command.specs.inside.Reading.{FindsOpening, ReadsListing};

use crate::lines::{push_actives, push_rows};
use checkpoint_text::{Checkpoint, CheckpointFault, read_checkpoint};
use grain_kinds::newest;
use journal_text::{Journal, JournalFault, read_journal};
use std::alloc::{AllocError, Global};

/// Whether the journal has no steps and no replies, and no version of the logic that is newer than the program.
fn is_opening(journal: &Journal) -> bool
    ensures { IsTrue result ↔ IsOpening journal.now }
{
    journal.kinds() <= newest() && journal.steps().is_empty() && journal.replies().is_empty()
}

/// The journal whose text the bytes are, if it may stand in a checkpoint that the program reads.
fn opening_in(alloc: Global, bytes: &[u8]) -> Result<Journal, CheckpointFault>
    ensures { FindsOpening bytes.now result }
{
    let journal = match read_journal(alloc, bytes) {
        Ok(journal) => journal,
        Err(JournalFault::At { .. }) => return Err(CheckpointFault::NoCheckpoint),
        Err(JournalFault::Memory) => return Err(CheckpointFault::Memory),
    };
    if is_opening(&journal) {
        return Ok(journal);
    }
    drop(journal);
    Err(CheckpointFault::NoCheckpoint)
}

/// The lines of what was read.
fn listing_in(
    alloc: Global,
    checkpoint: &Checkpoint<'_>,
    journal: &Journal,
    tenant: Option<&str>,
) -> Result<String, AllocError>
    ensures { IfOk result (λ text. string_bytes text
        ≡ listing (option_map (λ name. name.now) tenant.entry) journal.now.rows (checkpoint_in checkpoint.now).grains) }
{
    let mut text = String::new(alloc);
    push_rows(alloc, &mut text, tenant, journal.rows())?;
    push_actives(alloc, &mut text, tenant, checkpoint.kept.grains.as_slice())?;
    Ok(text)
}

/// The rows and the active grains of the checkpoint whose text the bytes are: of the tenant, if one is named.
///
/// # Errors
///
/// `NoCheckpoint` if they are the text of none that the program reads, `Memory` if memory is refused.
pub(crate) fn listing_of(
    alloc: Global,
    bytes: &[u8],
    tenant: Option<&str>,
) -> Result<String, CheckpointFault>
    ensures { ReadsListing bytes.now (option_map (λ name. name.now) tenant.entry) result }
{
    let checkpoint = read_checkpoint(alloc, bytes)?;
    let journal = opening_in(alloc, checkpoint.journal.as_bytes())?;
    let text = listing_in(alloc, &checkpoint, &journal, tenant)?;
    Ok(text)
}
