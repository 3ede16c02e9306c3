//! The checkpoint of a silo.

ghost use Rattle.std.specs.Prelude.{◌≡◌, ◌↔◌, ◌≤◌, ℕ, All, IfOk, IfSome, IsTrue, List, None, Ok};
ghost use Rattle.grain_id.specs.Names.{Grain};
ghost use Rattle.grain_storage.specs.declared.row.Row.{Row};
ghost use Rattle.journal_text.specs.JournalAnswers.{IsJournalText};
ghost use Rattle.journal_text.specs.Rules.{IsKinds};
ghost use Rattle.silo_checkpoint.specs.Saved.{HasText, opening_journal, saved_by};
ghost use Rattle.silo_checkpoint.specs.inside.Told.{AreCounted};

use checkpoint_text::{CheckpointParts, checkpoint_of, may_stand};
use grain_id::GrainId;
use grain_logic::GrainLogic;
use grain_storage::{GrainStorage, Row};
use journal_text::{JournalParts, journal_of_parts};
use silo_core::Silo;
use std::alloc::{AllocError, Global};

/// Whether a journal may have that number of a logic.
fn is_kinds(kinds: u8) -> bool
    ensures { IsTrue result ↔ IsKinds kinds }
{
    1 <= kinds
}

/// Whether the version of each row is above 0.
fn are_counted(rows: &[(GrainId, Row)]) -> bool
    ensures { IsTrue result ↔ AreCounted rows.now }
{
    'rows: for (_, row) in rows {
        if row.version == 0 {
            return false;
        }
    }
    true
}

/// The text of the journal of what the silo opened with; none if that is no journal.
fn journal_of<S: GrainStorage, L: GrainLogic>(
    alloc: Global,
    silo: &Silo<S, L>,
    kinds: u8,
) -> Result<Option<Vec<u8>>, AllocError>
    ensures text { IfOk result (λ found. IfSome found (λ text. IsJournalText text.items (opening_journal kinds silo.now.setup))) }
    ensures none { result ≡ Ok None → (bytes : List ℕ) → IsJournalText bytes (opening_journal kinds silo.now.setup) → ⊥ }
{
    let rows = silo.opening();
    if !is_kinds(kinds) {
        return Ok(None);
    }
    if !are_counted(rows) {
        return Ok(None);
    }
    let parts = JournalParts {
        kinds,
        age: silo.age(),
        ages: silo.ages().list(),
        tenants: silo.tenants().list(),
        steps: &[],
        replies: &[],
        rows,
    };
    Ok(Some(journal_of_parts(alloc, parts)?))
}

/// The text of a checkpoint of what the silo opened with: of all that it has, if it was opened again just now. It says that number of
/// the logic, what it follows, and how many calls that grains sent are delivered after a line. None if a checkpoint has no text for
/// that: the number is none of a logic, what it follows isn't of visible ASCII, a tenant's name of what was kept isn't well formed,
/// or a row's version is 0. It walks over all of it, and takes the text's length about three times.
///
/// # Errors
///
/// Out of memory.
pub fn save<S: GrainStorage, L: GrainLogic>(
    alloc: Global,
    silo: &Silo<S, L>,
    kinds: u8,
    follows: &str,
    sends: u64,
) -> Result<Option<Vec<u8>>, AllocError>
    ensures text { IfOk result (λ found. IfSome found (λ text. HasText text.items (saved_by follows.now kinds sends silo.now.setup))) }
    ensures none { result ≡ Ok None → (bytes : List ℕ) → HasText bytes (saved_by follows.now kinds sends silo.now.setup) → ⊥ }
{
    let Some(journal) = journal_of(alloc, silo, kinds)? else {
        return Ok(None);
    };
    let parts = CheckpointParts {
        follows,
        sends,
        kept: silo.opening_kept(),
        journal: journal.as_slice(),
    };
    if !may_stand(&parts) {
        return Ok(None);
    }
    Ok(Some(checkpoint_of(alloc, &parts)?))
}
