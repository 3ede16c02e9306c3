//! The journal of a silo, under the number of its version.

ghost use Rattle.std.specs.Prelude.{◌≡◌, ℕ, List, All, None, IfOk};
ghost use Rattle.journal_text.specs.JournalAnswers.{IsJournalText};
ghost use Rattle.journal_text.specs.Rules.{AsksInRange};
ghost use Rattle.journal_text.specs.Text.{journal_text};
ghost use Rattle.grain_kinds.specs.Kinds.{logic_of};
ghost use Rattle.audit_model.specs.Report.{IsFirstDifference};
ghost use Rattle.silo_core.specs.Reopening.{OpensEmpty};
ghost use Rattle.silo_journal.specs.SiloJournal.{journal_of};

use grain_kinds::Version;
use grain_storage::GrainStorage;
use silo_core::Silo;
use std::alloc::{AllocError, Global};

/// The text, in the newest form, of the journal of a silo that opened empty: the number of its
/// grains' logic, its age, the ages that kinds have of their own, its tenants with their limits, the steps
/// that it took, its replies, and the rows that it holds.
///
/// # Errors
///
/// Out of memory.
pub fn write_journal<S: GrainStorage, L: Version>(
    alloc: Global,
    silo: &Silo<S, L>,
) -> Result<Vec<u8>, AllocError>
    requires { OpensEmpty silo.now.setup }
    ensures text { IfOk result (λ text. text.items ≡ journal_text (journal_of L.number silo.now)) }

    // It is read as that journal again, if each client asked under a number below 2^63.
    ensures is_journal { All AsksInRange silo.now.journal
        → IfOk result (λ text. IsJournalText text.items (journal_of L.number silo.now)) }

    // What is recorded of each tenant is what the tenant's machine does, under the logic that is named.
    ensures no_difference { (tenant : List ℕ)
        → IsFirstDifference (logic_of L.number) (journal_of L.number silo.now) tenant None }
{
    silo_journal::write_journal(alloc, silo, L::number())
}
