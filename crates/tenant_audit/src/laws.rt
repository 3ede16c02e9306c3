//! Laws of journals and of their audit, over the definitions alone. No code runs: a law is the contract
//! of a function that does nothing.

ghost use Rattle.std.specs.Prelude.{◌≡◌, ℕ, List};
ghost use Rattle.journal_text.specs.Rules.{KeepsRules};
ghost use Rattle.journal_text.specs.Text.{History, journal_text};
ghost use Rattle.journal_text.specs.JournalAnswers.{IsJournalText, IsMigrated};
ghost use Rattle.grain_kinds.specs.Kinds.{logic_of};
ghost use Rattle.audit_model.specs.Report.{NoDifference, IsReport, TenantReport};
ghost use Rattle.tenant_audit.specs.ReadBack.{ReadsBack, ReportsNone};

/// No two journals that keep the rules have the same text.
pub fn one_text()
    ensures { (j k : History) → KeepsRules j → KeepsRules k → journal_text j ≡ journal_text k → j ≡ k }
{
    journal_text::laws::one_text();
}

/// The journal of a silo that opened with no rows has no difference.
pub fn no_difference()
    ensures { NoDifference }
{
    audit_model::laws::no_difference();
}

/// The report of a journal, of each tenant, is that of what the journal is migrated to.
pub fn same_report()
    ensures { (bytes text : List ℕ) (j k : History) (reports others : List TenantReport)
        → IsMigrated bytes text → IsJournalText bytes j → IsJournalText text k
        → IsReport (logic_of j.kinds) j reports → IsReport (logic_of k.kinds) k others → reports ≡ others }
{
    journal_text::laws::migrated_is_same();
    journal_text::laws::one_journal();
    audit_model::laws::one_report();
}

/// What is written of a silo, as `write_journal` says of it, is read as the silo's journal and refused at no line; and whoever
/// audits it reports no difference of any tenant.
pub fn written_reads_back()
    ensures read { ReadsBack }
    ensures report { ReportsNone }
{}
