//! Laws over the definitions alone. Each is the contract of a function that does nothing.

ghost use Rattle.std.specs.Prelude.{◌≡◌, ℕ, List, true};
ghost use Rattle.std.specs.List.{list_all};
ghost use Rattle.journal_text.specs.declared.form.Form.{Form};
ghost use Rattle.journal_text.specs.declared.line.Line.{Line};
ghost use Rattle.journal_text.specs.Form.{written};
ghost use Rattle.journal_text.specs.RecordedFault.{is_text_byte};
ghost use Rattle.journal_text.specs.Rules.{IsLine, KeepsRules};
ghost use Rattle.journal_text.specs.Text.{History, line_text, journal_text};
ghost use Rattle.journal_text.specs.FirstFault.{IsFirstFault, IsNoJournal};
ghost use Rattle.journal_text.specs.JournalAnswers.{IsJournalText, IsMigrated};

/// No two lines of a journal have the same text.
pub fn one_line()
    ensures { (form : Form) (l m : Line) → IsLine form l → IsLine form m → line_text form l ≡ line_text form m → l ≡ m }
{}

/// The text of a line is of visible ASCII and spaces.
pub fn plain_line()
    ensures { (form : Form) (l : Line) → IsLine form l → list_all is_text_byte (line_text form l) ≡ true }
{}

/// No two journals have the same text.
pub fn one_text()
    ensures { (j k : History) → KeepsRules j → KeepsRules k → journal_text j ≡ journal_text k → j ≡ k }
{}

/// Bytes are the text of one journal at most, and in one form.
pub fn one_journal()
    ensures journal { (bytes : List ℕ) (j k : History) → IsJournalText bytes j → IsJournalText bytes k → j ≡ k }
    ensures form { (bytes : List ℕ) (j k : History) (one : IsJournalText bytes j) (other : IsJournalText bytes k) → one.form ≡ other.form }
{}

/// Of some bytes at most one line is the first at fault, and then they are no journal's.
pub fn one_first_fault()
    ensures one { (bytes : List ℕ) (m n : ℕ) → IsFirstFault bytes m → IsFirstFault bytes n → m ≡ n }
    ensures no_journal { (bytes : List ℕ) (n : ℕ) → IsFirstFault bytes n → IsNoJournal bytes }
{}

/// What a journal is migrated to is a text of the same journal, and has the form in which journals are
/// written.
pub fn migrated_is_same()
    ensures same { (bytes text : List ℕ) (j : History) → IsMigrated bytes text → IsJournalText bytes j → IsJournalText text j }
    ensures form { (bytes text : List ℕ) (j : History) → IsMigrated bytes text → (read : IsJournalText text j) → read.form ≡ written }
{}

/// A journal that has that form is migrated to itself, byte for byte.
pub fn written_stays()
    ensures { (bytes text : List ℕ) (j : History) → IsMigrated bytes text → (read : IsJournalText bytes j) → read.form ≡ written
        → text ≡ bytes }
{}
