//! Laws over the definitions alone, each the contract of a function that does nothing.

ghost use Rattle.std.specs.Prelude.{ℕ, ◌≤◌, ◌≡◌};
ghost use Rattle.grain_kinds.specs.Versions.{newest};
ghost use Rattle.grain_kinds.specs.Kinds.{kinds, logic_of, newest_kinds, table};
ghost use Rattle.grain_logic.specs.Laws.{IsLawful, KeepsSame};
ghost use Rattle.grain_logic.specs.Tables.{Extends};

/// The logic of each version is lawful.
pub fn lawful()
    ensures { (version : ℕ) → IsLawful (logic_of version) }
{}

/// A version answers whatever an older one knows as the older one does: a journal of the older one keeps its report.
pub fn versions_extend()
    ensures { (older newer : ℕ) → older ≤ newer → Extends table older newer }
{}

/// The newest version has all of the table: a number above it has the newest one's logic.
pub fn newest_has_all()
    ensures { (version : ℕ) → newest ≤ version → logic_of version ≡ newest_kinds }
{}

/// The first version says nothing of activations.
pub fn kinds_keep_same()
    ensures { KeepsSame kinds }
{}
