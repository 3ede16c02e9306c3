//! Laws over the definitions alone. Each is the contract of a function that does nothing.

ghost use Rattle.std.specs.Prelude.{◌≡◌, ℕ, List};
ghost use Rattle.silo_checkpoint.specs.Saved.{HasText, Saved};

/// A checkpoint says one thing.
pub fn one_saved()
    ensures { (bytes : List ℕ) (a b : Saved) → HasText bytes a → HasText bytes b → a ≡ b }
{}
