//! Laws over the definitions alone. Each is the contract of a function that does nothing.

ghost use Rattle.std.specs.Prelude.{◌≡◌};
ghost use Rattle.checkpoint_text.specs.Rules.{IsCheckpoint};
ghost use Rattle.checkpoint_text.specs.Text.{Checkpoint, checkpoint_text};

/// No two checkpoints have the same text.
#[tactic(auto, using(crate::proofs::Whole::one_text))]
pub fn one_text()
    ensures { (c d : Checkpoint) → IsCheckpoint c → IsCheckpoint d → checkpoint_text c ≡ checkpoint_text d → c ≡ d }
{}
