//! A gate, which is called for each turn that a worker opens.

use grain_id::GrainId;

/// Is called for each turn that a worker opens.
pub trait TurnGate {
    /// Called without the lock, after the turn was opened and before its body runs.
    fn entered(&self, grain: &GrainId, turn: u64);

    /// Whether it has to be called for each turn. If not, a turn may be served at once: it begins and ends under the
    /// lock, without a call of `entered`.
    fn watches(&self) -> bool {
        true
    }
}

/// A gate that does nothing, and needn't be called for each turn.
#[derive(Clone, Copy)]
pub struct FreeGate;

impl TurnGate for FreeGate {
    fn entered(&self, _grain: &GrainId, _turn: u64) {}

    fn watches(&self) -> bool {
        false
    }
}
