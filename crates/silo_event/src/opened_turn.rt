//! Turns that were opened.

use grain_id::GrainId;
use request_codec::{Message, StateBytes};

/// A turn that was opened: what its plan is made of.
#[derive(Drop)]
pub struct OpenedTurn {
    pub grain: GrainId,
    /// The turn's number in its tenant, from 1.
    pub number: u64,
    /// Whether other turns of the grain may be open beside it.
    pub reading: bool,
    /// The grain's state.
    pub state: StateBytes,
    pub message: Message,
}
