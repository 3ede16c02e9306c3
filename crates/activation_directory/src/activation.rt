//! What the directory holds for a grain.

use request_codec::StateBytes;
use silo_event::Moment;
use turn_mailbox::Mailbox;

/// How far an activation has come.
#[derive(Debug, Drop)]
pub enum Phase {
    /// It waits to be activated.
    Waiting,
    /// It waits for its state.
    Loading,
    /// It has a state, which stands on the version of a stored row, or on no row.
    Ready {
        state: StateBytes,
        version: Option<u64>,
    },
}

/// The activation of a grain.
#[derive(Drop)]
pub struct Activation {
    pub phase: Phase,
    pub mailbox: Mailbox,
    /// When a request last came or a turn last ended.
    pub last: Moment,
    /// If it's idle, it isn't due before this moment.
    pub until: u64,
    /// Whether it goes as soon as it's idle.
    pub resting: bool,
    /// The moment of its note, if a collector has one: 0 if none has.
    pub noted: u64,
}
