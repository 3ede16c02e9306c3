//! The events of a silo.

ghost use Rattle.std.specs.Prelude.{◌≡◌};
ghost use Rattle.silo_event.specs.declared.step.StepFault.TheVariants.{Memory};

use crate::moment::Moment;
use crate::refusal::Refusal;
use grain_id::{Caller, GrainId};
use request_codec::{Message, SharedState};
use std::alloc::AllocError;
use thiserror::Error;

mod asker;
mod failed;
mod named;
mod owner;
mod same;

pub use same::same_but_failed;

/// One event of the silo. If a step has its mark `failed` set, the storage is not called, and the
/// step is taken as one whose storage call failed.
#[derive(Clone, Debug, Drop)]
pub enum Step {
    /// A client's line made an invalid request, for the reason in `code`.
    Refuse {
        caller: Caller,
        id: u64,
        code: Refusal,
    },
    /// A client asks a grain for a method.
    Call {
        caller: Caller,
        id: u64,
        grain: GrainId,
        message: Message,
    },
    /// A client overwrites a grain's stored row. The mark stands first, beside the byte that distinguishes the steps,
    /// so that no step takes more than 40 bytes.
    Poke {
        failed: bool,
        caller: Caller,
        id: u64,
        grain: GrainId,
        state: SharedState,
    },
    /// A client asks how much its tenant has.
    Status {
        caller: Caller,
        id: u64,
    },
    /// The first call that a grain sent, and that is not yet delivered, is asked of its target.
    Deliver {
        grain: GrainId,
    },
    /// A grain's entry that waits to be activated begins to load.
    Activate {
        grain: GrainId,
    },
    /// A loading grain gets its state.
    Load {
        grain: GrainId,
        failed: bool,
    },
    /// The first waiting request of a ready grain becomes an open turn.
    Begin {
        grain: GrainId,
    },
    /// An open turn that uses the storage runs and is closed.
    Store {
        grain: GrainId,
        turn: u64,
        failed: bool,
    },
    /// An open turn that doesn't use the storage runs and is closed.
    End {
        grain: GrainId,
        turn: u64,
    },
    /// An open turn that ran out of memory is closed.
    Abandon {
        grain: GrainId,
        turn: u64,
    },
    /// The clock is set.
    Tick {
        now: Moment,
    },
    /// The grains that were idle long enough go.
    Sweep,
}

/// What became of a step.
#[derive(Clone, Copy, Debug, PartialEq, Eq)]
pub enum Answer {
    /// The step was taken.
    Done,
    /// The step was taken as one whose storage call failed, since the storage failed in it.
    Failed,
    /// The step isn't possible now: nothing changed.
    NotNow,
}

/// Why a step has no answer.
#[derive(Clone, Copy, Debug, PartialEq, Eq, Error)]
pub enum StepFault {
    /// Memory was refused: nothing changed.
    #[error("out of memory")]
    Memory,
    /// What was handed in to close a turn is not of that turn's own message and state: nothing
    /// changed.
    #[error("result is of another turn")]
    Stranger,
}

impl From<AllocError> for StepFault {
    ghost from_gives = { λ _ e. e ≡ Memory };

    fn from(_refused: AllocError) -> StepFault {
        StepFault::Memory
    }
}
