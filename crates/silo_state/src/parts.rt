//! What is kept of a silo's state where the silo is left: all that it has at rest, but for the rows and the replies.

ghost use Rattle.std.specs.Prelude.{◌≡◌, ◌↔◌, true, IfOk, IsTrue};
ghost use Rattle.silo_model.specs.Idle.{is_idle};
ghost use Rattle.silo_model.specs.Opening.{nothing_kept};
ghost use Rattle.silo_model.specs.Segments.{kept_grain};
ghost use Rattle.silo_state.specs.KeptParts.{kept_in, kept_grain_in};
ghost use Rattle.silo_state.specs.Shown.{entry_of};

use crate::state::beginning;
use activation_directory::{Activation, Phase};
use grain_id::GrainId;
use request_codec::StateBytes;
use silo_event::Moment;
use std::alloc::{AllocError, Global};
use tenant_accounts::AccountParts;

/// What is kept of a grain that is active and idle: its state, the version of the row on which it stands, when it was
/// last used, and until when it stays.
#[derive(Drop)]
pub struct GrainParts {
    pub state: StateBytes,
    pub version: Option<u64>,
    pub last: Moment,
    pub until: u64,
}

/// The clock, what is kept of each account, and the grains that are active, in ascending order.
#[derive(Drop)]
pub struct KeptParts {
    pub clock: Moment,
    pub accounts: Vec<AccountParts>,
    pub grains: Vec<(GrainId, GrainParts)>,
}

impl KeptParts {
    /// What a silo opens with that is new: the clock is at its beginning, and nothing is kept of anyone.
    pub fn nothing(alloc: Global) -> KeptParts
        ensures { kept_in result ≡ nothing_kept }
    {
        KeptParts {
            clock: beginning(),
            accounts: Vec::new(alloc),
            grains: Vec::new(alloc),
        }
    }

    /// Whether it is that of a silo that is new.
    pub fn is_nothing(&self) -> bool
        ensures { IsTrue result ↔ (kept_in self.now ≡ nothing_kept) }
    {
        if self.clock.get() != 0 {
            return false;
        }
        if !self.accounts.as_slice().is_empty() {
            return false;
        }
        self.grains.as_slice().is_empty()
    }
}

/// What is kept of an activation that is idle.
pub(crate) fn parts_of(activation: &Activation) -> Result<GrainParts, AllocError>
    requires { is_idle (entry_of activation.now) ≡ true }
    ensures { IfOk result (λ parts. kept_grain_in parts ≡ kept_grain (entry_of activation.now)) }
{
    match &activation.phase {
        Phase::Ready { state, version } => Ok(GrainParts {
            state: state.clone()?,
            version: *version,
            last: activation.last,
            until: activation.until,
        }),
        _ => unreachable!(),
    }
}
