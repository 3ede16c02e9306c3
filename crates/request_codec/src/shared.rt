//! States in blocks of their own.

ghost use Rattle.std.specs.Prelude.{◌≡◌, IfOk};
ghost use Rattle.std.specs.Arc.{arc_value};

use crate::state::StateBytes;
use std::alloc::{AllocError, Global};
use std::marker::Model;
use std::sync::Arc;

/// A state in a block that all clones share. It takes one word where it stands, for a place that
/// seldom has a state.
#[derive(Debug, Drop)]
pub struct SharedState {
    state: Arc<StateBytes>,
}

impl Model for SharedState {
    ghost use Rattle.std.specs.Arc.{arc_value};
    ghost use Rattle.request_codec.specs.Tree.{Tree};
    ghost use Rattle.request_codec.specs.Code.{coded_tree};

    ghost Value = { Tree };

    ghost coded = { coded_tree };

    ghost view = { λ s. arc_value s.state };
}

/// What is to be shared, in a block.
fn share(alloc: Global, state: StateBytes) -> Result<Arc<StateBytes>, AllocError>
    ensures { IfOk result (λ shared. arc_value shared ≡ state) }
{
    Ok(Arc::new(alloc, state)?)
}

impl SharedState {
    /// The same state, to be shared.
    pub fn new(alloc: Global, state: StateBytes) -> Result<SharedState, AllocError>
        ensures { IfOk result (λ shared. shared ≡ state) }
    {
        Ok(SharedState {
            state: share(alloc, state)?,
        })
    }

    /// The state.
    pub fn state(&self) -> &StateBytes
        ensures { result.now ≡ self.now }
    {
        &self.state
    }
}

impl Clone for SharedState {
    ghost is_clone = { λ state copy. copy ≡ state };

    fn clone(&self) -> Result<SharedState, AllocError> {
        Ok(SharedState {
            state: self.state.clone()?,
        })
    }
}
