//! What a silo keeps when it is opened again where it is, and what it drops.

ghost use Rattle.std.specs.Prelude.{◌≡◌, ◌↔◌, IfOk, IfSome, IsSome, IsTrue};
ghost use Rattle.std.specs.FinMap.{entries};
ghost use Rattle.finite_maps.specs.Mapped.{with_values};
ghost use Rattle.silo_model.specs.Collected.{AllIdle};
ghost use Rattle.silo_model.specs.Segments.{kept_of, untold};
ghost use Rattle.silo_state.specs.KeptParts.{kept_grain_in, kept_in};

use crate::parts::KeptParts;
use crate::state::SiloState;
use grain_logic::GrainLogic;
use grain_storage::GrainStorage;
use std::alloc::{AllocError, Global};

impl<S: GrainStorage, L: GrainLogic> SiloState<S, L> {
    /// Whether all is at rest: each activation is ready, no request waits, and no turn is open. It walks over all activations.
    pub fn is_at_rest(&self) -> bool
        ensures { IsTrue result ↔ AllIdle self.now.whole.entries }
    {
        self.activations.are_idle()
    }

    /// What is kept of all, but for the rows, which the storage lists; or none, if not all is at rest. A state is shared with
    /// its copy, so that this takes some hundred bytes a grain.
    ///
    /// # Errors
    ///
    /// Out of memory.
    pub fn kept(&self, alloc: Global) -> Result<Option<KeptParts>, AllocError>
        ensures kept { IfOk result (λ found. IfSome found (λ parts. kept_in parts ≡ kept_of self.now.whole)) }
        ensures ascending { IfOk result (λ found. IfSome found (λ parts.
            with_values kept_grain_in parts.grains.items ≡ entries (kept_of self.now.whole).grains)) }
        ensures at_rest { IfOk result (λ found. IsSome found ↔ AllIdle self.now.whole.entries) }
    {
        if !self.is_at_rest() {
            return Ok(None);
        }
        Ok(Some(KeptParts {
            clock: self.activations.clock(),
            accounts: self.accounts.kept(alloc)?,
            grains: self.activations.kept(alloc)?,
        }))
    }

    /// The replies go, and nothing else does.
    pub fn let_replies_go(&mut self)
        ensures { self.new ≡ record self.old { whole = untold self.old.whole } }
    {
        self.replies.clear();
    }
}
