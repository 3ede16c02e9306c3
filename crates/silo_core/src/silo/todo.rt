//! What there is to do in a silo. Each of these is a walk over what the silo holds;
//! `worker_host` finds it by hints, and looks once at the end.

ghost use Rattle.std.specs.Prelude.{◌≡◌, ◌↔◌, IfOk, IsTrue};
ghost use Rattle.silo_model.specs.Pending.{AllQuiet, has_pending};
ghost use Rattle.silo_model.specs.Todo.{IsTodo};
ghost use Rattle.silo_model.specs.Whole.{shown_to};

use crate::silo::Silo;
use grain_id::Caller;
use grain_logic::GrainLogic;
use grain_storage::GrainStorage;
use silo_event::Step;
use std::alloc::AllocError;

impl<S: GrainStorage, L: GrainLogic> Silo<S, L> {
    /// An `Activate`, `Load`, `Begin` or `Deliver` that would be done now, or none exactly if there is
    /// none. It walks over all activations, and then over all tenants.
    ///
    /// # Errors
    ///
    /// Out of memory.
    pub fn todo(&self) -> Result<Option<Step>, AllocError>
        ensures { IfOk result (λ found. IsTodo L.logic self.now.whole found) }
    {
        // Looked at, so that the proof sees where the journal leads.
        let _ = &self.journal;
        if let Some((grain, work)) = self.state.first_work() {
            return Ok(Some(work.at(grain.clone()?)));
        }
        let Some(grain) = self.state.first_sender() else {
            return Ok(None);
        };
        let grain = grain.clone()?;
        Ok(Some(Step::Deliver { grain }))
    }

    /// Whether a request of the client waits or is open. It walks over all activations, and takes no
    /// memory.
    pub fn has_pending(&self, client: &Caller) -> bool
        ensures { result ≡ has_pending client.now (shown_to client.now.tenant self.now.whole) }
    {
        self.state.has_pending(client)
    }

    /// Whether no request waits, no turn is open, and no send is left. It walks over all activations
    /// and all tenants, and takes no memory.
    pub fn is_quiet(&self) -> bool
        ensures { IsTrue result ↔ AllQuiet self.now.whole }
    {
        self.state.are_settled() && self.state.first_sender().is_none()
    }
}
