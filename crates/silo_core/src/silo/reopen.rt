//! The silo opens again where it is, and its history is dropped.

ghost use Rattle.std.specs.Prelude.{◌↔◌, IfOk, IsTrue};
ghost use Rattle.silo_model.specs.Collected.{AllIdle};
ghost use Rattle.silo_core.specs.Reopening.{ReopensOrNot};

use crate::silo::Silo;
use grain_logic::GrainLogic;
use grain_storage::GrainStorage;
use std::alloc::{AllocError, Global};

impl<S: GrainStorage, L: GrainLogic> Silo<S, L> {
    /// The silo opens again where it is: its journal and its replies are dropped, and what it has is what it opened with. `false`, and
    /// nothing changed, if it isn't at rest: an activation isn't ready, a request waits, or a turn is open. It walks over all
    /// activations, tenants and rows, and takes some hundred bytes for each.
    ///
    /// # Errors
    ///
    /// Out of memory: nothing changed.
    pub fn reopen(&mut self, alloc: Global) -> Result<bool, AllocError>
        ensures reopens { ReopensOrNot result self.old self.new }
        ensures at_rest { IfOk result (λ done. IsTrue done ↔ AllIdle self.old.whole.entries) }
    {
        let Some(kept) = self.state.kept(alloc)? else {
            return Ok(false);
        };
        let opening = self.state.storage().list(alloc)?;
        self.opening_failures = self.state.storage().failures();
        self.opening = opening;
        self.kept = kept;
        self.journal.clear();
        self.state.let_replies_go();
        Ok(true)
    }
}
