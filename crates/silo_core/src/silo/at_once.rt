//! A call whose turn begins and ends as soon as it is accepted.

ghost use Rattle.std.specs.Prelude.{◌≡◌, ◌≤◌, ◌+◌, IfOk, OnErr, vec_len, vec_capacity};
ghost use Rattle.silo_core.specs.AtOnce.{ServesOrNot};
ghost use Rattle.silo_core.specs.inside.AtOnce.{Served};

use crate::silo::Silo;
use bumpalo::Bump;
use grain_logic::GrainLogic;
use grain_storage::GrainStorage;
use silo_event::Step;
use silo_state::SiloState;
use std::alloc::{AllocError, Global};

impl<S: GrainStorage, L: GrainLogic> Silo<S, L> {
    /// Takes a client's call, and begins and ends its turn: three steps in one, which are noted as if each were taken
    /// alone. The turn runs in this arena, as that of `apply_in`.
    ///
    /// It does so only on the fast path: the grain is ready and has nothing to do, nothing is refused, the turn doesn't
    /// use the storage, and there is memory. Otherwise the step is returned and nothing changed: take it by `apply_in`.
    pub fn serve_at_once(&mut self, alloc: Global, bump: &Bump, step: Step) -> Option<Step>
        ensures { ServesOrNot L.logic self.old step result self.new }
    {
        // Looked at, so that the proof sees where the journal leads.
        let _ = &self.journal;
        match self.journal.reserve(3) {
            Ok(()) => {}
            Err(AllocError) => return Some(step),
        }
        match serve(alloc, bump, &mut self.state, &step) {
            Ok(Some(turn)) => {
                self.journal.push_reserved(step);
                self.journal.push_reserved(turn.0);
                self.journal.push_reserved(turn.1);
                None
            }
            Ok(None) => Some(step),
            Err(AllocError) => Some(step),
        }
    }
}

/// Serves a call, if it is one that is served at once: how its turn begins, and how it ends.
///
/// # Errors
///
/// Out of memory: nothing changed.
fn serve<S: GrainStorage, L: GrainLogic>(
    alloc: Global,
    bump: &Bump,
    state: &mut SiloState<S, L>,
    step: &Step,
) -> Result<Option<(Step, Step)>, AllocError>
    ensures served { IfOk result (λ steps. Served L.logic state.old step.now steps state.new) }
    ensures unchanged { OnErr result (state.new ≡ state.old) }
{
    let Step::Call {
        caller,
        id,
        grain,
        message,
    } = step
    else {
        return Ok(None);
    };
    let begin = Step::Begin {
        grain: grain.clone()?,
    };
    let ended = grain.clone()?;
    let Some(turn) = state.serve(alloc, bump, caller, *id, grain, message)? else {
        return Ok(None);
    };
    Ok(Some((begin, Step::End { grain: ended, turn })))
}
