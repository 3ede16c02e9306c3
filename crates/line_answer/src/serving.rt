//! One request that was accepted: its grain is brought up, and it is given its turn.

ghost use Rattle.std.specs.Prelude.{◌≡◌, ◌∷◌, [], Bool, false, IfOk, OnErr, OnOk};
ghost use Rattle.silo_event.specs.Failed.{has_failed};
ghost use Rattle.silo_event.specs.declared.step.Step.TheVariants.{Abandon};
ghost use Rattle.answer_model.specs.Answering.{ending, raising, whole_stepper};
ghost use Rattle.line_answer.specs.Trying.{Begins, Closes, Opens, Serves, TakesNow, Tries};

use bumpalo::Bump;
use grain_id::GrainId;
use grain_logic::GrainLogic;
use grain_storage::GrainStorage;
use silo_core::Silo;
use silo_event::{Answer, Step, StepFault};
use std::alloc::{AllocError, Global};

/// Takes a step, if it is possible now, and says whether it was. A turn runs in the arena.
///
/// # Errors
///
/// Out of memory: nothing changed.
pub fn take<S: GrainStorage, L: GrainLogic>(
    alloc: Global,
    bump: &Bump,
    silo: &mut Silo<S, L>,
    step: Step,
) -> Result<bool, AllocError>
    requires { has_failed step ≡ false }
    ensures taken { IfOk result (λ done. TakesNow L.logic silo.old step done silo.new) }
    ensures unchanged { OnErr result (silo.new ≡ silo.old) }
{
    match silo.apply_in(alloc, bump, step) {
        Ok(Answer::Done) => Ok(true),
        Ok(Answer::Failed) => Ok(true),
        Ok(Answer::NotNow) => Ok(false),
        Err(StepFault::Memory) => Err(AllocError),
        Err(StepFault::Stranger) => unreachable!(),
    }
}

/// An entry that waits is activated, and loaded.
///
/// # Errors
///
/// Out of memory: some of it may have been done.
fn raise<S: GrainStorage, L: GrainLogic>(
    alloc: Global,
    bump: &Bump,
    silo: &mut Silo<S, L>,
    grain: &GrainId,
) -> Result<(), AllocError>
    ensures { OnOk result ((failed : Bool) × Tries L.logic silo.old
        (raising (whole_stepper L.logic) silo.old.whole grain.now failed) silo.new) }
{
    let activate = Step::Activate {
        grain: grain.clone()?,
    };
    if !take(alloc, bump, silo, activate)? {
        return Ok(());
    }
    let load = Step::Load {
        grain: grain.clone()?,
        failed: false,
    };
    take(alloc, bump, silo, load)?;
    Ok(())
}

/// The first request that waits at the grain is given its turn, if it can begin: its number.
///
/// # Errors
///
/// Out of memory: nothing changed.
fn begin<S: GrainStorage, L: GrainLogic>(
    alloc: Global,
    bump: &Bump,
    silo: &mut Silo<S, L>,
    grain: &GrainId,
) -> Result<Option<u64>, AllocError>
    ensures { IfOk result (λ turn. Begins L.logic silo.old grain.now turn silo.new) }
{
    let Some(number) = silo.first_waiting(grain) else {
        return Ok(None);
    };
    let grain = grain.clone()?;
    if take(alloc, bump, silo, Step::Begin { grain })? {
        return Ok(Some(number));
    }
    Ok(None)
}

/// The first request that waits at the grain is given its turn, if it can begin: its number. Mostly the grain is up, and
/// the turn begins at once; if it doesn't, the grain is brought up.
///
/// # Errors
///
/// Out of memory: some of it may have been done.
fn open<S: GrainStorage, L: GrainLogic>(
    alloc: Global,
    bump: &Bump,
    silo: &mut Silo<S, L>,
    grain: &GrainId,
) -> Result<Option<u64>, AllocError>
    ensures { IfOk result (λ turn. Opens L.logic silo.old grain.now turn silo.new) }
{
    if let Some(turn) = begin(alloc, bump, silo, grain)? {
        return Ok(Some(turn));
    }
    raise(alloc, bump, silo, grain)?;
    begin(alloc, bump, silo, grain)
}

/// An open turn ends by its plan, or else by what the storage answers.
///
/// # Errors
///
/// Out of memory: nothing changed.
fn end<S: GrainStorage, L: GrainLogic>(
    alloc: Global,
    bump: &Bump,
    silo: &mut Silo<S, L>,
    grain: &GrainId,
    turn: u64,
) -> Result<(), AllocError>
    ensures ended { OnOk result ((failed : Bool)
        × Tries L.logic silo.old (ending (whole_stepper L.logic) silo.old.whole grain.now turn failed) silo.new) }
    ensures unchanged { OnErr result (silo.new ≡ silo.old) }
{
    let end = Step::End {
        grain: grain.clone()?,
        turn,
    };
    if take(alloc, bump, silo, end)? {
        return Ok(());
    }
    let store = Step::Store {
        grain: grain.clone()?,
        turn,
        failed: false,
    };
    take(alloc, bump, silo, store)?;
    Ok(())
}

/// Abandons an open turn.
///
/// # Errors
///
/// Out of memory: nothing changed.
fn abandon<S: GrainStorage, L: GrainLogic>(
    alloc: Global,
    bump: &Bump,
    silo: &mut Silo<S, L>,
    grain: GrainId,
    turn: u64,
) -> Result<(), AllocError>
    ensures { OnOk result (Tries L.logic silo.old (Abandon grain turn ∷ []) silo.new) }
{
    take(alloc, bump, silo, Step::Abandon { grain, turn })?;
    Ok(())
}

/// Closes an open turn. With `gives_up`, or if there is no memory for its end, it is abandoned. Returns whether there was memory.
///
/// # Errors
///
/// Out of memory: nothing changed.
fn close<S: GrainStorage, L: GrainLogic>(
    alloc: Global,
    bump: &Bump,
    silo: &mut Silo<S, L>,
    grain: GrainId,
    turn: u64,
    gives_up: bool,
) -> Result<bool, AllocError>
    ensures { IfOk result (λ memory. Closes L.logic silo.old grain turn gives_up memory silo.new) }
{
    if gives_up {
        abandon(alloc, bump, silo, grain, turn)?;
        return Ok(true);
    }
    match end(alloc, bump, silo, &grain, turn) {
        Ok(()) => {
            drop(grain);
            Ok(true)
        }
        Err(AllocError) => {
            abandon(alloc, bump, silo, grain, turn)?;
            Ok(false)
        }
    }
}

/// Makes the arena free for the next turn, if the last ones took more than half of its chunk.
pub fn make_free(bump: &mut Bump) {
    if bump.chunk_capacity() < bump.allocated_bytes() / 2 {
        // It fails only while a block of it is out as an `Allocator`, and no turn leaves one. Then it would only grow.
        drop(bump.reset());
    }
}

/// Serves the request that waits at the grain; with `gives_up` its turn is abandoned. The turn runs in the arena, on which
/// `make_free` is called afterwards. Returns whether there was memory to close the turn.
///
/// # Errors
///
/// Out of memory: some of it may have been done.
pub fn serve<S: GrainStorage, L: GrainLogic>(
    alloc: Global,
    bump: &mut Bump,
    silo: &mut Silo<S, L>,
    grain: GrainId,
    gives_up: bool,
) -> Result<bool, AllocError>
    ensures { IfOk result (λ memory. Serves L.logic silo.old grain gives_up memory silo.new) }
{
    let Some(turn) = open(alloc, bump, silo, &grain)? else {
        drop(grain);
        return Ok(true);
    };
    let memory = close(alloc, bump, silo, grain, turn, gives_up)?;
    make_free(bump);
    Ok(memory)
}
