//! Taking the steps of an input.

ghost use Rattle.std.specs.Prelude.{◌≡◌, false, OnOk, IfOk, IfErr};
ghost use Rattle.silo_model.specs.Opening.{opening};
ghost use Rattle.line_text.specs.Reading.{IsFresh};
ghost use Rattle.command_parts.specs.Setups.{setup_of, starting, version_of};
ghost use Rattle.line_commands.specs.Steps.{AnswersFrom, StopsFrom};

use command_parts::Start;
use grain_logic::GrainLogic;
use grain_storage::MemoryStorage;
use line_protocol::run_lines;
use line_text::{Input, LineFault, Output};
use silo_core::{Setup, Silo};
use std::alloc::{AllocError, Global};
use std::io::{Read, Write};
use std::mem;

/// A silo over no rows that takes steps.
fn new_silo<L: GrainLogic + Drop>(
    alloc: Global,
    start: Start<L>,
) -> Result<Silo<MemoryStorage, L>, AllocError>
    ensures setup { IfOk result (λ s. s.setup ≡ setup_of start.tenants start.age start.ages) }
    ensures opening { IfOk result (λ s. s.whole ≡ opening (setup_of start.tenants start.age start.ages)) }
{
    let seed = start.seed;
    Silo::seeded(
        alloc,
        Setup {
            tenants: start.tenants,
            age: start.age,
            ages: start.ages,
            storage: MemoryStorage::seeded(alloc, seed),
            logic: start.logic,
        },
        seed,
    )
}

/// Takes every step of the input, and writes what it answers.
fn answer_lines<L: GrainLogic + Drop, R: Read, W: Write>(
    alloc: Global,
    start: Start<L>,
    input: &mut Input<R>,
    output: &mut Output<W>,
) -> Result<(), LineFault>
    requires fresh { IsFresh input.old.lines }
    ensures answered { OnOk result (AnswersFrom (starting (version_of L.logic start.kinds) start.tenants start.age start.ages)
        (R.remaining input.old.reader) (R.remaining input.new.reader)
        (W.contents output.old.writer) (W.contents output.new.writer)) }
    ensures unfailed { OnOk result (output.new.calls.failed ≡ output.old.calls.failed) }
    ensures out { OnOk result (output.new.calls.held ≡ false) }
    ensures stopped { IfErr result (λ why. StopsFrom (starting (version_of L.logic start.kinds) start.tenants start.age start.ages) why
        (R.remaining input.old.reader) (R.remaining input.new.reader) input.new.lines
        (W.contents output.old.writer) (W.contents output.new.writer) output.new.calls) }
{
    let Ok(mut silo) = new_silo(alloc, start) else {
        return Err(LineFault::Memory);
    };
    let done = run_lines(alloc, input, output, &mut silo);
    // For the proof: a storage in memory never fails.
    let _ = silo.storage();

    // The process ends soon, and gives all of its memory back at once.
    mem::forget(silo);
    match done {
        Ok(_) => Ok(()),
        Err(why) => Err(why),
    }
}

/// Takes every step of the input. What was written goes out, also what was written before a fault.
pub fn answer_steps<L: GrainLogic + Drop, R: Read, W: Write>(
    alloc: Global,
    start: Start<L>,
    input: &mut Input<R>,
    output: &mut Output<W>,
) -> Result<(), LineFault>
    requires fresh { IsFresh input.old.lines }
    ensures answered { OnOk result (AnswersFrom (starting (version_of L.logic start.kinds) start.tenants start.age start.ages)
        (R.remaining input.old.reader) (R.remaining input.new.reader)
        (W.contents output.old.writer) (W.contents output.new.writer)) }
    ensures unfailed { OnOk result (output.new.calls.failed ≡ output.old.calls.failed) }
    ensures out { OnOk result (output.new.calls.held ≡ false) }
    ensures stopped { IfErr result (λ why. StopsFrom (starting (version_of L.logic start.kinds) start.tenants start.age start.ages) why
        (R.remaining input.old.reader) (R.remaining input.new.reader) input.new.lines
        (W.contents output.old.writer) (W.contents output.new.writer) output.new.calls) }
{
    match answer_lines(alloc, start, input, output) {
        Ok(()) => output.flush(),
        Err(why) => {
            let _ = output.writer.flush();
            Err(why)
        }
    }
}
