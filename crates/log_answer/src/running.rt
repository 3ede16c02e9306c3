//! Every line of an input, answered, and in a log before any reply to it is written.

ghost use Rattle.std.specs.Prelude.{◌≡◌, ◌≢◌, ◌⊎◌, ◌≤◌, ◌<◌, ◌+◌, ◌-◌, [], false, take, true, List, ℕ, Ok, Option, Some};
ghost use Rattle.std.specs.Prelude.{IfErr, IfOk, IfSome, OnErr, OnOk};
ghost use Rattle.std.specs.Io.KnownBytes.{IsAtEnd, Keeps};
ghost use Rattle.silo_model.specs.Whole.{Whole};
ghost use Rattle.line_text.specs.Lines.{lines_of};
ghost use Rattle.line_text.specs.Reading.{TakesCut, left_of};
ghost use Rattle.line_answer.specs.Limits.{answered_limit};
ghost use Rattle.log_host.specs.Acts.{Act, Held};
ghost use Rattle.log_host.specs.Lasting.{LastsFrom};
ghost use Rattle.log_answer.specs.Answers.{SameTables, line_bytes, silo_log};
ghost use Rattle.log_answer.specs.Runs.{GoesOn, RunsOn, StopsLogged};
ghost use Rattle.log_answer.specs.Starts.{MarksTell, OwnsFrom};
ghost use Rattle.log_answer.specs.inside.Commits.{Commits, StopsTaking, Waits};

use crate::answering::LineTools;
use crate::batch::{Batch, answer_more, commit_batch, kept_part};
use grain_logic::GrainLogic;
use grain_storage::GrainStorage;
use line_answer::{ANSWERED_LIMIT, AnsweringSilo, Input, LineFault, Output};
use line_text::LineReader;
use log_host::{CommitFault, LogHost, LogPlace};
use std::alloc::{AllocError, Global};
use std::io::{Read, Write};

/// Why the lines of an input were not all answered.
#[derive(Clone, Copy, Debug, PartialEq, Eq)]
pub enum LogFault {
    /// A call of the reader failed.
    Read,

    /// A call of the log's host failed. The host also writes the replies. The log must not be used any more.
    Write,

    /// Memory was refused, or a turn was abandoned for lack of it, or a call of the storage failed.
    Memory,

    /// The input has more than 1,073,741,824 lines, or takes more calls of the reader than that.
    TooMuch,
}

impl From<AllocError> for LogFault {
    ghost use Rattle.log_answer.specs.declared.running.LogFault.TheVariants as fault;

    ghost from_gives = { λ _ e. e ≡ fault.Memory };

    fn from(_refused: AllocError) -> LogFault {
        LogFault::Memory
    }
}

impl From<LineFault> for LogFault {
    ghost use Rattle.log_answer.specs.inside.Faults.{fault_of_line};

    ghost from_gives = { λ why e. e ≡ fault_of_line why };

    fn from(why: LineFault) -> LogFault {
        match why {
            LineFault::Read => LogFault::Read,
            LineFault::Write => LogFault::Write,
            LineFault::Memory => LogFault::Memory,
            LineFault::TooMuch => LogFault::TooMuch,
        }
    }
}

impl From<CommitFault> for LogFault {
    ghost use Rattle.log_answer.specs.inside.Faults.{fault_of_commit};

    ghost from_gives = { λ why e. e ≡ fault_of_commit why };

    fn from(why: CommitFault) -> LogFault {
        match why {
            CommitFault::Memory => LogFault::Memory,
            CommitFault::Host => LogFault::Write,
        }
    }
}

/// Takes the next line if all of it is read ahead and the batch takes one more.
fn take_at_hand(lines: &mut LineReader, batch: &Batch) -> bool
    ensures some { result ≡ true → (rest : Option (List ℕ)) → TakesCut (left_of lines.old rest) (left_of lines.new rest) lines.new.line }
    ensures none { result ≡ false → lines.new ≡ lines.old }
    ensures calls { lines.new.calls ≡ lines.old.calls }
{
    if batch.is_full() {
        return false;
    }
    lines.take_whole()
}

/// Takes the next line; `false` at the end. If it isn't at hand, the batch is committed before.
fn take_next<R: Read, W: Write, H: LogHost>(
    input: &mut Input<R>,
    output: &mut Output<W>,
    log: &mut H,
    place: &mut LogPlace,
    batch: &mut Batch,
) -> Result<bool, LogFault>
    ensures line { result ≡ Ok true → TakesCut (left_of input.old.lines (R.remaining input.old.reader))
        (left_of input.new.lines (R.remaining input.new.reader)) input.new.lines.line }
    ensures kept { result ≡ Ok false → Keeps (left_of input.old.lines (R.remaining input.old.reader))
        (left_of input.new.lines (R.remaining input.new.reader)) }
    ensures none { result ≡ Ok false → input.new.lines.ahead ≡ [] }
    ensures end { result ≡ Ok false → IsAtEnd (R.remaining input.new.reader) }
    ensures moves { result ≡ Ok true → Waits (H.acts log.old) (H.acts log.new)
        (W.contents output.old.writer) (W.contents output.new.writer) place.old place.new
        batch.old.asked.items batch.new.asked.items batch.old.text.items batch.new.text.items
        ⊎ (Commits (H.acts log.old) (H.acts log.new) (W.contents output.old.writer) (W.contents output.new.writer) place.old
        batch.old.asked.items batch.old.text.items place.new × (batch.new.asked.items ≡ []) × (batch.new.text.items ≡ [])) }
    ensures commits { result ≡ Ok false → Commits (H.acts log.old) (H.acts log.new)
        (W.contents output.old.writer) (W.contents output.new.writer) place.old batch.old.asked.items batch.old.text.items place.new }
    ensures stops { IfErr result (λ why. StopsTaking (H.acts log.old) (H.acts log.new)
        (W.contents output.old.writer) (W.contents output.new.writer) place.old batch.old.asked.items batch.old.text.items
        (left_of input.old.lines (R.remaining input.old.reader)) (R.remaining input.new.reader) input.new.lines (H.failed log.new) why) }
    ensures begun { H.begun log.new ≡ H.begun log.old }
    ensures past { H.past log.new ≡ H.past log.old }
    ensures unfailed { OnOk result (H.failed log.new ≡ H.failed log.old) }
    ensures output { OnOk result (output.new.calls.failed ≡ output.old.calls.failed) }
    ensures out { OnOk result (output.old.calls.held ≡ false → output.new.calls.held ≡ false) }

    // Where a read was made, however it ends, the batch was told before, and nothing is held back if nothing was before.
    ensures empty { input.new.lines.calls.made ≢ input.old.lines.calls.made → batch.new.asked.items ≡ [] }
    ensures waits { input.new.lines.calls.made ≢ input.old.lines.calls.made → output.old.calls.held ≡ false
        → output.new.calls.held ≡ false }
{
    if take_at_hand(&mut input.lines, batch) {
        return Ok(true);
    }
    *place = commit_batch(log, output, *place, batch)?;
    let more = input.lines.next_line(&mut input.reader)?;
    Ok(more)
}

/// Where the lines of an input go on to be answered: the place in the log, how many lines the input had before, at most 1,073,741,824, and
/// how many bytes of lines, each as the log has it and with its LF, the log may get before the run pauses.
#[derive(Clone, Copy, Debug, PartialEq, Eq)]
pub struct RunFrom {
    pub place: LogPlace,
    pub count: u64,
    pub room: u64,
}

/// How far lines were answered: the place after them, how many lines the input had by then, and whether the run paused before it saw the
/// end of the input.
#[derive(Clone, Copy, Debug, PartialEq, Eq)]
pub struct Ran {
    pub place: LogPlace,
    pub count: u64,
    pub paused: bool,
}

/// Answers each line before it takes the next, followed by at most `most` deliveries, and has the line in the log, on
/// the disk, before any reply to it is written. It pauses once the log got more bytes of lines than there was room for.
///
/// The lines that one read brought are one batch: all of them are answered, then they are written to the log, and then
/// their replies are written, before a read that may wait. A batch with more than 1,048,576 bytes of lines, or of
/// replies, takes no more lines. The log has each line, with at most 65,537 bytes of it. A silo that needn't keep its
/// history drops it between two lines, from time to time: it answers as if it had kept all.
///
/// # Errors
///
/// `Read` if a call of the reader failed, and `Write` if a call of the log's host failed, which the host records: pass
/// a host that has recorded no failure. `Memory` if memory was refused, a turn was abandoned or a call of the storage
/// failed: no reply to that line's batch is written, and the silo may have stopped. `TooMuch` at more than
/// 1,073,741,824 lines, or if one more call of the reader than that would be needed.
pub fn answer_logged<R: Read, W: Write, H: LogHost, S: GrainStorage, L: GrainLogic>(
    alloc: Global,
    input: &mut Input<R>,
    output: &mut Output<W>,
    log: &mut H,
    from: RunFrom,
    silo: &mut AnsweringSilo<S, L>,
    most: u64,
) -> Result<Ran, LogFault>
    requires ready { silo.old.stopped ≡ false }
    requires bound { from.count ≤ answered_limit }

    // At each moment of the call, however it ends: whatever a crash leaves of the log, what was told is the beginning of what
    // that log answers.
    ensures lasts { (w : Whole) (first : ℕ) (h : Held) (acts : List Act) → H.acts log.old ≡ Some acts
        → GoesOn L.logic most w first from.place h silo.old.history.whole
        → LastsFrom (silo_log L.logic most w from.place.name first) h acts (H.acts log.new) }

    // It came to the place behind its last batch, over these lines. The silo is where the log's lines lead, whether the input is known or
    // not.
    ensures ran { IfOk result (λ ran. (taken : ℕ) × (ran.count ≡ from.count + taken)
        × RunsOn silo.old.keeps L.logic most from.place ran.place (left_of input.old.lines (R.remaining input.old.reader))
        (left_of input.new.lines (R.remaining input.new.reader)) taken silo.old.history silo.new.history
        (W.contents output.old.writer) (W.contents output.new.writer) (H.acts log.old) (H.acts log.new)) }

    // If it doesn't pause, that is all of the input.
    ensures ended { IfOk result (λ ran. ran.paused ≡ false
        → (input.new.lines.ahead ≡ []) × IsAtEnd (R.remaining input.new.reader)) }
    ensures stops { IfErr result (λ why. IfSome (left_of input.old.lines (R.remaining input.old.reader)) (λ bytes.
        StopsLogged L.logic most from.count bytes input.new.lines (R.remaining input.new.reader) (H.failed log.new) silo.old.history.whole
        (W.contents output.old.writer) (W.contents output.new.writer) why)) }
    ensures ready { OnOk result (silo.new.stopped ≡ false) }
    ensures keeps { silo.new.keeps ≡ silo.old.keeps }
    ensures tables { OnOk result (SameTables silo.old.history.setup silo.new.history.setup) }

    // In every outcome: if the marks of the log say the sums of what was told for its lines, so do those of what it has then. So a start
    // takes it, wherever a crash cut it (`own_taken`).
    ensures own { (w : Whole) (first sum : ℕ) (h : Held) (acts : List Act) → H.acts log.old ≡ Some acts
        → GoesOn L.logic most w first from.place h silo.old.history.whole
        → MarksTell L.logic most w from.place.name first sum h.file from.place.told
        → OwnsFrom L.logic most w from.place.name first sum h acts (H.acts log.new) }

    // It is written behind what the log had, and nothing of that is changed.
    ensures begun { H.begun log.new ≡ H.begun log.old }
    ensures past { H.past log.new ≡ H.past log.old }

    // It pauses behind a line, and not before.
    ensures on { IfOk result (λ ran. ran.paused ≡ true → from.count < ran.count) }

    // It pauses once its lines, as the log has them, are more bytes than there was room for.
    ensures pauses { IfOk result (λ ran. ran.paused ≡ true → IfSome (left_of input.old.lines (R.remaining input.old.reader)) (λ bytes.
        from.room < line_bytes (take (ran.count - from.count) (lines_of bytes)))) }

    // All of its lines but the last have room.
    ensures room { IfOk result (λ ran. IfSome (left_of input.old.lines (R.remaining input.old.reader)) (λ bytes.
        line_bytes (take (ran.count - from.count - 1) (lines_of bytes)) ≤ from.room)) }
    ensures bound { IfOk result (λ ran. ran.count ≤ answered_limit) }
    ensures unfailed { OnOk result (H.failed log.new ≡ H.failed log.old) }
    ensures output { OnOk result (output.new.calls.failed ≡ output.old.calls.failed) }

    // What was told goes out: nothing is held back if nothing was before.
    ensures out { OnOk result (output.old.calls.held ≡ false → output.new.calls.held ≡ false) }
{
    // For the proof: where the silo's journal leads.
    let _ = silo.journal();
    let mut tools = LineTools::new(alloc);
    let mut batch = Batch::new(alloc);
    let mut place = from.place;
    let mut grown: u64 = 0;
    for count in from.count..ANSWERED_LIMIT {
        if grown > from.room {
            let next = commit_batch(log, output, place, &mut batch)?;
            return Ok(Ran {
                place: next,
                count,
                paused: true,
            });
        }
        if !take_next(input, output, log, &mut place, &mut batch)? {
            return Ok(Ran {
                place,
                count,
                paused: false,
            });
        }
        let line = input.lines.line();
        grown = grown
            .saturating_add(kept_part(line).len() as u64)
            .saturating_add(1);
        answer_more(alloc, &mut tools, silo, most, line, &mut batch)?;
    }
    let last = commit_batch(log, output, place, &mut batch)?;
    if input.lines.fill(&mut input.reader)? {
        return Err(LogFault::TooMuch);
    }
    Ok(Ran {
        place: last,
        count: ANSWERED_LIMIT,
        paused: false,
    })
}
