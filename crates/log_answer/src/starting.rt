//! The lines of a log, answered once more at a start.

ghost use Rattle.std.specs.Prelude.{◌≡◌, ◌≤◌, ◌+◌, ◌-◌, ℕ, None, Some, false, IfErr, IfOk, OnOk, length};
ghost use Rattle.log_text.specs.Reading.{asked_lines, fault_in, same_text};
ghost use Rattle.log_text.specs.Sums.{own_sums, spelled};
ghost use Rattle.log_answer.specs.Answers.{LeadsOn};
ghost use Rattle.log_answer.specs.Starts.{AgainOn, StopsAgain, kept_length};

use crate::answering::{LineTools, answer_well};
use grain_logic::GrainLogic;
use grain_storage::GrainStorage;
use line_answer::AnsweringSilo;
use log_host::LogPlace;
use log_text::{fault_behind, next_asked, next_batch, spell, sum_after};
use std::alloc::{AllocError, Global};

/// What a start made of a log: the place after its last batch, how many bytes its batches have, and how many lines were
/// answered.
#[derive(Clone, Copy, Debug, PartialEq, Eq)]
pub struct Again {
    pub place: LogPlace,
    pub length: usize,
    pub lines: usize,
}

/// Why a log wasn't answered again.
#[derive(Clone, Copy, Debug, PartialEq, Eq)]
pub enum AgainFault {
    /// Memory was refused, or a turn was abandoned for lack of it, or a call of the storage failed.
    Memory,

    /// What follows the last batch is refused. The number says how many lines come before the one at fault, marks
    /// included.
    Refused(usize),

    /// The replies to a batch would now differ from what its mark records. The number says how many lines come before
    /// that mark, earlier marks included.
    Otherwise(usize),
}

impl From<AllocError> for AgainFault {
    ghost use Rattle.log_answer.specs.declared.starting.AgainFault.TheVariants as fault;

    ghost from_gives = { λ _ e. e ≡ fault.Memory };

    fn from(_refused: AllocError) -> AgainFault {
        AgainFault::Memory
    }
}

/// Answers the lines of one batch, and replaces `text` by the text of their replies. Returns the number of lines.
fn answer_asked<S: GrainStorage, L: GrainLogic>(
    alloc: Global,
    tools: &mut LineTools,
    silo: &mut AnsweringSilo<S, L>,
    most: u64,
    asked: &[u8],
    text: &mut Vec<u8>,
) -> Result<usize, AllocError>
    requires { silo.old.stopped ≡ false }
    ensures leads { OnOk result (LeadsOn silo.old.keeps L.logic most silo.old.history (asked_lines asked.now) silo.new.history
        text.new.items) }
    ensures count { IfOk result (λ n. n ≡ length (asked_lines asked.now)) }
    ensures ready { OnOk result (silo.new.stopped ≡ false) }
    ensures keeps { silo.new.keeps ≡ silo.old.keeps }
{
    // For the proof: that all is idle.
    let _ = silo.journal();
    text.clear();
    let mut rest = asked;
    let mut count = 0;
    'lines: loop {
        let Some((line, others)) = next_asked(rest) else {
            return Ok(count);
        };
        answer_well(alloc, tools, silo, most, line)?;
        text.extend_from_slice(tools.text.as_str().as_bytes())?;
        count += 1;
        rest = others;
    }
}

/// Whether a mark says this sum.
fn says(told: &[u8], sum: u64) -> bool
    ensures { result ≡ same_text told.now (spelled sum) }
{
    told == spell(sum).as_slice()
}

/// What a start made of a log's bytes whose batches have this many lines and marks and end at `place`, before `rest`.
/// If `rest` is refused, the `Err` says how many lines come before the one at fault, marks included.
fn end_again(
    place: LogPlace,
    bytes: &[u8],
    rest: &[u8],
    lines: usize,
    marks: usize,
) -> Result<Again, AgainFault>
    requires { (lines + marks) + length rest.now ≤ length bytes.now }
    ensures place { IfOk result (λ again. again.place ≡ place) }
    ensures length { IfOk result (λ again. again.length ≡ length bytes.now - length rest.now) }
    ensures lines { IfOk result (λ again. again.lines ≡ lines) }
    ensures passes { OnOk result (fault_in own_sums place.name rest.now ≡ None) }
    ensures refused { IfErr result (λ why. (found : ℕ) × (fault_in own_sums place.name rest.now ≡ Some found)
        × (why ≡ AgainFault.Refused ((lines + marks) + found))) }
{
    match fault_behind(&place.name, rest) {
        Some(found) => Err(AgainFault::Refused(lines + marks + found)),
        None => Ok(Again {
            place,
            length: bytes.len() - rest.len(),
            lines,
        }),
    }
}

/// Answers the lines of a log's bytes once more. The bytes are those after the log's head, and `place` is the place
/// before them. No reply is written: the sum of the replies that each mark records is compared with the sum of what
/// would be written now.
///
/// The caller must cut off what follows the last batch, before the log goes on at the place that is returned. A silo
/// that needn't keep its history drops it between two lines, from time to time.
///
/// # Errors
///
/// `Otherwise` at the first mark that records another sum; `Refused` if all marks record theirs and what follows them
/// is refused; `Memory` if memory was refused, a turn was abandoned or a call of the storage failed. The silo must not
/// be used then.
pub fn answer_again<S: GrainStorage, L: GrainLogic>(
    alloc: Global,
    silo: &mut AnsweringSilo<S, L>,
    most: u64,
    place: LogPlace,
    bytes: &[u8],
) -> Result<Again, AgainFault>
    requires { silo.old.stopped ≡ false }
    ensures answered { IfOk result (λ again. AgainOn silo.old.keeps L.logic most place bytes.now silo.old.history silo.new.history again) }

    // So many bytes the batches have that were read, and what stands behind them is the end of one that was never acknowledged.
    ensures kept { IfOk result (λ again. again.length ≡ kept_length place bytes.now) }
    ensures stops { IfErr result (λ why. StopsAgain L.logic most place bytes.now silo.old.history.whole why) }
    ensures ready { OnOk result (silo.new.stopped ≡ false) }
    ensures keeps { silo.new.keeps ≡ silo.old.keeps }
{
    // For the proof: where the silo's journal leads, and that all is idle.
    let _ = silo.journal();
    let mut tools = LineTools::new(alloc);
    let mut text = Vec::new(alloc);
    let (mut sum, mut told) = (place.sum, place.told);
    let (mut lines, mut marks) = (0, 0);
    let mut rest = bytes;
    'batches: loop {
        let Some(next) = next_batch(&place.name, sum, rest) else {
            let name = place.name;
            return end_again(LogPlace { name, sum, told }, bytes, rest, lines, marks);
        };
        let count = answer_asked(alloc, &mut tools, silo, most, next.asked, &mut text)?;
        told = sum_after(told, text.as_slice());
        if !says(next.told, told) {
            return Err(AgainFault::Otherwise(lines + marks + count));
        }
        lines += count;
        marks += 1;
        sum = next.sum;
        rest = next.behind;
    }
}
