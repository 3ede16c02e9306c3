//! Lines that are written to the log together, and whose replies are written together.

ghost use Rattle.std.specs.Prelude.{◌≡◌, ◌++◌, [], false, true, IfOk, OnErr, OnOk, take};
ghost use Rattle.std.specs.Io.KnownBytes.{Keeps};
ghost use Rattle.log_text.specs.Batches.{line_text};
ghost use Rattle.log_answer.specs.Answers.{kept_line};
ghost use Rattle.log_answer.specs.inside.Commits.{Breaks, Commits};
ghost use Rattle.log_answer.specs.inside.Gathering.{GathersOn};

use crate::answering::{LineTools, answer_well};
use grain_logic::GrainLogic;
use grain_storage::GrainStorage;
use line_answer::{AnsweringSilo, Output};
use line_parser::LINE_LIMIT;
use log_host::{CommitFault, LogHost, LogPlace, commit};
use log_text::push_line;
use std::alloc::{AllocError, Global};
use std::io::Write;

/// Bytes of lines and of texts: above that a batch takes no line more.
const BATCH_LIMIT: usize = 1_048_576;

/// Lines that were answered, but whose replies aren't written yet: what the log gets of them, and the text of their
/// replies.
#[derive(Drop)]
pub(crate) struct Batch {
    pub(crate) asked: Vec<u8>,
    pub(crate) text: Vec<u8>,
    ghost paired: { asked.items ≡ [] → text.items ≡ [] },
}

impl Batch {
    /// No line.
    pub(crate) fn new(alloc: Global) -> Batch
        ensures { (result.asked.items ≡ []) × (result.text.items ≡ []) }
    {
        Batch {
            asked: Vec::new(alloc),
            text: Vec::new(alloc),
        }
    }

    /// Whether it takes no line more.
    pub(crate) fn is_full(&self) -> bool {
        self.asked.len() > BATCH_LIMIT || self.text.len() > BATCH_LIMIT
    }

    /// Adds a line and its text.
    fn add(&mut self, line: &[u8], text: &[u8]) -> Result<(), AllocError>
        ensures asked { OnOk result (self.new.asked.items ≡ self.old.asked.items ++ line_text line.now) }
        ensures text { OnOk result (self.new.text.items ≡ self.old.text.items ++ text.now) }
    {
        push_line(&mut self.asked, line)?;
        self.text.extend_from_slice(text)
    }
}

/// The first bytes, at most `limit` of them.
fn first_bytes(bytes: &[u8], limit: usize) -> &[u8]
    ensures { result.now ≡ take limit bytes.now }
{
    &bytes[..bytes.len().min(limit)]
}

/// What a log has of a line.
pub(crate) fn kept_part(line: &[u8]) -> &[u8]
    ensures { result.now ≡ kept_line line.now }
{
    first_bytes(line, LINE_LIMIT + 1)
}

/// Answers what a log has of a line, and adds it and its text to the batch.
///
/// # Errors
///
/// Those of `answer_well`, or out of memory.
pub(crate) fn answer_more<S: GrainStorage, L: GrainLogic>(
    alloc: Global,
    tools: &mut LineTools,
    silo: &mut AnsweringSilo<S, L>,
    most: u64,
    line: &[u8],
    batch: &mut Batch,
) -> Result<(), AllocError>
    requires { silo.old.stopped ≡ false }
    ensures gathers { OnOk result (GathersOn silo.old.keeps L.logic most silo.old.history (kept_line line.now) silo.new.history
        batch.old.asked.items batch.new.asked.items batch.old.text.items batch.new.text.items) }
    ensures ready { OnOk result (silo.new.stopped ≡ false) }
    ensures keeps { silo.new.keeps ≡ silo.old.keeps }
{
    let kept = kept_part(line);
    answer_well(alloc, tools, silo, most, kept)?;
    batch.add(kept, tools.text.as_str().as_bytes())
}

/// Writes the lines of the batch to the log, if there are any, then has them on the disk, and then writes their text to
/// the output. The batch is empty afterwards.
///
/// # Errors
///
/// Those of `commit`.
pub(crate) fn commit_batch<H: LogHost, W: Write>(
    log: &mut H,
    output: &mut Output<W>,
    place: LogPlace,
    batch: &mut Batch,
) -> Result<LogPlace, CommitFault>
    ensures commits { IfOk result (λ next. Commits (H.acts log.old) (H.acts log.new)
        (W.contents output.old.writer) (W.contents output.new.writer) place batch.old.asked.items batch.old.text.items next) }
    ensures breaks { OnErr result (Breaks (H.acts log.old) (H.acts log.new)
        (W.contents output.old.writer) (W.contents output.new.writer) place batch.old.asked.items batch.old.text.items) }
    ensures empty { OnOk result ((batch.new.asked.items ≡ []) × (batch.new.text.items ≡ [])) }
    ensures begun { H.begun log.new ≡ H.begun log.old }
    ensures past { H.past log.new ≡ H.past log.old }
    ensures memory { result ≡ Err CommitFault.Memory → Keeps (W.contents output.old.writer) (W.contents output.new.writer) }
    ensures failed { result ≡ Err CommitFault.Host → H.failed log.new ≡ true }
    ensures unfailed { OnOk result (H.failed log.new ≡ H.failed log.old) }
    ensures output { OnOk result (output.new.calls.failed ≡ output.old.calls.failed) }

    // What was told goes out: nothing is held back if nothing was before.
    ensures out { OnOk result (output.old.calls.held ≡ false → output.new.calls.held ≡ false) }
{
    if batch.asked.is_empty() {
        return Ok(place);
    }
    match commit(log, output, place, &mut batch.asked, batch.text.as_slice()) {
        Ok(next) => {
            batch.text.clear();
            Ok(next)
        }
        Err(why) => {
            batch.text.clear();
            Err(why)
        }
    }
}
