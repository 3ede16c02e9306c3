//! One line that is answered, if nothing fails.

ghost use Rattle.std.specs.Prelude.{◌≡◌, false, [], ◌∷◌, OnOk, string_bytes};
ghost use Rattle.log_answer.specs.Answers.{LeadsOn};

use crate::well::all_stored;
use bumpalo::Bump;
use grain_logic::GrainLogic;
use grain_storage::GrainStorage;
use line_answer::{AnsweringSilo, answer_line};
use line_parser::LineScratch;
use std::alloc::{AllocError, Global};

/// What answering takes: an arena for turns, room to read a line, and the text of the line that was answered last.
#[derive(Drop)]
pub(crate) struct LineTools {
    bump: Bump,
    scratch: LineScratch,
    pub(crate) text: String,
}

impl LineTools {
    /// Nothing was answered yet.
    pub(crate) fn new(alloc: Global) -> LineTools {
        LineTools {
            bump: Bump::new(alloc),
            scratch: LineScratch::new(alloc),
            text: String::new(alloc),
        }
    }
}

/// Answers a line. The text of its replies is in `tools` afterwards. Then a silo that needn't keep its history may drop
/// it.
///
/// # Errors
///
/// Out of memory; or a call of the storage failed, or a turn was abandoned since there was no memory for its end. What the silo holds then
/// isn't specified.
pub(crate) fn answer_well<S: GrainStorage, L: GrainLogic>(
    alloc: Global,
    tools: &mut LineTools,
    silo: &mut AnsweringSilo<S, L>,
    most: u64,
    line: &[u8],
) -> Result<(), AllocError>
    requires { silo.old.stopped ≡ false }
    ensures leads { OnOk result (LeadsOn silo.old.keeps L.logic most silo.old.history (line.now ∷ []) silo.new.history
        (string_bytes tools.new.text)) }
    ensures ready { OnOk result (silo.new.stopped ≡ false) }
    ensures keeps { silo.new.keeps ≡ silo.old.keeps }
{
    let before = silo.journal().len();
    let memory = answer_line(
        alloc,
        &mut tools.bump,
        &mut tools.scratch,
        silo,
        most,
        line,
        &mut tools.text,
    )?;
    let (_, new) = silo.journal().split_at(before);
    if memory && all_stored(new) {
        silo.note(alloc, line.len());
        Ok(())
    } else {
        Err(AllocError)
    }
}
