//! Replies as a journal records them.

ghost use Rattle.std.specs.Prelude.{◌≡◌, IfOk, IsTrue};
ghost use Rattle.std.specs.List.{list_all};
ghost use Rattle.journal_text.specs.Form.{newest};
ghost use Rattle.journal_text.specs.RecordedFault.{is_recorded_fault, is_text_byte};
ghost use Rattle.journal_text.specs.inside.Answers.{Reads};
ghost use Rattle.journal_text.specs.inside.Candidates.{recorded_fault_of};

use crate::fault::LineFault;
use crate::fields::{cut, parse_u64};
use crate::form::Form;
use request_codec::StateBytes;
use silo_event::Party;
use std::alloc::Global;
use std::marker::Model;

/// Why a request had no value for its answer, as a journal records it: a fault's code, and one line of
/// text, which need not be the code's own.
#[derive(Debug, Drop)]
pub struct RecordedFault {
    code: u8,
    text: String,
}

impl Model for RecordedFault {
    ghost use Rattle.std.specs.Prelude.{IsTrue, string_bytes};
    ghost use Rattle.journal_text.specs.Form.{newest};
    ghost use Rattle.journal_text.specs.RecordedFault.{CodeAndText, coded_code_and_text, code_and_text, is_recorded_fault};

    ghost Value = { CodeAndText };

    ghost coded = { coded_code_and_text };

    ghost view = { λ f. code_and_text f.code (string_bytes f.text) };

    ghost invariant = { λ f. IsTrue (is_recorded_fault newest (code_and_text f.code (string_bytes f.text))) };
}

impl RecordedFault {
    /// The fault's code.
    pub fn code(&self) -> u8
        ensures { result ≡ self.now.code }
    {
        self.code
    }

    /// The text: one or more bytes from 0x20 to 0x7E.
    pub fn text(&self) -> &str
        ensures text { result.now ≡ self.now.text }
        ensures well_formed { IsTrue (is_recorded_fault newest self.now) }
    {
        self.text.as_str()
    }
}

/// A reply as a journal records it: who it is for, and the value or the fault in its place.
#[derive(Debug, Drop)]
pub struct RecordedReply {
    pub recipient: Party,
    pub outcome: Result<StateBytes, RecordedFault>,
}

/// Whether the bytes are visible ASCII and spaces.
fn are_text_bytes(bytes: &[u8]) -> bool
    ensures { result ≡ list_all is_text_byte bytes.now }
{
    bytes.iter().all(|byte| matches!(*byte, 0x20..=0x7e))
}

/// The fault that follows `no`.
#[tactic(auto, unfolding(crate::specs::RecordedFault::is_recorded_fault))]
pub(crate) fn parse_recorded_fault(
    alloc: Global,
    form: Form,
    fields: &str,
) -> Result<RecordedFault, LineFault>
    ensures gives { Reads (λ read. read) result (recorded_fault_of form fields.now) }
    ensures well_formed { IfOk result (λ fault. IsTrue (is_recorded_fault form fault)) }
{
    let (code, text) = cut(fields, ' ')?;
    let number = parse_u64(code)?;
    if !form.is_code(number) || text.is_empty() || !are_text_bytes(text.as_bytes()) {
        return Err(LineFault::NoForm);
    }
    let code = number as u8;
    let text = String::from_str(alloc, text)?;
    Ok(RecordedFault { code, text })
}
