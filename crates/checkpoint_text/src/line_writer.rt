//! The lines of a checkpoint, put at the end of a text.

ghost use Rattle.std.specs.Prelude.{◌≡◌, ◌++◌, OnOk, codes, decimal, string_bytes};
ghost use Rattle.tenant_accounts.specs.Parts.{kept_in};
ghost use Rattle.tenant_accounts.specs.Sends.{send_of};
ghost use Rattle.checkpoint_text.specs.Answers.{grain_in};
ghost use Rattle.checkpoint_text.specs.Text.{account_fields, grain_line, named, send_line};

use grain_id::GrainId;
use silo_state::GrainParts;
use std::alloc::{AllocError, Global};
use tenant_accounts::{AccountParts, Sent};

/// Adds a line of a word and a text.
#[tactic(auto, unfolding(crate::specs::Text::named))]
pub(crate) fn push_text(text: &mut String, word: &str, field: &str) -> Result<(), AllocError>
    ensures { OnOk result (string_bytes text.new ≡ string_bytes text.old ++ named word.now field.now) }
{
    write!(text, "{word} {field}\n")
}

/// Adds a line of a word and a number.
#[tactic(auto, unfolding(crate::specs::Text::named))]
pub(crate) fn push_number(text: &mut String, word: &str, number: u64) -> Result<(), AllocError>
    ensures { OnOk result (string_bytes text.new ≡ string_bytes text.old ++ named word.now (decimal number)) }
{
    write!(text, "{word} {number}\n")
}

/// Adds the line of a tenant, without its sends.
#[tactic(auto, unfolding(crate::specs::Text::named))]
pub(crate) fn push_account_line(text: &mut String, account: &AccountParts) -> Result<(), AllocError>
    ensures { OnOk result (string_bytes text.new
        ≡ string_bytes text.old ++ named (codes "account") (account_fields (kept_in account.now))) }
{
    let name = account.name.as_str();
    let count = account.count;
    let sends = account.sends.len();
    write!(text, "account {name} {count} {sends}\n")
}

/// Adds the line of a call that a grain sent.
#[tactic(auto, unfolding(crate::specs::Text::named, crate::specs::Text::send_line))]
pub(crate) fn push_send(alloc: Global, text: &mut String, sent: &Sent) -> Result<(), AllocError>
    ensures { OnOk result (string_bytes text.new ≡ string_bytes text.old ++ send_line (send_of sent.now)) }
{
    let source = sent.source.text();
    let target = sent.target.text();
    let message = hex::encode(alloc, sent.message.bytes())?;
    write!(text, "send {source} {target} {message}\n")
}

/// Adds the line of a grain that is active.
#[tactic(auto, unfolding(crate::specs::Text::named, crate::specs::Text::grain_line))]
pub(crate) fn push_grain(
    alloc: Global,
    text: &mut String,
    grain: &GrainId,
    parts: &GrainParts,
) -> Result<(), AllocError>
    ensures { OnOk result (string_bytes text.new ≡ string_bytes text.old ++ grain_line (grain_in (grain.now, parts.now))) }
{
    let grain = grain.text();
    let last = parts.last.get();
    let until = parts.until;
    let state = hex::encode(alloc, parts.state.bytes())?;
    match parts.version {
        Some(version) => write!(text, "up {grain} {version} {last} {until} {state}\n"),
        None => write!(text, "up {grain} - {last} {until} {state}\n"),
    }
}
