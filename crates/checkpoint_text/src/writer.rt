//! The text of a checkpoint.

ghost use Rattle.std.specs.Prelude.{◌≡◌, ◌++◌, IfOk, OnOk, flat_map, map, string_bytes};
ghost use Rattle.tenant_accounts.specs.Parts.{kept_in};
ghost use Rattle.tenant_accounts.specs.Sends.{send_of};
ghost use Rattle.checkpoint_text.specs.Answers.{grain_in, parts_in};
ghost use Rattle.checkpoint_text.specs.Text.{account_text, accounts_text, body_text, checkpoint_text, grain_line, grains_text};
ghost use Rattle.checkpoint_text.specs.Text.{send_line, start_text};

use crate::checkpoint::CheckpointParts;
use crate::line_writer::{push_account_line, push_grain, push_number, push_send, push_text};
use grain_id::GrainId;
use log_text::{spell, sum_after};
use silo_state::GrainParts;
use std::alloc::{AllocError, Global};
use tenant_accounts::{AccountParts, Sent};

fn push_sends(alloc: Global, text: &mut String, sends: &[Sent]) -> Result<(), AllocError>
    ensures { OnOk result (string_bytes text.new ≡ string_bytes text.old ++ flat_map send_line (map send_of sends.now)) }
{
    'sends: for sent in sends {
        push_send(alloc, text, sent)?;
    }
    Ok(())
}

/// Adds the lines of a tenant.
#[tactic(auto, unfolding(crate::specs::Text::account_text))]
fn push_account(alloc: Global, text: &mut String, account: &AccountParts) -> Result<(), AllocError>
    ensures { OnOk result (string_bytes text.new ≡ string_bytes text.old ++ account_text (kept_in account.now)) }
{
    push_account_line(text, account)?;
    push_sends(alloc, text, account.sends.as_slice())
}

fn push_each_account(
    alloc: Global,
    text: &mut String,
    accounts: &[AccountParts],
) -> Result<(), AllocError>
    ensures { OnOk result (string_bytes text.new ≡ string_bytes text.old ++ flat_map account_text (map kept_in accounts.now)) }
{
    'accounts: for account in accounts {
        push_account(alloc, text, account)?;
    }
    Ok(())
}

fn push_each_grain(
    alloc: Global,
    text: &mut String,
    grains: &[(GrainId, GrainParts)],
) -> Result<(), AllocError>
    ensures { OnOk result (string_bytes text.new ≡ string_bytes text.old ++ flat_map grain_line (map grain_in grains.now)) }
{
    'grains: for (grain, parts) in grains {
        push_grain(alloc, text, grain, parts)?;
    }
    Ok(())
}

/// Adds the first lines.
fn push_start(text: &mut String, parts: &CheckpointParts<'_>) -> Result<(), AllocError>
    ensures { OnOk result (string_bytes text.new ≡ string_bytes text.old ++ start_text (parts_in parts.now)) }
{
    push_text(text, "silo-checkpoint", "1")?;
    push_text(text, "follows", parts.follows)?;
    push_number(text, "sends", parts.sends)?;
    push_number(text, "clock", parts.kept.clock.get())
}

fn push_accounts(
    alloc: Global,
    text: &mut String,
    accounts: &[AccountParts],
) -> Result<(), AllocError>
    ensures { OnOk result (string_bytes text.new ≡ string_bytes text.old ++ accounts_text (map kept_in accounts.now)) }
{
    push_number(text, "accounts", accounts.len() as u64)?;
    push_each_account(alloc, text, accounts)
}

fn push_grains(
    alloc: Global,
    text: &mut String,
    grains: &[(GrainId, GrainParts)],
) -> Result<(), AllocError>
    ensures { OnOk result (string_bytes text.new ≡ string_bytes text.old ++ grains_text (map grain_in grains.now)) }
{
    push_number(text, "grains", grains.len() as u64)?;
    push_each_grain(alloc, text, grains)
}

/// All lines but those of the journal and the last.
fn lines_of(alloc: Global, parts: &CheckpointParts<'_>) -> Result<String, AllocError>
    ensures { IfOk result (λ text. string_bytes text ++ parts.now.journal.now ≡ body_text (parts_in parts.now)) }
{
    let mut text = String::new(alloc);
    push_start(&mut text, parts)?;
    push_accounts(alloc, &mut text, parts.kept.accounts.as_slice())?;
    push_grains(alloc, &mut text, parts.kept.grains.as_slice())?;
    Ok(text)
}

/// All but the last line.
fn body_of(alloc: Global, parts: &CheckpointParts<'_>) -> Result<Vec<u8>, AllocError>
    ensures { IfOk result (λ text. text.items ≡ body_text (parts_in parts.now)) }
{
    let mut text = lines_of(alloc, parts)?.into_bytes();
    text.extend_from_slice(parts.journal)?;
    Ok(text)
}

/// The text of a checkpoint. It is read as that checkpoint again if what no type keeps of it is in range: the names of
/// tenants, `follows`, which is of visible ASCII, and the journal, which is of ASCII.
///
/// # Errors
///
/// Out of memory.
pub fn checkpoint_of(alloc: Global, parts: &CheckpointParts<'_>) -> Result<Vec<u8>, AllocError>
    ensures { IfOk result (λ text. text.items ≡ checkpoint_text (parts_in parts.now)) }
{
    let mut text = body_of(alloc, parts)?;
    let sum = spell(sum_after(0, text.as_slice()));
    text.extend_from_slice(b"sum ")?;
    text.extend_from_slice(&sum)?;
    text.push(b'\n')?;
    Ok(text)
}
