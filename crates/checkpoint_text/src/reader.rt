//! Checkpoints, read.

ghost use Rattle.std.specs.Prelude.{◌≡◌, ◌↔◌, ◌++◌, ◌∷◌, [], IfOk, IfSome, IsTrue, None, OnOk, codes, map, string_bytes};
ghost use Rattle.std.specs.Str.{IsUtf8};
ghost use Rattle.journal_text.specs.inside.Answers.{Reads};
ghost use Rattle.journal_text.specs.inside.Candidates.{◌⊗◌, wide_of, word_of};
ghost use Rattle.grain_id.specs.Names.{same_text};
ghost use Rattle.tenant_accounts.specs.Parts.{kept_in};
ghost use Rattle.tenant_accounts.specs.Sends.{send_of};
ghost use Rattle.checkpoint_text.specs.Answers.{ReadsCheckpoint, checkpoint_in, grain_in, parts_in};
ghost use Rattle.checkpoint_text.specs.Rules.{IsCheckpoint};
ghost use Rattle.checkpoint_text.specs.Text.{checkpoint_text};
ghost use Rattle.checkpoint_text.specs.inside.Reading.{account_at, body_at, body_of, counted_at, grain_at, grain_of_fields};
ghost use Rattle.checkpoint_text.specs.inside.Reading.{head_at, lists_at, send_at, send_of_fields, times};

use crate::checkpoint::{Checkpoint, CheckpointParts};
use crate::checks::may_stand;
use crate::fault::CheckpointFault;
use crate::field_reader::{cut_named, cut_number, parse_moment, parse_name, parse_version};
use crate::writer::checkpoint_of;
use grain_id::{GrainId, NameCache};
use journal_text::fields::{cut, parse_grain, parse_message, parse_state, parse_u64};
use journal_text::{Form, LineFault};
use silo_state::{GrainParts, KeptParts};
use std::alloc::{AllocError, Global};
use tenant_accounts::{AccountParts, Sent};

/// The form that messages and states have, as in a journal.
const FORM: Form = Form::Third;

/// Bytes of the last line.
const SUM_LINE: usize = 21;

fn add<T: Drop>(list: &mut Vec<T>, value: T) -> Result<(), AllocError>
    ensures { OnOk result (list.new.items ≡ list.old.items ++ value ∷ []) }
{
    list.push(value)?;
    Ok(())
}

fn read_send(alloc: Global, names: &mut NameCache, fields: &str) -> Result<Sent, LineFault>
    ensures { Reads send_of result (send_of_fields fields.now) }
{
    let (source, fields) = cut(fields, ' ')?;
    let source = parse_grain(alloc, names, source)?;
    let (target, message) = cut(fields, ' ')?;
    let target = parse_grain(alloc, names, target)?;
    let message = parse_message(alloc, FORM, message)?;
    Ok(Sent {
        source,
        target,
        message,
    })
}

fn cut_send<'a>(
    alloc: Global,
    names: &mut NameCache,
    text: &'a str,
) -> Result<(Sent, &'a str), LineFault>
    ensures { Reads (λ parts. (send_of parts.0, parts.1.now)) result (send_at text.now) }
{
    let (fields, behind) = cut_named("send", text)?;
    let sent = read_send(alloc, names, fields)?;
    Ok((sent, behind))
}

/// As many sends, and what follows them.
fn cut_sends<'a>(
    alloc: Global,
    names: &mut NameCache,
    count: u64,
    text: &'a str,
) -> Result<(Vec<Sent>, &'a str), LineFault>
    ensures { Reads (λ parts. (map send_of parts.0.items, parts.1.now)) result (times send_at count text.now) }
{
    let mut sends = Vec::new(alloc);
    let mut rest = text;
    'sends: for _ in 0..count {
        let (sent, behind) = cut_send(alloc, names, rest)?;
        add(&mut sends, sent)?;
        rest = behind;
    }
    Ok((sends, rest))
}

/// What a tenant's line says: its name, its count, and the number of its sends.
fn read_account(alloc: Global, fields: &str) -> Result<(String, (u64, u64)), LineFault>
    ensures { Reads (λ head. (string_bytes head.0, head.1)) result ((word_of ⊗ wide_of ⊗ wide_of) fields.now) }
{
    let (name, fields) = cut(fields, ' ')?;
    let name = parse_name(alloc, name)?;
    let (count, sends) = cut(fields, ' ')?;
    let count = parse_u64(count)?;
    let sends = parse_u64(sends)?;
    Ok((name, (count, sends)))
}

fn cut_account<'a>(
    alloc: Global,
    names: &mut NameCache,
    text: &'a str,
) -> Result<(AccountParts, &'a str), LineFault>
    ensures { Reads (λ parts. (kept_in parts.0, parts.1.now)) result (account_at text.now) }
{
    let (fields, behind) = cut_named("account", text)?;
    let (name, (count, lines)) = read_account(alloc, fields)?;
    let (sends, behind) = cut_sends(alloc, names, lines, behind)?;
    Ok((AccountParts { name, count, sends }, behind))
}

/// As many tenants, and what follows them.
fn cut_each_account<'a>(
    alloc: Global,
    names: &mut NameCache,
    count: u64,
    text: &'a str,
) -> Result<(Vec<AccountParts>, &'a str), LineFault>
    ensures { Reads (λ parts. (map kept_in parts.0.items, parts.1.now)) result (times account_at count text.now) }
{
    let mut accounts = Vec::new(alloc);
    let mut rest = text;
    'accounts: for _ in 0..count {
        let (account, behind) = cut_account(alloc, names, rest)?;
        add(&mut accounts, account)?;
        rest = behind;
    }
    Ok((accounts, rest))
}

fn read_grain(
    alloc: Global,
    names: &mut NameCache,
    fields: &str,
) -> Result<(GrainId, GrainParts), LineFault>
    ensures { Reads grain_in result (grain_of_fields fields.now) }
{
    let (grain, fields) = cut(fields, ' ')?;
    let grain = parse_grain(alloc, names, grain)?;
    let (version, fields) = cut(fields, ' ')?;
    let version = parse_version(version)?;
    let (last, fields) = cut(fields, ' ')?;
    let last = parse_moment(last)?;
    let (until, state) = cut(fields, ' ')?;
    let until = parse_u64(until)?;
    let state = parse_state(alloc, FORM, state)?;
    Ok((
        grain,
        GrainParts {
            state,
            version,
            last,
            until,
        },
    ))
}

fn cut_grain<'a>(
    alloc: Global,
    names: &mut NameCache,
    text: &'a str,
) -> Result<((GrainId, GrainParts), &'a str), LineFault>
    ensures { Reads (λ parts. (grain_in parts.0, parts.1.now)) result (grain_at text.now) }
{
    let (fields, behind) = cut_named("up", text)?;
    let grain = read_grain(alloc, names, fields)?;
    Ok((grain, behind))
}

/// As many grains, and what follows them.
fn cut_each_grain<'a>(
    alloc: Global,
    names: &mut NameCache,
    count: u64,
    text: &'a str,
) -> Result<(Vec<(GrainId, GrainParts)>, &'a str), LineFault>
    ensures { Reads (λ parts. (map grain_in parts.0.items, parts.1.now)) result (times grain_at count text.now) }
{
    let mut grains = Vec::new(alloc);
    let mut rest = text;
    'grains: for _ in 0..count {
        let (grain, behind) = cut_grain(alloc, names, rest)?;
        add(&mut grains, grain)?;
        rest = behind;
    }
    Ok((grains, rest))
}

fn cut_accounts<'a>(
    alloc: Global,
    names: &mut NameCache,
    text: &'a str,
) -> Result<(Vec<AccountParts>, &'a str), LineFault>
    ensures { Reads (λ parts. (map kept_in parts.0.items, parts.1.now)) result (counted_at (codes "accounts") account_at text.now) }
{
    let (count, behind) = cut_number("accounts", text)?;
    cut_each_account(alloc, names, count, behind)
}

fn cut_grains<'a>(
    alloc: Global,
    names: &mut NameCache,
    text: &'a str,
) -> Result<(Vec<(GrainId, GrainParts)>, &'a str), LineFault>
    ensures { Reads (λ parts. (map grain_in parts.0.items, parts.1.now)) result (counted_at (codes "grains") grain_at text.now) }
{
    let (count, behind) = cut_number("grains", text)?;
    cut_each_grain(alloc, names, count, behind)
}

/// What the checkpoint follows, how many calls are delivered after a line, and what follows these lines.
fn cut_head(text: &str) -> Result<((&str, u64), &str), LineFault>
    ensures { Reads (λ parts. ((parts.0.0.now, parts.0.1), parts.1.now)) result (head_at text.now) }
{
    let (_, behind) = cut_named("silo-checkpoint", text)?;
    let (follows, behind) = cut_named("follows", behind)?;
    let (sends, behind) = cut_number("sends", behind)?;
    Ok(((follows, sends), behind))
}

/// The lists of tenants and of grains.
fn cut_lists<'a>(
    alloc: Global,
    names: &mut NameCache,
    text: &'a str,
) -> Result<((Vec<AccountParts>, Vec<(GrainId, GrainParts)>), &'a str), LineFault>
    ensures { Reads (λ parts. ((map kept_in parts.0.0.items, map grain_in parts.0.1.items), parts.1.now)) result (lists_at text.now) }
{
    let (accounts, behind) = cut_accounts(alloc, names, text)?;
    let (grains, behind) = cut_grains(alloc, names, behind)?;
    Ok(((accounts, grains), behind))
}

/// What all but the last line may be of.
fn read_body<'a>(
    alloc: Global,
    names: &mut NameCache,
    text: &'a str,
) -> Result<Checkpoint<'a>, LineFault>
    ensures { Reads checkpoint_in result (body_at text.now) }
{
    let ((follows, sends), behind) = cut_head(text)?;
    let (clock, behind) = cut_named("clock", behind)?;
    let clock = parse_moment(clock)?;
    let ((accounts, grains), journal) = cut_lists(alloc, names, behind)?;
    Ok(Checkpoint {
        follows,
        sends,
        kept: KeptParts {
            clock,
            accounts,
            grains,
        },
        journal,
    })
}

/// All but the last line, if it is UTF-8.
fn body_of(bytes: &[u8]) -> Option<&str>
    ensures some { IfSome result (λ body. body.now ≡ body_of bytes.now) }
    ensures none { result ≡ None → IsUtf8 (body_of bytes.now) → ⊥ }
{
    let end = bytes.len().saturating_sub(SUM_LINE);
    match str::from_utf8(&bytes[..end]) {
        Ok(body) => Some(body),
        Err(_) => None,
    }
}

/// Whether the bytes are the same.
fn is_same(one: &[u8], other: &[u8]) -> bool
    ensures { result ≡ same_text one.now other.now }
{
    one == other
}

/// Whether the parts may stand in a checkpoint, and the bytes are its text.
fn is_text_of(alloc: Global, parts: &CheckpointParts<'_>, bytes: &[u8]) -> Result<bool, AllocError>
    ensures { IfOk result (λ is. IsTrue is ↔ (IsCheckpoint (parts_in parts.now) × (bytes.now ≡ checkpoint_text (parts_in parts.now)))) }
{
    if !may_stand(parts) {
        return Ok(false);
    }
    let text = checkpoint_of(alloc, parts)?;
    Ok(is_same(text.as_slice(), bytes))
}

/// The checkpoint whose text the bytes are. It takes their length twice while it reads, for what was read is written
/// again and compared.
///
/// # Errors
///
/// `NoCheckpoint` if they are the text of none, `Memory` if memory is refused.
pub fn read_checkpoint(alloc: Global, bytes: &[u8]) -> Result<Checkpoint<'_>, CheckpointFault>
    ensures { ReadsCheckpoint bytes.now result }
{
    let Some(body) = body_of(bytes) else {
        return Err(CheckpointFault::NoCheckpoint);
    };
    let mut names = NameCache::new(alloc);
    let checkpoint = read_body(alloc, &mut names, body)?;
    let stands = is_text_of(alloc, &checkpoint.parts(), bytes)?;
    if stands {
        Ok(checkpoint)
    } else {
        drop(checkpoint);
        Err(CheckpointFault::NoCheckpoint)
    }
}
