//! Whether parts may stand in a checkpoint. What types keep of the rules is only looked at, which gives it to the proof.

ghost use Rattle.std.specs.Prelude.{◌≡◌, ◌↔◌, ◌<◌, ◌^◌, ◌&&◌, All, IfSome, IsTrue, length, map, nat_le};
ghost use Rattle.std.specs.List.{list_all};
ghost use Rattle.hex.specs.Hex.{IsBytes};
ghost use Rattle.grain_id.specs.Words.{begins_with_letter, is_name_byte, is_word, is_word_byte};
ghost use Rattle.tenant_accounts.specs.Parts.{kept_in};
ghost use Rattle.tenant_accounts.specs.Sends.{send_of};
ghost use Rattle.checkpoint_text.specs.Answers.{grain_in, parts_in};
ghost use Rattle.checkpoint_text.specs.Rules.{IsCheckpoint, IsGrain, IsSend, has_word, is_ascii_byte, is_spelled};
ghost use Rattle.checkpoint_text.specs.inside.Kept.{KeepsAccount, KeepsRules};

use crate::checkpoint::CheckpointParts;
use grain_id::GrainId;
use silo_state::GrainParts;
use tenant_accounts::{AccountParts, Sent};

/// The greatest length of a tenant's name, in bytes.
const MAX_WORD_BYTES: usize = 32;

// ---- what types keep

/// Each is a byte.
fn see_bytes(_bytes: &[u8])
    ensures { IsBytes _bytes.now }
{}

fn see_send(sent: &Sent)
    ensures { IsSend (send_of sent.now) }
{
    sent.source.text();
    sent.target.text();
    see_bytes(sent.message.bytes());
}

fn see_sends(sends: &[Sent])
    ensures { All IsSend (map send_of sends.now) }
{
    'sends: for sent in sends {
        see_send(sent);
    }
}

fn see_account(account: &AccountParts)
    ensures { KeepsAccount (kept_in account.now) }
{
    let _count = account.count;
    let _sends = account.sends.len();
    see_sends(account.sends.as_slice());
}

fn see_accounts(accounts: &[AccountParts])
    ensures { All KeepsAccount (map kept_in accounts.now) }
{
    'accounts: for account in accounts {
        see_account(account);
    }
}

fn see_version(version: Option<u64>)
    ensures { IfSome version (λ number. number < 2 ^ 64) }
{
    if let Some(number) = version {
        let _number = number;
    }
}

fn see_grain(grain: &GrainId, parts: &GrainParts)
    ensures { IsGrain (grain_in (grain.now, parts.now)) }
{
    grain.text();
    see_version(parts.version);
    parts.last.get();
    let _until = parts.until;
    see_bytes(parts.state.bytes());
}

fn see_grains(grains: &[(GrainId, GrainParts)])
    ensures { All IsGrain (map grain_in grains.now) }
{
    'grains: for (grain, parts) in grains {
        see_grain(grain, parts);
    }
}

fn see_parts(parts: &CheckpointParts<'_>)
    ensures { KeepsRules (parts_in parts.now) }
{
    let _sends = parts.sends;
    parts.kept.clock.get();
    let _accounts = parts.kept.accounts.len();
    let _grains = parts.kept.grains.len();
    see_accounts(parts.kept.accounts.as_slice());
    see_grains(parts.kept.grains.as_slice());
}

// ---- what no type keeps

fn is_word_byte(byte: u8) -> bool
    ensures { result ≡ is_word_byte byte }
{
    matches!(byte, b'a'..=b'z' | b'0'..=b'9' | b'-')
}

fn all_word_bytes(bytes: &[u8]) -> bool
    ensures { result ≡ list_all is_word_byte bytes.now }
{
    bytes.iter().all(|byte| is_word_byte(*byte))
}

/// Whether they begin with a letter, are no more than 32, and each may stand in a word.
fn are_word(bytes: &[u8]) -> bool
    ensures { result ≡ (begins_with_letter bytes.now && nat_le (length bytes.now) 32 && list_all is_word_byte bytes.now) }
{
    match bytes {
        [b'a'..=b'z', ..] => bytes.len() <= MAX_WORD_BYTES && all_word_bytes(bytes),
        _ => false,
    }
}

/// Whether the text may be the name of a tenant. It takes no memory.
fn is_word(text: &str) -> bool
    ensures { result ≡ is_word text.now }
{
    are_word(text.as_bytes())
}

fn all_name_bytes(bytes: &[u8]) -> bool
    ensures { result ≡ list_all is_name_byte bytes.now }
{
    bytes.iter().all(|byte| matches!(*byte, 0x21..=0x7e))
}

fn all_ascii(bytes: &[u8]) -> bool
    ensures { result ≡ list_all is_ascii_byte bytes.now }
{
    bytes.iter().all(|byte| *byte < 128)
}

/// Whether the name of each tenant is well formed.
fn have_words(accounts: &[AccountParts]) -> bool
    ensures { result ≡ list_all (λ account. has_word (kept_in account)) accounts.now }
{
    accounts
        .iter()
        .all(|account| is_word(account.name.as_str()))
}

fn is_spelled(parts: &CheckpointParts<'_>) -> bool
    ensures { result ≡ is_spelled (parts_in parts.now) }
{
    if !all_name_bytes(parts.follows.as_bytes()) {
        return false;
    }
    if !have_words(parts.kept.accounts.as_slice()) {
        return false;
    }
    all_ascii(parts.journal)
}

/// Whether what is kept, and the rest, may stand in a checkpoint: names are well formed, numbers are in their ranges, and the
/// journal is of ASCII. It walks over all of it, and takes no memory.
pub fn may_stand(parts: &CheckpointParts<'_>) -> bool
    ensures stands { IsTrue result ↔ IsCheckpoint (parts_in parts.now) }

    // Only what it follows, the names of tenants and the journal can be what may not stand there.
    ensures spelled { result ≡ is_spelled (parts_in parts.now) }
{
    see_parts(parts);
    is_spelled(parts)
}
