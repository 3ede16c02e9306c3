//! The head of a log.

ghost use Rattle.std.specs.Prelude.{◌≡◌, ◌↔◌, ◌++◌, List, ℕ, IsTrue, OnErr, OnOk, option_map};
ghost use Rattle.log_text.specs.Lines.{IsPrefixOf};
ghost use Rattle.log_text.specs.Sums.{spelled};
ghost use Rattle.log_text.specs.Head.{CutsHead, ReadsHead, form_line, head_start, head_text, summed_head};
ghost use Rattle.log_text.specs.Answers.{Strips};

use crate::cuts::{behind, cut_line, is_same};
use crate::sum::{spell, sum_after};
use std::alloc::AllocError;

/// The form, and its LF.
const FORM: &[u8] = b"silo-log 1\n";

/// Adds what stands in the head before its sum, or a part of it.
fn push_head_start(text: &mut Vec<u8>, words: &[u8], number: u64) -> Result<(), AllocError>
    ensures ok { OnOk result (text.new.items ≡ text.old.items ++ summed_head words.now (spelled number)) }
    ensures err { IsPrefixOf text.old.items text.new.items }
{
    text.extend_from_slice(FORM)?;
    text.extend_from_slice(words)?;
    text.extend_from_slice(b"of ")?;
    text.extend_from_slice(&spell(number))?;
    text.push(b' ')?;
    Ok(())
}

/// Adds the head, or a part of it.
fn push_head_parts(text: &mut Vec<u8>, words: &[u8], number: u64) -> Result<(), AllocError>
    ensures ok { OnOk result (text.new.items ≡ text.old.items ++ head_text words.now (spelled number)) }
    ensures err { IsPrefixOf text.old.items text.new.items }
{
    let before = text.len();
    push_head_start(text, words, number)?;
    let sum = sum_after(0, &text.as_slice()[before..]);
    text.extend_from_slice(&spell(sum))?;
    text.push(b'\n')?;
    Ok(())
}

/// Adds the head of a log that is begun for a silo with these words, each with its LF. No other log should have its number. An
/// `Err` changes nothing.
pub fn push_head(text: &mut Vec<u8>, words: &[u8], number: u64) -> Result<(), AllocError>
    ensures ok { OnOk result (text.new.items ≡ text.old.items ++ head_text words.now (spelled number)) }
    ensures err { OnErr result (text.new.items ≡ text.old.items) }
{
    let before = text.len();
    if push_head_parts(text, words, number).is_err() {
        text.truncate(before);
        return Err(AllocError);
    }
    Ok(())
}

/// What follows the head's words, and the `of ` after them.
fn behind_words<'a>(words: &[u8], bytes: &'a [u8]) -> Option<&'a [u8]>
    ensures { Strips (head_start words.now) bytes.now (option_map (λ rest. rest.now) result) }
{
    let Some(rest) = behind(FORM, bytes) else {
        return None;
    };
    let Some(rest) = behind(words, rest) else {
        return None;
    };
    behind(b"of ", rest)
}

/// The number and the sum in what may be a head with these words, and what follows it.
fn head_parts<'a>(words: &[u8], bytes: &'a [u8]) -> Option<(&'a [u8], &'a [u8], &'a [u8])>
    ensures { ReadsHead words.now bytes.now (option_map (λ head. (head.0.now, head.1.now, head.2.now)) result) }
{
    let Some(rest) = behind_words(words, bytes) else {
        return None;
    };
    let Some((line, after)) = cut_line(rest) else {
        return None;
    };
    let Some((number, rest)) = line.split_at_checked(16) else {
        return None;
    };
    let Some(sum) = behind(b" ", rest) else {
        return None;
    };
    Some((number, sum, after))
}

/// The number in the head of a log that was begun for a silo with these words, and what follows the head.
pub fn cut_head<'a>(words: &[u8], bytes: &'a [u8]) -> Option<(&'a [u8], &'a [u8])>
    ensures { CutsHead words.now bytes.now (option_map (λ cut. (cut.0.now, cut.1.now)) result) }
{
    let Some((number, given, behind)) = head_parts(words, bytes) else {
        return None;
    };
    let sum = sum_after(0, &bytes[..bytes.len() - (given.len() + 1 + behind.len())]);
    if is_same(given, &spell(sum)) {
        Some((number, behind))
    } else {
        None
    }
}

/// Whether the bytes begin as a log of this form does: of a log that isn't cut by `cut_head` the words are others.
pub fn is_log(bytes: &[u8]) -> bool
    ensures { IsTrue result ↔ ((rest : List ℕ) × (bytes.now ≡ form_line ++ rest)) }
{
    match behind(FORM, bytes) {
        Some(_) => true,
        None => false,
    }
}
