//! What a checkpoint says of a silo.

use crate::checkpoints::TEXT;
use crate::texts::{holds, same};
use silo_checkpoint::{CheckpointFault, Saved, read_saved, sum_of};
use std::alloc::{AllocError, Global};
use std::test::Fail;

fn read(alloc: Global, bytes: &[u8]) -> Result<Option<Saved<'_>>, Fail> {
    match read_saved(alloc, bytes) {
        Ok(saved) => Ok(Some(saved)),
        Err(CheckpointFault::NoCheckpoint) => Ok(None),
        Err(CheckpointFault::Memory) => Err(Fail::from(AllocError)),
    }
}

/// Whether what is said has these parts.
fn says(saved: &Saved<'_>) -> bool {
    saved.kinds == 2
        && saved.sends == 1_000
        && saved.tenants.list().len() == 2
        && saved.rows.len() == 1
        && saved.kept.grains.len() == 3
}

/// What a checkpoint says has these parts, and follows that log.
fn is_said(saved: &Saved<'_>) -> Result<(), Fail> {
    holds("parts", says(saved))?;
    same(saved.follows.as_bytes(), "0123456789abcdef")
}

#[test]
fn a_checkpoint_says_what_it_has(rt: HostRuntime) -> Result<(), Fail> {
    match read(rt.alloc(), TEXT.as_bytes())? {
        Some(saved) => {
            let told = is_said(&saved);
            drop(saved);
            told
        }
        None => Err(Fail::from("it isn't read")),
    }
}

/// Whether the text but for its last byte says nothing.
fn is_none_cut(alloc: Global, text: &[u8]) -> Result<bool, Fail> {
    let end = text.len().saturating_sub(1);
    Ok(read(alloc, &text[..end])?.is_none())
}

#[test]
fn what_is_no_checkpoint_says_nothing(rt: HostRuntime) -> Result<(), Fail> {
    holds("cut", is_none_cut(rt.alloc(), TEXT.as_bytes())?)
}

fn sum_of_text(text: &str) -> u64 {
    sum_of(text.as_bytes())
}

#[test]
fn the_sum_stands_in_the_last_line() -> Result<(), Fail> {
    holds("sum", sum_of_text(TEXT) == 0xdc21_d348_4373_bcc4)
}
