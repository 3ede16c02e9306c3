//! A checkpoint as text: read, written, cut and changed. Its text is that of the slow silo.

use crate::texts::{holds, same};
use checkpoint_text::{Checkpoint, CheckpointFault, checkpoint_of, read_checkpoint};
use std::alloc::{AllocError, Global};
use std::test::Fail;

pub static TEXT: &str = "silo-checkpoint 1
follows 0123456789abcdef
sends 1000
clock 7
accounts 2
account red 4 1
send relay/red:r counter/red:a 020000000367657400
account blue 1 0
grains 3
up counter/red:a 1 5 0 030000000000000003
up relay/red:r - 7 0 0500000001040000000d636f756e7465722f7265643a61
up sheet/blue:s - 7 0 0600000001000000016b040000000176
silo-journal 3
kinds 2
age 900000
kind counter 1000
tenant red 2 4
tenant blue 1 1
row counter/red:a 1 030000000000000003
close 0
sum dc21d3484373bcc4
";

fn read(alloc: Global, bytes: &[u8]) -> Result<Option<Checkpoint<'_>>, Fail> {
    match read_checkpoint(alloc, bytes) {
        Ok(checkpoint) => Ok(Some(checkpoint)),
        Err(CheckpointFault::NoCheckpoint) => Ok(None),
        Err(CheckpointFault::Memory) => Err(Fail::from(AllocError)),
    }
}

fn is_none(alloc: Global, bytes: &[u8]) -> Result<bool, Fail> {
    Ok(read(alloc, bytes)?.is_none())
}

fn has_numbers(checkpoint: &Checkpoint<'_>) -> bool {
    let kept = &checkpoint.kept;
    let sizes = (kept.accounts.len(), kept.grains.len());
    sizes == (2, 3) && checkpoint.sends == 1_000 && kept.clock.get() == 7
}

fn written(alloc: Global, checkpoint: &Checkpoint<'_>) -> Result<Vec<u8>, AllocError> {
    checkpoint_of(alloc, &checkpoint.parts())
}

/// A checkpoint has the numbers of the text above, and is written so.
fn is_this(alloc: Global, checkpoint: &Checkpoint<'_>) -> Result<(), Fail> {
    holds("its numbers", has_numbers(checkpoint))?;
    same(&written(alloc, checkpoint)?, TEXT)
}

#[test]
fn a_checkpoint_is_read_and_written(rt: HostRuntime) -> Result<(), Fail> {
    match read(rt.alloc(), TEXT.as_bytes())? {
        Some(checkpoint) => {
            let told = is_this(rt.alloc(), &checkpoint);
            drop(checkpoint);
            told
        }
        None => Err(Fail::from("it isn't read")),
    }
}

/// Each part of a text from its first byte on is none.
fn cuts_are_none(alloc: Global, text: &[u8]) -> Result<(), Fail> {
    for end in 0..text.len() {
        holds("cut", is_none(alloc, &text[..end])?)?;
    }
    Ok(())
}

#[test]
fn a_cut_checkpoint_is_none(rt: HostRuntime) -> Result<(), Fail> {
    cuts_are_none(rt.alloc(), TEXT.as_bytes())
}

/// The text with another byte at a place.
fn changed(alloc: Global, text: &[u8], place: usize) -> Result<Vec<u8>, Fail> {
    let mut bytes = Vec::from_slice(alloc, text)?;
    if let Some(byte) = bytes.get_mut(place) {
        *byte ^= 1;
    }
    Ok(bytes)
}

fn is_none_changed(alloc: Global, text: &[u8], place: usize) -> Result<bool, Fail> {
    is_none(alloc, &changed(alloc, text, place)?)
}

#[test]
fn a_checkpoint_with_a_changed_byte_is_none(rt: HostRuntime) -> Result<(), Fail> {
    for place in 0..TEXT.len() {
        holds(
            "changed",
            is_none_changed(rt.alloc(), TEXT.as_bytes(), place)?,
        )?;
    }
    Ok(())
}
