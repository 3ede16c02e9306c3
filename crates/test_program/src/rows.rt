//! The rows and active grains of a checkpoint that are printed.

use crate::runs::left_by;
use silo_program::MemoryFile;
use std::alloc::Global;
use std::random::RandomSource;
use std::sync::Wait;
use std::test::Fail;
use std::thread::Threads;

/// A checkpoint of an older version, with two rows and two active grains.
const CHECKPOINT: &str =
    "silo-checkpoint 1\nfollows 0123456789abcdef\nsends 1000\nclock 0\naccounts 2\naccount red 4 0\naccount blue 0 0\ngrains 3\nup counter/red:a 1 0 0 030000000000000003\nup counter/red:b - 0 9 030000000000000000\nup sheet/red:s 1 0 0 0600000000\nsilo-journal 3\nkinds 1\nage 900000\ntenant red 9 4\ntenant blue 1 1\nrow counter/blue:a 1 030000000000000004\nrow counter/red:a 1 030000000000000003\nrow sheet/red:s 1 0600000000\nclose 0\nsum 7d301252d57bb89a\n";

/// What it has.
const ALL: &str =
    "{\"row\":\"counter/blue:a\",\"version\":1,\"state\":4}\n{\"row\":\"counter/red:a\",\"version\":1,\"state\":3}\n{\"row\":\"sheet/red:s\",\"version\":1,\"state\":{}}\n{\"active\":\"counter/red:a\",\"version\":1,\"last\":0,\"until\":0,\"state\":3}\n{\"active\":\"counter/red:b\",\"version\":null,\"last\":0,\"until\":9,\"state\":0}\n{\"active\":\"sheet/red:s\",\"version\":1,\"last\":0,\"until\":0,\"state\":{}}\n";

/// What it has of one tenant.
const OF_BLUE: &str = "{\"row\":\"counter/blue:a\",\"version\":1,\"state\":4}\n";

/// The same checkpoint, of a version that isn't there yet.
const NEWER: &str =
    "silo-checkpoint 1\nfollows 0123456789abcdef\nsends 1000\nclock 0\naccounts 2\naccount red 4 0\naccount blue 0 0\ngrains 3\nup counter/red:a 1 0 0 030000000000000003\nup counter/red:b - 0 9 030000000000000000\nup sheet/red:s 1 0 0 0600000000\nsilo-journal 3\nkinds 255\nage 900000\ntenant red 9 4\ntenant blue 1 1\nrow counter/blue:a 1 030000000000000004\nrow counter/red:a 1 030000000000000003\nrow sheet/red:s 1 0600000000\nclose 0\nsum a5b0d0279d04b05a\n";

const REFUSED: &str = "silo: the checkpoint is refused\n";

/// The words, the checkpoint, and the status, the output and the errors that should come of it.
type Run = (&'static str, &'static str, u8, &'static str, &'static str);

const RUNS: [Run; 6] = [
    ("silo rows d", CHECKPOINT, 0, ALL, ""),
    ("silo rows d blue", CHECKPOINT, 0, OF_BLUE, ""),
    ("silo rows d green", CHECKPOINT, 0, "", ""),
    ("silo rows d", NEWER, 4, "", REFUSED),
    ("silo rows d", "", 4, "", REFUSED),
    ("silo rows e", CHECKPOINT, 1, "", "silo: reading failed\n"),
];

/// A folder `d` that has this checkpoint.
fn folder_of(alloc: Global, text: &str) -> Result<MemoryFile, Fail> {
    let path = String::from_str(alloc, "d/checkpoint")?;
    let bytes = Vec::from_slice(alloc, text.as_bytes())?;
    Ok(MemoryFile { path, bytes })
}

/// Whether the run prints what it should, and leaves the checkpoint as it is.
fn prints<H: AllocGlobal + RandomSource + Threads + Wait + Sync>(
    rt: &H,
    run: &Run,
) -> Result<bool, Fail> {
    let (words, checkpoint, status, told, failed) = *run;
    let mut files = folder_of(rt.alloc(), checkpoint)?;
    let left = left_by(rt, words, "", &mut files)?;
    let kept = files.bytes.as_slice() == checkpoint.as_bytes();
    let said = left.errors.as_slice() == failed.as_bytes();
    Ok(kept && said && left.status == status && left.output.as_slice() == told.as_bytes())
}

#[test]
fn rows_are_printed(rt: HostRuntime) -> Result<(), Fail> {
    for run in &RUNS {
        assert!(rt; prints(&rt, run)?);
    }
    Ok(())
}
