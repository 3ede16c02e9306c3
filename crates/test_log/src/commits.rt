//! Commits over a log in memory, of which each call fails in turn.

use line_text::Output;
use log_host::{CommitFault, Did, Fuse, LogPlace, MemoryLog, commit};
use log_text::{push_line, sum_after};
use std::alloc::Global;
use std::test::Fail;

/// How many bytes were written, 1 if they were synced, and how many bytes of replies followed.
type Acts = (usize, usize, usize);

/// What a log did, a word for each act with how many bytes it had.
fn told_of(did: &[Did]) -> Acts {
    let mut wrote = 0;
    let mut synced = 0;
    let mut told = 0;
    for one in did {
        match one {
            Did::Wrote(bytes) => wrote = bytes.len(),
            Did::Synced => synced = 1,
            Did::Told(bytes) => told = bytes.len(),
        }
    }
    (wrote, synced, told)
}

/// The place before the batch.
const PLACE: LogPlace = LogPlace {
    name: *b"01234567",
    sum: 7,
    told: 0,
};

/// One line of two bytes.
fn batch(alloc: Global) -> Result<Vec<u8>, Fail> {
    let mut batch = Vec::new(alloc);
    push_line(&mut batch, b"{}")?;
    Ok(batch)
}

/// Commits a batch with an answer of three bytes.
fn committed_by(
    alloc: Global,
    log: &mut MemoryLog,
    batch: &mut Vec<u8>,
) -> Result<LogPlace, CommitFault> {
    let written: Vec<u8> = Vec::new(alloc);
    let mut output = Output::new(written);
    commit(log, &mut output, PLACE, batch, b"ok\n")
}

/// The same, where the call of that number fails after two bytes.
fn committed_but(
    alloc: Global,
    calls: u64,
    batch: &mut Vec<u8>,
) -> (Result<LogPlace, CommitFault>, Acts) {
    let mut log = MemoryLog::new(alloc, None, Fuse { calls, part: 2 });
    let done = committed_by(alloc, &mut log, batch);
    (done, told_of(log.did.as_slice()))
}

/// The same of one line of two bytes.
fn committed(alloc: Global, calls: u64) -> Result<(Result<LogPlace, CommitFault>, Acts), Fail> {
    Ok(committed_but(alloc, calls, &mut batch(alloc)?))
}

/// Fails and shows what was found, if it isn't what was wanted.
fn same(found: Acts, wanted: Acts) -> Result<(), Fail> {
    if found == wanted {
        return Ok(());
    }
    Err(Fail::new(format_args!("{found:?} in place of {wanted:?}")))
}

fn sum_of_answer() -> u64 {
    sum_after(0, b"ok\n")
}

#[test]
fn a_batch_is_written_synced_and_told(rt: HostRuntime) -> Result<(), Fail> {
    let (done, acts) = committed(rt.alloc(), 0)?;
    let Ok(next) = done else {
        return Err(Fail::from("something failed"));
    };
    same(acts, (65, 1, 3))?;
    if next.told == sum_of_answer() {
        return Ok(());
    }
    Err(Fail::from("another sum of what was told"))
}

/// Where the call of that number fails, the host did this.
fn fails_after(alloc: Global, calls: u64, wanted: Acts) -> Result<(), Fail> {
    let (done, acts) = committed(alloc, calls)?;
    same(acts, wanted)?;
    if done == Err(CommitFault::Host) {
        return Ok(());
    }
    Err(Fail::from("another fault"))
}

#[test]
fn nothing_is_told_before_it_is_synced(rt: HostRuntime) -> Result<(), Fail> {
    fails_after(rt.alloc(), 1, (2, 0, 0))?;
    fails_after(rt.alloc(), 2, (65, 0, 0))?;
    fails_after(rt.alloc(), 3, (65, 1, 2))
}
