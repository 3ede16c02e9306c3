//! As many threads serve lanes as the command line requests, and 4 threads audit.

use crate::runs::{file_of, words_of};
use grain_id::{GrainId, Tenant};
use silo_program::{Input, MemoryFile, Output, answer};
use std::random::RandomSource;
use std::sync::Wait;
use std::sync::atomic::{AtomicBool, AtomicU64, Ordering};
use std::test::Fail;
use std::thread;
use std::thread::Threads;
use tenant_audit::AuditGate;
use worker_host::TurnGate;

/// How often a thread looks for others that are to come.
const MANY: u32 = 10_000_000;

/// The same where they don't come.
const FEW: u32 = 100_000;

/// Threads wait here until `wanted` of them have come. Records a miss, if a thread stops waiting before.
#[derive(Drop)]
struct Meeting {
    wanted: u64,
    polls: u32,
    come: AtomicU64,
    missed: AtomicBool,
}

impl Meeting {
    fn new(wanted: u64, polls: u32) -> Meeting {
        Meeting {
            wanted,
            polls,
            come: AtomicU64::new(0),
            missed: AtomicBool::new(false),
        }
    }

    fn meet(&self) {
        self.come.fetch_add(1, Ordering::SeqCst);
        for _ in 0..self.polls {
            if self.come.load(Ordering::SeqCst) >= self.wanted {
                return;
            }
            thread::yield_now();
        }
        self.missed.store(true, Ordering::SeqCst);
    }

    /// Whether `wanted` or more have come, and no thread stopped waiting before.
    fn was_held(&self) -> bool {
        self.come.load(Ordering::SeqCst) >= self.wanted && !self.missed.load(Ordering::SeqCst)
    }
}

impl TurnGate for Meeting {
    fn entered(&self, _grain: &GrainId, _turn: u64) {
        self.meet();
    }
}

impl AuditGate for Meeting {
    fn entered(&self, _tenant: &Tenant) {
        self.meet();
    }
}

/// Four clients, each of whom asks a counter of its own.
static CALLS: &str = concat!(
    r#"{"from":"red/c1","id":1,"op":"call","grain":"counter/red:a","method":"get","args":null}"#,
    "\n",
    r#"{"from":"red/c2","id":1,"op":"call","grain":"counter/red:b","method":"get","args":null}"#,
    "\n",
    r#"{"from":"red/c3","id":1,"op":"call","grain":"counter/red:c","method":"get","args":null}"#,
    "\n",
    r#"{"from":"red/c4","id":1,"op":"call","grain":"counter/red:d","method":"get","args":null}"#,
    "\n"
);

/// The journal of five tenants who did nothing.
static QUIET: &str =
    "silo-journal 1\nage 1\ntenant a 1 1\ntenant b 1 1\ntenant c 1 1\ntenant d 1 1\ntenant e 1 1\nclose 0\n";

/// Runs the program on the calls: whether it fails.
fn fails<H: AllocGlobal + RandomSource + Threads + Wait + Sync>(
    rt: &H,
    words: &[String],
    files: &mut MemoryFile,
    output: &mut Output<Vec<u8>>,
    meeting: &Meeting,
) -> Result<bool, Fail> {
    let mut input = Input::new(rt.alloc(), CALLS.as_bytes())?;
    Ok(answer(rt, words, files, &mut input, output, meeting, meeting).is_err())
}

/// The same over the journal.
fn fails_over<H: AllocGlobal + RandomSource + Threads + Wait + Sync>(
    rt: &H,
    words: &[String],
    meeting: &Meeting,
) -> Result<bool, Fail> {
    let mut files = file_of(rt.alloc(), QUIET)?;
    let mut output = Output::new(Vec::new(rt.alloc()));
    fails(rt, words, &mut files, &mut output, meeting)
}

/// Runs the program with these words, and returns whether as many turns or tenants as the meeting wants are at the gate
/// at once.
fn meet<H: AllocGlobal + RandomSource + Threads + Wait + Sync>(
    rt: &H,
    words: &str,
    meeting: &Meeting,
) -> Result<bool, Fail> {
    let words = words_of(rt.alloc(), words)?;
    if fails_over(rt, &words, meeting)? {
        return Err(Fail::from("the program failed: no memory, or no thread"));
    }
    Ok(meeting.was_held())
}

/// Whether `wanted` turns or tenants are at a gate at once.
fn so_many_meet<H: AllocGlobal + RandomSource + Threads + Wait + Sync>(
    rt: &H,
    words: &str,
    wanted: u64,
    polls: u32,
) -> Result<bool, Fail> {
    meet(rt, words, &Meeting::new(wanted, polls))
}

#[test]
fn as_many_workers_serve_as_are_asked_for(rt: HostRuntime) -> Result<(), Fail> {
    assert!(rt; so_many_meet(&rt, "silo serve --workers 4 red:4:4", 4, MANY)?);
    assert!(rt; !so_many_meet(&rt, "silo serve --workers 3 red:4:4", 4, FEW)?);
    Ok(())
}

#[test]
fn four_tenants_are_audited_at_once(rt: HostRuntime) -> Result<(), Fail> {
    assert!(rt; so_many_meet(&rt, "silo audit j", 4, MANY)?);
    assert!(rt; !so_many_meet(&rt, "silo audit j", 5, FEW)?);
    Ok(())
}
