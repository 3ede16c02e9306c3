//! A silo that keeps its lines in a log, ends at each call of the log in turn, and starts again from what is left.

use crate::texts::{holds, same};
use grain_kinds::Kinds;
use grain_logic::GrainLogic;
use grain_storage::{FusedStorage, MemoryStorage};
use line_answer::{AnsweringSilo, Input, Output};
use log_answer::{
    Again, AgainFault, LogFault, LogPlace, Ran, RunFrom, answer_again, answer_logged,
};
use log_host::{Did, Fuse, MemoryLog};
use silo_core::Setup;
use std::alloc::{AllocError, Global};
use std::fmt::Debug;
use std::test::Fail;
use test_helpers::setups::{Ages, setup_over};

type LoggedSilo = AnsweringSilo<FusedStorage, Kinds>;

/// The place before the first batch.
const FIRST: LogPlace = LogPlace {
    name: *b"01234567",
    sum: 7,
    told: 0,
};

/// Bytes that a read brings at most: one line, or two.
const READ: usize = 200;

/// More bytes than a log gets here.
const ROOM: u64 = 1_000_000_000;

static LINES: &str =
    r#"{"op":"call","from":"red/c1","id":1,"grain":"counter/red:a","method":"add","args":{"by":3}}
{"op":"call","from":"red/c1","id":2,"grain":"counter/red:a","method":"add","args":{"by":4}}

{"op":"nothing"}
{"op":"call","from":"red/c1","id":3,"grain":"counter/red:a","method":"save","args":null}
{"op":"status","from":"red/c1","id":4}
"#;

static TOLD: &str = r#"{"from":"red/c1","id":1,"ok":3}
{"from":"red/c1","id":2,"ok":7}
{"error":10,"text":"line is not a request"}
{"from":"red/c1","id":3,"ok":"1"}
{"from":"red/c1","id":4,"ok":{"activations":1,"clock":0,"requests":3}}
"#;

/// A call that follows these lines. The reply to it is `NEXT_TOLD`.
static NEXT: &str =
    r#"{"op":"call","from":"red/c1","id":5,"grain":"counter/red:a","method":"add","args":{"by":1}}
"#;

static NEXT_TOLD: &str = r#"{"from":"red/c1","id":5,"ok":8}
"#;

fn setup(alloc: Global) -> Result<Setup<FusedStorage, Kinds>, Fail> {
    let storage = FusedStorage::new(MemoryStorage::new(alloc), 0);
    let ages = Ages { age: 5, kinds: &[] };
    setup_over(alloc, &["red"], 3, ages, storage, Kinds)
}

/// A silo of any logic: the logic that is named would stand in its goals.
fn open<L: GrainLogic + Drop>(
    alloc: Global,
    setup: Setup<FusedStorage, L>,
) -> Result<AnsweringSilo<FusedStorage, L>, AllocError> {
    AnsweringSilo::new(alloc, setup)
}

fn new_silo(alloc: Global) -> Result<LoggedSilo, Fail> {
    Ok(open(alloc, setup(alloc)?)?)
}

/// What a run left: the log, how many bytes of it are on the disk, the replies that were written, and whether it
/// failed.
#[derive(Drop)]
struct Left {
    file: Vec<u8>,
    safe: usize,
    told: Vec<u8>,
    failed: bool,
}

/// The log as the acts left it.
fn add_acts(left: &mut Left, did: &[Did]) -> Result<(), Fail> {
    for one in did {
        match one {
            Did::Wrote(bytes) => left.file.extend_from_slice(bytes.as_slice())?,
            Did::Synced => left.safe = left.file.len(),
            Did::Told(_) => {}
        }
    }
    Ok(())
}

/// The first bytes, at most `length` of them.
fn first_bytes(bytes: &[u8], length: usize) -> &[u8] {
    &bytes[..bytes.len().min(length)]
}

fn started(
    alloc: Global,
    silo: &mut LoggedSilo,
    bytes: &[u8],
) -> Result<Result<Again, AgainFault>, Fail> {
    if silo.is_stopped() {
        return Err(Fail::from("the silo has stopped"));
    }
    Ok(answer_again(alloc, silo, 10, FIRST, bytes))
}

/// A fault, as it is shown for debugging.
fn shown<E: Debug + Drop>(why: E) -> Fail {
    Fail::new(format_args!("{why:?}"))
}

fn again(alloc: Global, silo: &mut LoggedSilo, bytes: &[u8]) -> Result<Again, Fail> {
    match started(alloc, silo, bytes)? {
        Ok(again) => Ok(again),
        Err(why) => Err(shown(why)),
    }
}

/// What is asked: lines; whether they are long, so that a read brings more; the place before them; and how many bytes of lines the log has
/// room for.
#[derive(Clone, Copy)]
struct Asked<'a> {
    lines: &'a [u8],
    long: bool,
    place: LogPlace,
    room: u64,
}

/// How a run ends.
type End = Result<Ran, LogFault>;

fn logged(
    alloc: Global,
    silo: &mut LoggedSilo,
    log: &mut MemoryLog,
    asked: Asked<'_>,
    input: &mut Input<&[u8]>,
    output: &mut Output<Vec<u8>>,
) -> Result<End, Fail> {
    if silo.is_stopped() {
        return Err(Fail::from("the silo has stopped"));
    }
    let from = RunFrom {
        place: asked.place,
        count: 0,
        room: asked.room,
    };
    Ok(answer_logged(alloc, input, output, log, from, silo, 10))
}

fn input_of<'a>(alloc: Global, asked: Asked<'a>) -> Result<Input<&'a [u8]>, AllocError> {
    if asked.long {
        return Input::with_capacity(alloc, asked.lines, LONG);
    }
    Input::with_capacity(alloc, asked.lines, READ)
}

/// The same, where nothing is read yet.
fn logged_anew(
    alloc: Global,
    silo: &mut LoggedSilo,
    log: &mut MemoryLog,
    asked: Asked<'_>,
    output: &mut Output<Vec<u8>>,
) -> Result<End, Fail> {
    let mut input = input_of(alloc, asked)?;
    logged(alloc, silo, log, asked, &mut input, output)
}

/// The replies that are written, and how the run ends.
fn told_and_end(
    alloc: Global,
    silo: &mut LoggedSilo,
    log: &mut MemoryLog,
    asked: Asked<'_>,
) -> (Vec<u8>, Result<End, Fail>) {
    let written: Vec<u8> = Vec::new(alloc);
    let mut output = Output::new(written);
    let end = logged_anew(alloc, silo, log, asked, &mut output);
    (output.writer, end)
}

/// A run that goes on at a place: what it writes, and what it adds to the log.
fn go_on(
    alloc: Global,
    silo: &mut LoggedSilo,
    asked: Asked<'_>,
    fuse: Fuse,
    left: &mut Left,
) -> Result<(), Fail> {
    let mut log = MemoryLog::new(alloc, None, fuse);
    let (told, end) = told_and_end(alloc, silo, &mut log, asked);
    left.told = told;
    left.failed = end?.is_err();
    add_acts(left, log.did.as_slice())
}

/// What a start takes of a log, before anything is added.
fn begun(alloc: Global, bytes: &[u8], length: usize) -> Result<Left, Fail> {
    Ok(Left {
        file: Vec::from_slice(alloc, first_bytes(bytes, length))?,
        safe: length,
        told: Vec::new(alloc),
        failed: false,
    })
}

fn lived_by(
    alloc: Global,
    silo: &mut LoggedSilo,
    bytes: &[u8],
    lines: &[u8],
    fuse: Fuse,
) -> Result<Left, Fail> {
    let start = again(alloc, silo, bytes)?;
    let asked = Asked {
        lines,
        long: false,
        place: start.place,
        room: ROOM,
    };
    let mut left = begun(alloc, bytes, start.length)?;
    go_on(alloc, silo, asked, fuse, &mut left)?;
    Ok(left)
}

/// A run over what is left of a log: it starts, and answers the lines, and the fuse ends it.
fn lived(alloc: Global, bytes: &[u8], lines: &str, fuse: Fuse) -> Result<Left, Fail> {
    let mut silo = new_silo(alloc)?;
    let left = lived_by(alloc, &mut silo, bytes, lines.as_bytes(), fuse);
    drop(silo);
    left
}

/// How many lines a start answers again of these bytes.
fn answered(alloc: Global, bytes: &[u8]) -> Result<usize, Fail> {
    let mut silo = new_silo(alloc)?;
    let start = again(alloc, &mut silo, bytes);
    drop(silo);
    Ok(start?.lines)
}

const NONE: Fuse = Fuse { calls: 0, part: 0 };

/// The replies are `TOLD`, and all six lines are on the disk and are answered again.
fn is_whole(alloc: Global, first: &Left) -> Result<(), Fail> {
    same(&first.told, TOLD)?;
    let lines = answered(alloc, &first.file)?;
    holds("six lines", lines == 6 && first.safe == first.file.len())
}

/// A run over that log answers the next line as the first run would have.
fn goes_on(alloc: Global, first: &Left) -> Result<(), Fail> {
    same(&lived(alloc, &first.file, NEXT, NONE)?.told, NEXT_TOLD)
}

#[test]
fn a_silo_starts_again_as_it_was(rt: HostRuntime) -> Result<(), Fail> {
    let first = lived(rt.alloc(), b"", LINES, NONE)?;
    is_whole(rt.alloc(), &first)?;
    goes_on(rt.alloc(), &first)
}

/// A line that is no request, and so long that the log has its first 65,537 bytes.
const LONG: usize = 65_600;

/// This many of them make a silo that needn't keep its history drop it.
const MANY: usize = 260;

static LONG_TOLD: &str = r#"{"error":11,"text":"line is too long"}
"#;

/// A silo that keeps its history or not.
fn silo_that(alloc: Global, keeps: bool) -> Result<LoggedSilo, Fail> {
    let mut silo = new_silo(alloc)?;
    if !keeps {
        silo.drop_history();
    }
    Ok(silo)
}

/// The replies of a silo that has a log. All lines are answered.
fn told_by(alloc: Global, silo: &mut LoggedSilo, lines: &[u8]) -> Result<Vec<u8>, Fail> {
    let asked = Asked {
        lines,
        long: true,
        place: FIRST,
        room: ROOM,
    };
    let mut log = MemoryLog::new(alloc, None, NONE);
    let (told, end) = told_and_end(alloc, silo, &mut log, asked);
    drop(log);
    holds("all is answered", end?.is_ok())?;
    Ok(told)
}

/// The replies are these: how many steps the silo's history has then.
fn steps_behind(
    alloc: Global,
    silo: &mut LoggedSilo,
    lines: &[u8],
    wanted: &[u8],
) -> Result<usize, Fail> {
    let told = told_by(alloc, silo, lines)?;
    holds("the replies", are_bytes(&told, wanted))?;
    Ok(silo.journal().len())
}

/// The same of a new silo, which keeps its history or not.
fn steps_behind_long(
    alloc: Global,
    keeps: bool,
    lines: &[u8],
    wanted: &[u8],
) -> Result<usize, Fail> {
    let mut silo = silo_that(alloc, keeps)?;
    let steps = steps_behind(alloc, &mut silo, lines, wanted);
    drop(silo);
    steps
}

fn are_bytes(found: &[u8], wanted: &[u8]) -> bool {
    found == wanted
}

fn put(bytes: &mut Vec<u8>, text: &str) -> Result<(), Fail> {
    Ok(bytes.extend_from_slice(text.as_bytes())?)
}

fn put_long_line(bytes: &mut Vec<u8>) -> Result<(), Fail> {
    for _ in 0..LONG {
        bytes.push(b'x')?;
    }
    Ok(bytes.push(b'\n')?)
}

/// Adds the lines, many that are too long, and the next line.
fn put_lines(bytes: &mut Vec<u8>) -> Result<(), Fail> {
    put(bytes, LINES)?;
    for _ in 0..MANY {
        put_long_line(bytes)?;
    }
    put(bytes, NEXT)
}

/// Adds the replies to them.
fn put_told(bytes: &mut Vec<u8>) -> Result<(), Fail> {
    put(bytes, TOLD)?;
    for _ in 0..MANY {
        put(bytes, LONG_TOLD)?;
    }
    put(bytes, NEXT_TOLD)
}

fn many_lines(alloc: Global) -> Result<Vec<u8>, Fail> {
    let mut bytes = Vec::new(alloc);
    put_lines(&mut bytes)?;
    Ok(bytes)
}

fn many_told(alloc: Global) -> Result<Vec<u8>, Fail> {
    let mut bytes = Vec::new(alloc);
    put_told(&mut bytes)?;
    Ok(bytes)
}

/// A silo answers the lines so, whether it keeps its history or not; if not, the steps of the last line alone are left.
fn are_answered(alloc: Global, lines: &[u8], wanted: &[u8]) -> Result<(), Fail> {
    let steps = steps_behind_long(alloc, true, lines, wanted)?;
    let last = steps_behind_long(alloc, false, lines, wanted)?;
    holds("the last line's steps alone", last < steps && last < 4)
}

#[test]
fn a_silo_that_let_its_history_go_answers_as_ever(rt: HostRuntime) -> Result<(), Fail> {
    let lines = many_lines(rt.alloc())?;
    are_answered(rt.alloc(), &lines, &many_told(rt.alloc())?)
}

fn count_lines(bytes: &[u8]) -> usize {
    let mut count = 0_usize;
    for byte in bytes {
        if *byte == b'\n' {
            count = count.saturating_add(1);
        }
    }
    count
}

/// How many lines are on the disk, and how many there are in all.
fn lines_left(alloc: Global, left: &Left) -> Result<(usize, usize), Fail> {
    let safe = answered(alloc, first_bytes(&left.file, left.safe))?;
    Ok((safe, answered(alloc, &left.file)?))
}

/// Whether the replies that were written are the beginning of `TOLD`, and the log that is left has at least as many
/// lines on the disk, and in all at least as many as on the disk. Five of the six lines have a reply.
fn is_kept(alloc: Global, left: &Left) -> Result<bool, Fail> {
    let (kept, all) = lines_left(alloc, left)?;
    Ok(begins_told(&left.told) && count_lines(&left.told) <= kept && kept <= all)
}

fn begins_told(bytes: &[u8]) -> bool {
    TOLD.as_bytes().starts_with(bytes)
}

/// Whether the run fails whose call of that number fails. The log has the lines of all replies that were written.
fn fails_at(alloc: Global, calls: u64) -> Result<bool, Fail> {
    let left = lived(alloc, b"", LINES, Fuse { calls, part: 30 })?;
    holds("it is kept", is_kept(alloc, &left)?)?;
    Ok(left.failed)
}

#[test]
fn what_was_told_is_in_the_log(rt: HostRuntime) -> Result<(), Fail> {
    for calls in 1..100 {
        if !fails_at(rt.alloc(), calls)? {
            return holds("two batches", calls > 6);
        }
    }
    Err(Fail::from("each call fails"))
}

/// Adds a batch of one line, whose mark has another sum of replies.
fn put_otherwise(log: &mut Vec<u8>) -> Result<(), Fail> {
    log_text::push_line(log, b"{}")?;
    log_text::push_mark(log, &FIRST.name, FIRST.sum, 1)?;
    Ok(())
}

fn is_otherwise(alloc: Global, silo: &mut LoggedSilo, log: &[u8]) -> Result<bool, Fail> {
    Ok(matches!(started(alloc, silo, log)?, Err(AgainFault::Otherwise(1))))
}

/// Whether a silo refuses to start with this log.
fn is_refused(alloc: Global, log: &[u8]) -> Result<bool, Fail> {
    let mut silo = new_silo(alloc)?;
    let found = is_otherwise(alloc, &mut silo, log);
    drop(silo);
    found
}

#[test]
fn a_log_that_tells_otherwise_is_refused(rt: HostRuntime) -> Result<(), Fail> {
    let mut log = Vec::new(rt.alloc());
    put_otherwise(&mut log)?;
    holds("another sum", is_refused(rt.alloc(), &log)?)
}

/// How many lines were answered, and whether the run paused.
fn pause_of(end: End) -> Result<(u64, bool), Fail> {
    match end {
        Ok(ran) => Ok((ran.count, ran.paused)),
        Err(why) => Err(shown(why)),
    }
}

fn paused_by(alloc: Global, silo: &mut LoggedSilo, room: u64) -> Result<(u64, bool), Fail> {
    let asked = Asked {
        lines: LINES.as_bytes(),
        long: false,
        place: FIRST,
        room,
    };
    let mut log = MemoryLog::new(alloc, None, NONE);
    let (told, end) = told_and_end(alloc, silo, &mut log, asked);
    drop(told);
    drop(log);
    pause_of(end?)
}

/// How many lines are answered before the run pauses, if the log has room for that many bytes, and whether it pauses.
fn paused(alloc: Global, room: u64) -> Result<(u64, bool), Fail> {
    let mut silo = new_silo(alloc)?;
    let found = paused_by(alloc, &mut silo, room);
    drop(silo);
    found
}

#[test]
fn a_run_pauses_where_the_log_has_no_room(rt: HostRuntime) -> Result<(), Fail> {
    holds("behind the first line", paused(rt.alloc(), 0)? == (1, true))?;
    holds("behind the second", paused(rt.alloc(), 100)? == (2, true))?;
    holds("at the end", paused(rt.alloc(), 1_000)? == (6, false))
}
