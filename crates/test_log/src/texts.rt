//! A log as text: written, read, cut and changed. Its text is that of the slow silo.
//!
//! A call with a contract stands in a small function without clauses, and a long text is a static: neither then stands in the goals of
//! a test.

use log_text::{
    NextBatch, cut_head, fault_behind, is_log, next_asked, next_batch, push_head, push_kind,
    push_line, push_mark, push_number, push_tenant, spell, sum_after,
};
use std::alloc::{AllocError, Global};
use std::test::Fail;

/// The number of the log.
const NUMBER: u64 = 0x0123_4567_89ab_cdef;

/// What its marks begin with.
const NAME: &[u8] = b"01234567";

static WORDS: &str = "kinds 2
sends 1000
age 900000
kind counter 1000
tenant red 2 4
tenant blue 1 1
";

static HEAD: &str = "silo-log 1
kinds 2
sends 1000
age 900000
kind counter 1000
tenant red 2 4
tenant blue 1 1
of 0123456789abcdef d7c3bcbec7963184
";

/// The lines of the first batch, and the one of the second.
static CALL: &str = "{\"op\":\"call\",\"from\":\"red/c1\",\"id\":1}";

static STATUS: &str = "{\"op\":\"status\",\"from\":\"red/c1\",\"id\":2}";

static TICK: &str = "{\"op\":\"tick\",\"now\":5}";

static FIRST: &str = "+{\"op\":\"call\",\"from\":\"red/c1\",\"id\":1}
+{\"op\":\"status\",\"from\":\"red/c1\",\"id\":2}
=01234567 000000000000004e 81fdff9c66986f82 b840605d01797f11
";

static SECOND: &str = "+{\"op\":\"tick\",\"now\":5}
=01234567 0000000000000017 3f7f4ce40a3a6940 4afd8d8f46f55b2b
";

/// What follows the first line of the first batch.
static BEHIND_CALL: &str = "+{\"op\":\"status\",\"from\":\"red/c1\",\"id\":2}\n";

/// The replies to the first batch.
static TOLD: &str = "{\"from\":\"red/c1\",\"id\":1,\"ok\":3}\n";

/// Fails and shows both texts, if they differ.
pub fn same(found: &[u8], wanted: &str) -> Result<(), Fail> {
    if found == wanted.as_bytes() {
        return Ok(());
    }
    Err(Fail::new(format_args!("{found:?} in place of {wanted}")))
}

/// Fails if it doesn't hold.
pub fn holds(what: &str, it: bool) -> Result<(), Fail> {
    if it {
        return Ok(());
    }
    Err(Fail::new(format_args!("{what}")))
}

fn put_numbers(words: &mut Vec<u8>) -> Result<(), AllocError> {
    push_number(words, b"kinds", 2)?;
    push_number(words, b"sends", 1_000)?;
    push_number(words, b"age", 900_000)
}

fn put_names(words: &mut Vec<u8>) -> Result<(), AllocError> {
    push_kind(words, b"counter", 1_000)?;
    push_tenant(words, b"red", 2, 4)?;
    push_tenant(words, b"blue", 1, 1)
}

fn words(alloc: Global) -> Result<Vec<u8>, Fail> {
    let mut words = Vec::new(alloc);
    put_numbers(&mut words)?;
    put_names(&mut words)?;
    Ok(words)
}

/// The head of these words.
fn head(alloc: Global, words: &[u8]) -> Result<Vec<u8>, Fail> {
    let mut text = Vec::new(alloc);
    push_head(&mut text, words, NUMBER)?;
    Ok(text)
}

#[test]
fn a_head_has_this_text(rt: HostRuntime) -> Result<(), Fail> {
    let words = words(rt.alloc())?;
    same(&words, WORDS)?;
    same(&head(rt.alloc(), &words)?, HEAD)
}

fn put_line(text: &mut Vec<u8>, line: &str) -> Result<(), Fail> {
    Ok(push_line(text, line.as_bytes())?)
}

/// Adds the mark of a batch: the sum after it.
fn put_mark(text: &mut Vec<u8>, sum: u64, told: u64) -> Result<u64, Fail> {
    Ok(push_mark(text, NAME, sum, told)?)
}

fn sum_behind(sum: u64, text: &str) -> u64 {
    sum_after(sum, text.as_bytes())
}

fn put_first(text: &mut Vec<u8>, told: u64) -> Result<u64, Fail> {
    put_line(text, CALL)?;
    put_line(text, STATUS)?;
    put_mark(text, sum_behind(0, HEAD), told)
}

fn put_second(text: &mut Vec<u8>, sum: u64, told: u64) -> Result<u64, Fail> {
    put_line(text, TICK)?;
    put_mark(text, sum, sum_behind(told, ""))
}

/// The batches that are written into this text, one after the other, are those above.
fn are_batches(text: &mut Vec<u8>) -> Result<(), Fail> {
    let told = sum_behind(0, TOLD);
    let sum = put_first(text, told)?;
    same(text.as_slice(), FIRST)?;
    text.clear();
    put_second(text, sum, told)?;
    same(text.as_slice(), SECOND)
}

#[test]
fn batches_have_this_text(rt: HostRuntime) -> Result<(), Fail> {
    are_batches(&mut Vec::new(rt.alloc()))
}

/// The number of the head and what follows it, if its words are these.
fn cut(words: &str, text: &'static str) -> Option<(&'static [u8], &'static [u8])> {
    cut_head(words.as_bytes(), text.as_bytes())
}

fn is_log_text(text: &str) -> bool {
    is_log(text.as_bytes())
}

#[test]
fn a_head_is_cut_off() -> Result<(), Fail> {
    let Some((number, behind)) = cut(WORDS, HEAD) else {
        return Err(Fail::from("the head isn't read"));
    };
    same(number, "0123456789abcdef")?;
    same(behind, "")?;
    holds("other words", cut("kinds 1\n", HEAD).is_none())?;
    holds("a log", is_log_text(HEAD))?;
    holds("another form", !is_log_text("silo-log 2\n"))
}

fn batch(sum: u64, text: &'static str) -> Option<NextBatch<'static>> {
    next_batch(NAME, sum, text.as_bytes())
}

/// Whether these are the digits of the sum of the replies to the first batch.
fn is_told(told: &[u8]) -> bool {
    told == spell(sum_after(0, TOLD.as_bytes())).as_slice()
}

/// What is asked first is the first line of the first batch, and the other follows.
fn are_asked(asked: &[u8]) -> Result<(), Fail> {
    let Some((line, others)) = next_asked(asked) else {
        return Err(Fail::from("the first line isn't read"));
    };
    same(line, CALL)?;
    same(others, BEHIND_CALL)
}

fn is_first(first: NextBatch<'_>) -> Result<(), Fail> {
    same(first.behind, "")?;
    holds("told", is_told(first.told))?;
    are_asked(first.asked)
}

/// The second batch is read at this sum, and not at the one after it.
fn second_is_read(sum: u64) -> Result<(), Fail> {
    let Some(second) = batch(sum, SECOND) else {
        return Err(Fail::from("the second batch isn't read"));
    };
    same(second.behind, "")?;
    holds("another place", batch(second.sum, SECOND).is_none())
}

#[test]
fn batches_are_read() -> Result<(), Fail> {
    let Some(first) = batch(sum_behind(0, HEAD), FIRST) else {
        return Err(Fail::from("the first batch isn't read"));
    };
    is_first(first)?;
    second_is_read(first.sum)
}

/// Writes `1` at the place of the first digit of the head's sum or number that stands so far before its end.
fn change(head: &mut Vec<u8>, before_end: usize) -> Result<(), Fail> {
    let place = head.len().saturating_sub(before_end);
    match head.get_mut(place) {
        Some(byte) => {
            *byte = b'1';
            Ok(())
        }
        None => Err(Fail::from("no number")),
    }
}

fn is_no_head(bytes: &[u8]) -> bool {
    cut_head(WORDS.as_bytes(), bytes).is_none()
}

#[test]
fn a_changed_number_is_seen(rt: HostRuntime) -> Result<(), Fail> {
    let mut head = Vec::from_slice(rt.alloc(), HEAD.as_bytes())?;
    change(&mut head, 34)?;
    holds("no head", is_no_head(&head))
}

/// Ends of logs and how many lines come before the one at fault, if one is.
static ENDS: [(&str, &str, Option<usize>); 4] = [
    // An end that is cut off.
    ("cut", "+{}\n\n=01234567 0000000000000005 0 0\n", None),
    // Two that are refused at their third line: for a second mark, and for one in another place.
    (
        "two",
        "+{}\n+{}\n=01234567 0000000000000008 0 0\n=89abcdef 0 0\n=01234567 0 0\n",
        Some(2),
    ),
    (
        "moved",
        "+{}\n+{}\n=01234567 0000000000000004 0 0\n",
        Some(2),
    ),
    // The first batch, whose mark has another first byte, and the second batch after it.
    (
        "lost",
        "+{\"op\":\"call\",\"from\":\"red/c1\",\"id\":1}
+{\"op\":\"status\",\"from\":\"red/c1\",\"id\":2}
-01234567 000000000000004e 81fdff9c66986f82 b840605d01797f11
+{\"op\":\"tick\",\"now\":5}
=01234567 0000000000000017 3f7f4ce40a3a6940 4afd8d8f46f55b2b
",
        Some(2),
    ),
];

fn fault_of(end: &str) -> Option<usize> {
    fault_behind(NAME, end.as_bytes())
}

#[test]
fn ends_are_cut_off_or_refused() -> Result<(), Fail> {
    for (what, end, fault) in &ENDS {
        holds(*what, fault_of(*end) == *fault)?;
    }
    Ok(())
}
