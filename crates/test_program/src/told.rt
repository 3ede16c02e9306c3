//! What is printed on standard error about the lines that were served.

use crate::runs::{file_of, left_by};
use std::random::RandomSource;
use std::sync::Wait;
use std::test::Fail;
use std::thread::Threads;

/// A counter is asked to add 3; an empty line; what is no request; a step that serving takes none of; and a method that
/// there isn't.
static LINES: &str = concat!(
    r#"{"op":"call","from":"red/c1","id":1,"grain":"counter/red:a","method":"add","args":{"by":3}}"#,
    "\n\nx\n",
    r#"{"op":"activate","grain":"counter/red:a"}"#,
    "\n",
    r#"{"op":"call","from":"red/c1","id":2,"grain":"counter/red:a","method":"nope"}"#,
    "\n"
);

/// What they are answered.
static ANSWERS: &str = concat!(
    r#"{"error":10,"text":"line is not a request"}"#,
    "\n",
    r#"{"error":10,"text":"line is not a request"}"#,
    "\n",
    r#"{"from":"red/c1","id":1,"ok":3}"#,
    "\n",
    r#"{"error":60,"from":"red/c1","id":2,"text":"method is unknown"}"#,
    "\n"
);

/// Which of them made no step.
static REASONS: &str =
    "silo: line 3: line is not a request\nsilo: line 4: step is not one of silo serve\n";

/// How many there are of what.
static COUNTS: &str =
    "silo: lines: 5\nsilo: answers: 1\nsilo: refusals 10: 2\nsilo: refusals 60: 1\nsilo: steps: 8\n";

/// Both.
static BOTH: &str = concat!(
    "silo: line 3: line is not a request\nsilo: line 4: step is not one of silo serve\n",
    "silo: lines: 5\nsilo: answers: 1\nsilo: refusals 10: 2\nsilo: refusals 60: 1\nsilo: steps: 8\n"
);

/// Whether these words serve the lines well, with the same answers, and print this text on standard error.
fn tells<H: AllocGlobal + RandomSource + Threads + Wait + Sync>(
    rt: &H,
    words: &str,
    told: &str,
) -> Result<bool, Fail> {
    let mut files = file_of(rt.alloc(), "old")?;
    let left = left_by(rt, words, LINES, &mut files)?;
    let answered = left.output.as_slice() == ANSWERS.as_bytes();
    Ok(left.status == 0 && answered && left.errors.as_slice() == told.as_bytes())
}

#[test]
fn lines_are_told_and_counted_if_that_is_asked_for(rt: HostRuntime) -> Result<(), Fail> {
    assert!(rt; tells(&rt, "silo serve red:2:4", "")?);
    assert!(rt; tells(&rt, "silo serve --explain-lines red:2:4", REASONS)?);
    assert!(rt; tells(&rt, "silo serve --summary red:2:4", COUNTS)?);
    assert!(rt; tells(&rt, "silo serve --summary --explain-lines red:2:4", BOTH)?);
    Ok(())
}
