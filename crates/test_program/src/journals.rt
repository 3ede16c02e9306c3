//! The journal that is kept, audited and migrated: statuses, texts, and what stands in the file.

use crate::runs::{file_of, left_by};
use grain_kinds::newest;
use silo_program::MemoryFile;
use std::alloc::Global;
use std::random::RandomSource;
use std::sync::Wait;
use std::test::Fail;
use std::thread::Threads;

/// A counter is asked to add 3.
const CALL: &str =
    "{\"from\":\"red/c1\",\"id\":1,\"op\":\"call\",\"grain\":\"counter/red:a\",\"method\":\"add\",\"args\":{\"by\":3}}\n";

/// What it answers.
const ANSWER: &str = "{\"from\":\"red/c1\",\"id\":1,\"ok\":3}\n";

/// It is asked to rest.
const REST: &str =
    "{\"from\":\"red/c1\",\"id\":1,\"op\":\"call\",\"grain\":\"counter/red:a\",\"method\":\"rest\"}\n";

/// What it answers.
const RESTS: &str = "{\"from\":\"red/c1\",\"id\":1,\"ok\":null}\n";

/// The journal of the call to add.
const JOURNAL: &str =
    "silo-journal 3\nkinds 2\nage 900000\ntenant red 2 4\ncall red/c1 1 counter/red:a 02000000036164640600000001000000026279030000000000000003\nactivate counter/red:a\nload counter/red:a ok\nbegin counter/red:a\nend counter/red:a 1\nreply red/c1 1 ok 030000000000000003\nclose 5\n";

/// The same with another digit at the end of the reply.
const CHANGED: &str =
    "silo-journal 3\nkinds 2\nage 900000\ntenant red 2 4\ncall red/c1 1 counter/red:a 02000000036164640600000001000000026279030000000000000003\nactivate counter/red:a\nload counter/red:a ok\nbegin counter/red:a\nend counter/red:a 1\nreply red/c1 1 ok 030000000000000004\nclose 5\n";

/// The same without its last line.
const CUT: &str =
    "silo-journal 3\nkinds 2\nage 900000\ntenant red 2 4\ncall red/c1 1 counter/red:a 02000000036164640600000001000000026279030000000000000003\nactivate counter/red:a\nload counter/red:a ok\nbegin counter/red:a\nend counter/red:a 1\nreply red/c1 1 ok 030000000000000003\n";

/// The journal of the call to add, in the first form.
const OLD: &str =
    "silo-journal 1\nage 900000\ntenant red 2 4\ncall red/c1 1 counter/red:a 01000000036164640600000001000000026279030000000000000003\nactivate counter/red:a\nload counter/red:a ok\nbegin counter/red:a\nend counter/red:a 1\nreply red/c1 1 ok 030000000000000003\nclose 5\n";

/// The same, migrated.
const MIGRATED: &str =
    "silo-journal 3\nkinds 1\nage 900000\ntenant red 2 4\ncall red/c1 1 counter/red:a 02000000036164640600000001000000026279030000000000000003\nactivate counter/red:a\nload counter/red:a ok\nbegin counter/red:a\nend counter/red:a 1\nreply red/c1 1 ok 030000000000000003\nclose 5\n";

/// The journal of the call to add, in the second form.
const SECOND: &str =
    "silo-journal 2\nkinds 2\nage 900000\ntenant red 2 4\ncall red/c1 1 counter/red:a 01000000036164640600000001000000026279030000000000000003\nactivate counter/red:a\nload counter/red:a ok\nbegin counter/red:a\nend counter/red:a 1\nreply red/c1 1 ok 030000000000000003\nclose 5\n";

/// The journal of no call.
const EMPTY: &str = "silo-journal 3\nkinds 2\nage 900000\ntenant red 2 4\nclose 0\n";

/// The same where a kind has an age of its own.
const AGED: &str = "silo-journal 3\nkinds 2\nage 900000\nkind sheet 9\ntenant red 2 4\nclose 0\n";

/// The journal of a counter that is asked to rest, and that goes then.
const RESTED: &str =
    "silo-journal 3\nkinds 2\nage 900000\ntenant red 2 4\ncall red/c1 1 counter/red:a 02000000047265737400\nactivate counter/red:a\nload counter/red:a ok\nbegin counter/red:a\nend counter/red:a 1\nreply red/c1 1 ok 00\nclose 5\n";

/// The text, with the number of the newest version in the place of the second's.
fn of_newest(alloc: Global, text: &str) -> Result<String, Fail> {
    let newest = newest();
    let line = format!(in alloc; "kinds {newest}\n")?;
    Ok(text.replace(alloc, "kinds 2\n", line.as_str())?)
}

/// Whether the bytes are that text.
fn are_text(alloc: Global, bytes: &[u8], text: &str) -> Result<bool, Fail> {
    let wanted = of_newest(alloc, text)?;
    Ok(bytes == wanted.as_bytes())
}

/// A file at `j` that has that text.
fn file_of_newest(alloc: Global, text: &str) -> Result<MemoryFile, Fail> {
    let text = of_newest(alloc, text)?;
    file_of(alloc, text.as_str())
}

/// A run of the program: its words, with the program's name first and a space between each two; the input; and what the file at
/// `j` has before it. Then its status, and what the file, the output and the errors have after it.
type Run = (
    &'static str,
    &'static str,
    &'static str,
    u8,
    &'static str,
    &'static str,
    &'static str,
);

static RUNS: [Run; 28] = [
    (
        "silo serve --workers 1 --journal j red:2:4",
        CALL,
        "old",
        0,
        JOURNAL,
        ANSWER,
        "",
    ),
    (
        "silo serve --workers 1 red:2:4",
        CALL,
        "old",
        0,
        "old",
        ANSWER,
        "",
    ),
    (
        "silo serve --journal k red:2:4",
        CALL,
        "old",
        1,
        "old",
        "",
        "silo: writing failed\n",
    ),
    (
        "silo serve --journal j red:0:4",
        CALL,
        "old",
        2,
        "old",
        "",
        "silo: tenant argument 1 is refused\n",
    ),
    (
        "silo answer --journal j red:2:4",
        CALL,
        "old",
        0,
        JOURNAL,
        ANSWER,
        "",
    ),
    (
        "silo answer --sends 0 red:2:4",
        CALL,
        "old",
        0,
        "old",
        ANSWER,
        "",
    ),
    (
        "silo answer --journal j red:2:4",
        "",
        "old",
        0,
        EMPTY,
        "",
        "",
    ),
    (
        "silo answer --journal k red:2:4",
        CALL,
        "old",
        1,
        "old",
        "",
        "silo: writing failed\n",
    ),
    (
        "silo answer --journal j red:0:4",
        CALL,
        "old",
        2,
        "old",
        "",
        "silo: tenant argument 1 is refused\n",
    ),
    (
        "silo answer --journal j red:2:4",
        REST,
        "old",
        0,
        RESTED,
        RESTS,
        "",
    ),
    (
        "silo answer --ages sheet=9 --journal j red:2:4",
        "",
        "old",
        0,
        AGED,
        "",
        "",
    ),
    (
        "silo answer --ages sheet=09 --journal j red:2:4",
        CALL,
        "old",
        2,
        "old",
        "",
        "silo: ages are refused\n",
    ),
    (
        "silo serve --ages sheet=9,sheet=8 --journal j red:2:4",
        CALL,
        "old",
        2,
        "old",
        "",
        "silo: ages are refused\n",
    ),
    (
        "silo serve --ages sheet=0 --journal j red:0:4",
        CALL,
        "old",
        2,
        "old",
        "",
        "silo: tenant argument 1 is refused\n",
    ),
    (
        "silo steps --ages  red:2:4",
        CALL,
        "old",
        2,
        "old",
        "",
        "silo: ages are refused\n",
    ),
    (
        "silo audit j",
        "",
        JOURNAL,
        0,
        JOURNAL,
        "tenant red: 5 steps, 1 replies, 0 rows\n",
        "",
    ),
    (
        "silo audit j",
        "",
        OLD,
        0,
        OLD,
        "tenant red: 5 steps, 1 replies, 0 rows\n",
        "",
    ),
    (
        "silo audit j",
        "",
        RESTED,
        0,
        RESTED,
        "tenant red: 5 steps, 1 replies, 0 rows\n",
        "",
    ),
    (
        "silo audit j",
        "",
        CHANGED,
        3,
        CHANGED,
        "tenant red: reply 1 differs\n",
        "",
    ),
    (
        "silo audit j",
        "",
        CUT,
        4,
        CUT,
        "",
        "silo: journal line 11 is refused\n",
    ),
    (
        "silo audit k",
        "",
        JOURNAL,
        1,
        JOURNAL,
        "",
        "silo: reading failed\n",
    ),
    (
        "silo audit j",
        "",
        SECOND,
        0,
        SECOND,
        "tenant red: 5 steps, 1 replies, 0 rows\n",
        "",
    ),
    ("silo migrate j", "", OLD, 0, OLD, MIGRATED, ""),
    ("silo migrate j", "", SECOND, 0, SECOND, JOURNAL, ""),
    ("silo migrate j", "", JOURNAL, 0, JOURNAL, JOURNAL, ""),
    ("silo migrate j", "", CHANGED, 0, CHANGED, CHANGED, ""),
    (
        "silo migrate j",
        "",
        CUT,
        4,
        CUT,
        "",
        "silo: journal line 11 is refused\n",
    ),
    (
        "silo migrate k",
        "",
        JOURNAL,
        1,
        JOURNAL,
        "",
        "silo: reading failed\n",
    ),
];

/// Whether the run leaves what it should.
fn leaves<H: AllocGlobal + RandomSource + Threads + Wait + Sync>(
    rt: &H,
    run: &Run,
) -> Result<bool, Fail> {
    let (words, input, before, status, after, told, failed) = *run;
    let alloc = rt.alloc();
    let mut files = file_of_newest(alloc, before)?;
    let left = left_by(rt, words, input, &mut files)?;
    let same = left.status == status && left.errors.as_slice() == failed.as_bytes();
    Ok(
        same && are_text(alloc, files.bytes.as_slice(), after)?
            && are_text(alloc, left.output.as_slice(), told)?,
    )
}

#[test]
fn a_journal_is_kept_audited_and_migrated(rt: HostRuntime) -> Result<(), Fail> {
    for run in &RUNS {
        assert!(rt; leaves(&rt, run)?);
    }
    Ok(())
}
