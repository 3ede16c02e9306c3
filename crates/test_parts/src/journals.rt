//! Whole journals, read, written and migrated; wrong lines, and lines of each form.

use crate::ages::put_ages;
use crate::compare::are_bytes;
use crate::journal_texts::text_of;
use crate::rows::{Fields, Subject, hold, put, show, tell};
use crate::values::{caller, read_state, spelled, tenant};
use journal_text::{
    Journal, JournalFault, JournalParts, RecordedReply, journal_of_parts, migrate_journal,
    read_journal,
};
use silo_event::{Fault, Party, Reply};
use std::alloc::{AllocError, Global};
use std::test::Fail;

/// Journals that are right or wrong: see `text_of`. In a row `\n` and `\r` stand for the ends of lines.
static VERDICTS: &str = r#"
# The line at fault, or 0 for a journal.
verdict | each kind | 0
bytes | ff0a | 1

# A part of a journal, what stands in its place, and the line at fault.
change | worked | tenant red 2 4 | tenant red 02 4 | 3
change | worked | 030000000000000003\na | 03000000000000000A\na | 4
change | worked | reply red/c1 1 ok 030000000000000003 | reply red/c1 1 no 99 x | 9
change | worked | close 5 | close 6 | 10
change | worked | silo-journal 1 | silo-journal 2 | 2
change | worked | silo-journal 1\n | silo-journal 3\nkinds 1\n | 5
change | worked |  01000000 |  02000000 | 4
change | worked | silo-journal 1 | silo-journal 4 | 1
change | worked | age 900000 | age 0 | 2
change | worked | tenant red 2 4\n |  | 3
change | worked | tenant red 2 4\n | tenant red 2 4\ntenant red 1 1\n | 4
change | worked | activate | reply red/c1 1 no 70 x\nactivate | 6
change | worked | close 5\n | row counter/red:b 1 -\nrow counter/red:a 1 -\nclose 5\n | 11
change | worked | close 5\n | row counter/red:a 1 -\nrow counter/red:a 2 -\nclose 5\n | 11
change | worked | reply | row counter/red:a 1 -\nreply | 10
change | worked | close 5\n | close 5\n\n | 11
change | worked | close 5\n | close 5\nclose 5\n | 11
change | worked | close 5\n | \nclose 5\n | 10
change | worked | close 5\n | close 5\r\n | 10
change | worked | age 900000\n | age 900000\nage 900000\n | 3
change | served | close 5\n |  | 11

# The same of a journal of the second form.
change | second | kinds 2\n |  | 2
change | second | kinds 2\n | kinds 2\nkinds 2\n | 3
change | second | kind counter 10\n |  | 0
change | second | kind sheet 86400000\n | kind counter 10\n | 5
change | second | kind counter 10\n | kind sheet 10\n | 5
change | second | tick 7\n | kind sheet 10\ntick 7\n | 7
change | second | silo-journal 2\nkinds 2\n | silo-journal 1\n | 3
change | second | close 1\n |  | 8

# What is no journal is not migrated.
migrating | worked | tenant red 2 4 | tenant red 02 4 | 3
"#;

/// What journals say, and what is written of them.
static WRITTEN: &str = r#"
# The kinds, the age, the ages of kinds, and how many tenants there are.
head | second | 2;900000;counter;10;sheet;86400000;1
head | worked | 1;900000;1

# What the last reply tells. A journal is written in the third form, if that reply is given again.
written | worked | three | red;9;bytes;true
written | served | three | red;9;bytes;true
written | fault | unknown | blue;21;tenant blue is unknown;true
written | second | none | nobody;true

# Journals are migrated to the third form, which stays.
migrated | worked | worked now | true
migrated | worked now | worked now | true
migrated | with bytes | with bytes | true
changed | two tenants | (true, true)
changed | each kind | (true, true)
changed | second | (true, true)
"#;

/// Journals that take longer.
static LONG: &str = r#"
# A journal has 64 ages of kinds at most: the kinds from `k10` to the one before this have an age of their own.
kinds | 74 | 0
kinds | 75 | 68

# A cut is at the first line that is not whole, also if it is to be migrated: how many are not.
cuts | worked | 0
"#;

/// Lines at a place of a journal that ends after them: see `text_of`. How far after the place the line at fault is: such a
/// journal has no close, so a line that is taken makes the next one the line at fault.
static LINES: &str = "
# Lines that have a form.
head | silo-journal 1 | 2
head | silo-journal 2 | 2
kinds | kinds 1 | 2
kinds | kinds 2 | 2
kinds | kinds 255 | 2
kind | kind counter 10 | 2
kind | kind k-9 86400000 | 2
kind | tenant red 2 4 | 2
next kind | kind sheet-2 1 | 2
next kind | kind z 1 | 2
next kind | tenant red 2 4 | 2
age | age 900000 | 2
age | age 1 | 2
age | age 86400000 | 2
tenant | tenant red 2 4 | 2
tenant | tenant red 10000 1000 | 2
body | call red/c1 1 counter/red:a 01000000036164640600000001000000026279030000000000000003 | 2
body | refuse red/c1 0 11 | 2
body | poke red/c1 9223372036854775807 sheet/red:s failed 0600000000 | 2
body | status blue/c1 1 | 2
body | activate counter/red:a | 2
body | load counter/red:a ok | 2
body | load counter/red:a failed | 2
body | begin counter/red:a | 2
body | store counter/red:a 7 ok | 2
body | store counter/red:a 7 failed | 2
body | end counter/red:a 1 | 2
body | abandon counter/red:a 7 | 2
body | deliver relay/red:r | 2
body | tick 10 | 2
body | sweep | 2
body | reply red/c1 1 ok 030000000000000003 | 2
body | reply blue/c1 1 no 21 tenant blue is unknown | 2
body | reply counter/red:a - no 61 arguments do not fit | 2
body | reply counter/red:a - ok 00 | 2
body | reply red/c1 1 no 10   | 2
body | row counter/red:a 1 030000000000000003 | 2
body | row counter/red:a 18446744073709551615 - | 2
body | tenant blue 1 1 | 2
body | tick 9223372036854775807 | 2
head | silo-journal 3 | 2
body | call red/c1 1 counter/red:a 01000000016100 | 2
second body | call red/c1 1 counter/red:a 01000000016100 | 2
third body | call red/c1 1 counter/red:a 02000000016100 | 2
# A map whose one name is the name of bytes in JSON.
second body | row counter/red:a 1 0600000001000000042468657804000000023030 | 2
# What the third form has alone: 14, and bytes among values.
third body | refuse red/c1 1 14 | 2
third body | reply red/c1 1 no 14 bytes are not well formed | 2
third body | call red/c1 1 counter/red:a 020000000161070000000200ff | 2
third body | poke red/c1 1 sheet/red:s ok 0700000000 | 2
third body | reply red/c1 1 ok 070000000200ff | 2
third body | row counter/red:a 1 05000000010700000000 | 2

# Lines that have none.
head |  | 1
head | silo-journal 4 | 1
head | silo-journal 0 | 1
head | silo-journal 01 | 1
kinds | kinds 0 | 1
kinds | kinds 256 | 1
kinds | kinds 01 | 1
kinds | kinds | 1
kinds | age 1 | 1
kinds | kind counter 10 | 1
age | kinds 1 | 1
tenant | kind counter 10 | 1
kind | kinds 2 | 1
kind | age 1 | 1
kind | kind counter 0 | 1
kind | kind counter 86400001 | 1
kind | kind counter 01 | 1
kind | kind counter | 1
kind | kind Counter 10 | 1
kind | kind  10 | 1
kind | sweep | 1
next kind | kind sheet 5 | 1
next kind | kind relay 5 | 1
next kind | kind shee 5 | 1
head | silo-journal | 1
age | age 0 | 1
age | age 86400001 | 1
age | age 01 | 1
age | age +1 | 1
age | age 1  | 1
age | age  1 | 1
age |  age 1 | 1
tenant | tenant red 02 4 | 1
tenant | tenant red 10001 4 | 1
tenant | tenant red 1 | 1
tenant | tenant Red 1 1 | 1
body |   | 1
body | call red/c1 1 counter/red:a 0100000003616464060000000100000002627903000000000000000A | 1
body | call red/c1 1 counter/red:a 010000000361646406000000010000000262790300000000000000 | 1
body | call red/c1 9223372036854775808 counter/red:a 01000000016100 | 1
body | refuse red/c1 1 10 | 1
body | refuse red/c1 1 21 | 1
body | sweep  | 1
body | tick -1 | 1
body | tick 9223372036854775808 | 1
body | reply red/c1 1 no 99 x | 1
body | reply red/c1 1 no 21  | 1
body | reply red/c1 - ok 00 | 1
body | row counter/red:a 0 00 | 1
body | row counter/red:a 18446744073709551616 00 | 1
body | row counter/red:a 1  | 1
body | close | 1
head | silo-journal 03 | 1
# A message of another form.
body | call red/c1 1 counter/red:a 02000000016100 | 1
second body | call red/c1 1 counter/red:a 02000000016100 | 1
third body | call red/c1 1 counter/red:a 01000000016100 | 1
third body | call red/c1 1 counter/red:a 03000000016100 | 1
# What the third form has alone.
body | refuse red/c1 1 14 | 1
second body | refuse red/c1 1 14 | 1
body | reply red/c1 1 no 14 bytes are not well formed | 1
second body | reply red/c1 1 no 14 bytes are not well formed | 1
body | call red/c1 1 counter/red:a 0100000001610700000000 | 1
second body | call red/c1 1 counter/red:a 0100000001610700000000 | 1
body | poke red/c1 1 sheet/red:s ok 0700000000 | 1
second body | poke red/c1 1 sheet/red:s ok 05000000010700000000 | 1
body | reply red/c1 1 ok 070000000200ff | 1
second body | reply red/c1 1 ok 070000000200ff | 1
body | row counter/red:a 1 05000000010700000000 | 1
second body | row counter/red:a 1 0700000000 | 1
third body | refuse red/c1 1 15 | 1
third body | reply red/c1 1 no 15 x | 1
third body | row counter/red:a 1 0700000001 | 1
";

/// The line at fault in bytes, or 0 for a journal.
fn verdict(alloc: Global, bytes: &[u8]) -> Result<usize, Fail> {
    match read_journal(alloc, bytes) {
        Ok(_) => Ok(0),
        Err(JournalFault::At { line }) => Ok(line),
        Err(JournalFault::Memory) => Err(Fail::from(AllocError)),
    }
}

/// The line at fault in bytes that are to be migrated, or 0.
fn migrating_verdict(alloc: Global, bytes: &[u8]) -> Result<usize, Fail> {
    match migrate_journal(alloc, bytes) {
        Ok(_) => Ok(0),
        Err(JournalFault::At { line }) => Ok(line),
        Err(JournalFault::Memory) => Err(Fail::from(AllocError)),
    }
}

/// How far after a place the line at fault is, if this line stands there.
fn lines_behind(alloc: Global, before: &str, line: &str) -> Result<usize, Fail> {
    let text = format!(in alloc; "{before}{line}\n")?;
    Ok(verdict(alloc, text.as_bytes())?.saturating_sub(before.lines().count()))
}

/// Lines of a journal.
#[derive(Clone, Copy)]
struct Lines;

impl Subject for Lines {
    fn answer(
        &mut self,
        alloc: Global,
        call: &str,
        fields: &mut Fields<'_>,
        out: &mut String,
    ) -> Result<(), Fail> {
        tell(out, lines_behind(alloc, text_of(call)?, fields.text()))
    }
}

#[test]
fn lines_have_a_form_or_are_at_fault(rt: HostRuntime) -> Result<(), Fail> {
    hold(rt.alloc(), &mut Lines, LINES)
}

/// The text that fields spell.
fn unescaped(alloc: Global, fields: &str) -> Result<String, Fail> {
    Ok(
        fields
            .replace(alloc, "\\n", "\n")?
            .replace(alloc, "\\r", "\r")?,
    )
}

/// A journal with one part in place of another.
fn replaced(alloc: Global, fields: &mut Fields<'_>) -> Result<String, Fail> {
    let spelled = unescaped(alloc, fields.rest())?;
    let mut fields = Fields::of(&spelled);
    let text = text_of(fields.text())?;
    let old = fields.text();
    Ok(text.replace(alloc, old, fields.text())?)
}

/// Whether bytes are refused at this line, as they stand and where they are to be migrated.
fn is_at(alloc: Global, bytes: &[u8], line: usize) -> Result<bool, Fail> {
    let found = verdict(alloc, bytes)?;
    Ok(migrating_verdict(alloc, bytes)? == line && found == line)
}

/// How many cuts aren't refused at their first line that is not whole.
fn wrong_cuts(alloc: Global, bytes: &[u8]) -> Result<usize, Fail> {
    let (mut line, mut wrong) = (1_usize, 0_usize);
    for end in 0..bytes.len() {
        if !is_at(alloc, &bytes[..end], line)? {
            wrong = wrong.saturating_add(1);
        }
        if bytes[end] == b'\n' {
            line = line.saturating_add(1);
        }
    }
    Ok(wrong)
}

/// Adds the kinds from `k10` to the one before this.
fn put_kinds(text: &mut String, end: u64) -> Result<(), Fail> {
    for number in 10..end {
        write!(text, "kind k{number} 1\n")?;
    }
    Ok(())
}

/// A journal in which the kinds from `k10` to the one before this have an age of their own.
fn with_kinds(alloc: Global, end: u64) -> Result<String, Fail> {
    let mut text = String::new(alloc);
    text.push_str("silo-journal 2\nkinds 1\nage 1\n")?;
    put_kinds(&mut text, end)?;
    text.push_str("tenant red 1 1\nclose 0\n")?;
    Ok(text)
}

/// The journal of a text.
fn journal(alloc: Global, text: &str) -> Result<Journal, Fail> {
    Ok(read_journal(alloc, text.as_bytes())?)
}

fn put_numbers(kinds: u8, age: u64, out: &mut String) -> Result<(), Fail> {
    write!(out, "{kinds};{age};")?;
    Ok(())
}

fn put_head(journal: &Journal, out: &mut String) -> Result<(), Fail> {
    put_numbers(journal.kinds(), journal.age().millis(), out)?;
    put_ages(journal.ages().list(), out)?;
    show(out, journal.tenants().len())
}

fn put_head_of(alloc: Global, text: &str, out: &mut String) -> Result<(), Fail> {
    put_head(&journal(alloc, text)?, out)
}

fn put_told(tenant: &str, number: usize, text: &str, out: &mut String) -> Result<(), Fail> {
    write!(out, "{tenant};{number};{text};")?;
    Ok(())
}

/// What a reply says: its tenant, and the code and the text of a fault, or how many bytes a value has.
fn put_reply(reply: &RecordedReply, out: &mut String) -> Result<(), Fail> {
    let tenant = reply.recipient.tenant();
    match &reply.outcome {
        Ok(value) => put_told(tenant, value.bytes().len(), "bytes", out),
        Err(fault) => put_told(tenant, fault.code() as usize, fault.text(), out),
    }
}

/// The journal with these replies in place of its own, written.
fn written(alloc: Global, journal: &Journal, replies: &[Reply]) -> Result<Vec<u8>, Fail> {
    let parts = JournalParts {
        kinds: journal.kinds(),
        age: journal.age().millis(),
        ages: journal.ages().list(),
        tenants: journal.tenants(),
        steps: journal.steps(),
        replies,
        rows: journal.rows(),
    };
    Ok(journal_of_parts(alloc, parts)?)
}

/// The value 3, for `red/c1`.
fn three(alloc: Global) -> Result<Reply, Fail> {
    let value = read_state(alloc, b"\x03\0\0\0\0\0\0\0\x03")?;
    Ok(Reply {
        recipient: Party::Client(caller(alloc, "red/c1")?, 1),
        outcome: Ok(value),
    })
}

/// That `blue` is unknown, for `blue/c1`.
fn unknown(alloc: Global) -> Result<Reply, Fail> {
    let tenant = tenant(alloc, "blue")?;
    Ok(Reply {
        recipient: Party::Client(caller(alloc, "blue/c1")?, 1),
        outcome: Err(Fault::UnknownTenant(tenant)),
    })
}

fn list_of(alloc: Global, reply: Result<Reply, Fail>) -> Result<Vec<Reply>, Fail> {
    Ok(vec![in alloc; reply?]?)
}

/// The one reply of a word, or none.
fn replies(alloc: Global, word: &str) -> Result<Vec<Reply>, Fail> {
    match word {
        "three" => list_of(alloc, three(alloc)),
        "unknown" => list_of(alloc, unknown(alloc)),
        _ => Ok(Vec::new(alloc)),
    }
}

/// The text of the third form of a journal of an older one, in which each message is the last field of its line.
fn in_third_form(alloc: Global, text: &str) -> Result<String, Fail> {
    let first = text.replace(alloc, "silo-journal 1\n", "silo-journal 3\nkinds 1\n")?;
    let second = first.replace(alloc, "silo-journal 2\n", "silo-journal 3\n")?;
    Ok(second.replace(alloc, " 01000000", " 02000000")?)
}

fn put_last_reply(journal: &Journal, out: &mut String) -> Result<(), Fail> {
    match journal.replies().last() {
        Some(reply) => put_reply(reply, out),
        None => put(out, "nobody"),
    }
}

/// Whether the journal is written as the third form of its text with the replies of a word.
fn is_written(alloc: Global, journal: &Journal, text: &str, word: &str) -> Result<bool, Fail> {
    let replies = replies(alloc, word)?;
    let found = written(alloc, journal, &replies)?;
    Ok(are_bytes(&found, in_third_form(alloc, text)?.as_bytes()))
}

/// What the last reply says, and whether the journal is so written.
fn put_journal(
    alloc: Global,
    journal: &Journal,
    text: &str,
    word: &str,
    out: &mut String,
) -> Result<(), Fail> {
    put_last_reply(journal, out)?;
    tell(out, is_written(alloc, journal, text, word))
}

/// The same of a journal that is yet to be read.
fn put_written(alloc: Global, text: &str, word: &str, out: &mut String) -> Result<(), Fail> {
    put_journal(alloc, &journal(alloc, text)?, text, word, out)
}

/// Whether the text is migrated to this one.
fn is_migrated(alloc: Global, old: &str, new: &str) -> Result<bool, Fail> {
    Ok(are_bytes(&migrate_journal(alloc, old.as_bytes())?, new.as_bytes()))
}

/// Whether the text is migrated to that of the third form, and whether that stays.
fn is_changed(alloc: Global, old: &str) -> Result<(bool, bool), Fail> {
    let new = in_third_form(alloc, old)?;
    let stays = is_migrated(alloc, &new, &new)?;
    Ok((is_migrated(alloc, old, &new)?, stays))
}

fn verdict_of_named(alloc: Global, name: &str) -> Result<usize, Fail> {
    verdict(alloc, text_of(name)?.as_bytes())
}

fn wrong_cuts_of(alloc: Global, name: &str) -> Result<usize, Fail> {
    wrong_cuts(alloc, text_of(name)?.as_bytes())
}

fn verdict_of_bytes(alloc: Global, bytes: Result<Vec<u8>, Fail>) -> Result<usize, Fail> {
    verdict(alloc, &bytes?)
}

fn verdict_of_text(alloc: Global, text: Result<String, Fail>) -> Result<usize, Fail> {
    verdict(alloc, text?.as_bytes())
}

fn migrating_verdict_of(alloc: Global, text: Result<String, Fail>) -> Result<usize, Fail> {
    migrating_verdict(alloc, text?.as_bytes())
}

/// The line at fault of what a row says.
fn verdict_of(alloc: Global, call: &str, fields: &mut Fields<'_>) -> Result<usize, Fail> {
    match call {
        "verdict" => verdict_of_named(alloc, fields.text()),
        "bytes" => verdict_of_bytes(alloc, spelled(alloc, fields.text())),
        "change" => verdict_of_text(alloc, replaced(alloc, fields)),
        "migrating" => migrating_verdict_of(alloc, replaced(alloc, fields)),
        "cuts" => wrong_cuts_of(alloc, fields.text()),
        _ => verdict_of_text(alloc, with_kinds(alloc, fields.number()?)),
    }
}

fn is_migrated_to(alloc: Global, old: &str, new: &str) -> Result<bool, Fail> {
    is_migrated(alloc, old, text_of(new)?)
}

/// Writes what a row asks of a journal's text, and of the word after it.
fn put_of_text(
    alloc: Global,
    call: &str,
    text: &str,
    word: &str,
    out: &mut String,
) -> Result<(), Fail> {
    match call {
        "head" => put_head_of(alloc, text, out),
        "written" => put_written(alloc, text, word, out),
        "migrated" => tell(out, is_migrated_to(alloc, text, word)),
        _ => tell(out, is_changed(alloc, text)),
    }
}

/// Whole journals.
#[derive(Clone, Copy)]
struct Journals;

impl Subject for Journals {
    fn answer(
        &mut self,
        alloc: Global,
        call: &str,
        fields: &mut Fields<'_>,
        out: &mut String,
    ) -> Result<(), Fail> {
        match call {
            "head" | "written" | "migrated" | "changed" => {
                let text = text_of(fields.text())?;
                put_of_text(alloc, call, text, fields.text(), out)
            }
            _ => tell(out, verdict_of(alloc, call, fields)),
        }
    }
}

#[test]
fn journals_are_right_or_wrong(rt: HostRuntime) -> Result<(), Fail> {
    hold(rt.alloc(), &mut Journals, VERDICTS)
}

#[test]
fn journals_are_written_and_migrated(rt: HostRuntime) -> Result<(), Fail> {
    hold(rt.alloc(), &mut Journals, WRITTEN)
}

#[test]
fn cuts_and_many_kinds(rt: HostRuntime) -> Result<(), Fail> {
    hold(rt.alloc(), &mut Journals, LONG)
}
