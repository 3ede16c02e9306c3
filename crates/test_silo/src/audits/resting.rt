//! Audits of journals whose grains rest and stay, and of those in which they can't.

use crate::audits::seen::{reports, reports_under};
use grain_kinds::{Kinds, RestingKinds};
use std::alloc::{AllocError, Global};
use std::sync::Wait;
use std::test::Fail;
use std::thread::Threads;
use tenant_audit::{JournalFault, migrate_journal, read_journal};
use test_helpers::verdicts::holds;

/// A counter goes before a sheet does, since its kind has a shorter age.
static AGES: &str =
    "silo-journal 2\nkinds 2\nage 1000\nkind counter 10\ntenant red 4 4\ntick 100\ncall red/c1 1 counter/red:a 01000000036164640600000001000000026279030000000000000003\ncall red/c1 2 sheet/red:s 01000000046c69737400\nactivate counter/red:a\nload counter/red:a ok\nbegin counter/red:a\nend counter/red:a 1\nactivate sheet/red:s\nload sheet/red:s ok\nbegin sheet/red:s\nend sheet/red:s 2\ntick 110\nsweep\nstatus red/c1 3\nreply red/c1 1 ok 030000000000000003\nreply red/c1 2 ok 0500000000\nreply red/c1 3 ok 06000000030000000b61637469766174696f6e7303000000000000000100000005636c6f636b03000000000000006e000000087265717565737473030000000000000002\nclose 14\n";

/// A grain stays for 50 milliseconds, and is swept then.
static STAYS: &str =
    "silo-journal 2\nkinds 2\nage 10\ntenant red 2 4\ntick 100\ncall red/c1 1 counter/red:a 010000000473746179060000000100000003666f72030000000000000032\nactivate counter/red:a\nload counter/red:a ok\nbegin counter/red:a\nend counter/red:a 1\ntick 149\nsweep\nstatus red/c1 2\ntick 150\nsweep\nstatus red/c1 3\nreply red/c1 1 ok 00\nreply red/c1 2 ok 06000000030000000b61637469766174696f6e7303000000000000000100000005636c6f636b030000000000000095000000087265717565737473030000000000000001\nreply red/c1 3 ok 06000000030000000b61637469766174696f6e7303000000000000000000000005636c6f636b030000000000000096000000087265717565737473030000000000000001\nclose 12\n";

/// A grain that rests goes once the request that waits is answered, without a sweep.
static RESTS: &str =
    "silo-journal 2\nkinds 2\nage 900000\ntenant red 2 4\ncall red/c1 1 counter/red:a 01000000047265737400\ncall red/c1 2 counter/red:a 01000000036164640600000001000000026279030000000000000003\nactivate counter/red:a\nload counter/red:a ok\nbegin counter/red:a\nend counter/red:a 1\nstatus red/c1 3\nbegin counter/red:a\nend counter/red:a 2\nstatus red/c1 4\nreply red/c1 1 ok 00\nreply red/c1 3 ok 06000000030000000b61637469766174696f6e7303000000000000000100000005636c6f636b030000000000000000000000087265717565737473030000000000000002\nreply red/c1 2 ok 030000000000000003\nreply red/c1 4 ok 06000000030000000b61637469766174696f6e7303000000000000000000000005636c6f636b030000000000000000000000087265717565737473030000000000000002\nclose 10\n";

/// A journal of the first form, in which a counter was asked to rest, and had no such method.
static UNKNOWN: &str =
    "silo-journal 1\nage 900000\ntenant red 2 4\ncall red/c1 1 counter/red:a 01000000047265737400\nactivate counter/red:a\nload counter/red:a ok\nbegin counter/red:a\nend counter/red:a 1\nreply red/c1 1 no 60 method is unknown\nclose 5\n";

#[test]
fn resting_and_staying_are_audited(rt: HostRuntime) -> Result<(), Fail> {
    reports(&rt, AGES, "tenant red: 14 steps, 3 replies, 0 rows\n")?;
    reports(&rt, STAYS, "tenant red: 12 steps, 3 replies, 0 rows\n")?;
    reports(&rt, RESTS, "tenant red: 10 steps, 4 replies, 0 rows\n")
}

/// The report of `UNKNOWN`, where a counter has no such method.
static CLEAN: &str = "tenant red: 5 steps, 1 replies, 0 rows\n";

/// The report where it has.
static DIFFERS: &str = "tenant red: reply 1 differs\n";

/// Fails, unless an audit of `UNKNOWN` with this head reports that.
fn reports_with<R: AllocGlobal + Threads + Wait + Sync>(
    rt: &R,
    head: &str,
    wanted: &str,
) -> Result<(), Fail> {
    let text = UNKNOWN.replace(rt.alloc(), "silo-journal 1\n", head)?;
    reports(rt, text.as_str(), wanted)
}

/// In the first form grains neither rest nor stay, and the second form says whether they do.
#[test]
fn a_journal_is_audited_under_the_logic_that_it_names(rt: HostRuntime) -> Result<(), Fail> {
    reports(&rt, UNKNOWN, CLEAN)?;
    reports_with(&rt, "silo-journal 2\nkinds 1\n", CLEAN)?;
    reports_with(&rt, "silo-journal 2\nkinds 2\n", DIFFERS)
}

#[test]
fn any_logic_can_be_given_to_an_audit(rt: HostRuntime) -> Result<(), Fail> {
    reports_under(rt.alloc(), UNKNOWN, Kinds, CLEAN)?;
    reports_under(rt.alloc(), UNKNOWN, RestingKinds, DIFFERS)
}

/// The line that is refused, or 0.
fn refused_line(fault: Option<JournalFault>) -> Result<usize, Fail> {
    match fault {
        None => Ok(0),
        Some(JournalFault::At { line }) => Ok(line),
        Some(JournalFault::Memory) => Err(Fail::from(AllocError)),
    }
}

/// The lines that are refused in a text as it is read and as it is migrated.
fn refused_lines(alloc: Global, text: &str) -> Result<(usize, usize), Fail> {
    let read = refused_line(read_journal(alloc, text.as_bytes()).err())?;
    let migrated = refused_line(migrate_journal(alloc, text.as_bytes()).err())?;
    Ok((read, migrated))
}

/// No line after the one that names the version is looked at.
#[test]
fn a_version_that_there_is_not_yet_is_refused(rt: HostRuntime) -> Result<(), Fail> {
    let newer = refused_lines(rt.alloc(), "silo-journal 2\nkinds 255\nwhat\n")?;
    let known = refused_lines(rt.alloc(), "silo-journal 2\nkinds 2\nwhat\n")?;
    holds(newer == (2, 2) && known == (3, 3))
}
