//! The versions of a row through writes, clearings and pokes, and the call that a fused storage fails.

use crate::compare::{same, same_copy};
use crate::rows::{Fields, Subject, hold, put, show, tell};
use crate::values::grain;
use grain_id::{GrainId, HashSeed};
use grain_storage::{FusedStorage, GrainStorage, MemoryStorage, Row, StoreFault};
use request_codec::StateBytes;
use std::alloc::Global;
use std::test::Fail;

/// Each write, clearing and poke gives the next version, if it expects the one that is there; the rows of several grains are
/// kept apart, and listed in order.
static VERSIONS: &str = "
version | counter/red:a | Ok(None)
write | counter/red:a | None | 3 | Ok(Some(1))
number | counter/red:a | Ok(Some(3))
clear | counter/red:a | 1 | Ok(Some(2))
number | counter/red:a | Ok(None)
write | counter/red:a | 2 | 4 | Ok(Some(3))
number | counter/red:a | Ok(Some(4))
poke | counter/red:a | 5 | Ok(Some(4))
write | counter/red:a | None | 6 | Err(Stale(Some(4)))
number | counter/red:a | Ok(Some(5))
failures | 0
poke | sheet/red:s | 1 | Ok(Some(1))
poke | counter/red:b | 1 | Ok(Some(1))
poke | counter/blue:z | 1 | Ok(Some(1))
list | counter/blue:z;counter/red:a;counter/red:b;sheet/red:s;
";

/// A row of the last version is neither written, cleared nor poked.
static LAST_VERSION: &str = "
write | counter/red:a | 18446744073709551615 | 4 | Err(Spent)
poke | counter/red:a | 5 | Err(Spent)
clear | counter/red:a | 18446744073709551615 | Err(Spent)
clear | counter/red:a | None | Err(Stale(Some(18446744073709551615)))
version | counter/red:a | Ok(Some(18446744073709551615))
number | counter/red:a | Ok(Some(3))
";

/// The first call fails, the second and so on.
static FUSED: [(u64, &str); 5] = [
    (
        1,
        "
failures | 0
version | counter/red:a | Err(Failed)
failures | 1
version | counter/red:a | Ok(None)
write | counter/red:a | None | 3 | Ok(Some(1))
",
    ),
    (
        2,
        "
version | counter/red:a | Ok(None)
write | counter/red:a | None | 3 | Err(Failed)
clear | counter/red:a | None | Ok(None)
write | counter/red:a | None | 4 | Ok(Some(1))
failures | 1
",
    ),
    (
        3,
        "
version | counter/red:a | Ok(None)
write | counter/red:a | None | 3 | Ok(Some(1))
clear | counter/red:a | 1 | Err(Failed)
write | counter/red:a | 1 | 4 | Ok(Some(2))
failures | 1
",
    ),
    (
        4,
        "
version | counter/red:a | Ok(None)
write | counter/red:a | None | 3 | Ok(Some(1))
clear | counter/red:a | 1 | Ok(Some(2))
poke | counter/red:a | 4 | Err(Failed)
version | counter/red:a | Ok(Some(2))
failures | 1
",
    ),
    (
        5,
        "
version | counter/red:a | Ok(None)
write | counter/red:a | None | 3 | Ok(Some(1))
clear | counter/red:a | 1 | Ok(Some(2))
write | counter/red:a | 2 | 4 | Ok(Some(3))
failures | 0
",
    ),
];

/// A version, a number or none.
type Answer = Result<Option<u64>, StoreFault>;

/// The last byte of a row's content.
fn number_in(row: &Row) -> Option<u64> {
    match &row.content {
        Some(content) => match content.bytes() {
            [.., last] => Some(*last as u64),
            [] => None,
        },
        None => None,
    }
}

/// The version or the number of a row that was read.
fn part_of(read: Result<Option<Row>, StoreFault>, call: &str) -> Answer {
    match read {
        Ok(Some(row)) => {
            let part = if call == "version" {
                Some(row.version)
            } else {
                number_in(&row)
            };
            drop(row);
            Ok(part)
        }
        Ok(None) => Ok(None),
        Err(fault) => Err(fault),
    }
}

fn version(written: Result<u64, StoreFault>) -> Answer {
    match written {
        Ok(version) => Ok(Some(version)),
        Err(fault) => Err(fault),
    }
}

/// The version that a call expects.
fn expected(fields: &mut Fields<'_>) -> Result<Option<u64>, Fail> {
    match fields.text() {
        "None" => Ok(None),
        version => Ok(Some(version.parse()?)),
    }
}

fn written<S: GrainStorage>(
    alloc: Global,
    storage: &mut S,
    grain: &GrainId,
    fields: &mut Fields<'_>,
) -> Result<Answer, Fail> {
    let expected = expected(fields)?;
    let content = StateBytes::integer(fields.text().parse()?);
    Ok(version(storage.write(alloc, grain, expected, content)))
}

fn poked<S: GrainStorage>(
    alloc: Global,
    storage: &mut S,
    grain: &GrainId,
    value: &str,
) -> Result<Answer, Fail> {
    let content = StateBytes::integer(value.parse()?);
    Ok(version(storage.poke(alloc, grain, content)))
}

/// What a storage answers to a call about the row of a grain.
fn answer_of<S: GrainStorage>(
    alloc: Global,
    storage: &mut S,
    grain: &GrainId,
    call: &str,
    fields: &mut Fields<'_>,
) -> Result<Answer, Fail> {
    match call {
        "write" => written(alloc, storage, grain, fields),
        "clear" => Ok(storage.clear(alloc, grain, expected(fields)?)),
        "poke" => poked(alloc, storage, grain, fields.text()),
        _ => Ok(part_of(storage.read(alloc, grain), call)),
    }
}

/// The same of a grain that is yet to be read.
fn answer_about<S: GrainStorage>(
    alloc: Global,
    storage: &mut S,
    call: &str,
    fields: &mut Fields<'_>,
) -> Result<Answer, Fail> {
    let grain = grain(alloc, fields.text())?;
    answer_of(alloc, storage, &grain, call, fields)
}

/// The rows' grains.
fn put_grains(rows: &[(GrainId, Row)], out: &mut String) -> Result<(), Fail> {
    for (grain, _) in rows {
        put(out, grain.text())?;
    }
    Ok(())
}

/// A storage.
#[derive(Drop)]
struct Stored<S: Drop> {
    storage: S,
}

impl<S: GrainStorage + Drop> Subject for Stored<S> {
    fn answer(
        &mut self,
        alloc: Global,
        call: &str,
        fields: &mut Fields<'_>,
        out: &mut String,
    ) -> Result<(), Fail> {
        match call {
            "failures" => show(out, self.storage.failures()),
            "list" => put_grains(&self.storage.list(alloc)?, out),
            _ => tell(out, answer_about(alloc, &mut self.storage, call, fields)),
        }
    }
}

fn holds<S: GrainStorage + Drop>(alloc: Global, storage: S, rows: &str) -> Result<(), Fail> {
    let mut stored = Stored { storage };
    hold(alloc, &mut stored, rows)
}

#[test]
fn rows_have_versions_and_are_listed(rt: HostRuntime) -> Result<(), Fail> {
    holds(rt.alloc(), MemoryStorage::new(rt.alloc()), VERSIONS)?;
    let seeded = MemoryStorage::seeded(rt.alloc(), HashSeed::new(7));
    holds(rt.alloc(), seeded, VERSIONS)
}

/// A row with the number 3 under a version.
fn row(version: u64) -> Row {
    Row {
        version,
        content: Some(StateBytes::integer(3)),
    }
}

/// A row equals its copy, and not the other row.
fn are_told_apart(row: Row, other: Row) -> Result<(), Fail> {
    let copied = same_copy(&row);
    let alike = row == other;
    drop(row);
    drop(other);
    copied?;
    same(alike, false)
}

#[test]
fn rows_are_compared() -> Result<(), Fail> {
    are_told_apart(row(1), row(u64::MAX))
}

/// A storage whose row of a grain has the number 3 under the last version.
fn with_last(alloc: Global) -> Result<MemoryStorage, Fail> {
    let grain = grain(alloc, "counter/red:a")?;
    let row = Row {
        version: u64::MAX,
        content: Some(StateBytes::integer(3)),
    };
    let rows = vec![in alloc; (grain, row)]?;
    Ok(MemoryStorage::with_rows(alloc, rows)?)
}

#[test]
fn a_spent_row_stays(rt: HostRuntime) -> Result<(), Fail> {
    holds(rt.alloc(), with_last(rt.alloc())?, LAST_VERSION)
}

#[test]
fn a_chosen_call_fails(rt: HostRuntime) -> Result<(), Fail> {
    for (fails_at, rows) in &FUSED {
        let storage = FusedStorage::new(MemoryStorage::new(rt.alloc()), *fails_at);
        holds(rt.alloc(), storage, *rows)?;
    }
    Ok(())
}
