//! Tables of ages, the order of their faults, and which age a kind has.

use crate::rows::{Fields, MOST_FIELDS, Subject, hold, put_fault, show, tell};
use crate::values::{kind, numbered};
use grain_id::Kind;
use idle_collector::AgeTable;
use std::alloc::Global;
use std::test::Fail;
use tenant_gate::Age;

static AGES: &str = "
# No kind has an age of its own: each has 900,000.
age | counter | 900000

# So many kinds `k99`, `k98` and so on, each with its number for its age, and others with their ages.
table | 64 | k99 | 0 | there are more than 64 kinds
table | 63 | k99 | 0 | kind k99 stands there twice
# A repeat comes before a range, and the first kind that stands a second time before others.
table | 0 | sheet | 5 | relay | 0 | counter | 3 | counter | 3 | sheet | 5 | kind counter stands there twice
table | 0 | sheet | 86400000 | relay | 0 | counter | 86400001 | the age of kind relay is out of range

# A kind has its own age, or that of the others.
table | 0 | sheet | 86400000 | counter | 1 | relay-2 | 7 | made
list | counter;1;relay-2;7;sheet;86400000;
age | counter | 1
age | count | 900000
age | counter2 | 900000
age | sheet | 86400000
age | relay | 900000
age | relay-2 | 7

# Sixty-four kinds stand in order.
table | 64 | made
len | 64
age | k36 | 36
age | k99 | 99
age | k35 | 900000
";

type Kinds = Vec<(Kind, u64)>;

fn add_kind(alloc: Global, list: &mut Kinds, name: &str, age: u64) -> Result<(), Fail> {
    Ok(list.push((kind(alloc, name)?, age))?)
}

/// The kinds `k99`, `k98` and so on, each with its number for its age.
fn add_kinds(alloc: Global, list: &mut Kinds, count: u64) -> Result<(), Fail> {
    for place in 0..count {
        let number = 99_u64.saturating_sub(place);
        add_kind(alloc, list, &numbered(alloc, "k", number)?, number)?;
    }
    Ok(())
}

fn add_all(alloc: Global, list: &mut Kinds, fields: &mut Fields<'_>) -> Result<(), Fail> {
    add_kinds(alloc, list, fields.number()?)?;
    for _ in 0..MOST_FIELDS {
        if fields.is_over() {
            break;
        }
        add_kind(alloc, list, fields.text(), fields.number()?)?;
    }
    Ok(())
}

/// As many numbered kinds as the first field says, and those of the fields after it.
fn kinds(alloc: Global, fields: &mut Fields<'_>) -> Result<Kinds, Fail> {
    let mut list = Vec::new(alloc);
    add_all(alloc, &mut list, fields)?;
    Ok(list)
}

/// Makes the table of a list, if it is one.
fn make_ages(
    alloc: Global,
    table: &mut AgeTable,
    list: Result<Kinds, Fail>,
    out: &mut String,
) -> Result<(), Fail> {
    match AgeTable::new(alloc, list?) {
        Ok(made) => {
            *table = made;
            Ok(out.push_str("made")?)
        }
        Err(fault) => put_fault(out, fault),
    }
}

/// Writes the kinds of the table and their ages, in order.
pub fn put_ages(list: &[(Kind, u64)], out: &mut String) -> Result<(), Fail> {
    for (kind, age) in list {
        let name = kind.text();
        write!(out, "{name};{age};")?;
    }
    Ok(())
}

fn age_in(table: &AgeTable, kind: &str) -> Result<u64, Fail> {
    Ok(table.age_of(kind, Age::new(900_000).ok_or("no age")?))
}

impl Subject for AgeTable {
    fn answer(
        &mut self,
        alloc: Global,
        call: &str,
        fields: &mut Fields<'_>,
        out: &mut String,
    ) -> Result<(), Fail> {
        match call {
            "table" => make_ages(alloc, self, kinds(alloc, fields), out),
            "list" => put_ages(self.list(), out),
            "len" => show(out, self.list().len()),
            _ => tell(out, age_in(self, fields.text())),
        }
    }
}

#[test]
fn tables_of_ages(rt: HostRuntime) -> Result<(), Fail> {
    hold(rt.alloc(), &mut AgeTable::none(rt.alloc()), AGES)
}
