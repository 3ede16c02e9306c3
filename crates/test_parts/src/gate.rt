//! Tables of tenants, the order of their faults, and who may call whom.

use crate::rows::{Fields, MOST_FIELDS, Subject, hold, put_fault, show, tell};
use crate::values::{grain, numbered, tenant};
use grain_id::{GrainId, Tenant};
use std::alloc::Global;
use std::test::Fail;
use tenant_gate::{Age, Limits, TenantTable};

/// A table of tenants, and calls that look at it.
#[derive(Drop)]
struct Gate {
    table: Option<TenantTable>,
}

static GATE: &str = "
# So many tenants `t0`, `t1` and so on, and others with their limits.
table | 0 | there is no tenant
table | 0 | red | 2 | 4 | blue | 0 | 4 | green | 1 | 1001 | the limits of tenant blue are out of range
# A repeat comes before a range.
table | 0 | red | 2 | 4 | blue | 2 | 4 | green | 2 | 4 | blue | 2 | 4 | red | 2 | 4 | grey | 0 | 4 | tenant blue stands there twice

# Names that begin alike are told apart.
table | 0 | red | 2 | 4 | reddish | 2 | 4 | made
call | red | counter/red:a | passes
call | reddish | counter/reddish:a | passes
call | reddish | counter/red:a | tenant reddish may not call a grain of tenant red
call | red | counter/blue:a | tenant red may not call a grain of tenant blue
call | blue | counter/blue:a | tenant blue is unknown

# Limits and ages have their ranges.
limits | 2 | 4 | true
limits | 0 | 4 | false
limits | 1 | 1001 | false
age | 0 | None
age | 1 | Some(1)
age | 86400000 | Some(86400000)
age | 86400001 | None

# A thousand tenants and no more; each is found, and no other.
table | 1000 | t0 | 2 | 4 | there are more than 1,000 tenants
table | 1000 | made
len | 1000
found | 1000 | 1000
activations | t1000 | 0
activations | t | 0
";

fn limits(fields: &mut Fields<'_>) -> Result<Limits, Fail> {
    let activations = fields.text().parse()?;
    let mailbox = fields.text().parse()?;
    Ok(Limits {
        activations,
        mailbox,
    })
}

type Tenants = Vec<(Tenant, Limits)>;

fn add_tenant(alloc: Global, list: &mut Tenants, name: &str, limits: Limits) -> Result<(), Fail> {
    Ok(list.push((tenant(alloc, name)?, limits))?)
}

/// The tenants `t0`, `t1` and so on; the n-th may have n + 1 activations.
fn add_tenants(alloc: Global, list: &mut Tenants, count: u32) -> Result<(), Fail> {
    for number in 0..count {
        let limits = Limits {
            activations: number.saturating_add(1),
            mailbox: 1,
        };
        add_tenant(alloc, list, &numbered(alloc, "t", number as u64)?, limits)?;
    }
    Ok(())
}

fn add_all(alloc: Global, list: &mut Tenants, fields: &mut Fields<'_>) -> Result<(), Fail> {
    add_tenants(alloc, list, fields.text().parse()?)?;
    for _ in 0..MOST_FIELDS {
        if fields.is_over() {
            break;
        }
        add_tenant(alloc, list, fields.text(), limits(fields)?)?;
    }
    Ok(())
}

/// As many numbered tenants as the first field says, and those of the fields after it.
fn tenants(alloc: Global, fields: &mut Fields<'_>) -> Result<Tenants, Fail> {
    let mut list = Vec::new(alloc);
    add_all(alloc, &mut list, fields)?;
    Ok(list)
}

/// How many activations a tenant may have; 0 for one that isn't there.
fn activations(table: &TenantTable, name: &str) -> u32 {
    match table.limits(name) {
        Some(limits) => limits.activations,
        None => 0,
    }
}

/// How many of that many numbered tenants are found.
fn found(alloc: Global, table: &TenantTable, count: &str) -> Result<u32, Fail> {
    let count: u32 = count.parse()?;
    let mut found = 0_u32;
    for number in 0..count {
        let name = numbered(alloc, "t", number as u64)?;
        if activations(table, &name) == number.saturating_add(1) {
            found = found.saturating_add(1);
        }
    }
    Ok(found)
}

fn call(
    alloc: Global,
    table: &TenantTable,
    caller: &Tenant,
    called: &GrainId,
    out: &mut String,
) -> Result<(), Fail> {
    match table.check_call(alloc, caller, called) {
        Ok(()) => Ok(out.push_str("passes")?),
        Err(fault) => put_fault(out, fault),
    }
}

/// The same of names that are yet to be read.
fn called(
    alloc: Global,
    table: &TenantTable,
    caller: &str,
    called: &str,
    out: &mut String,
) -> Result<(), Fail> {
    let caller = tenant(alloc, caller)?;
    call(alloc, table, &caller, &grain(alloc, called)?, out)
}

fn asked(
    alloc: Global,
    table: &TenantTable,
    name: &str,
    fields: &mut Fields<'_>,
    out: &mut String,
) -> Result<(), Fail> {
    let first = fields.text();
    match name {
        "len" => show(out, table.list().len()),
        "found" => tell(out, found(alloc, table, first)),
        "activations" => show(out, activations(table, first)),
        _ => called(alloc, table, first, fields.text(), out),
    }
}

fn are_in_range(fields: &mut Fields<'_>) -> Result<bool, Fail> {
    Ok(limits(fields)?.are_in_range())
}

fn millis(fields: &mut Fields<'_>) -> Result<Option<u64>, Fail> {
    match Age::new(fields.number()?) {
        Some(age) => Ok(Some(age.millis())),
        None => Ok(None),
    }
}

impl Gate {
    fn make(
        &mut self,
        alloc: Global,
        list: Result<Tenants, Fail>,
        out: &mut String,
    ) -> Result<(), Fail> {
        match TenantTable::new(alloc, list?) {
            Ok(table) => {
                self.table = Some(table);
                Ok(out.push_str("made")?)
            }
            Err(fault) => put_fault(out, fault),
        }
    }
}

impl Subject for Gate {
    fn answer(
        &mut self,
        alloc: Global,
        call: &str,
        fields: &mut Fields<'_>,
        out: &mut String,
    ) -> Result<(), Fail> {
        match call {
            "table" => self.make(alloc, tenants(alloc, fields), out),
            "limits" => tell(out, are_in_range(fields)),
            "age" => tell(out, millis(fields)),
            _ => match &self.table {
                Some(table) => asked(alloc, table, call, fields, out),
                None => Err(Fail::from("no table")),
            },
        }
    }
}

#[test]
fn tables_of_tenants_and_their_calls(rt: HostRuntime) -> Result<(), Fail> {
    hold(rt.alloc(), &mut Gate { table: None }, GATE)
}
