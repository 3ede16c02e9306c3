//! Requests of a tenant that may have two callers and two receipts, one after another, and what becomes of each.

use crate::{Receipt, TenantReceipts, Verdict};
use std::alloc::Global;
use std::test::Fail;

/// The greatest number that a request may have.
const GREATEST: u64 = 9_223_372_036_854_775_807;

/// A row is a caller, a number and the line that answers it if it acts; without a line the caller has seen its replies up
/// to the number.
static ROWS: &str = "web 4 first
web 4 other
web 3 other
api 1 second
ops 1 third
web 5 third
web 4
web 4 other
web 5 third
api 1 other
web 9223372036854775807 fourth
web 9
api 0
web 9223372036854775807 fourth
web 9223372036854775806 fifth";

/// What becomes of them.
static WANTED: &str =
    "acts;first;answered;acts;many callers;tenant;seen;answered;acts;second;tenant;seen;seen;acts;answered;";

/// What becomes of a request, and of one that acts what is kept.
fn ask(
    alloc: Global,
    receipts: &mut TenantReceipts,
    caller: &str,
    number: u64,
    line: &str,
    out: &mut String,
) -> Result<(), Fail> {
    match receipts.find(caller, number) {
        Verdict::Again(again) => out.push_str(std::str::from_utf8(again)?)?,
        Verdict::Answered => out.push_str("answered")?,
        Verdict::ManyCallers => out.push_str("many callers")?,
        Verdict::NotSeenOfCaller => out.push_str("caller")?,
        Verdict::NotSeenOfTenant => out.push_str("tenant")?,
        Verdict::Acts => {
            if number <= GREATEST {
                receipts.keep(alloc, caller, number, line.as_bytes())?;
            }
            out.push_str("acts")?;
        }
    }
    Ok(())
}

/// A row.
fn take(
    alloc: Global,
    receipts: &mut TenantReceipts,
    row: &str,
    out: &mut String,
) -> Result<(), Fail> {
    let (caller, rest) = row.split_once(' ').ok_or("no caller")?;
    match rest.split_once(' ') {
        Some((number, line)) => ask(alloc, receipts, caller, number.parse()?, line, out)?,
        None => {
            receipts.seen(caller, rest.parse()?);
            out.push_str("seen")?;
        }
    }
    Ok(out.push(';')?)
}

/// All rows.
fn take_all(alloc: Global, receipts: &mut TenantReceipts, out: &mut String) -> Result<(), Fail> {
    for row in ROWS.lines() {
        take(alloc, receipts, row, out)?;
    }
    Ok(())
}

/// Each caller, its greatest number and its receipts.
fn list(receipts: &TenantReceipts, out: &mut String) -> Result<(), Fail> {
    for (name, caller) in receipts.callers() {
        write!(out, "{name} {} {};", caller.last(), caller.receipts().len())?;
    }
    Ok(())
}

#[test]
fn requests_act_once(rt: HostRuntime) -> Result<(), Fail> {
    let mut receipts = TenantReceipts::new(rt.alloc(), 2);
    let mut out = String::new(rt.alloc());
    take_all(rt.alloc(), &mut receipts, &mut out)?;
    assert_eq!(rt; out.as_str(), WANTED);
    out.clear();
    list(&receipts, &mut out)?;
    assert_eq!(rt; out.as_str(), "api 1 1;web 9223372036854775807 1;");
    assert_eq!(rt; receipts.last("ops"), None);
    Ok(())
}

/// A caller whose number 8 was seen, and 7 not yet.
fn restored(alloc: Global) -> Result<TenantReceipts, Fail> {
    let mut receipts = TenantReceipts::new(alloc, 1);
    let line = Vec::from_slice(alloc, "kept".as_bytes())?;
    let mut kept = Vec::new(alloc);
    kept.push(Receipt { number: 7, line })?;
    receipts.restore(String::from_str(alloc, "web")?, 8, kept)?;
    Ok(receipts)
}

#[test]
fn what_was_kept_is_found(rt: HostRuntime) -> Result<(), Fail> {
    let mut receipts = restored(rt.alloc())?;
    let mut out = String::new(rt.alloc());
    ask(rt.alloc(), &mut receipts, "web", 7, "other", &mut out)?;
    ask(rt.alloc(), &mut receipts, "web", 8, "other", &mut out)?;
    ask(rt.alloc(), &mut receipts, "web", 9, "other", &mut out)?;
    assert_eq!(rt; out.as_str(), "keptansweredtenant");
    Ok(())
}
