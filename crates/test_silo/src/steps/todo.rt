//! What there is to do in a silo, what is pending, and whether it is quiet, before and after each step.

use crate::steps::rows::{SENT, Worked};
use crate::steps::silos::{TestedSilo, apply};
use crate::steps::trials::{Trial, tried};
use grain_id::Caller;
use silo_event::Step;
use std::alloc::{AllocError, Global};
use std::test::Fail;
use test_helpers::lines::steps_of;

/// The lines that `add_line` adds while a relay is joined by two counters, one of another tenant, and sends to both:
/// before the first step, and after each.
const TOLD: &str = "none free quiet
activate pending busy
activate pending busy
activate pending busy
load pending busy
begin pending busy
none pending busy
begin pending busy
none pending busy
begin pending busy
none pending busy
deliver free busy
activate free busy
activate free busy
load free busy
begin free busy
none free busy
none free quiet
begin pending busy
none pending busy
none free quiet
";

fn todo(silo: &TestedSilo) -> Result<Option<Step>, AllocError> {
    silo.todo()
}

fn has_pending(silo: &TestedSilo, client: &Caller) -> bool {
    silo.has_pending(client)
}

fn is_quiet(silo: &TestedSilo) -> bool {
    silo.is_quiet()
}

fn word_of(step: &Option<Step>) -> &'static str {
    match step {
        Some(Step::Activate { .. }) => "activate",
        Some(Step::Load { .. }) => "load",
        Some(Step::Begin { .. }) => "begin",
        Some(Step::Deliver { .. }) => "deliver",
        Some(_) => "another",
        None => "none",
    }
}

/// Adds what is to do, whether something of the client is pending, and whether the silo is quiet.
fn add_line(silo: &TestedSilo, client: &Caller, text: &mut String) -> Result<(), Fail> {
    let step = todo(silo)?;
    let word = word_of(&step);
    drop(step);
    let pending = if has_pending(silo, client) {
        "pending"
    } else {
        "free"
    };
    let quiet = if is_quiet(silo) { "quiet" } else { "busy" };
    write!(text, "{word} {pending} {quiet}\n")?;
    Ok(())
}

/// Takes a step, and adds a line.
fn add_step(
    alloc: Global,
    silo: &mut TestedSilo,
    client: &Caller,
    step: Step,
    text: &mut String,
) -> Result<(), Fail> {
    apply(alloc, silo, step)?;
    add_line(silo, client, text)
}

/// The lines that `add_line` adds before the first of these steps, and after each.
fn told_around(alloc: Global, silo: &mut TestedSilo, lines: &str) -> Result<String, Fail> {
    let client = Caller::read(alloc, "red/c1")?;
    let mut text = String::new(alloc);
    add_line(silo, &client, &mut text)?;
    for step in steps_of(alloc, lines)? {
        add_step(alloc, silo, &client, step, &mut text)?;
    }
    Ok(text)
}

/// Whether the steps of the row give the lines of `TOLD`.
pub fn is_told_around(alloc: Global, silo: &mut TestedSilo, row: &Worked) -> Result<bool, Fail> {
    Ok(told_around(alloc, silo, row.lines)?.as_str() == TOLD)
}

#[test]
fn what_is_to_do_is_told(rt: HostRuntime) -> Result<(), Fail> {
    tried(rt.alloc(), Trial::Todo, &SENT)
}
