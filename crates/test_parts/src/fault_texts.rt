//! Names and faults as text.

use crate::compare::same;
use crate::values::{caller, grain, kind, tenant};
use grain_id::IdFault;
use grain_logic::MethodFault;
use grain_storage::StoreFault;
use request_codec::CodecFault;
use silo_event::StepFault;
use std::alloc::Global;
use std::error::Error;
use std::fmt::Display;
use std::test::Fail;
use tenant_gate::GateRefusal;
use turn_arena::ArenaFault;
use turn_mailbox::NoTurn;

/// It is shown by this text.
fn is_shown<T: Display>(alloc: Global, it: &T, wanted: &str) -> Result<(), Fail> {
    same(it.to_string(alloc)?.as_str(), wanted)
}

/// An error is shown by this text.
fn is_told<E: Error + Drop>(alloc: Global, fault: E, wanted: &str) -> Result<(), Fail> {
    let shown = is_shown(alloc, &fault, wanted);
    drop(fault);
    shown
}

/// A name that is read is shown by this text.
fn is_name<T: Display + Drop>(
    alloc: Global,
    name: Result<T, Fail>,
    wanted: &str,
) -> Result<(), Fail> {
    is_shown(alloc, &name?, wanted)
}

#[test]
fn names_are_shown_by_their_texts(rt: HostRuntime) -> Result<(), Fail> {
    let alloc = rt.alloc();
    is_name(alloc, tenant(alloc, "red"), "red")?;
    is_name(alloc, kind(alloc, "counter"), "counter")?;
    is_name(alloc, grain(alloc, "counter/red:a"), "counter/red:a")?;
    is_name(alloc, caller(alloc, "red/c1"), "red/c1")
}

#[test]
fn faults_without_names_are_told(rt: HostRuntime) -> Result<(), Fail> {
    let alloc = rt.alloc();
    is_told(alloc, IdFault::Kind, "the kind isn't well formed")?;
    is_told(alloc, CodecFault::TooDeep, "the value is deeper than 32")?;
    is_told(alloc, ArenaFault::NotAMessage, "nothing spells the bytes")?;
    is_told(alloc, StoreFault::Failed, "the storage failed")?;
    is_told(alloc, StepFault::Memory, "out of memory")?;
    is_told(alloc, StepFault::Stranger, "result is of another turn")?;
    is_told(alloc, NoTurn, "no turn of that number is open")?;
    is_told(
        alloc,
        GateRefusal::AcrossTenants,
        "the grain is another tenant's",
    )
}

/// What each fault of a method shows.
static METHOD_FAULTS: [(MethodFault, &str); 4] = [
    (MethodFault::UnknownMethod, "method is unknown"),
    (MethodFault::Misfit, "arguments do not fit"),
    (MethodFault::OutOfRange, "result is out of range"),
    (MethodFault::TooLarge, "state is too large"),
];

#[test]
fn faults_of_methods_are_shown(rt: HostRuntime) -> Result<(), Fail> {
    for (fault, text) in &METHOD_FAULTS {
        is_shown(rt.alloc(), fault, *text)?;
    }
    Ok(())
}

#[test]
fn a_fault_is_of_memory_or_of_the_text() -> Result<(), Fail> {
    same(
        (IdFault::Memory.is_memory(), IdFault::Name.is_memory()),
        (true, false),
    )
}
