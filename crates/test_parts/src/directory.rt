//! Activations that come and go, and the numbers of their tenants.

use crate::rows::{Fields, Subject, hold, tell};
use crate::values::grain;
use activation_directory::{Activation, Directory, Phase};
use grain_id::{GrainId, HashSeed};
use silo_event::Moment;
use std::alloc::{AllocError, Global};
use std::test::Fail;
use turn_mailbox::Mailbox;

/// An activation waits since a moment, which stands for it; 0 is for none.
static CALLS: &str = "
# Each tenant has its own number.
new | nothing
insert | counter/red:a | 1 | 1
insert | counter/blue:a | 2 | 1
insert | counter/red:b | 3 | 1
insert | counter/red:b | 4 | 0
len | 3
count | red | 2
count | blue | 1
count | green | 0
remove | counter/red:a | 1
count | red | 1

# An activation is changed where it stands.
new | nothing
insert | counter/red:a | 1 | 1
insert | counter/blue:a | 2 | 1
change | counter/blue:a | 9 | 1
change | counter/blue:b | 9 | 0
get | counter/blue:a | 9
get | counter/red:a | 1

# Places are used again.
new | nothing
insert | counter/red:a | 1 | 1
insert | counter/blue:a | 2 | 1
insert | counter/red:b | 3 | 1
remove | counter/red:a | 1
remove | counter/red:a | 0
insert | counter/red:c | 4 | 1
len | 3
at | 0 | 3
at | 2 | 4
at | 3 | 0
";

/// A directory, and whether the next one has another seed.
#[derive(Drop)]
struct Activations {
    directory: Directory,
    seeded: bool,
}

fn new(alloc: Global, seeded: bool) -> Directory {
    if seeded {
        return Directory::seeded(alloc, HashSeed::new(7));
    }
    Directory::new(alloc)
}

/// The moment of an activation, or 0 for none.
fn moment_of(activation: Option<&Activation>) -> u64 {
    match activation {
        Some(activation) => activation.last.get(),
        None => 0,
    }
}

/// The moment of a row.
fn moment(fields: &mut Fields<'_>) -> Result<Moment, Fail> {
    Ok(Moment::new(fields.number()?).ok_or("no moment")?)
}

/// An activation that waits since that moment.
fn activation(alloc: Global, last: Moment) -> Result<Activation, Fail> {
    Ok(Activation {
        phase: Phase::Waiting,
        mailbox: Mailbox::new(alloc, 2)?,
        last,
        until: 0,
        resting: false,
        noted: 0,
    })
}

/// 1 if it was added, 0 if the grain has one.
fn inserted(
    alloc: Global,
    directory: &mut Directory,
    id: GrainId,
    activation: Activation,
) -> Result<u64, Fail> {
    if directory.get(&id).is_some() {
        drop(id);
        drop(activation);
        return Ok(0);
    }
    match directory.insert(alloc, id, activation) {
        Ok(()) => Ok(1),
        Err(back) => {
            drop(back);
            Err(Fail::from(AllocError))
        }
    }
}

/// 1 if it was written.
fn changed(directory: &mut Directory, id: &GrainId, last: Moment) -> u64 {
    match directory.get_mut(id) {
        Some(activation) => {
            activation.last = last;
            1
        }
        None => 0,
    }
}

fn removed(directory: &mut Directory, id: &GrainId) -> u64 {
    match directory.remove(id) {
        Some(activation) => {
            let last = activation.last.get();
            drop(activation);
            last
        }
        None => 0,
    }
}

fn at(directory: &Directory, place: usize) -> u64 {
    match directory.at(place) {
        Some((_, activation)) => activation.last.get(),
        None => 0,
    }
}

/// Adds an activation for a grain.
fn added(
    alloc: Global,
    directory: &mut Directory,
    id: &GrainId,
    fields: &mut Fields<'_>,
) -> Result<u64, Fail> {
    let id = id.clone()?;
    let made = activation(alloc, moment(fields)?)?;
    inserted(alloc, directory, id, made)
}

/// What the directory answers to a call about the activation of a grain.
fn answer_of(
    alloc: Global,
    directory: &mut Directory,
    id: &GrainId,
    call: &str,
    fields: &mut Fields<'_>,
) -> Result<u64, Fail> {
    match call {
        "insert" => added(alloc, directory, id, fields),
        "change" => Ok(changed(directory, id, moment(fields)?)),
        "remove" => Ok(removed(directory, id)),
        _ => Ok(moment_of(directory.get(id))),
    }
}

/// The same where the grain is yet to be read.
fn answer_about(
    alloc: Global,
    directory: &mut Directory,
    id: &str,
    call: &str,
    fields: &mut Fields<'_>,
) -> Result<u64, Fail> {
    let id = grain(alloc, id)?;
    answer_of(alloc, directory, &id, call, fields)
}

/// The moment of the activation at a place.
fn found(directory: &Directory, place: &str) -> Result<u64, Fail> {
    Ok(at(directory, place.parse()?))
}

/// What the directory answers, as a number: a count, or the moment of an activation.
fn told(
    alloc: Global,
    directory: &mut Directory,
    call: &str,
    fields: &mut Fields<'_>,
) -> Result<u64, Fail> {
    let first = fields.text();
    match call {
        "count" => Ok(directory.count(first) as u64),
        "len" => Ok(directory.len() as u64),
        "at" => found(directory, first),
        _ => answer_about(alloc, directory, first, call, fields),
    }
}

impl Subject for Activations {
    fn answer(
        &mut self,
        alloc: Global,
        call: &str,
        fields: &mut Fields<'_>,
        out: &mut String,
    ) -> Result<(), Fail> {
        if call == "new" {
            self.directory = new(alloc, self.seeded);
            return Ok(());
        }
        tell(out, told(alloc, &mut self.directory, call, fields))
    }
}

fn holds(alloc: Global, seeded: bool) -> Result<(), Fail> {
    let directory = new(alloc, seeded);
    hold(alloc, &mut Activations { directory, seeded }, CALLS)
}

#[test]
fn activations_come_and_go(rt: HostRuntime) -> Result<(), Fail> {
    holds(rt.alloc(), false)?;
    holds(rt.alloc(), true)
}
