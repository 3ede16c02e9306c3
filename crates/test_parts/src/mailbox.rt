//! Requests that wait, turns that are open together or alone, and turns that end.

use crate::compare::same;
use crate::rows::{Fields, Subject, hold, tell};
use crate::values::{caller, grain, message, state};
use grain_id::{Caller, GrainId};
use request_codec::StateBytes;
use silo_event::Party;
use std::alloc::{AllocError, Global};
use std::test::Fail;
use turn_mailbox::{Mailbox, Request};

/// Calls of a mailbox for four. A request is known by its number, and 0 is for none; 1 is for yes.
static CALLS: &str = "
# Readers are open together, and no writer beside them.
new | nothing
push reader | 1 | 0
push reader | 2 | 0
push writer | 3 | 0
begin | 1
begin | 2
begin | 0
finish | 1 | 1
may begin | 0
finish | 2 | 2
begin | 3

# A writer is open alone, and ends once.
new | nothing
is idle | 1
push writer | 3 | 0
push reader | 4 | 0
begin | 3
begin | 0
opened | 3 | 3
finish | 3 | 3
finish | 3 | 0
opened | 3 | 0
may begin | 1

# A full mailbox gives the request back.
new | nothing
push writer | 1 | 0
push reader | 2 | 0
push writer | 3 | 0
push reader | 4 | 0
len | 4
push reader | 5 | 5
at | 3 | 4
at | 4 | 0
begin | 1
push reader | 5 | 0
is idle | 0

# Requests are known by their client.
new | nothing
push writer | 1 | 0
front is from | red/c1 | 1
front is from | red/c2 | 0
has from | red/c1 | 1
has from | red/c2 | 0
begin | 1
has from | red/c1 | 1
finish | 1 | 1
has from | red/c1 | 0
";

/// A request of the client `red/c1`.
fn request(alloc: Global, number: u64, reading: bool) -> Result<Request, Fail> {
    let message = message(alloc, "get", "null")?;
    Ok(Request {
        number,
        reading,
        sender: Party::Client(caller(alloc, "red/c1")?, number),
        message,
    })
}

/// The number of a request, or 0 for none.
fn number_of(request: Option<&Request>) -> u64 {
    match request {
        Some(request) => request.number,
        None => 0,
    }
}

/// 0 if a request was taken, or else the number of the one that came back.
fn pushed(mailbox: &mut Mailbox, request: Request) -> u64 {
    match mailbox.push(request) {
        Ok(()) => 0,
        Err(back) => {
            let number = back.number;
            drop(back);
            number
        }
    }
}

/// The number of the turn that begins on a state, or 0.
fn begun(mailbox: &mut Mailbox, grain: &GrainId, state: &StateBytes) -> Result<u64, Fail> {
    match mailbox.begin(grain, state)? {
        Some(turn) => {
            let number = turn.number;
            drop(turn);
            Ok(number)
        }
        None => Ok(0),
    }
}

/// The number of the turn that ends, or 0.
fn finish(mailbox: &mut Mailbox, number: u64) -> u64 {
    match mailbox.finish(number) {
        Ok(request) => {
            let number = request.number;
            drop(request);
            number
        }
        Err(_) => 0,
    }
}

fn is_from(request: Option<&Request>, client: &Caller) -> bool {
    match request {
        Some(request) => request.is_from(client),
        None => false,
    }
}

/// What the mailbox says of itself, as a number: a count, or 1 for yes.
fn told(mailbox: &Mailbox, call: &str) -> u64 {
    match call {
        "len" => mailbox.len() as u64,
        "is idle" => mailbox.is_idle() as u64,
        _ => mailbox.may_begin() as u64,
    }
}

/// 1 if it is so of a client.
fn told_of(mailbox: &Mailbox, call: &str, client: &Caller) -> u64 {
    if call == "has from" {
        return mailbox.has_from(client) as u64;
    }
    is_from(mailbox.at(0), client) as u64
}

/// The number of the request that a call about a number or a place finds, or 0.
fn found(mailbox: &mut Mailbox, call: &str, number: u64) -> u64 {
    match call {
        "finish" => finish(mailbox, number),
        "opened" => number_of(mailbox.opened(number)),
        _ => number_of(mailbox.at(number as usize)),
    }
}

fn opened(alloc: Global, mailbox: &mut Mailbox) -> Result<u64, Fail> {
    let grain = grain(alloc, "counter/red:a")?;
    begun(mailbox, &grain, &state(alloc, "3")?)
}

fn requested(
    alloc: Global,
    mailbox: &mut Mailbox,
    call: &str,
    fields: &mut Fields<'_>,
) -> Result<u64, Fail> {
    let reading = call == "push reader";
    Ok(pushed(mailbox, request(alloc, fields.number()?, reading)?))
}

fn asked(alloc: Global, mailbox: &Mailbox, call: &str, client: &str) -> Result<u64, Fail> {
    Ok(told_of(mailbox, call, &caller(alloc, client)?))
}

fn numbered(mailbox: &mut Mailbox, call: &str, fields: &mut Fields<'_>) -> Result<u64, Fail> {
    Ok(found(mailbox, call, fields.number()?))
}

/// What the mailbox answers, as a number: that of a request, a count, or 1 for yes.
fn answer_of(
    alloc: Global,
    mailbox: &mut Mailbox,
    call: &str,
    fields: &mut Fields<'_>,
) -> Result<u64, Fail> {
    match call {
        "push reader" | "push writer" => requested(alloc, mailbox, call, fields),
        "front is from" | "has from" => asked(alloc, mailbox, call, fields.text()),
        "finish" | "opened" | "at" => numbered(mailbox, call, fields),
        "begin" => opened(alloc, mailbox),
        _ => Ok(told(mailbox, call)),
    }
}

fn renew(alloc: Global, mailbox: &mut Mailbox) -> Result<(), Fail> {
    *mailbox = Mailbox::new(alloc, 4)?;
    Ok(())
}

impl Subject for Mailbox {
    fn answer(
        &mut self,
        alloc: Global,
        call: &str,
        fields: &mut Fields<'_>,
        out: &mut String,
    ) -> Result<(), Fail> {
        if call == "new" {
            return renew(alloc, self);
        }
        tell(out, answer_of(alloc, self, call, fields))
    }
}

#[test]
fn requests_wait_and_turns_are_open(rt: HostRuntime) -> Result<(), Fail> {
    hold(rt.alloc(), &mut Mailbox::new(rt.alloc(), 4)?, CALLS)
}

/// A request is the second one, a reader of `red/c1`.
fn is_second(alloc: Global, request: &Request) -> Result<(), Fail> {
    let client = caller(alloc, "red/c1")?;
    let found = (
        request.number,
        request.reading,
        request.is_from(&client),
        request.message.method(),
    );
    same(found, (2, true, true, "get"))
}

fn copied(request: Request) -> Result<Request, AllocError> {
    let copy: Result<_, _> = request.clone();
    drop(request);
    copy
}

#[test]
fn a_copy_of_a_request_is_the_same(rt: HostRuntime) -> Result<(), Fail> {
    let copy = copied(request(rt.alloc(), 2, true)?)?;
    let told = is_second(rt.alloc(), &copy);
    drop(copy);
    told
}
