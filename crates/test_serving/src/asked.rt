//! What clients ask of counters, and their lanes.

use grain_id::Caller;
use silo_event::Step;
use std::alloc::Global;
use std::test::Fail;
use test_helpers::lines::steps_of;
use worker_host::Lane;

/// The client of that name, or nobody if it is empty.
pub fn client(alloc: Global, name: &str) -> Result<Option<Caller>, Fail> {
    if name.is_empty() {
        return Ok(None);
    }
    Ok(Some(Caller::read(alloc, name)?))
}

fn lane_of(from: Option<Caller>, steps: Vec<Step>) -> Result<Lane, Fail> {
    match Lane::new(from, steps) {
        Ok(lane) => Ok(lane),
        Err(_) => Err(Fail::from("no lane")),
    }
}

/// The lane of a client, or of nobody, that gives the steps of the lines.
pub fn lane(alloc: Global, caller: &str, lines: &str) -> Result<Lane, Fail> {
    let steps = steps_of(alloc, lines)?;
    lane_of(client(alloc, caller)?, steps)
}

/// The lanes of these clients, each of which gives the steps of its lines.
pub fn lanes_of(alloc: Global, asked: &[(&str, &str)]) -> Result<Vec<Lane>, Fail> {
    let mut lanes = Vec::new(alloc);
    for (caller, lines) in asked {
        lanes.push(lane(alloc, *caller, *lines)?)?;
    }
    Ok(lanes)
}

/// Calls of red's counter by this client, under the numbers from the first to the one before the last.
pub fn calls(
    alloc: Global,
    caller: &str,
    first: u64,
    last: u64,
    asked: &str,
) -> Result<String, Fail> {
    let mut text = String::new(alloc);
    for id in first..last {
        write!(
            text,
            "{{\"op\":\"call\",\"from\":\"{caller}\",\"id\":{id},\"grain\":\"counter/red:a\",{asked}}}\n"
        )?;
    }
    Ok(text)
}

const RED_1: (&str, &str) = (
    "red/c1",
    r#"{"op":"call","from":"red/c1","id":1,"grain":"counter/red:a","method":"get"}"#,
);

const RED_2: (&str, &str) = (
    "red/c2",
    r#"{"op":"call","from":"red/c2","id":1,"grain":"counter/red:a","method":"get"}"#,
);

const BLUE_1: (&str, &str) = (
    "blue/c1",
    r#"{"op":"call","from":"blue/c1","id":1,"grain":"counter/blue:a","method":"get"}"#,
);

const BLUE_2: (&str, &str) = (
    "blue/c2",
    r#"{"op":"call","from":"blue/c2","id":1,"grain":"counter/blue:a","method":"get"}"#,
);

/// A client of red and one of blue, each with a `get` of its counter.
pub static TWO: [(&str, &str); 2] = [RED_1, BLUE_1];

/// Two clients of red with a `get` of one counter, and two of blue with one of another.
pub static FOUR: [(&str, &str); 4] = [RED_1, RED_2, BLUE_1, BLUE_2];
