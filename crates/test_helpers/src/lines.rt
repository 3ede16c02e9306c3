//! Steps from lines, and texts of what a silo shows.

use grain_id::GrainId;
use grain_storage::Row;
use line_text::{Line, LineScratch, read_line, reply_text};
use silo_event::{Reply, Step};
use std::alloc::Global;
use std::test::Fail;

/// The step of a line.
fn step_of(alloc: Global, scratch: &mut LineScratch, line: &str) -> Result<Step, Fail> {
    match read_line(alloc, scratch, line.as_bytes())? {
        Line::Step(step) => Ok(step),
        other => {
            drop(other);
            Err(Fail::from("a line says no step"))
        }
    }
}

/// Adds the step of a line.
fn add_step(
    alloc: Global,
    scratch: &mut LineScratch,
    line: &str,
    steps: &mut Vec<Step>,
) -> Result<(), Fail> {
    let step = step_of(alloc, scratch, line)?;
    steps.push(step)?;
    Ok(())
}

/// The steps of the lines after the first `first` lines.
pub fn steps_behind(alloc: Global, lines: &str, first: usize) -> Result<Vec<Step>, Fail> {
    let mut scratch = LineScratch::new(alloc);
    let mut steps = Vec::new(alloc);
    for line in lines.lines().skip(first) {
        add_step(alloc, &mut scratch, line, &mut steps)?;
    }
    Ok(steps)
}

/// The steps of the lines.
pub fn steps_of(alloc: Global, lines: &str) -> Result<Vec<Step>, Fail> {
    steps_behind(alloc, lines, 0)
}

/// Adds the line of a reply.
fn add_told(alloc: Global, reply: &Reply, text: &mut String) -> Result<(), Fail> {
    text.push_str(reply_text(alloc, reply)?.as_str())?;
    text.push('\n')?;
    Ok(())
}

/// The lines of the replies.
pub fn told(alloc: Global, replies: &[Reply]) -> Result<String, Fail> {
    let mut text = String::new(alloc);
    for reply in replies {
        add_told(alloc, reply, &mut text)?;
    }
    Ok(text)
}

/// The grains and the versions of the rows, a line each.
pub fn stored(alloc: Global, rows: &[(GrainId, Row)]) -> Result<String, Fail> {
    let mut text = String::new(alloc);
    for (grain, row) in rows {
        let (name, version) = (grain.text(), row.version);
        write!(text, "{name} {version}\n")?;
    }
    Ok(text)
}
