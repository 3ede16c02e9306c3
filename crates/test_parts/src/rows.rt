//! Rows of calls, each with what it is answered.
//!
//! A text of rows is data, and costs no proof of its own. A row is the name of a call, its arguments and the wanted
//! answer, with ` | ` between them; an answer of no text is `nothing`. Lines that begin with `#` say what the next rows
//! show, and empty ones part them.

use crate::compare::same_at;
use std::alloc::Global;
use std::error::Error;
use std::fmt::Debug;
use std::test::Fail;

/// More arguments than a row has.
pub const MOST_FIELDS: u32 = 100;

/// The arguments of a call that weren't read yet.
#[derive(Clone, Copy)]
pub struct Fields<'a> {
    rest: &'a str,
}

impl<'a> Fields<'a> {
    pub fn of(text: &'a str) -> Fields<'a> {
        Fields { rest: text }
    }

    /// The next argument; an empty text after the last one.
    pub fn text(&mut self) -> &'a str {
        let (field, rest) = self.rest.split_once(" | ").unwrap_or((self.rest, ""));
        self.rest = rest;
        field
    }

    pub fn number(&mut self) -> Result<u64, Fail> {
        Ok(self.text().parse()?)
    }

    /// The arguments that weren't read yet.
    pub fn rest(&self) -> &'a str {
        self.rest
    }

    pub fn is_over(&self) -> bool {
        self.rest.is_empty()
    }
}

/// What is called.
pub trait Subject {
    /// Writes what a call is answered.
    fn answer(
        &mut self,
        alloc: Global,
        call: &str,
        fields: &mut Fields<'_>,
        out: &mut String,
    ) -> Result<(), Fail>;
}

/// Makes the call of a row, which is to be answered so.
fn holds<S: Subject>(alloc: Global, subject: &mut S, row: &str) -> Result<(), Fail> {
    let (call, wanted) = row.rsplit_once(" | ").ok_or("no row")?;
    let mut fields = Fields::of(call);
    let name = fields.text();
    let mut out = String::new(alloc);
    subject.answer(alloc, name, &mut fields, &mut out)?;
    if out.is_empty() {
        return same_at(row, "nothing", wanted);
    }
    same_at(row, out.as_str(), wanted)
}

/// Makes the calls of all rows, in order.
pub fn hold<S: Subject>(alloc: Global, subject: &mut S, rows: &str) -> Result<(), Fail> {
    for row in rows.lines() {
        if !row.is_empty() && !row.starts_with('#') {
            holds(alloc, subject, row)?;
        }
    }
    Ok(())
}

/// Writes a value as it is shown for debugging.
pub fn show<T: Debug + Drop>(out: &mut String, it: T) -> Result<(), Fail> {
    write!(out, "{it:?}")?;
    Ok(())
}

/// The same of a value that is yet to be found: a caller with many arms then ends in each of them once.
pub fn tell<T: Debug + Drop>(out: &mut String, found: Result<T, Fail>) -> Result<(), Fail> {
    show(out, found?)
}

/// Writes a text of a list.
pub fn put(out: &mut String, text: &str) -> Result<(), Fail> {
    out.push_str(text)?;
    Ok(out.push(';')?)
}

/// Writes texts of a list: a caller with several then ends once.
pub fn put_all(out: &mut String, texts: &[&str]) -> Result<(), Fail> {
    for text in texts {
        put(out, *text)?;
    }
    Ok(())
}

/// Writes a fault as it is shown to a reader. One of memory is no wanted answer, so the row fails and says it.
pub fn put_fault<E: Error + Drop>(out: &mut String, fault: E) -> Result<(), Fail> {
    let told = write!(out, "{fault}");
    drop(fault);
    Ok(told?)
}
