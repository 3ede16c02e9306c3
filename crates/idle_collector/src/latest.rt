//! The grain that came last, which is held aside from the others.

ghost use Rattle.std.specs.Prelude.{◌≡◌, ◌++◌, OnOk, OnErr};
ghost use Rattle.idle_collector.specs.inside.Aside.{is_of, is_free, left, called, with_latest, due_of, IsApart};

use crate::by_moment::ByMoment;
use grain_id::GrainId;
use std::alloc::AllocError;
use std::mem::replace;

/// What is held of the grain that came last.
#[derive(Drop)]
pub enum Latest {
    /// None came.
    Nobody,
    /// It was forgotten. Its name is left, so that none is made if it is expected next.
    Left(GrainId),
    /// It may be idle soon: there is room for its note.
    Expected(GrainId),
    /// It is due from that moment on.
    Noted(GrainId, u64),
}

/// Whether the latest grain is noted, and is this one.
pub fn is_of(latest: &Latest, id: &GrainId) -> bool
    ensures { result ≡ is_of id.now latest.now }
{
    match latest {
        Latest::Nobody => false,
        Latest::Left(_) => false,
        Latest::Expected(_) => false,
        Latest::Noted(noted, _) => *noted == *id,
    }
}

/// Whether the latest grain isn't noted, and is this one.
pub fn is_free(latest: &Latest, id: &GrainId) -> bool
    ensures { result ≡ is_free id.now latest.now }
{
    match latest {
        Latest::Nobody => false,
        Latest::Left(named) => *named == *id,
        Latest::Expected(named) => *named == *id,
        Latest::Noted(_, _) => false,
    }
}

/// Drops the note of the latest grain, if it is noted: its name is left.
pub fn leave(latest: &mut Latest)
    ensures { latest.new ≡ left latest.old }
{
    match replace(latest, Latest::Nobody) {
        Latest::Noted(id, _) => *latest = Latest::Left(id),
        other => *latest = other,
    }
}

/// The latest grain is expected, if it was forgotten.
pub fn call_back(latest: &mut Latest)
    ensures { latest.new ≡ called latest.old }
{
    match replace(latest, Latest::Nobody) {
        Latest::Left(id) => *latest = Latest::Expected(id),
        other => *latest = other,
    }
}

/// Files the note of the latest grain, if it is noted.
///
/// # Errors
///
/// Out of memory: the filed notes are as before.
pub fn put_by(latest: &Latest, filed: &mut ByMoment) -> Result<(), AllocError>
    requires { IsApart latest.now filed.old }
    ensures put { OnOk result (filed.new ≡ with_latest latest.now filed.old) }
    ensures unchanged { OnErr result (filed.new ≡ filed.old) }
{
    if let Latest::Noted(id, moment) = latest {
        filed.note(id.clone()?, *moment)?;
    }
    Ok(())
}

/// Adds the latest grain, if it is noted and due.
///
/// # Errors
///
/// Out of memory.
pub fn add_due(latest: &Latest, now: u64, grains: &mut Vec<GrainId>) -> Result<(), AllocError>
    ensures { OnOk result (grains.new.items ≡ grains.old.items ++ due_of now latest.now) }
{
    let Latest::Noted(id, moment) = latest else {
        return Ok(());
    };
    if now < *moment {
        return Ok(());
    }
    grains.push(id.clone()?)?;
    Ok(())
}
