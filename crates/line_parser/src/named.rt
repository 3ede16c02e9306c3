//! The members of a line that name a client or a grain, and whether a storage call is to fail.

ghost use Rattle.std.specs.Prelude.{◌≡◌, ◌<◌, IfOk};
ghost use Rattle.grain_id.specs.Reading.{grain_read, caller_read};
ghost use Rattle.line_parser.specs.Form.{if_ok, caller_at, grain_at, failed_at};
ghost use Rattle.line_parser.specs.inside.Step.{Finds};

use crate::line_members::LineMembers;
use grain_id::{Caller, GrainId, IdFault, NameCache};
use std::alloc::{AllocError, Global};

/// The grain of a text, if it is well formed.
#[inline(always)]
fn read_grain(
    alloc: Global,
    names: &mut NameCache,
    text: &str,
) -> Result<Option<GrainId>, AllocError>
    ensures { IfOk result (λ grain. grain ≡ if_ok (grain_read text.now)) }
{
    match names.read_grain(alloc, text) {
        Ok(grain) => Ok(Some(grain)),
        Err(IdFault::Memory) => Err(AllocError),
        Err(IdFault::Kind | IdFault::Tenant | IdFault::Name | IdFault::Client) => Ok(None),
    }
}

/// The caller of a text, if it is well formed.
#[inline(never)]
fn read_caller(
    alloc: Global,
    names: &mut NameCache,
    text: &str,
) -> Result<Option<Caller>, AllocError>
    ensures { IfOk result (λ caller. caller ≡ if_ok (caller_read text.now)) }
{
    match names.read_caller(alloc, text) {
        Ok(caller) => Ok(Some(caller)),
        Err(IdFault::Memory) => Err(AllocError),
        Err(IdFault::Kind | IdFault::Tenant | IdFault::Name | IdFault::Client) => Ok(None),
    }
}

/// The client that asks.
#[inline(always)]
pub(crate) fn caller_of(
    alloc: Global,
    names: &mut NameCache,
    members: &LineMembers<'_>,
) -> Result<Option<Caller>, AllocError>
    ensures { IfOk result (λ caller. Finds members.now caller_at caller) }
{
    let Some(text) = members.from else {
        return Ok(None);
    };
    read_caller(alloc, names, text)
}

/// The grain that is named.
#[inline(always)]
pub(crate) fn grain_of(
    alloc: Global,
    names: &mut NameCache,
    members: &LineMembers<'_>,
) -> Result<Option<GrainId>, AllocError>
    ensures { IfOk result (λ grain. Finds members.now grain_at grain) }
{
    let Some(text) = members.grain else {
        return Ok(None);
    };
    read_grain(alloc, names, text)
}

/// Whether the storage call is to fail: `false` where it is left out, which leaves `count` members.
#[inline(always)]
pub(crate) fn failed_of(members: &LineMembers<'_>, count: usize) -> Option<bool>
    requires { count < 16 }
    ensures { Finds members.now (failed_at count) result }
{
    if members.count == count {
        return Some(false);
    }
    if members.count == count + 1 {
        return members.failed;
    }
    None
}
