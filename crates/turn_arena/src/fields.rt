//! Fields of a map: one set, one left out. An `Err` says that memory was refused.

ghost use Rattle.std.specs.Prelude.{◌≡◌, ◌++◌, ◌∷◌, ◌≤◌, length, take, drop, IfOk, IfErr};
ghost use Rattle.turn_arena.specs.Ascending.{NamesAscend};
ghost use Rattle.turn_arena.specs.Fields.{field_put, field_dropped, put_field, dropped_field, IsPlaceOf, IsGapFor};
ghost use Rattle.turn_arena.specs.NodeValue.{node_value, field_values};

use crate::node::{Field, Node};
use bumpalo::Bump;
use bumpalo::collections::into_bump_slice;
use std::alloc::AllocError;

/// The fields with one set: in place of the one of that name, else between its neighbours.
pub fn put_in<'a>(
    bump: &'a Bump,
    members: &'a [Field<'a>],
    name: &'a str,
    node: Node<'a>,
) -> Result<&'a [Field<'a>], AllocError>
    requires { NamesAscend members.now }
    ensures exact { IfOk result (λ r. r.now ≡ put_field (record { name = name.entry; node = node.entry }) members.now) }
    ensures value { IfOk result (λ r. field_values r.now ≡ field_put name.now (node_value node.entry) (field_values members.now)) }
    ensures ascends { IfOk result (λ r. NamesAscend r.now) }
{
    let field = [Field { name, node }];
    match place_of(members, name) {
        Ok(at) => splice_in(bump, members, at, at + 1, &field),
        Err(at) => splice_in(bump, members, at, at, &field),
    }
}

/// The fields without the one of that name. Nothing is copied where there is none.
pub fn drop_in<'a>(
    bump: &'a Bump,
    members: &'a [Field<'a>],
    name: &str,
) -> Result<&'a [Field<'a>], AllocError>
    requires { NamesAscend members.now }
    ensures exact { IfOk result (λ r. r.now ≡ dropped_field name.now members.now) }
    ensures value { IfOk result (λ r. field_values r.now ≡ field_dropped name.now (field_values members.now)) }
    ensures ascends { IfOk result (λ r. NamesAscend r.now) }
{
    match place_of(members, name) {
        Ok(at) => splice_in(bump, members, at, at + 1, &[]),
        Err(_) => Ok(members),
    }
}

/// The fields with others in place of those from `at` up to `after`.
fn splice_in<'a>(
    bump: &'a Bump,
    members: &'a [Field<'a>],
    at: usize,
    after: usize,
    others: &[Field<'a>],
) -> Result<&'a [Field<'a>], AllocError>
    requires order { at ≤ after }
    requires within { after ≤ length members.now }
    ensures { IfOk result (λ r. r.now ≡ take at members.now ++ (others.now ++ drop after members.now)) }
{
    let mut all = Vec::with_capacity(bump, at + others.len() + (members.len() - after))?;
    all.extend_from_slice(&members[..at])?;
    all.extend_from_slice(others)?;
    all.extend_from_slice(&members[after..])?;
    Ok(into_bump_slice(all))
}

/// Where the field of that name is, or where it would go.
fn place_of(members: &[Field<'_>], name: &str) -> Result<usize, usize>
    requires { NamesAscend members.now }
    ensures found { IfOk result (IsPlaceOf name.now members.now) }
    ensures absent { IfErr result (IsGapFor name.now members.now) }
{
    members.binary_search_by_key(&name, |field| field.name)
}
