//! How deep a value is, whatever shows it.

ghost use Rattle.std.specs.Prelude.{IsTrue, IsUtf8, FitsSigned};
ghost use Rattle.std.specs.Int.{w64};
ghost use Rattle.hex.specs.Hex.{IsBytes};
ghost use Rattle.request_codec.specs.Tree.{members_of, fields_of};
ghost use Rattle.request_codec.specs.Formed.{TestsDepth, TestDepths, TestFieldDepths};
ghost use Rattle.request_codec.specs.inside.Level.{AreKept};

use crate::shown::{Level, Shown};

/// Always: each `i64` is a number that a spelling is there for.
fn is_number(_number: i64) -> bool
    ensures always { IsTrue result }
    ensures formed { FitsSigned w64 _number }
{
    true
}

/// Always: each `&str` is a text that a spelling is there for.
fn is_text(_text: &str) -> bool
    ensures always { IsTrue result }
    ensures formed { IsUtf8 _text.now }
{
    true
}

/// Always: each `&[u8]` is bytes that a spelling is there for.
fn is_bytes(_bytes: &[u8]) -> bool
    ensures always { IsTrue result }
    ensures formed { IsBytes _bytes.now }
{
    true
}

/// Whether the value is no deeper than the limit. It looks no deeper than that.
#[cycle(depth)]
pub fn is_within<V: Shown>(value: V, limit: u8) -> bool
    requires { V.kept (V.value value) }
    ensures { TestsDepth result limit (V.value value) }
{
    if limit == 0 {
        return false;
    }
    match value.level() {
        Level::Null => true,
        Level::Bool(_) => true,
        Level::Int(number) => is_number(number),
        Level::Text(text) => is_text(text),
        Level::List(_, items) => are_within::<V>(items, limit - 1),
        Level::Map(_, fields) => fields_within::<V>(fields, limit - 1),
        Level::Bytes(bytes) => is_bytes(bytes),
        Level::Hex(_) => true,
    }
}

#[cycle(depth)]
fn are_within<V: Shown>(items: V::Items, limit: u8) -> bool
    requires { AreKept V.kept (V.listed items) }
    ensures { TestDepths result limit (members_of (V.listed items)) }
{
    let mut items = items;
    'items: while let Some(item) = V::next_item(&mut items) {
        if !is_within(item, limit) {
            return false;
        }
    }
    true
}

#[cycle(depth)]
fn fields_within<V: Shown>(fields: V::Fields, limit: u8) -> bool
    requires { V.ascend fields }
    ensures { TestFieldDepths result limit (fields_of (V.named fields)) }
{
    let mut fields = fields;
    'fields: while let Some(field) = V::next_field(&mut fields) {
        let (name, value) = V::parts(&field);
        let _formed = is_text(name);
        if !is_within(value, limit) {
            return false;
        }
    }
    true
}
