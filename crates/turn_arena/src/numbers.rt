//! A message whose argument is one named number, read with no arena.

ghost use Rattle.std.specs.Prelude.{ℕ, ℤ, ◌≡◌, List, Some, None, IsSome, IfSome};
ghost use Rattle.request_codec.specs.Call.{asks};
ghost use Rattle.request_codec.specs.Limits.{depth_limit};
ghost use Rattle.request_codec.specs.Reading.{value_at};
ghost use Rattle.request_codec.specs.Start.{leaf, map_of, start_at};
ghost use Rattle.request_codec.specs.Tree as tree;
ghost use Rattle.request_codec.specs.Tree.{integer, field, no_fields};

use crate::formed::{known_call, known_start, known_text};
use request_codec::Message;
use request_codec::bytes::Start;

/// The bytes of the only field, if a map of one field is known to start at the front.
#[inline(always)]
fn only_field(bytes: &[u8]) -> Option<&[u8]>
    requires { IsSome (start_at bytes.now) }
    ensures found { IfSome result (λ field. start_at bytes.now ≡ Some (map_of 1, field.now)) }
    ensures none { result ≡ None → (field : List ℕ) → start_at bytes.now ≡ Some (map_of 1, field) → ⊥ }
{
    match known_start(bytes)? {
        (Start::Map(1), field) => Some(field),
        _ => None,
    }
}

/// The whole number, if one is known to stand at the front, and the bytes after it.
#[inline(always)]
fn number_in(bytes: &[u8]) -> Option<(i64, &[u8])>
    requires { IsSome (start_at bytes.now) }
    ensures found { IfSome result (λ found. start_at bytes.now ≡ Some (leaf (integer found.0), found.1.now)) }
    ensures none { result ≡ None → (number : ℤ) → (rest : List ℕ) → start_at bytes.now ≡ Some (leaf (integer number), rest) → ⊥ }
{
    match known_start(bytes)? {
        (Start::Int(number), rest) => Some((number, rest)),
        _ => None,
    }
}

/// The name and the number, if a map of one field is known to stand at the front, and its value is a whole number; and
/// the bytes after it.
#[inline(always)]
fn named_number(bytes: &[u8]) -> Option<(&str, i64, &[u8])>
    requires { IsSome (value_at depth_limit bytes.now) }
    ensures found { IfSome result
        (λ found. value_at depth_limit bytes.now ≡ Some (tree.map (field found.0.now (integer found.1) no_fields), found.2.now)) }
    ensures none { result ≡ None → (name : List ℕ) → (number : ℤ) → (rest : List ℕ)
        → value_at depth_limit bytes.now ≡ Some (tree.map (field name (integer number) no_fields), rest) → ⊥ }
{
    let only = only_field(bytes)?;
    let Some((name, value)) = known_text(only) else {
        unreachable!();
    };
    let (number, rest) = number_in(value)?;
    Some((name, number, rest))
}

/// The method, the name and the number of a message, if its argument is `{name: number}` with a whole number. The texts are
/// lent from the message.
pub fn number_asked(message: &Message) -> Option<(&str, &str, i64)>
    ensures found { IfSome result
        (λ found. message.now ≡ asks found.0.now (tree.map (field found.1.now (integer found.2) no_fields))) }
    ensures none { result ≡ None → (method : List ℕ) → (name : List ℕ) → (number : ℤ)
        → message.now ≡ asks method (tree.map (field name (integer number) no_fields)) → ⊥ }
{
    let (method, argument) = known_call(message.bytes());
    let (name, number, _) = named_number(argument)?;
    Some((method, name, number))
}
