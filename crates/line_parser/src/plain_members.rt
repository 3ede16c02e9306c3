//! The members that a line begins with, as long as they are spelled plainly and are texts or numbers from 0 up.

ghost use Rattle.std.specs.Prelude.{◌≡◌, ◌∷◌, [], ℕ, List, IsTrue, IfSome, IfNone};
ghost use Rattle.json.specs.Token.{Token, key, begin_object, end_object};
ghost use Rattle.json.specs.Lex.{tokens};
ghost use Rattle.serde_json.specs.Data.{no_members};
ghost use Rattle.line_parser.specs.inside.LineMembers.{name_text, HoldsLineMembers};
ghost use Rattle.line_parser.specs.inside.PassedMembers.{MembersRead, PassesMember, TakesUncounted};

use crate::line_members::{LineMembers, Name};
use crate::plain::{
    byte_at, map_end, map_start, member_natural, member_text, past_name, past_word, plain_name,
};
use crate::slots::{put_natural, put_text};
use crate::step::{Form, word_of};

/// Takes the text that is the first token, if it is spelled plainly and the member had none: what follows it.
#[inline(always)]
fn take_plain_text<'a>(members: &mut LineMembers<'a>, name: Name, value: &'a str) -> Option<&'a str>
    ensures taken { IfSome result (λ after. (l : List ℕ)
        → TakesUncounted name (tokens value.now) (tokens after.now) members.old l members.new l) }
    ensures unchanged { IfNone result (members.new ≡ members.old) }
{
    let (text, after) = member_text(value)?;
    if !put_text(members, name, text) {
        return None;
    }
    Some(after)
}

/// Takes the number that is the first token, if it is spelled plainly and the member had none: what follows it.
#[inline(always)]
fn take_plain_natural<'a>(
    members: &mut LineMembers<'_>,
    name: Name,
    value: &'a str,
) -> Option<&'a str>
    ensures taken { IfSome result (λ after. (l : List ℕ)
        → TakesUncounted name (tokens value.now) (tokens after.now) members.old l members.new l) }
    ensures unchanged { IfNone result (members.new ≡ members.old) }
{
    let (n, after) = member_natural(value)?;
    if !put_natural(members, name, n) {
        return None;
    }
    Some(after)
}

/// Takes the value that is the first token for its member, if it is a text or a number that is spelled plainly, and the
/// member wasn't there yet: what follows it. The member isn't counted yet.
#[inline(always)]
fn take_plain_value<'a>(
    members: &mut LineMembers<'a>,
    name: Name,
    value: &'a str,
) -> Option<&'a str>
    ensures taken { IfSome result (λ after. (l : List ℕ)
        → TakesUncounted name (tokens value.now) (tokens after.now) members.old l members.new l) }
    ensures unchanged { IfNone result (members.new ≡ members.old) }
{
    match name {
        Name::Op | Name::From | Name::Grain | Name::Method => take_plain_text(members, name, value),
        Name::Id | Name::Turn | Name::Now => take_plain_natural(members, name, value),
        Name::Failed | Name::Args | Name::State => None,
    }
}

/// Takes the member whose name was passed and whose value is the first token, if that is a text or a number that is spelled
/// plainly, and the member wasn't there yet: what follows it. If not, nothing changes.
#[inline(always)]
fn take_passed<'a>(members: &mut LineMembers<'a>, name: Name, value: &'a str) -> Option<&'a str>
    ensures passed { IfSome result (λ after. (ts : List Token) → ts ≡ key (name_text name) ∷ tokens value.now
        → PassesMember ts (tokens after.now) members.old members.new) }
    ensures unchanged { IfNone result (members.new ≡ members.old) }
{
    let count = members.count.checked_add(1)?;
    let after = take_plain_value(members, name, value)?;
    members.count = count;
    Some(after)
}

/// Takes the member that stands in front, if it is spelled plainly, is a text or a number, and wasn't there yet: what
/// follows it. If not, nothing changes.
#[inline(always)]
fn take_plain_member<'a>(members: &mut LineMembers<'a>, rest: &'a str) -> Option<&'a str>
    ensures passed { IfSome result (λ after. PassesMember (tokens rest.now) (tokens after.now) members.old members.new) }
    ensures unchanged { IfNone result (members.new ≡ members.old) }
{
    let (name, value) = plain_name(rest)?;
    take_passed(members, name, value)
}

/// Takes the member of that name, if it stands in front, is spelled plainly, is a text or a number, and wasn't there yet:
/// what follows it.
#[inline(always)]
fn take_named<'a>(members: &mut LineMembers<'a>, rest: &'a str, name: Name) -> Option<&'a str>
    ensures { IfSome result (λ after. PassesMember (tokens rest.now) (tokens after.now) members.old members.new) }
{
    let (name, value) = past_name(rest, name)?;
    take_passed(members, name, value)
}

/// Takes `op`, if it stands in front, is spelled plainly and is `call`, and wasn't there yet: what follows it.
#[inline(always)]
fn take_call_word<'a>(members: &mut LineMembers<'a>, rest: &'a str) -> Option<&'a str>
    ensures { IfSome result (λ after. PassesMember (tokens rest.now) (tokens after.now) members.old members.new) }
{
    let Some((Name::Op, value)) = past_name(rest, Name::Op) else {
        return None;
    };
    let (form, after) = past_word(value, Form::Call)?;
    let counted = members.count.checked_add(1)?;
    if !put_text(members, Name::Op, word_of(form)) {
        return None;
    }
    members.count = counted;
    Some(after)
}

/// Takes the two members of these names, if they stand in front in this order, each as `take_named` takes it: what follows
/// them.
#[inline(always)]
fn take_both<'a>(
    members: &mut LineMembers<'a>,
    rest: &'a str,
    first: Name,
    second: Name,
) -> Option<&'a str>
    ensures { IfSome result (λ after. (begun : List Token) (l : List ℕ) → MembersRead begun (tokens rest.now) members.old l
        → MembersRead begun (tokens after.now) members.new l) }
{
    let behind = take_named(members, rest, first)?;
    take_named(members, behind, second)
}

/// Takes `op`, which has to be `call`, and `from` and `id`, if these three come first, with `op` before or after the
/// two others. Returns what follows them.
#[inline(always)]
fn past_client<'a>(members: &mut LineMembers<'a>, rest: &'a str) -> Option<&'a str>
    ensures { IfSome result (λ after. (begun : List Token) (l : List ℕ) → MembersRead begun (tokens rest.now) members.old l
        → MembersRead begun (tokens after.now) members.new l) }
{
    if byte_at(rest, 1) == b'o' {
        let behind = take_call_word(members, rest)?;
        return take_both(members, behind, Name::From, Name::Id);
    }
    let behind = take_both(members, rest, Name::From, Name::Id)?;
    take_call_word(members, behind)
}

/// Takes the members of a call but its argument, if a text begins an object with them in the order in which calls are
/// mostly written, spelled plainly: what follows them.
#[inline(always)]
pub(crate) fn past_method<'a>(members: &mut LineMembers<'a>, text: &'a str) -> Option<&'a str>
    requires { (l : List ℕ) → HoldsLineMembers no_members members.old l }
    ensures { IfSome result (λ rest. (begun : List Token) × (tokens text.now ≡ begin_object ∷ begun)
        × ((l : List ℕ) → MembersRead begun (tokens rest.now) members.new l)) }
{
    let begun = map_start(text)?;
    let behind = past_client(members, begun)?;
    take_both(members, behind, Name::Grain, Name::Method)
}

/// Takes the members that stand in front and are spelled plainly, each a text or a number: what follows them.
#[inline(always)]
pub(crate) fn past_plain_members<'a>(members: &mut LineMembers<'a>, text: &'a str) -> &'a str
    ensures { (begun : List Token) (l : List ℕ) → MembersRead begun (tokens text.now) members.old l
        → MembersRead begun (tokens result.now) members.new l }
{
    let mut rest = text;
    'members: while let Some(after) = take_plain_member(members, rest) {
        rest = after;
    }
    rest
}

/// Whether the object ends here, and the line with it.
#[inline(always)]
pub(crate) fn ends_line(rest: &str) -> bool
    ensures { IsTrue result → tokens rest.now ≡ end_object ∷ [] }
{
    match map_end(rest) {
        Some(after) => after.is_empty(),
        None => false,
    }
}
