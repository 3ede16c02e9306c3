//! The members of a line, each by its name.

ghost use Rattle.std.specs.Prelude.{◌≡◌, ◌<◌, ◌^◌, ◌||◌, ℕ, List, [], ◌∷◌, false, None, IfSome, IfOk, OnOk, option_map};
ghost use Rattle.std.specs.Bool.{MatchBool};
ghost use Rattle.json.specs.Token.{Token as SpecToken, boolean, begin_object};
ghost use Rattle.json.specs.Lex.{tokens};
ghost use Rattle.serde_json.specs.Data.{no_members};
ghost use Rattle.line_parser.specs.inside.LineMembers.{name_text, named, TakesMember, TakesValue, asked_by, HoldsLineMembers};
ghost use Rattle.line_parser.specs.inside.LineMembers.{HasLineMembers};
ghost use Rattle.line_parser.specs.inside.LineMembers.{IsNatural};
ghost use Rattle.line_parser.specs.inside.PassedMembers.{MembersRead, TakesUncounted};
ghost use Rattle.line_parser.specs.declared.line_members.Name.TheVariants as names;

use crate::argument::put_value;
use crate::faults::Faults;
use crate::number::whole_number;
use crate::plain::{begins_no_map, map_start};
use crate::plain_members::{ends_line, past_plain_members};
use crate::quick_fault::QuickFault;
use crate::slots::{put_failed, put_natural, put_text};
use crate::tokens::Tokens;
use json::{Scratch, Token};
use serde_json::Value;
use silo_event::Refusal;

/// The members that a step may have.
#[derive(Clone, Copy)]
pub(crate) enum Name {
    Op,
    From,
    Grain,
    Method,
    Id,
    Turn,
    Now,
    Failed,
    Args,
    State,
}

/// What a line's object goes on with: a member, one that no form has, its end, or what no object has there.
#[derive(Clone, Copy)]
pub(crate) enum Next {
    Member(Name),
    Other,
    End,
    Broken,
}

/// Where the value of a member is: in the bytes that spell it, or in JSON.
#[derive(Clone, Copy)]
pub(crate) enum ValueIn<'a> {
    Bytes(&'a [u8]),
    Json(&'a Value),
}

/// What the members of a line were. `args` and `state` say whether they were there, which is at most one
/// of them; its value is kept elsewhere, and `refusal` says why it is refused, if that is known.
#[derive(Drop)]
pub(crate) struct LineMembers<'a> {
    pub(crate) op: Option<&'a str>,
    pub(crate) from: Option<&'a str>,
    pub(crate) grain: Option<&'a str>,
    pub(crate) method: Option<&'a str>,
    pub(crate) id: Option<u64>,
    pub(crate) turn: Option<u64>,
    pub(crate) moment: Option<u64>,
    pub(crate) failed: Option<bool>,
    pub(crate) args: bool,
    pub(crate) state: bool,
    pub(crate) refusal: Option<Refusal>,
    pub(crate) count: usize,
}

impl<'a> LineMembers<'a> {
    /// No member was there yet.
    #[inline(always)]
    pub(crate) fn none() -> LineMembers<'a>
        ensures { (l : List ℕ) → HoldsLineMembers no_members result l }
    {
        LineMembers {
            op: None,
            from: None,
            grain: None,
            method: None,
            id: None,
            turn: None,
            moment: None,
            failed: None,
            args: false,
            state: false,
            refusal: None,
            count: 0,
        }
    }
}

/// The levels that a member's value may have: what the line's object leaves of 127.
pub(crate) const MEMBER_DEPTH: usize = 126;

/// The bytes that are put for a value, at most: more than any line spells, of which two bytes stand for nine at most.
/// Whether a message or a state is too long is asked once they are known.
pub(crate) const MAX_VALUE_BYTES: usize = 1_048_576;

#[tactic(auto, unfolding(crate::specs::inside::LineMembers::named))]
/// The member of that name.
pub(crate) fn name_of(key: &str) -> Option<Name>
    ensures known { IfSome result (λ name. key.now ≡ name_text name) }
    ensures other { result ≡ named key.now }
{
    match key {
        "op" => Some(Name::Op),
        "from" => Some(Name::From),
        "grain" => Some(Name::Grain),
        "method" => Some(Name::Method),
        "id" => Some(Name::Id),
        "turn" => Some(Name::Turn),
        "now" => Some(Name::Now),
        "failed" => Some(Name::Failed),
        "args" => Some(Name::Args),
        "state" => Some(Name::State),
        _ => None,
    }
}

/// Takes the next token, which has to be a text, for a member that wasn't there yet.
fn take_text<'a>(
    members: &mut LineMembers<'a>,
    reader: &mut Tokens<'a>,
    name: Name,
) -> Result<(), QuickFault>
    ensures { (l : List ℕ) → OnOk result (TakesUncounted name reader.old reader.new members.old l members.new l) }
{
    let text = reader.next_text()?;
    if !put_text(members, name, text) {
        return Err(QuickFault::LeftToTree);
    }
    Ok(())
}

/// The next token, which has to be a whole number, 0 or above.
fn next_natural(reader: &mut Tokens<'_>) -> Result<u64, QuickFault>
    ensures { IfOk result (λ n. IsNatural reader.old n reader.new) }
{
    let text = reader.next_number()?;
    let Some(n) = whole_number(text) else {
        return Err(QuickFault::LeftToTree);
    };
    if n < 0 {
        return Err(QuickFault::LeftToTree);
    }
    Ok(n as u64)
}

/// Takes the next token, which has to be such a number, for a member that wasn't there yet.
fn take_natural(
    members: &mut LineMembers<'_>,
    reader: &mut Tokens<'_>,
    name: Name,
) -> Result<(), QuickFault>
    ensures { (l : List ℕ) → OnOk result (TakesUncounted name reader.old reader.new members.old l members.new l) }
{
    let n = next_natural(reader)?;
    if !put_natural(members, name, n) {
        return Err(QuickFault::LeftToTree);
    }
    Ok(())
}

/// The next token, which has to be a truth value.
fn next_truth(reader: &mut Tokens<'_>) -> Result<bool, QuickFault>
    ensures { IfOk result (λ b. reader.old ≡ boolean b ∷ reader.new) }
{
    match reader.next()? {
        Token::Bool(truth) => Ok(truth),
        _ => Err(QuickFault::LeftToTree),
    }
}

/// Takes the next token, which has to be a truth value, for `failed`, if that wasn't there yet.
fn take_failed(members: &mut LineMembers<'_>, reader: &mut Tokens<'_>) -> Result<(), QuickFault>
    ensures { (l : List ℕ) → OnOk result (TakesUncounted names.Failed reader.old reader.new members.old l members.new l) }
{
    let truth = next_truth(reader)?;
    if !put_failed(members, truth) {
        return Err(QuickFault::LeftToTree);
    }
    Ok(())
}

/// Whether there was a member whose bytes are kept.
#[inline(always)]
pub(crate) fn has_value(members: &LineMembers<'_>) -> bool
    ensures { result ≡ (members.now.args || members.now.state) }
{
    members.args || members.state
}

/// Puts the next value's bytes in place of others, unless a value was put there before, and answers
/// why the value is refused, if it is.
pub(crate) fn take_value(
    taken: bool,
    bytes: &mut Vec<u8>,
    reader: &mut Tokens<'_>,
) -> Result<Option<Refusal>, QuickFault>
    ensures empty { OnOk result (taken ≡ false) }
    ensures value { IfOk result (λ why. TakesValue reader.old reader.new why bytes.new.items) }
{
    if taken {
        return Err(QuickFault::LeftToTree);
    }
    bytes.clear();
    let mut faults = Faults::none();
    put_value(bytes, MAX_VALUE_BYTES, reader, MEMBER_DEPTH, &mut faults)?;
    Ok(faults.refusal())
}

/// Takes a member that wasn't there yet. It isn't counted yet.
#[inline(always)]
fn take_uncounted<'a>(
    members: &mut LineMembers<'a>,
    bytes: &mut Vec<u8>,
    reader: &mut Tokens<'a>,
    name: Name,
) -> Result<(), QuickFault>
    ensures { OnOk result (TakesUncounted name reader.old reader.new members.old bytes.old.items members.new bytes.new.items) }
{
    match name {
        Name::Op | Name::From | Name::Grain | Name::Method => take_text(members, reader, name),
        Name::Id | Name::Turn | Name::Now => take_natural(members, reader, name),
        Name::Failed => take_failed(members, reader),
        Name::Args => {
            members.refusal = take_value(has_value(members), bytes, reader)?;
            members.args = true;
            Ok(())
        }
        Name::State => {
            members.refusal = take_value(has_value(members), bytes, reader)?;
            members.state = true;
            Ok(())
        }
    }
}

/// Takes a member that wasn't there yet.
#[inline(always)]
fn take_member<'a>(
    members: &mut LineMembers<'a>,
    bytes: &mut Vec<u8>,
    reader: &mut Tokens<'a>,
    name: Name,
) -> Result<(), QuickFault>
    ensures { OnOk result (TakesMember name reader.old reader.new members.old bytes.old.items members.new bytes.new.items) }
{
    let count = members.count.checked_add(1).ok_or(QuickFault::LeftToTree)?;
    take_uncounted(members, bytes, reader, name)?;
    members.count = count;
    Ok(())
}

/// Takes the members that are left of the object that was begun, and answers whether it did: each is known and stands
/// once. If not, the tokens are surely no request.
#[inline(always)]
fn read_further<'a>(
    reader: &mut Tokens<'a>,
    members: &mut LineMembers<'a>,
    bytes: &mut Vec<u8>,
) -> Result<bool, QuickFault>
    requires { (begun : List SpecToken) × MembersRead begun reader.old members.old bytes.old.items }
    ensures { (begun : List SpecToken) → MembersRead begun reader.old members.old bytes.old.items
        → IfOk result (λ all. MatchBool all (HasLineMembers (begin_object ∷ begun) members.new bytes.new.items)
        (asked_by (begin_object ∷ begun) ≡ None)) }
{
    'further: loop {
        match reader.next_member()? {
            Next::Member(name) => take_member(members, bytes, reader, name)?,
            Next::End => break,
            Next::Other | Next::Broken => return Ok(false),
        }
    }
    reader.ends()
}

/// The same as `read_further`, for the object's text after the members that were passed.
#[inline(never)]
fn read_rest<'a>(
    rest: &'a str,
    scratch: &'a mut Scratch,
    members: &mut LineMembers<'a>,
    bytes: &mut Vec<u8>,
) -> Result<bool, QuickFault>
    requires { (begun : List SpecToken) × MembersRead begun (tokens rest.now) members.old bytes.old.items }
    ensures { (begun : List SpecToken) → MembersRead begun (tokens rest.now) members.old bytes.old.items
        → IfOk result (λ all. MatchBool all (HasLineMembers (begin_object ∷ begun) members.new bytes.new.items)
        (asked_by (begin_object ∷ begun) ≡ None)) }
{
    let mut reader = Tokens::new(rest, scratch);
    read_further(&mut reader, members, bytes)
}

/// Takes the members of the object that a text is, if it begins one, by the way of any object.
#[inline(never)]
fn read_any_members<'a>(
    text: &'a str,
    scratch: &'a mut Scratch,
    members: &mut LineMembers<'a>,
    bytes: &mut Vec<u8>,
) -> Result<bool, QuickFault>
    requires { (l : List ℕ) → HoldsLineMembers no_members members.old l }
    ensures { IfOk result (λ all. MatchBool all (HasLineMembers (tokens text.now) members.new bytes.new.items)
        (asked_by (tokens text.now) ≡ None)) }
{
    if begins_no_map(text) {
        return Ok(false);
    }
    let mut reader = Tokens::new(text, scratch);
    let begins = reader.take_begin_map()?;
    if !begins {
        return Ok(false);
    }
    read_further(&mut reader, members, bytes)
}

/// Takes the members of the object that a text is, and answers whether it did: each is known and stands once. If not,
/// the text is surely no request.
#[inline(always)]
pub(crate) fn read_members<'a>(
    text: &'a str,
    scratch: &'a mut Scratch,
    members: &mut LineMembers<'a>,
    bytes: &mut Vec<u8>,
) -> Result<bool, QuickFault>
    requires { (l : List ℕ) → HoldsLineMembers no_members members.old l }
    ensures { IfOk result (λ all. MatchBool all (HasLineMembers (tokens text.now) members.new bytes.new.items)
        (asked_by (tokens text.now) ≡ None)) }
{
    let Some(begun) = map_start(text) else {
        return read_any_members(text, scratch, members, bytes);
    };
    let rest = past_plain_members(members, begun);
    if ends_line(rest) {
        return Ok(true);
    }
    read_rest(rest, scratch, members, bytes)
}
