//! The members of a call in the order in which calls are mostly written, its argument last.

ghost use Rattle.std.specs.Prelude.{◌∷◌, ℕ, List, IsTrue, IfOk};
ghost use Rattle.json.specs.Token.{Token, begin_object};
ghost use Rattle.json.specs.Lex.{tokens};
ghost use Rattle.serde_json.specs.Data.{no_members};
ghost use Rattle.line_parser.specs.inside.LineMembers.{HoldsLineMembers, HasLineMembers};
ghost use Rattle.line_parser.specs.inside.PassedMembers.{MembersRead};
ghost use Rattle.line_parser.specs.inside.CallMembers.{TakesLast};

use crate::line_members::{LineMembers, MAX_VALUE_BYTES, Name, Next, has_value, take_value};
use crate::plain::past_name;
use crate::plain_argument::put_plain;
use crate::plain_members::{ends_line, past_method};
use crate::quick_fault::QuickFault;
use crate::tokens::Tokens;
use json::Scratch;
use silo_event::Refusal;

/// The value of a line's last member: why it is refused, if it is; or it isn't the last.
#[derive(Clone, Copy)]
pub(crate) enum Last {
    Taken(Option<Refusal>),
    Other,
}

/// Replaces `bytes` by the bytes of the value that a text begins with, if the object and the line end after the value.
#[inline(never)]
fn take_last(value: &str, scratch: &mut Scratch, bytes: &mut Vec<u8>) -> Result<Last, QuickFault>
    ensures { IfOk result (λ last. TakesLast (tokens value.now) last bytes.new.items) }
{
    if let Some(after) = put_plain(bytes, MAX_VALUE_BYTES, value)? {
        if ends_line(after) {
            return Ok(Last::Taken(None));
        }
    }
    let mut reader = Tokens::new(value, scratch);
    let refusal = take_value(false, bytes, &mut reader)?;
    let Next::End = reader.next_member()? else {
        return Ok(Last::Other);
    };
    if !reader.ends()? {
        return Ok(Last::Other);
    }
    Ok(Last::Taken(refusal))
}

/// Takes the argument, if it stands in front and nothing follows it: whether it does.
#[inline(always)]
fn take_args<'a>(
    rest: &'a str,
    scratch: &mut Scratch,
    members: &mut LineMembers<'a>,
    bytes: &mut Vec<u8>,
) -> Result<bool, QuickFault>
    requires { (begun : List Token) × ((l : List ℕ) → MembersRead begun (tokens rest.now) members.old l) }
    ensures { IfOk result (λ taken. IsTrue taken → (begun : List Token) → ((l : List ℕ) → MembersRead begun (tokens rest.now) members.old l)
        → HasLineMembers (begin_object ∷ begun) members.new bytes.new.items) }
{
    let Some((Name::Args, value)) = past_name(rest, Name::Args) else {
        return Ok(false);
    };
    let Some(count) = members.count.checked_add(1) else {
        return Ok(false);
    };
    if has_value(members) {
        return Ok(false);
    }
    match take_last(value, scratch, bytes)? {
        Last::Taken(refusal) => {
            members.refusal = refusal;
            members.args = true;
            members.count = count;
            Ok(true)
        }
        Last::Other => Ok(false),
    }
}

/// Takes the members of the object that a text is, if they are those of a call in the order in which calls are mostly
/// written, and spelled plainly but for the argument: whether they are. If not, some of them may be taken.
#[inline(always)]
pub(crate) fn take_call<'a>(
    text: &'a str,
    scratch: &mut Scratch,
    members: &mut LineMembers<'a>,
    bytes: &mut Vec<u8>,
) -> Result<bool, QuickFault>
    requires { (l : List ℕ) → HoldsLineMembers no_members members.old l }
    ensures { IfOk result (λ all. IsTrue all → HasLineMembers (tokens text.now) members.new bytes.new.items) }
{
    let Some(rest) = past_method(members, text) else {
        return Ok(false);
    };
    if ends_line(rest) {
        return Ok(true);
    }
    take_args(rest, scratch, members, bytes)
}
