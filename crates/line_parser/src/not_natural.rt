//! A line whose last member has to be a whole number from 0 up, and has another value: a text, a truth value, null or
//! another number. The members in front of it are texts and whole numbers that are spelled plainly.

ghost use Rattle.std.specs.Prelude.{◌≡◌, ℕ, List, IsTrue, IfOk, None, Some, option_and_then};
ghost use Rattle.json.specs.Lex.{tokens};
ghost use Rattle.json.specs.Reads.{token_of};
ghost use Rattle.serde_json.specs.Data.{Num, no_members};
ghost use Rattle.serde_json.specs.Find.{as_i64};
ghost use Rattle.serde_json.specs.Read.{number_of};
ghost use Rattle.line_parser.specs.Form.{natural};
ghost use Rattle.line_parser.specs.inside.LineMembers.{HoldsLineMembers};
ghost use Rattle.line_parser.specs.inside.NotNatural.{IsUnset, IsNotNatural, EndsNotNatural, HasNotNatural};

use crate::line_members::{LineMembers, Name, Next};
use crate::number::{is_not_whole, whole_number};
use crate::plain::{map_start, plain_name};
use crate::plain_members::past_plain_members;
use crate::quick_fault::QuickFault;
use crate::tokens::Tokens;
use json::{Scratch, Token};

/// Whether the member has to be a whole number from 0 up, and wasn't there yet.
fn is_unset(members: &LineMembers<'_>, name: Name) -> bool
    ensures { IsTrue result → IsUnset name members.now }
{
    match name {
        Name::Id => members.id.is_none(),
        Name::Turn => members.turn.is_none(),
        Name::Now => members.moment.is_none(),
        Name::Op | Name::From | Name::Grain | Name::Method => false,
        Name::Failed | Name::Args | Name::State => false,
    }
}

/// Whether the text is a number's, and that is no whole one from 0 to 9,223,372,036,854,775,807.
fn is_no_natural(text: &str) -> bool
    ensures { IsTrue result → (n : Num) × (number_of text.now ≡ Some n) × (option_and_then natural (as_i64 n) ≡ None) }
{
    match whole_number(text) {
        Some(n) => n < 0,
        None => is_not_whole(text),
    }
}

/// Whether the token is a value of its own, and no whole number from 0 up.
fn is_not_natural(token: Token<'_>) -> bool
    ensures { IsTrue result → IsNotNatural (token_of token.entry) }
{
    match token {
        Token::String(_) | Token::Bool(_) | Token::Null => true,
        Token::Number(text) => is_no_natural(text),
        Token::BeginObject | Token::BeginArray | Token::EndObject | Token::EndArray => false,
        Token::Key(_) | Token::Bad => false,
    }
}

/// Whether a text begins with such a token, and the object and the line end after it.
fn ends_not_natural(value: &str, scratch: &mut Scratch) -> Result<bool, QuickFault>
    ensures { IfOk result (λ so. IsTrue so → EndsNotNatural (tokens value.now)) }
{
    let mut reader = Tokens::new(value, scratch);
    let token = reader.next()?;
    if !is_not_natural(token) {
        return Ok(false);
    }
    let Next::End = reader.next_member()? else {
        return Ok(false);
    };
    reader.ends()
}

/// Takes the members of the object that a text is, if it is such a line: whether it is. The last is counted, and stays
/// out of its slot.
pub(crate) fn take_not_natural<'a>(
    text: &'a str,
    scratch: &mut Scratch,
    members: &mut LineMembers<'a>,
) -> Result<bool, QuickFault>
    requires { (l : List ℕ) → HoldsLineMembers no_members members.old l }
    ensures { IfOk result (λ taken. IsTrue taken → HasNotNatural (tokens text.now) members.new) }
{
    let Some(begun) = map_start(text) else {
        return Ok(false);
    };
    let rest = past_plain_members(members, begun);
    let Some((name, value)) = plain_name(rest) else {
        return Ok(false);
    };
    if !is_unset(members, name) {
        return Ok(false);
    }
    let Some(count) = members.count.checked_add(1) else {
        return Ok(false);
    };
    let ends = ends_not_natural(value, scratch)?;
    if !ends {
        return Ok(false);
    }
    members.count = count;
    Ok(true)
}
