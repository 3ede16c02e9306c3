//! A line of a form that names a grain and no client: `op`, `grain` and maybe `turn`, in this order and spelled plainly.

ghost use Rattle.std.specs.Prelude.{◌≡◌, ℕ, List, IfSome, Some, option_map};
ghost use Rattle.json.specs.Token.{Token};
ghost use Rattle.json.specs.Lex.{tokens};
ghost use Rattle.line_parser.specs.inside.LineMembers.{HasLineMembers};
ghost use Rattle.line_parser.specs.inside.ShortLine.{IsShort, short_count};
ghost use Rattle.line_parser.specs.inside.Step.{form_text};

use crate::line_members::{LineMembers, Name};
use crate::plain::{map_start, member_natural, member_text, past_likely_word, past_name};
use crate::plain_members::ends_line;
use crate::step::{Form, word_of};

/// What such a line says.
#[derive(Clone, Copy)]
pub(crate) struct ShortLine<'a> {
    pub(crate) form: Form,
    pub(crate) grain: &'a str,
    pub(crate) turn: Option<u64>,
}

/// What a text says, if it is such a line.
#[inline(always)]
pub(crate) fn short_line<'a>(text: &'a str) -> Option<ShortLine<'a>>
    ensures { IfSome result (λ line. IsShort (tokens text.now) line) }
{
    let begun = map_start(text)?;
    let Some((Name::Op, word)) = past_name(begun, Name::Op) else {
        return None;
    };
    let (form, named) = past_likely_word(word)?;
    let Some((Name::Grain, value)) = past_name(named, Name::Grain) else {
        return None;
    };
    let (grain, rest) = member_text(value)?;
    if ends_line(rest) {
        return Some(ShortLine {
            form,
            grain,
            turn: None,
        });
    }
    let Some((Name::Turn, number)) = past_name(rest, Name::Turn) else {
        return None;
    };
    let (turn, end) = member_natural(number)?;
    if !ends_line(end) {
        return None;
    }
    Some(ShortLine {
        form,
        grain,
        turn: Some(turn),
    })
}

/// How many members such a line has.
#[inline(always)]
fn count_of_short(turn: Option<u64>) -> usize
    ensures { result ≡ short_count turn }
{
    match turn {
        None => 2,
        Some(_) => 3,
    }
}

/// The members of such a line.
#[inline(always)]
pub(crate) fn members_of_short<'a>(line: ShortLine<'a>) -> LineMembers<'a>
    ensures members { (ts : List Token) (l : List ℕ) → IsShort ts line.entry → HasLineMembers ts result l }
    ensures named { option_map (λ op. op.now) result.op ≡ Some (form_text line.entry.form) }
{
    LineMembers {
        op: Some(word_of(line.form)),
        from: None,
        grain: Some(line.grain),
        method: None,
        id: None,
        turn: line.turn,
        moment: None,
        failed: None,
        args: false,
        state: false,
        refusal: None,
        count: count_of_short(line.turn),
    }
}
