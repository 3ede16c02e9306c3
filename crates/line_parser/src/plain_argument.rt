//! An argument that is a text, a number from 0 up or null, or a map of one field that is one of these, each spelled plainly:
//! its bytes are put from the text alone.

ghost use Rattle.std.specs.Prelude.{◌≡◌, ◌<◌, ◌^◌, IfSome, IfOk, None};
ghost use Rattle.json.specs.Lex.{tokens};
ghost use Rattle.request_codec.specs.Start.{begun};
ghost use Rattle.request_codec.specs.Written.{start_spelling};
ghost use Rattle.line_parser.specs.inside.Argument.{ReadsPlain, IsField};
ghost use Rattle.line_parser.specs.inside.LineMembers.{TakesValue};

use crate::argument::known;
use crate::fields::is_hex_name;
use crate::number::few_digits;
use crate::plain::{map_end, map_start, plain_key, plain_null, plain_number, plain_text};
use crate::quick_fault::QuickFault;
use request_codec::bytes::{Start, put_start, put_text};

/// The text, the number or the null that is the first token, and what follows it.
#[inline(always)]
fn plain_start<'a>(value: &'a str) -> Option<(Start<'a>, &'a str)>
    ensures { IfSome result (λ cut. ReadsPlain (tokens value.now) (tokens cut.1.now) (start_spelling (begun cut.0))) }
{
    if let Some((text, after)) = plain_text(value) {
        return Some((Start::Text(known(text)), after));
    }
    if let Some((digits, after)) = plain_number(value) {
        let number = few_digits(digits)?;
        return Some((Start::Int(number), after));
    }
    let after = plain_null(value)?;
    Some((Start::Null, after))
}

/// The name and the value of the map that begins a text, if it has this one field and doesn't stand for bytes, and what
/// follows it.
#[inline(always)]
fn one_field<'a>(value: &'a str) -> Option<(&'a str, Start<'a>, &'a str)>
    ensures { IfSome result (λ cut. IsField (tokens value.now) (tokens cut.2.now) cut.0.now (start_spelling (begun cut.1))) }
{
    let begun = map_start(value)?;
    let (name, behind) = plain_key(begun)?;
    if is_hex_name(name) {
        return None;
    }
    let (start, end) = plain_start(behind)?;
    let after = map_end(end)?;
    Some((name, start, after))
}

/// Puts the bytes of the value that a text begins with in place of others, if it is spelled plainly as said above: what
/// follows it. If not, nothing is put.
#[inline(always)]
pub(crate) fn put_plain<'a>(
    out: &mut Vec<u8>,
    limit: usize,
    value: &'a str,
) -> Result<Option<&'a str>, QuickFault>
    requires { limit < 2 ^ 32 }
    ensures { IfOk result (λ put. IfSome put (λ after. TakesValue (tokens value.now) (tokens after.now) None out.new.items)) }
{
    if let Some((name, start, after)) = one_field(value) {
        out.clear();
        put_start(out, limit, Start::Map(1))?;
        put_text(out, limit, known(name))?;
        put_start(out, limit, start)?;
        return Ok(Some(after));
    }
    let Some((start, after)) = plain_start(value) else {
        return Ok(None);
    };
    out.clear();
    put_start(out, limit, start)?;
    Ok(Some(after))
}
