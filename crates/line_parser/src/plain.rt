//! Tokens that are spelled plainly, read straight from the text: texts with no escape, digits, brackets.

ghost use Rattle.std.specs.Prelude.{◌≡◌, ◌≢◌, ◌+◌, ◌<◌, ◌≤◌, ◌∷◌, length, take, drop, get_or, slice_index, IsTrue, IfSome, None, false};
ghost use Rattle.std.specs.List.{prefix_len};
ghost use Rattle.std.specs.Char.{is_ascii_digit};
ghost use Rattle.json.specs.Token.{string, number, null, key, begin_object, end_object, end_array};
ghost use Rattle.json.specs.Word.{head};
ghost use Rattle.json.specs.Lex.{token, between, lex, tokens};
ghost use Rattle.json.specs.Json.{after_end_array};
ghost use Rattle.json.specs.Run.{is_plain};
ghost use Rattle.json.specs.Reads.{token_of};
ghost use Rattle.request_codec.specs.Json.{hex_name};
ghost use Rattle.line_parser.specs.inside.LineMembers.{begins_object, name_text, IsNatural};
ghost use Rattle.line_parser.specs.inside.Plain.{name_spelling, word_spelling, is_opener, is_number_end, PassesValue, CutsNatural};
ghost use Rattle.line_parser.specs.inside.Step.{form_text};

use crate::line_members::Name;
use crate::number::leading_digits;
use crate::scan::{begins_with, digits_len, plain_len, same_text};
use crate::step::Form;
use json::Token;

/// The byte at a place, or a space past the end.
#[inline(always)]
pub(crate) fn byte_at(text: &str, place: usize) -> u8
    ensures value { result ≡ head (drop place text.now) }
    ensures inside { result ≢ 32 → (place < length text.now) × (slice_index text.now place ≡ result) }
{
    let bytes = text.as_bytes();
    if place < bytes.len() {
        bytes[place]
    } else {
        b' '
    }
}

/// What follows the byte at a place, which is ASCII.
#[inline(always)]
fn past(text: &str, place: usize) -> &str
    requires within { place < length text.now }
    requires ascii { slice_index text.now place < 128 }
    ensures { result.now ≡ drop (place + 1) text.now }
{
    &text[place + 1..]
}

/// The text that stands at the front, and what follows it, if no byte of it needs an escape.
#[inline(always)]
fn cut_text<'t>(rest: &'t str) -> Option<(&'t str, &'t str)>
    ensures { IfSome result (λ cut. lex between rest.now ≡ token (string cut.0.now) ∷ lex between cut.1.now) }
{
    if byte_at(rest, 0) != b'"' {
        return None;
    }
    let text = past(rest, 0);
    let len = plain_len(text);
    if byte_at(text, len) != b'"' {
        return None;
    }
    Some((&text[..len], past(text, len)))
}

/// Whether a comma or a closing bracket is the byte.
#[inline(always)]
fn ends_number(byte: u8) -> bool
    ensures { result ≡ is_number_end byte }
{
    byte == b',' || byte == b'}' || byte == b']'
}

/// Whether the `len` digits at the front form a number: there is at least one, and a zero comes first only if it is the
/// only one.
#[inline(always)]
fn are_of_number(rest: &str, len: usize) -> bool
    ensures some { IsTrue result → 0 < len }
    ensures zero { IsTrue result → head rest.now ≡ 48 → len ≡ 1 }
{
    if len == 1 {
        return true;
    }
    if len == 0 {
        return false;
    }
    byte_at(rest, 0) != b'0'
}

/// The digits that stand at the front, and what follows them, if that ends a number: a comma or a closing bracket. No
/// number begins with a zero but 0.
#[inline(always)]
fn cut_digits<'t>(rest: &'t str) -> Option<(&'t str, &'t str)>
    ensures { IfSome result (λ cut. lex between rest.now ≡ token (number cut.0.now) ∷ lex between cut.1.now) }
{
    let len = digits_len(rest);
    if !are_of_number(rest, len) {
        return None;
    }
    if !ends_number(byte_at(rest, len)) {
        return None;
    }
    Some((&rest[..len], &rest[len..]))
}

/// The number of the digits that stand at the front, if they are few, and what follows them, under the same conditions.
#[inline(always)]
fn cut_natural<'t>(rest: &'t str) -> Option<(u64, &'t str)>
    ensures { IfSome result (λ cut. CutsNatural rest.now cut.0 cut.1.now) }
{
    let (n, len) = leading_digits(rest);
    if !are_of_number(rest, len) {
        return None;
    }
    if !ends_number(byte_at(rest, len)) {
        return None;
    }
    Some((n, &rest[len..]))
}

/// What follows `null`, if that stands at the front and ends there: before a comma or a closing bracket.
#[inline(always)]
fn cut_null<'t>(rest: &'t str) -> Option<&'t str>
    ensures { IfSome result (λ after. lex between rest.now ≡ token null ∷ lex between after.now) }
{
    if !begins_with(rest.as_bytes(), b"null") {
        return None;
    }
    let after = past(rest, 3);
    if !ends_number(byte_at(after, 0)) {
        return None;
    }
    Some(after)
}

/// Whether a text, digits, a list or a map begin with the byte.
#[inline(always)]
fn opens(byte: u8) -> bool
    ensures { result ≡ is_opener byte }
{
    byte == b'"' || byte == b'{' || byte == b'[' || byte.is_ascii_digit()
}

/// What follows the comma after a value, if that is a name or a text.
#[inline(always)]
fn pass_comma<'t>(rest: &'t str) -> Option<&'t str>
    ensures { IfSome result (λ after. PassesValue rest.now after.now) }
{
    if byte_at(rest, 1) != b'"' || byte_at(rest, 0) != b',' {
        return None;
    }
    Some(past(rest, 0))
}

/// What follows a value and its comma, if there is one: a name or a value, a closing bracket, or nothing.
#[inline(always)]
fn pass_value<'t>(rest: &'t str) -> Option<&'t str>
    ensures { IfSome result (λ after. PassesValue rest.now after.now) }
{
    if rest.is_empty() {
        return Some(rest);
    }
    match byte_at(rest, 0) {
        b'}' | b']' => Some(rest),
        b',' => {
            let next = byte_at(rest, 1);
            if opens(next) {
                Some(past(rest, 0))
            } else {
                None
            }
        }
        _ => None,
    }
}

/// The same as `pass_value`, after the value of a member: mostly a name follows there, and is looked for first.
#[inline(always)]
fn pass_member<'t>(rest: &'t str) -> Option<&'t str>
    ensures { IfSome result (λ after. PassesValue rest.now after.now) }
{
    if let Some(after) = pass_comma(rest) {
        return Some(after);
    }
    pass_value(rest)
}

/// The text that is the first token, and what follows it.
#[inline(always)]
pub(crate) fn plain_text<'t>(rest: &'t str) -> Option<(&'t str, &'t str)>
    ensures { IfSome result (λ cut. tokens rest.now ≡ string cut.0.now ∷ tokens cut.1.now) }
{
    let (text, after) = cut_text(rest)?;
    Some((text, pass_value(after)?))
}

/// The same of a text that is the value of a member.
#[inline(always)]
pub(crate) fn member_text<'t>(rest: &'t str) -> Option<(&'t str, &'t str)>
    ensures { IfSome result (λ cut. tokens rest.now ≡ string cut.0.now ∷ tokens cut.1.now) }
{
    let (text, after) = cut_text(rest)?;
    Some((text, pass_member(after)?))
}

/// The number from 0 up that is the value of a member and the first token, if it has few digits, and what follows it.
#[inline(always)]
pub(crate) fn member_natural<'t>(rest: &'t str) -> Option<(u64, &'t str)>
    ensures { IfSome result (λ cut. IsNatural (tokens rest.now) cut.0 (tokens cut.1.now)) }
{
    let (n, after) = cut_natural(rest)?;
    Some((n, pass_member(after)?))
}

/// The number from 0 up that is the first token, if it has few digits, and what follows it.
#[inline(always)]
pub(crate) fn plain_natural<'t>(rest: &'t str) -> Option<(u64, &'t str)>
    ensures { IfSome result (λ cut. IsNatural (tokens rest.now) cut.0 (tokens cut.1.now)) }
{
    let (n, after) = cut_natural(rest)?;
    Some((n, pass_value(after)?))
}

/// The digits of the number that is the first token, and what follows it.
#[inline(always)]
pub(crate) fn plain_number<'t>(rest: &'t str) -> Option<(&'t str, &'t str)>
    ensures { IfSome result (λ cut. tokens rest.now ≡ number cut.0.now ∷ tokens cut.1.now) }
{
    let (digits, after) = cut_digits(rest)?;
    Some((digits, pass_value(after)?))
}

/// What follows the null that is the first token.
#[inline(always)]
pub(crate) fn plain_null<'t>(rest: &'t str) -> Option<&'t str>
    ensures { IfSome result (λ after. tokens rest.now ≡ null ∷ tokens after.now) }
{
    let after = cut_null(rest)?;
    pass_value(after)
}

/// The name that is the first token, and what follows its colon.
#[inline(always)]
pub(crate) fn plain_key<'t>(rest: &'t str) -> Option<(&'t str, &'t str)>
    ensures { IfSome result (λ cut. tokens rest.now ≡ key cut.0.now ∷ tokens cut.1.now) }
{
    let (name, after) = cut_text(rest)?;
    if byte_at(after, 0) != b':' {
        return None;
    }
    Some((name, past(after, 0)))
}

/// The text that stands beside `$hex`, and what follows the map, if that name and this text are all of it.
#[inline(never)]
fn hex_map<'t>(rest: &'t str) -> Option<(&'t str, &'t str)>
    ensures { IfSome result (λ cut. tokens rest.now ≡ key hex_name ∷ string cut.0.now ∷ end_object ∷ tokens cut.1.now) }
{
    let (name, behind) = plain_key(rest)?;
    if !same_text(name, "$hex") {
        return None;
    }
    let (digits, end) = plain_text(behind)?;
    Some((digits, map_end(end)?))
}

/// The same. Most maps begin with another name, which costs no call.
#[inline(always)]
pub(crate) fn plain_hex<'t>(rest: &'t str) -> Option<(&'t str, &'t str)>
    ensures { IfSome result (λ cut. tokens rest.now ≡ key hex_name ∷ string cut.0.now ∷ end_object ∷ tokens cut.1.now) }
{
    if byte_at(rest, 1) != b'$' {
        return None;
    }
    hex_map(rest)
}

/// A member's name as it is spelled plainly, with its quotes and its colon.
#[inline(always)]
fn spelled(name: Name) -> &'static str
    ensures { result.now ≡ name_spelling name }
{
    match name {
        Name::Op => "\"op\":",
        Name::From => "\"from\":",
        Name::Grain => "\"grain\":",
        Name::Method => "\"method\":",
        Name::Id => "\"id\":",
        Name::Turn => "\"turn\":",
        Name::Now => "\"now\":",
        Name::Failed => "\"failed\":",
        Name::Args => "\"args\":",
        Name::State => "\"state\":",
    }
}

/// The member's name, if it is the first token, and what follows its colon.
#[inline(always)]
pub(crate) fn past_name<'t>(rest: &'t str, name: Name) -> Option<(Name, &'t str)>
    ensures { IfSome result (λ cut. tokens rest.now ≡ key (name_text cut.0) ∷ tokens cut.1.now) }
{
    let front = spelled(name);
    if !begins_with(rest.as_bytes(), front.as_bytes()) {
        return None;
    }
    Some((name, past(rest, front.len() - 1)))
}

/// The member's name that is the first token, and what follows its colon.
#[inline(always)]
pub(crate) fn plain_name<'t>(rest: &'t str) -> Option<(Name, &'t str)>
    ensures { IfSome result (λ cut. tokens rest.now ≡ key (name_text cut.0) ∷ tokens cut.1.now) }
{
    match byte_at(rest, 1) {
        b'o' => past_name(rest, Name::Op),
        b'f' => match byte_at(rest, 2) {
            b'r' => past_name(rest, Name::From),
            _ => past_name(rest, Name::Failed),
        },
        b'g' => past_name(rest, Name::Grain),
        b'm' => past_name(rest, Name::Method),
        b'i' => past_name(rest, Name::Id),
        b't' => past_name(rest, Name::Turn),
        b'n' => past_name(rest, Name::Now),
        b'a' => past_name(rest, Name::Args),
        b's' => past_name(rest, Name::State),
        _ => None,
    }
}

/// A form's word as it is spelled plainly, with its quotes and the comma after it.
#[inline(always)]
fn spelled_word(form: Form) -> &'static str
    ensures { result.now ≡ word_spelling form }
{
    match form {
        Form::Call => "\"call\",",
        Form::Poke => "\"poke\",",
        Form::Status => "\"status\",",
        Form::Deliver => "\"deliver\",",
        Form::Activate => "\"activate\",",
        Form::Load => "\"load\",",
        Form::Begin => "\"begin\",",
        Form::Store => "\"store\",",
        Form::End => "\"end\",",
        Form::Abandon => "\"abandon\",",
        Form::Tick => "\"tick\",",
        Form::Sweep => "\"sweep\",",
    }
}

/// The form, and what follows the comma after its word, if the first token is that word as a text, and a name or a text
/// comes next.
#[inline(always)]
pub(crate) fn past_word<'t>(rest: &'t str, form: Form) -> Option<(Form, &'t str)>
    ensures { IfSome result (λ cut. tokens rest.now ≡ string (form_text cut.0) ∷ tokens cut.1.now) }
{
    let front = spelled_word(form);
    if !begins_with(rest.as_bytes(), front.as_bytes()) {
        return None;
    }
    let after = past(rest, front.len() - 1);
    if byte_at(after, 0) != b'"' {
        return None;
    }
    Some((form, after))
}

/// The same for the form that the text most likely names, of those that name a grain and no client. One or two bytes
/// decide which form that is.
#[inline(always)]
pub(crate) fn past_likely_word<'t>(rest: &'t str) -> Option<(Form, &'t str)>
    ensures { IfSome result (λ cut. tokens rest.now ≡ string (form_text cut.0) ∷ tokens cut.1.now) }
{
    match byte_at(rest, 1) {
        b'e' => past_word(rest, Form::End),
        b'b' => past_word(rest, Form::Begin),
        b'd' => past_word(rest, Form::Deliver),
        b's' => past_word(rest, Form::Store),
        b'l' => past_word(rest, Form::Load),
        b'a' => match byte_at(rest, 2) {
            b'c' => past_word(rest, Form::Activate),
            _ => past_word(rest, Form::Abandon),
        },
        _ => None,
    }
}

/// What follows the brace that begins a map here.
#[inline(always)]
pub(crate) fn map_start<'t>(rest: &'t str) -> Option<&'t str>
    ensures { IfSome result (λ after. tokens rest.now ≡ begin_object ∷ tokens after.now) }
{
    if byte_at(rest, 0) != b'{' {
        return None;
    }
    Some(past(rest, 0))
}

/// Whether the text surely begins no map: another byte stands in front, and no white space.
#[inline(always)]
pub(crate) fn begins_no_map(text: &str) -> bool
    ensures { IsTrue result → begins_object (tokens text.now) ≡ false }
{
    let byte = byte_at(text, 0);
    if byte == b'{' {
        return false;
    }
    byte > b' '
}

/// What follows the map that ends here.
#[inline(always)]
pub(crate) fn map_end<'t>(rest: &'t str) -> Option<&'t str>
    ensures { IfSome result (λ after. tokens rest.now ≡ end_object ∷ tokens after.now) }
{
    if byte_at(rest, 0) != b'}' {
        return None;
    }
    pass_value(past(rest, 0))
}

/// What follows the list that ends here.
#[inline(always)]
pub(crate) fn list_end<'t>(rest: &'t str) -> Option<&'t str>
    ensures { IfSome result (λ after. tokens rest.now ≡ end_array ∷ tokens after.now) }
{
    if byte_at(rest, 0) != b']' {
        return None;
    }
    pass_value(past(rest, 0))
}

/// Whether an item stands here, and no list ends.
#[inline(always)]
pub(crate) fn has_item(rest: &str) -> bool
    ensures { IsTrue result → after_end_array (tokens rest.now) ≡ None }
{
    opens(byte_at(rest, 0))
}

/// The first token, and what follows it. A text may be a value alone, and no name.
#[inline(always)]
pub(crate) fn plain_token<'t>(rest: &'t str) -> Option<(Token<'t>, &'t str)>
    ensures { IfSome result (λ cut. tokens rest.now ≡ token_of cut.0 ∷ tokens cut.1.now) }
{
    match byte_at(rest, 0) {
        b'"' => {
            let (text, after) = plain_text(rest)?;
            Some((Token::String(text), after))
        }
        b'{' => Some((Token::BeginObject, past(rest, 0))),
        b'[' => Some((Token::BeginArray, past(rest, 0))),
        b'n' => {
            let after = plain_null(rest)?;
            Some((Token::Null, after))
        }
        _ => {
            let (digits, after) = plain_number(rest)?;
            Some((Token::Number(digits), after))
        }
    }
}
