//! The tokens of a line. While they are spelled plainly they are read straight from the text; from the first that isn't
//! on, by json's reader.

ghost use Rattle.std.specs.Prelude.{◌≡◌, ◌≢◌, ◌∷◌, [], Some, None, false, IfOk, OnOk, MatchOption, option_map};
ghost use Rattle.std.specs.Bool.{MatchBool};
ghost use Rattle.json.specs.Token.{string, number, key, begin_object, end_object};
ghost use Rattle.json.specs.Lex.{tokens};
ghost use Rattle.json.specs.Json.{read_key, after_end_array};
ghost use Rattle.json.specs.Reads.{token_of};
ghost use Rattle.request_codec.specs.Json.{hex_name};
ghost use Rattle.line_parser.specs.inside.LineMembers.{begins_object, IsNext, IsNatural};

use crate::line_members::{Next, name_of};
use crate::plain::{
    has_item, list_end, map_end, map_start, plain_hex, plain_key, plain_name, plain_natural,
    plain_number, plain_text, plain_token,
};
use crate::quick_fault::QuickFault;
use json::{Reader, Scratch, Token};
use std::marker::Model;

/// A clause sees the tokens that are still to come.
#[derive(Drop)]
pub(crate) struct Tokens<'a> {
    /// The text that is left, while it is read without `reader`.
    rest: &'a str,
    /// What `reader` will need.
    scratch: Option<&'a mut Scratch>,
    reader: Option<Reader<'a>>,
}

impl<'a> Model for Tokens<'a> {
    ghost use Rattle.std.specs.Prelude.{List};
    ghost use Rattle.json.specs.Token.{Token as SpecToken, tokens_code};
    ghost use Rattle.line_parser.specs.inside.Plain.{tokens_left};

    ghost Value = { List SpecToken };

    ghost coded = { tokens_code };

    ghost view = { λ a. tokens_left a.reader a.rest.now };
}

impl<'a> Tokens<'a> {
    /// All tokens of a text. What `scratch` holds doesn't matter.
    pub(crate) fn new(text: &'a str, scratch: &'a mut Scratch) -> Tokens<'a>
        ensures { result ≡ tokens text.now }
    {
        Tokens {
            rest: text,
            scratch: Some(scratch),
            reader: None,
        }
    }

    /// Goes on with json's reader.
    #[cold]
    #[inline(never)]
    fn leave_plain(&mut self) -> Result<(), QuickFault>
        ensures { OnOk result (self.new ≡ self.old) }
    {
        if self.reader.is_some() {
            return Ok(());
        }
        let Some(scratch) = self.scratch.take() else {
            return Err(QuickFault::LeftToTree);
        };
        self.reader = Some(Reader::new(self.rest, scratch)?);
        Ok(())
    }

    /// The next token, by json's reader.
    #[inline(never)]
    fn next_of_any(&mut self) -> Result<Token<'a>, QuickFault>
        ensures { IfOk result (λ t. self.old ≡ token_of t ∷ self.new) }
    {
        self.leave_plain()?;
        let Some(reader) = &mut self.reader else {
            return Err(QuickFault::LeftToTree);
        };
        match reader.next() {
            Some(token) => Ok(token),
            None => Err(QuickFault::LeftToTree),
        }
    }

    /// The next token.
    #[inline(always)]
    pub(crate) fn next(&mut self) -> Result<Token<'a>, QuickFault>
        ensures { IfOk result (λ t. self.old ≡ token_of t ∷ self.new) }
    {
        if self.reader.is_none() {
            if let Some((token, rest)) = plain_token(self.rest) {
                self.rest = rest;
                return Ok(token);
            }
        }
        self.next_of_any()
    }

    /// Takes the start of a map, if it is next, by json's reader.
    #[inline(never)]
    fn take_start_of_any(&mut self) -> Result<bool, QuickFault>
        ensures { IfOk result (λ taken. MatchBool taken (self.old ≡ begin_object ∷ self.new) (begins_object self.old ≡ false)) }
    {
        self.leave_plain()?;
        let Some(reader) = &mut self.reader else {
            return Err(QuickFault::LeftToTree);
        };
        match reader.next() {
            Some(Token::BeginObject) => Ok(true),
            _ => Ok(false),
        }
    }

    /// Takes the start of a map, if it is next.
    #[inline(always)]
    pub(crate) fn take_begin_map(&mut self) -> Result<bool, QuickFault>
        ensures { IfOk result (λ taken. MatchBool taken (self.old ≡ begin_object ∷ self.new) (begins_object self.old ≡ false)) }
    {
        if self.reader.is_none() {
            if let Some(rest) = map_start(self.rest) {
                self.rest = rest;
                return Ok(true);
            }
        }
        self.take_start_of_any()
    }

    /// The next name, by json's reader; none at the end of the map.
    #[inline(never)]
    fn key_of_any(&mut self) -> Result<Option<&'a str>, QuickFault>
        ensures { IfOk result (λ k. read_key self.old ≡ Some (option_map (λ s. s.now) k, self.new)) }
    {
        self.leave_plain()?;
        let Some(reader) = &mut self.reader else {
            return Err(QuickFault::LeftToTree);
        };
        let key = reader.next_key()?;
        Ok(key)
    }

    /// The next name, or none at the end of the map.
    #[inline(always)]
    pub(crate) fn next_key(&mut self) -> Result<Option<&'a str>, QuickFault>
        ensures { IfOk result (λ k. read_key self.old ≡ Some (option_map (λ s. s.now) k, self.new)) }
    {
        if self.reader.is_none() {
            if let Some((name, rest)) = plain_key(self.rest) {
                self.rest = rest;
                return Ok(Some(name));
            }
            if let Some(rest) = map_end(self.rest) {
                self.rest = rest;
                return Ok(None);
            }
        }
        self.key_of_any()
    }

    /// Takes the text beside `$hex` and the end of the map that was begun, if that name and this text are all of it. A map
    /// that isn't spelled plainly is left, so there may be one where there is no text.
    #[inline(always)]
    pub(crate) fn take_hex(&mut self) -> Option<&'a str>
        ensures { MatchOption result (self.new ≡ self.old) (λ text. self.old ≡ key hex_name ∷ string text.now ∷ end_object ∷ self.new) }
    {
        if self.reader.is_none() {
            if let Some((text, rest)) = plain_hex(self.rest) {
                self.rest = rest;
                return Some(text);
            }
        }
        None
    }

    /// What a line's object goes on with, by json's reader.
    #[inline(never)]
    fn next_of_line(&mut self) -> Result<Next, QuickFault>
        ensures { IfOk result (λ next. IsNext self.old next self.new) }
    {
        self.leave_plain()?;
        let Some(reader) = &mut self.reader else {
            return Err(QuickFault::LeftToTree);
        };
        match reader.next_key() {
            Ok(Some(key)) => match name_of(key) {
                Some(name) => Ok(Next::Member(name)),
                None => Ok(Next::Other),
            },
            Ok(None) => Ok(Next::End),
            Err(_) => Ok(Next::Broken),
        }
    }

    /// What a line's object goes on with.
    #[inline(always)]
    pub(crate) fn next_member(&mut self) -> Result<Next, QuickFault>
        ensures { IfOk result (λ next. IsNext self.old next self.new) }
    {
        if self.reader.is_none() {
            if let Some((name, rest)) = plain_name(self.rest) {
                self.rest = rest;
                return Ok(Next::Member(name));
            }
            if let Some(rest) = map_end(self.rest) {
                self.rest = rest;
                return Ok(Next::End);
            }
        }
        self.next_of_line()
    }

    /// The next token, which has to be a text.
    #[inline(always)]
    pub(crate) fn next_text(&mut self) -> Result<&'a str, QuickFault>
        ensures { IfOk result (λ s. self.old ≡ string s.now ∷ self.new) }
    {
        if self.reader.is_none() {
            if let Some((text, rest)) = plain_text(self.rest) {
                self.rest = rest;
                return Ok(text);
            }
        }
        match self.next_of_any()? {
            Token::String(text) => Ok(text),
            _ => Err(QuickFault::LeftToTree),
        }
    }

    /// The text of the next token, which has to be a number.
    #[inline(always)]
    pub(crate) fn next_number(&mut self) -> Result<&'a str, QuickFault>
        ensures { IfOk result (λ s. self.old ≡ number s.now ∷ self.new) }
    {
        if self.reader.is_none() {
            if let Some((digits, rest)) = plain_number(self.rest) {
                self.rest = rest;
                return Ok(digits);
            }
        }
        match self.next_of_any()? {
            Token::Number(text) => Ok(text),
            _ => Err(QuickFault::LeftToTree),
        }
    }

    /// Takes the number from 0 up that is next, if it is spelled plainly and has few digits.
    #[inline(always)]
    pub(crate) fn take_natural(&mut self) -> Option<u64>
        ensures { MatchOption result (self.new ≡ self.old) (λ n. IsNatural self.old n self.new) }
    {
        if self.reader.is_none() {
            if let Some((n, rest)) = plain_natural(self.rest) {
                self.rest = rest;
                return Some(n);
            }
        }
        None
    }

    /// Takes the end of a list, if it is next, by json's reader.
    #[inline(never)]
    fn take_end_of_any(&mut self) -> Result<bool, QuickFault>
        ensures { IfOk result (λ taken. MatchBool taken (after_end_array self.old ≡ Some self.new)
            ((after_end_array self.old ≡ None) × (self.new ≡ self.old))) }
    {
        self.leave_plain()?;
        let Some(reader) = &mut self.reader else {
            return Err(QuickFault::LeftToTree);
        };
        let taken = reader.take_end_array();
        Ok(taken)
    }

    /// Takes the end of a list, if it is next.
    #[inline(always)]
    pub(crate) fn take_end_array(&mut self) -> Result<bool, QuickFault>
        ensures { IfOk result (λ taken. MatchBool taken (after_end_array self.old ≡ Some self.new)
            ((after_end_array self.old ≡ None) × (self.new ≡ self.old))) }
    {
        if self.reader.is_none() {
            if has_item(self.rest) {
                return Ok(false);
            }
            if let Some(rest) = list_end(self.rest) {
                self.rest = rest;
                return Ok(true);
            }
        }
        self.take_end_of_any()
    }

    /// Whether no token is left, by json's reader.
    #[inline(never)]
    fn ends_of_any(&mut self) -> Result<bool, QuickFault>
        ensures { IfOk result (λ over. MatchBool over (self.old ≡ []) (self.old ≢ [])) }
    {
        self.leave_plain()?;
        let Some(reader) = &mut self.reader else {
            return Err(QuickFault::LeftToTree);
        };
        let over = reader.next().is_none();
        Ok(over)
    }

    /// Whether no token is left. No more may be read then.
    #[inline(always)]
    pub(crate) fn ends(&mut self) -> Result<bool, QuickFault>
        ensures { IfOk result (λ over. MatchBool over (self.old ≡ []) (self.old ≢ [])) }
    {
        if self.reader.is_none() {
            if self.rest.is_empty() {
                return Ok(true);
            }
        }
        self.ends_of_any()
    }
}
