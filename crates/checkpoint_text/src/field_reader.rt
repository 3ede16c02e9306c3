//! The first line of a text, and the fields that only a checkpoint has.

ghost use Rattle.std.specs.Prelude.{string_bytes};
ghost use Rattle.journal_text.specs.inside.Answers.{Reads};
ghost use Rattle.journal_text.specs.inside.Candidates.{number_of, word_of};
ghost use Rattle.checkpoint_text.specs.inside.Reading.{named_at, number_at, version_of};

use journal_text::LineFault;
use journal_text::fields::{cut, parse_tenant_name, parse_u64};
use silo_event::Moment;
use std::alloc::Global;

/// The fields of the first line, which begins with that word, and what follows the line.
pub(crate) fn cut_named<'a>(word: &str, text: &'a str) -> Result<(&'a str, &'a str), LineFault>
    ensures { Reads (λ parts. (parts.0.now, parts.1.now)) result (named_at word.now text.now) }
{
    let (line, behind) = cut(text, '\n')?;
    let (first, fields) = cut(line, ' ')?;
    if first == word {
        Ok((fields, behind))
    } else {
        Err(LineFault::NoForm)
    }
}

/// The moment whose decimal text it is.
pub(crate) fn parse_moment(field: &str) -> Result<Moment, LineFault>
    ensures { Reads (λ read. read) result (number_of field.now) }
{
    match Moment::new(parse_u64(field)?) {
        Some(moment) => Ok(moment),
        None => Err(LineFault::NoForm),
    }
}

/// A version, or none where there is a dash.
pub(crate) fn parse_version(field: &str) -> Result<Option<u64>, LineFault>
    ensures { Reads (λ read. read) result (version_of field.now) }
{
    match field {
        "-" => Ok(None),
        _ => {
            let version = parse_u64(field)?;
            Ok(Some(version))
        }
    }
}

/// The number of a line of that word, and what follows the line.
pub(crate) fn cut_number<'a>(word: &str, text: &'a str) -> Result<(u64, &'a str), LineFault>
    ensures { Reads (λ parts. (parts.0, parts.1.now)) result (number_at word.now text.now) }
{
    let (field, behind) = cut_named(word, text)?;
    let number = parse_u64(field)?;
    Ok((number, behind))
}

/// The name of a tenant, as text.
pub(crate) fn parse_name(alloc: Global, field: &str) -> Result<String, LineFault>
    ensures { Reads string_bytes result (word_of field.now) }
{
    let tenant = parse_tenant_name(alloc, field)?;
    let name = String::from_str(alloc, tenant.text())?;
    Ok(name)
}
