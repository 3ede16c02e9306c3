//! The option for the ages of kinds.

ghost use Rattle.std.specs.Prelude.{◌≡◌, ◌++◌, ◌∷◌, [], false, map, IsTrue, IfSome, IfNone, IfOk, IfErr, OnOk, option_map};
ghost use Rattle.grain_id.specs.Words.{is_word};
ghost use Rattle.idle_collector.specs.Ages.{Ages};
ghost use Rattle.silo_words.specs.Ages.{IsAgeText, IsNoAgeText, IsWhyNoAges, NamesAges, WriteAges, parts_of};

use crate::parts::{cut, read_number};
use grain_id::{IdFault, Kind};
use idle_collector::{AgeFault, AgeTable};
use std::alloc::{AllocError, Global};
use thiserror::Error;

/// The longest age of a kind, in milliseconds: a day.
const MAX_AGE: u32 = 86_400_000;

/// A kind and its age in milliseconds.
#[derive(Drop)]
struct KindAge {
    kind: Kind,
    age: u32,
}

/// Why a text names no ages of kinds.
#[derive(Clone, Copy, Debug, PartialEq, Eq, Error)]
pub enum AgesFault {
    #[error("out of memory")]
    Memory,
    /// It isn't `KIND=MS` with commas between, or it names a kind twice, or more than 64 kinds.
    #[error("ages are refused")]
    Refused,
}

impl From<AllocError> for AgesFault {
    ghost use Rattle.silo_words.specs.declared.ages.AgesFault.TheVariants as faults;

    ghost from_gives = { λ _ e. e ≡ faults.Memory };

    fn from(_refused: AllocError) -> AgesFault {
        AgesFault::Memory
    }
}

/// The kind of that name, if the text is one.
fn read_kind(alloc: Global, text: &str) -> Result<Option<Kind>, AllocError>
    ensures some { IfOk result (λ found. IfSome found (λ kind. IsTrue (is_word text.now) × (text.now ≡ kind))) }
    ensures none { IfOk result (λ found. IfNone found (is_word text.now ≡ false)) }
{
    match Kind::read(alloc, text) {
        Ok(kind) => Ok(Some(kind)),
        Err(IdFault::Memory) => Err(AllocError),
        Err(IdFault::Kind | IdFault::Tenant | IdFault::Name | IdFault::Client) => Ok(None),
    }
}

/// The kind and the age that `KIND=MS` writes, if it writes them.
fn read_age(alloc: Global, text: &str) -> Result<Option<KindAge>, AllocError>
    ensures some { IfOk result (λ read. IfSome read (λ a. IsAgeText text.now a.kind a.age)) }
    ensures none { IfOk result (λ read. IfNone read (IsNoAgeText text.now)) }
{
    let Some((kind, age)) = cut(text, '=') else {
        return Ok(None);
    };
    let Some(age) = read_number(age, MAX_AGE) else {
        return Ok(None);
    };
    let Some(kind) = read_kind(alloc, kind)? else {
        return Ok(None);
    };
    Ok(Some(KindAge { kind, age }))
}

fn add(list: &mut Vec<(Kind, u64)>, read: KindAge) -> Result<(), AllocError>
    ensures { OnOk result (list.new.items ≡ list.old.items ++ (read.kind, read.age) ∷ []) }
{
    list.push((read.kind, u64::from(read.age)))?;
    Ok(())
}

/// The kinds with their ages that the texts write, in order, if each writes one.
fn read_list(alloc: Global, texts: &[&str]) -> Result<Option<Vec<(Kind, u64)>>, AllocError>
    ensures some { IfOk result (λ read. IfSome read (λ list. WriteAges (map (λ text. text.now) texts.now) list.items)) }
    ensures none { IfOk result (λ read. IfNone read ((ages : Ages) → ¬ WriteAges (map (λ text. text.now) texts.now) ages)) }
{
    let mut list = Vec::new(alloc);
    for text in texts {
        let Some(read) = read_age(alloc, text)? else {
            return Ok(None);
        };
        add(&mut list, read)?;
    }
    Ok(Some(list))
}

/// What stands between the commas.
fn parts_of<'a>(alloc: Global, text: &'a str) -> Result<Vec<&'a str>, AllocError>
    ensures { IfOk result (λ parts. map (λ part. part.now) parts.items ≡ parts_of text.now) }
{
    text.split(',').collect(alloc)
}

/// The ages that the text of `--ages` names, and none if the option is left out: `KIND=MS`, with a comma between two,
/// the milliseconds from 1 to 86,400,000 without sign or leading zero.
///
/// # Errors
///
/// `Refused` where the text isn't this, so also where it is empty, and where it names a kind twice or more than 64
/// kinds. `Memory`.
pub fn read_ages(alloc: Global, given: Option<&str>) -> Result<AgeTable, AgesFault>
    ensures named { IfOk result (λ table. NamesAges (option_map (λ text. text.now) given.entry) table) }
    ensures refused { IfErr result (λ fault. IsWhyNoAges (option_map (λ text. text.now) given.entry) fault) }
{
    let Some(text) = given else {
        return Ok(AgeTable::none(alloc));
    };
    let parts = parts_of(alloc, text)?;
    let Some(list) = read_list(alloc, &parts)? else {
        return Err(AgesFault::Refused);
    };
    match AgeTable::new(alloc, list) {
        Ok(table) => Ok(table),
        Err(AgeFault::Memory) => Err(AgesFault::Memory),
        Err(AgeFault::TooMany) => Err(AgesFault::Refused),
        Err(AgeFault::Twice(_)) => Err(AgesFault::Refused),
        Err(AgeFault::Range(_)) => Err(AgesFault::Refused),
    }
}
