//! The slots of a line's members: each is filled once. The member isn't counted yet.

ghost use Rattle.std.specs.Prelude.{◌≡◌, ◌∷◌, ℕ, List, false, None, Some, IsTrue};
ghost use Rattle.json.specs.Token.{Token, string, boolean};
ghost use Rattle.line_parser.specs.inside.LineMembers.{IsNatural};
ghost use Rattle.line_parser.specs.inside.PassedMembers.{TakesUncounted};
ghost use Rattle.line_parser.specs.declared.line_members.Name.TheVariants as names;

use crate::line_members::{LineMembers, Name};

/// Puts a value into a slot that has none, and answers whether it did.
#[inline(always)]
fn fill<T: Copy>(slot: &mut Option<T>, value: T) -> bool
    ensures filled { IsTrue result → (slot.old ≡ None) × (slot.new ≡ Some value) }
    ensures unchanged { result ≡ false → slot.new ≡ slot.old }
{
    if slot.is_some() {
        return false;
    }
    *slot = Some(value);
    true
}

/// Puts a text into the slot of its member, if that is one for a text and has none, and answers whether it did.
#[inline(always)]
pub(crate) fn put_text<'a>(members: &mut LineMembers<'a>, name: Name, text: &'a str) -> bool
    ensures put { IsTrue result → (ts rest : List Token) → ts ≡ string text.now ∷ rest → (l : List ℕ)
        → TakesUncounted name ts rest members.old l members.new l }
    ensures unchanged { result ≡ false → members.new ≡ members.old }
{
    match name {
        Name::Op => fill(&mut members.op, text),
        Name::From => fill(&mut members.from, text),
        Name::Grain => fill(&mut members.grain, text),
        Name::Method => fill(&mut members.method, text),
        Name::Id | Name::Turn | Name::Now | Name::Failed | Name::Args | Name::State => false,
    }
}

/// Puts a number into the slot of its member, if that is one for a number and has none, and answers whether it did.
#[inline(always)]
pub(crate) fn put_natural(members: &mut LineMembers<'_>, name: Name, n: u64) -> bool
    ensures put { IsTrue result → (ts rest : List Token) → IsNatural ts n rest → (l : List ℕ)
        → TakesUncounted name ts rest members.old l members.new l }
    ensures unchanged { result ≡ false → members.new ≡ members.old }
{
    match name {
        Name::Id => fill(&mut members.id, n),
        Name::Turn => fill(&mut members.turn, n),
        Name::Now => fill(&mut members.moment, n),
        Name::Op | Name::From | Name::Grain | Name::Method => false,
        Name::Failed | Name::Args | Name::State => false,
    }
}

/// Puts a truth value into the slot of `failed`, if it has none, and answers whether it did.
#[inline(always)]
pub(crate) fn put_failed(members: &mut LineMembers<'_>, truth: bool) -> bool
    ensures { IsTrue result → (ts rest : List Token) → ts ≡ boolean truth ∷ rest → (l : List ℕ)
        → TakesUncounted names.Failed ts rest members.old l members.new l }
{
    fill(&mut members.failed, truth)
}
