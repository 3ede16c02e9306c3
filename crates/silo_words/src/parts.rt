//! The parts of an argument: where it is cut, and the numbers in it.

ghost use Rattle.std.specs.Prelude.{◌≡◌, ◌≤◌, ◌<◌, ◌↔◌, ◌++◌, ◌∷◌, ℕ, List, slice_index, IsTrue, IfSome, IfNone, IsSomeAnd};
ghost use Rattle.silo_words.specs.Parts.{HasNone, IsNumberText};

/// Whether the text begins with a digit above 0.
fn begins_above_zero(text: &str) -> bool
    ensures { IsTrue result ↔ ((49 ≤ slice_index text.now 0) × (slice_index text.now 0 ≤ 57)) }
{
    matches!(text.as_bytes(), [b'1'..=b'9', ..])
}

/// The number from 1 to `most` that the text writes, if it writes one.
pub fn read_number(text: &str, most: u32) -> Option<u32>
    ensures some { IfSome result (λ number. IsNumberText most text.now number) }
    ensures none { IfNone result ((number : ℕ) → ¬ IsNumberText most text.now number) }
{
    if !begins_above_zero(text) {
        return None;
    }
    match text.parse::<u32>() {
        Ok(number) if number <= most => Some(number),
        _ => None,
    }
}

/// What stands before the first mark, and what stands after it.
pub fn cut(text: &str, mark: char) -> Option<(&str, &str)>
    requires { mark < 128 }
    ensures parts { IfSome result (λ parts. text.now ≡ parts.0.now ++ mark ∷ parts.1.now) }
    ensures first { (before after : List ℕ) → HasNone mark before → text.now ≡ before ++ mark ∷ after
        → IsSomeAnd result (λ parts. (parts.0.now ≡ before) × (parts.1.now ≡ after)) }
{
    text.split_once(mark)
}
