//! Whole numbers of 64 bits in JSON, and those that are none.

ghost use Rattle.std.specs.Prelude.{◌≡◌, ◌<◌, ◌≤◌, ◌==◌, ◌^◌, length, take, slice_index};
ghost use Rattle.std.specs.Prelude.{IsTrue, IfSome, IfNone, Some, true, false, Float, FitsSigned};
ghost use Rattle.std.specs.Int.{w64};
ghost use Rattle.std.specs.Str.Parse.{AllDigits, digits_value};
ghost use Rattle.serde_json.specs.Data.{unsigned, float};
ghost use Rattle.serde_json.specs.Find.{of_integer};
ghost use Rattle.serde_json.specs.Read.{number_of, number_from, float_of};
ghost use Rattle.line_parser.specs.inside.Number.{IsWhole, IsNotWhole};

use fast_float::Numeral;

/// The digits of a number that is surely below 2^63.
const MOST_DIGITS: usize = 18;

/// The number that the digits at the front spell, and how many these are; of more than 18 the first 18.
#[inline(always)]
pub(crate) fn leading_digits(text: &str) -> (u64, usize)
    ensures digits { AllDigits 10 (take result.1 text.now) }
    ensures value { result.0 ≡ digits_value 10 (take result.1 text.now) }
    ensures bound { (result.1 ≤ length text.now) × (result.1 ≤ 18) }
{
    let bytes = text.as_bytes();
    let mut n = 0u64;
    let mut i = 0;
    'digits: while i < bytes.len() && i < MOST_DIGITS && bytes[i].is_ascii_digit() {
        n = n * 10 + u64::from(bytes[i] - b'0');
        i += 1;
    }
    (n, i)
}

/// The number that a text spells, if it is digits alone, and not too many.
#[inline(always)]
pub(crate) fn natural_of(text: &str) -> Option<u64>
    ensures read { IfSome result (λ n. number_of text.now ≡ Some (unsigned n)) }
    ensures within { IfSome result (λ n. n < 2 ^ 63) }
{
    let bytes = text.as_bytes();
    if bytes.is_empty() || bytes.len() > MOST_DIGITS {
        return None;
    }
    let mut n = 0u64;
    for byte in bytes {
        if !byte.is_ascii_digit() {
            return None;
        }
        n = n * 10 + u64::from(*byte - b'0');
    }
    Some(n)
}

/// Whether the text of a number begins with a minus.
fn has_minus(bytes: &[u8]) -> bool
    ensures value { result ≡ (slice_index bytes.now 0 == 45) }
    ensures len { IsTrue result → 0 < length bytes.now }
{
    !bytes.is_empty() && bytes[0] == b'-'
}

/// The number of a numeral with no minus, if it is whole and below 2^64.
fn unsigned_of(numeral: &Numeral<'_>) -> Option<u64>
    ensures read { IfSome result (λ n. number_from false numeral.now ≡ Some (unsigned n)) }
    ensures other { IfNone result (number_from false numeral.now ≡ float_of false numeral.now) }
{
    numeral.to_u64()
}

/// The number of a numeral after a minus, if it is whole, below 0 and fits into an `i64`.
fn negative_of(numeral: &Numeral<'_>) -> Option<i64>
    ensures read { IfSome result (λ n. number_from true numeral.now ≡ Some (of_integer n)) }
    ensures fits { IfSome result (λ n. FitsSigned w64 n) }
    ensures other { IfNone result (number_from true numeral.now ≡ float_of true numeral.now) }
{
    let number = numeral.to_i64(true)?;
    if number < 0 { Some(number) } else { None }
}

/// The number, if it is written as a whole one and has 64 bits, by its numeral.
#[inline(never)]
fn whole_number_of_any(text: &str) -> Option<i64>
    ensures { IfSome result (λ n. IsWhole text.now n) }
{
    let bytes = text.as_bytes();
    if has_minus(bytes) {
        let number = negative_of(&Numeral::scan(&bytes[1..]))?;
        Some(number)
    } else {
        let number = unsigned_of(&Numeral::scan(bytes))?;
        if number <= i64::MAX as u64 {
            Some(number as i64)
        } else {
            None
        }
    }
}

/// The number, if it is digits alone, and not too many.
#[inline(always)]
pub(crate) fn few_digits(text: &str) -> Option<i64>
    ensures { IfSome result (λ n. IsWhole text.now n) }
{
    let n = natural_of(text)?;
    Some(n as i64)
}

/// The number, if it is written as a whole one and has 64 bits: `1.0` and `-0` are none.
#[inline(always)]
pub(crate) fn whole_number(text: &str) -> Option<i64>
    ensures { IfSome result (λ n. IsWhole text.now n) }
{
    if let Some(n) = few_digits(text) {
        return Some(n);
    }
    whole_number_of_any(text)
}

/// Whether the number is within a float's range.
fn has_float(negative: bool, numeral: &Numeral<'_>) -> bool
    ensures { IsTrue result → (x : Float) × (float_of negative numeral.now ≡ Some (float x)) }
{
    let nearest: f64 = numeral.to_float(negative);
    nearest.is_finite()
}

/// Whether the number of a numeral with no minus is read, but is no whole one below 2^63.
fn is_unsigned_not_whole(numeral: &Numeral<'_>) -> bool
    ensures { IsTrue result → IsNotWhole (number_from false numeral.now) }
{
    match unsigned_of(numeral) {
        Some(n) => n > i64::MAX as u64,
        None => has_float(false, numeral),
    }
}

/// Whether the number of a numeral after a minus is read, but is no whole one below 0 that fits into an `i64`.
fn is_negative_not_whole(numeral: &Numeral<'_>) -> bool
    ensures { IsTrue result → IsNotWhole (number_from true numeral.now) }
{
    match negative_of(numeral) {
        Some(_) => false,
        None => has_float(true, numeral),
    }
}

/// Whether the text spells a number that isn't a whole one of 64 bits, and is within a float's range.
pub(crate) fn is_not_whole(text: &str) -> bool
    ensures { IsTrue result → IsNotWhole (number_of text.now) }
{
    let bytes = text.as_bytes();
    if has_minus(bytes) {
        is_negative_not_whole(&Numeral::scan(&bytes[1..]))
    } else {
        is_unsigned_not_whole(&Numeral::scan(bytes))
    }
}
