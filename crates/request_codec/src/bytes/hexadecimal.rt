//! Bytes as digits: two lower case hexadecimal ones for each byte.

ghost use Rattle.std.specs.Prelude.{◌≡◌, ◌++◌, [], ◌<◌, ◌≤◌, ◌^◌, ◌*◌};
ghost use Rattle.std.specs.Prelude.{length, slice_index, unwrap_or, is_some, string_bytes, IsSome, IsTrue, IfOk, OnOk, Some, Ok};
ghost use Rattle.hex.specs.Hex.{decode_of, hex_digit_value, lower_digits};
ghost use Rattle.std.specs.List.{list_all};
ghost use Rattle.request_codec.specs.Hex.{digits_of, is_digit, bytes_of_digits};
ghost use Rattle.request_codec.specs.Lenient.{bytes_or_null};
ghost use Rattle.request_codec.specs.Written.{Puts, spelling};
ghost use Rattle.request_codec.specs.inside.Converted.{Gives};

use crate::bytes::draft::{counted, put_counted};
use crate::fault::CodecFault;
use hex::FromHexError;
use std::alloc::{AllocError, Global};

fn is_digit(byte: u8) -> bool
    ensures { result ≡ is_digit byte }
{
    matches!(byte, b'0'..=b'9' | b'a'..=b'f')
}

// No early end, so that the loop tests many bytes at a time.
fn all_digits(text: &[u8]) -> bool
    ensures { result ≡ list_all is_digit text.now }
{
    let mut good = true;
    'digits: for byte in text {
        good &= is_digit(*byte);
    }
    good
}

/// Whether these are the digits of bytes: an even number of lower case hexadecimal ones.
pub fn are_digits(text: &str) -> bool
    ensures { result ≡ is_some (bytes_of_digits text.now) }
{
    if text.len() % 2 == 1 {
        return false;
    }
    all_digits(text.as_bytes())
}

/// The bytes of the digits: `NotHex` if they are those of none.
pub(crate) fn decode_digits(alloc: Global, text: &str) -> Result<Vec<u8>, CodecFault>
    ensures { Gives (λ v. v.items) result (bytes_of_digits text.now) }
{
    if !all_digits(text.as_bytes()) {
        return Err(CodecFault::NotHex);
    }
    match hex::decode(alloc, text.as_bytes()) {
        Ok(bytes) => Ok(bytes),
        Err(FromHexError::OutOfMemory) => Err(CodecFault::Memory),
        Err(_) => Err(CodecFault::NotHex),
    }
}

/// How many bytes they are the digits of.
fn bytes_in(digits: &str) -> usize
    requires { IsSome (bytes_of_digits digits.now) }
    ensures { result ≡ length (unwrap_or (bytes_of_digits digits.now) []) }
{
    digits.len() / 2
}

/// The value of a digit.
#[inline(always)]
fn digit_value(digit: u8) -> u8
    requires { IsTrue (is_digit digit) }
    ensures value { hex_digit_value digit ≡ Some result }
    ensures small { result < 16 }
{
    if digit <= b'9' {
        digit - b'0'
    } else {
        digit - b'a' + 10
    }
}

/// Writes the bytes of the digits. These are known to be digits, so none is checked for an error, unlike in the `hex`
/// crate, and the loop writes many bytes at a time.
fn decode_into(out: &mut [u8], digits: &[u8])
    requires hex { IsTrue (list_all is_digit digits.now) }
    requires room { length digits.now ≡ 2 * length out.old }
    ensures { decode_of digits.now ≡ Ok out.new }
{
    'bytes: for i in 0..out.len() {
        out[i] = digit_value(digits[2 * i]) * 16 + digit_value(digits[2 * i + 1]);
    }
}

/// Puts the bytes of the digits at the end, if they fit below the limit.
fn put_decoded(out: &mut Vec<u8>, limit: usize, digits: &str) -> Result<(), CodecFault>
    requires room { length out.old.items ≤ limit }
    requires hex { IsSome (bytes_of_digits digits.now) }
    ensures { Puts limit out.old.items out.new.items result (unwrap_or (bytes_of_digits digits.now) []) }
{
    let count = bytes_in(digits);
    let begin = out.len();
    if count > limit - begin {
        return Err(CodecFault::TooLong);
    }
    out.resize(begin + count, 0)?;
    decode_into(&mut out[begin..], digits.as_bytes());
    Ok(())
}

/// Puts the bytes of the digits as a value at the end. After a fault a part of it may stand there.
///
/// # Errors
///
/// `TooLong` if the bytes, spelled, don't fit below the limit; `Memory` if memory is refused.
pub fn put_digits(out: &mut Vec<u8>, limit: usize, digits: &str) -> Result<(), CodecFault>
    requires room { length out.old.items ≤ limit }
    requires small { limit < 2 ^ 32 }
    requires hex { IsSome (bytes_of_digits digits.now) }
    ensures { Puts limit out.old.items out.new.items result (spelling (bytes_or_null (bytes_of_digits digits.now))) }
{
    let count = counted(bytes_in(digits), limit)?;
    put_counted(out, limit, 7, count)?;
    put_decoded(out, limit, digits)
}

/// The digit of a value.
#[inline(always)]
fn digit_of(value: u8) -> u8
    requires { value < 16 }
    ensures { result ≡ slice_index lower_digits value }
{
    if value < 10 {
        b'0' + value
    } else {
        b'a' + (value - 10)
    }
}

/// Writes the digits of the bytes. Each is computed, so that the loop writes many at a time: a table, as the `hex` crate has it, is
/// looked into once for each digit.
fn encode_into(out: &mut [u8], bytes: &[u8])
    requires { length out.old ≡ 2 * length bytes.now }
    ensures { out.new ≡ digits_of bytes.now }
{
    'bytes: for i in 0..bytes.len() {
        out[2 * i] = digit_of(bytes[i] / 16);
        out[2 * i + 1] = digit_of(bytes[i] % 16);
    }
}

/// The digits of the bytes, as a text.
pub(crate) fn encode_digits(alloc: Global, bytes: &[u8]) -> Result<String, AllocError>
    ensures { IfOk result (λ text. string_bytes text ≡ digits_of bytes.now) }
{
    let Some(len) = bytes.len().checked_mul(2) else {
        return Err(AllocError);
    };
    let mut digits = vec![in alloc; 0u8; len]?;
    encode_into(digits.as_mut_slice(), bytes);
    // all of them are digits, which is proved
    Ok(unsafe { String::from_utf8_unchecked(digits) })
}

/// Adds the digits of the bytes at the end of the text. All of them are made before, so that there is room for them at once.
///
/// # Errors
///
/// `AllocError` if memory is refused. The text is as before then.
pub fn push_digits(text: &mut String, bytes: &[u8]) -> Result<(), AllocError>
    ensures { OnOk result (string_bytes text.new ≡ string_bytes text.old ++ digits_of bytes.now) }
{
    let digits = encode_digits(*text.allocator(), bytes)?;
    text.push_str(digits.as_str())
}
