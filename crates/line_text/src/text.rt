//! The parts of a reply's line.

ghost use Rattle.std.specs.Prelude.{◌≡◌, ◌++◌, IsUtf8, OnOk, MatchResult, string_bytes, decimal};
ghost use Rattle.std.specs.Fmt.{signed_decimal};
ghost use Rattle.std.specs.List.{list_all};
ghost use Rattle.json.specs.Print.{quoted};
ghost use Rattle.line_text.specs.inside.Standing.{stands};

use itoa::Buffer;
use json::Writer;
use std::alloc::{AllocError, Global};
use std::mem;

/// Adds a part of a line as it is.
pub(crate) fn push(text: &mut String, part: &str) -> Result<(), AllocError>
    ensures { OnOk result (string_bytes text.new ≡ string_bytes text.old ++ part.now) }
{
    text.push_str(part)
}

/// Adds a number that isn't below 0.
pub(crate) fn push_natural(text: &mut String, n: u64) -> Result<(), AllocError>
    ensures { OnOk result (string_bytes text.new ≡ string_bytes text.old ++ decimal n) }
{
    let mut digits = Buffer::new();
    push(text, digits.format(n))?;
    Ok(())
}

/// Adds a whole number.
pub(crate) fn push_whole(text: &mut String, n: i64) -> Result<(), AllocError>
    ensures { OnOk result (string_bytes text.new ≡ string_bytes text.old ++ signed_decimal n) }
{
    let mut digits = Buffer::new();
    push(text, digits.format(n))?;
    Ok(())
}

/// The text of bytes that are known to be one.
fn text_of_bytes(bytes: Vec<u8>) -> String
    requires { IsUtf8 bytes.items }
    ensures { string_bytes result ≡ bytes.items }
{
    unsafe { String::from_utf8_unchecked(bytes) }
}

/// Whether a JSON text has the byte as it is, and no escape in its place.
fn stands(byte: u8) -> bool
    ensures { result ≡ stands byte }
{
    !(byte < 32) && byte != 34 && byte != 92
}

/// Whether a JSON text has each of these bytes as it is.
fn all_stand(bytes: &[u8]) -> bool
    ensures { result ≡ list_all stands bytes.now }
{
    bytes.iter().all(|byte| stands(*byte))
}

/// Adds a text as JSON, with what has to be escaped escaped. The writer makes room ahead, thousands of zeros for a long text.
fn push_escaped(alloc: Global, text: &mut String, part: &str) -> Result<(), AllocError>
    ensures { OnOk result (string_bytes text.new ≡ string_bytes text.old ++ quoted part.now) }
{
    let before = mem::replace(text, String::new(alloc));
    let mut writer = Writer::new(before.into_bytes());
    let written = writer.string(part);
    *text = text_of_bytes(writer.into_inner());
    written
}

/// Adds a text as JSON: with its quotes, and with what has to be escaped escaped. Mostly nothing has to.
pub(crate) fn push_quoted(alloc: Global, text: &mut String, part: &str) -> Result<(), AllocError>
    ensures { OnOk result (string_bytes text.new ≡ string_bytes text.old ++ quoted part.now) }
{
    if !all_stand(part.as_bytes()) {
        return push_escaped(alloc, text, part);
    }
    text.push_str("\"")?;
    text.push_str(part)?;
    text.push_str("\"")
}
