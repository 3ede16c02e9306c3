//! Batches, written.

ghost use Rattle.std.specs.Prelude.{◌≡◌, ◌++◌, IfOk, OnErr, OnOk};
ghost use Rattle.log_text.specs.Lines.{IsPrefixOf, ended};
ghost use Rattle.log_text.specs.Sums.{own_sums, spelled};
ghost use Rattle.log_text.specs.Batches.{line_text, mark_behind, mark_start, sum_behind};

use crate::sum::{spell, sum_after};
use std::alloc::AllocError;

/// Adds the line's text, or a part of it.
fn push_line_parts(text: &mut Vec<u8>, line: &[u8]) -> Result<(), AllocError>
    ensures ok { OnOk result (text.new.items ≡ text.old.items ++ line_text line.now) }
    ensures err { IsPrefixOf text.old.items text.new.items }
{
    text.push(b'+')?;
    text.extend_from_slice(line)?;
    text.push(b'\n')?;
    Ok(())
}

/// Adds a line that is asked, after the others of its batch. An `Err` changes nothing.
pub fn push_line(text: &mut Vec<u8>, line: &[u8]) -> Result<(), AllocError>
    ensures ok { OnOk result (text.new.items ≡ text.old.items ++ line_text line.now) }
    ensures err { OnErr result (text.new.items ≡ text.old.items) }
{
    let before = text.len();
    if push_line_parts(text, line).is_err() {
        text.truncate(before);
        return Err(AllocError);
    }
    Ok(())
}

/// Adds what stands in a mark before its sum, or a part of it.
fn push_mark_start(text: &mut Vec<u8>, name: &[u8], told: &[u8]) -> Result<(), AllocError>
    ensures ok { OnOk result (text.new.items ≡ text.old.items ++ mark_start own_sums name.now text.old.items told.now) }
    ensures err { IsPrefixOf text.old.items text.new.items }
{
    let length = spell(text.len() as u64);
    text.push(b'=')?;
    text.extend_from_slice(name)?;
    text.push(b' ')?;
    text.extend_from_slice(&length)?;
    text.push(b' ')?;
    text.extend_from_slice(told)?;
    text.push(b' ')?;
    Ok(())
}

/// Adds a mark, or a part of it.
fn push_mark_parts(text: &mut Vec<u8>, name: &[u8], sum: u64, told: u64) -> Result<u64, AllocError>
    ensures sum { IfOk result (λ next. next ≡ sum_behind own_sums name.now sum text.old.items (spelled told)) }
    ensures ok { OnOk result (text.new.items
        ≡ text.old.items ++ ended (mark_behind own_sums name.now sum text.old.items (spelled told))) }
    ensures err { IsPrefixOf text.old.items text.new.items }
{
    push_mark_start(text, name, &spell(told))?;
    let next = sum_after(sum, text.as_slice());
    text.extend_from_slice(&spell(next))?;
    text.push(b'\n')?;
    Ok(next)
}

/// Closes a batch: adds the mark of all lines that the text has, which are those of one batch, and returns the sum
/// after it. `sum` is the sum after the previous batch, and `told` is the sum of all replies so far. An `Err` changes
/// nothing.
pub fn push_mark(text: &mut Vec<u8>, name: &[u8], sum: u64, told: u64) -> Result<u64, AllocError>
    ensures sum { IfOk result (λ next. next ≡ sum_behind own_sums name.now sum text.old.items (spelled told)) }
    ensures ok { OnOk result (text.new.items
        ≡ text.old.items ++ ended (mark_behind own_sums name.now sum text.old.items (spelled told))) }
    ensures err { OnErr result (text.new.items ≡ text.old.items) }
{
    let before = text.len();
    match push_mark_parts(text, name, sum, told) {
        Ok(next) => Ok(next),
        Err(_) => {
            text.truncate(before);
            Err(AllocError)
        }
    }
}
