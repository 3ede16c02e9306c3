//! Batches, read.

ghost use Rattle.std.specs.Prelude.{◌≡◌, ◌==◌, ◌<◌, IfSome, length, option_map};
ghost use Rattle.log_text.specs.Lines.{tag_of, whole_lines};
ghost use Rattle.log_text.specs.Sums.{own_sums};
ghost use Rattle.log_text.specs.Batches.{mark_head, mark_place};
ghost use Rattle.log_text.specs.Reading.{ReadsBatch, asked_first, asked_lines, fault_in, is_mark, is_placed, marks, may_end, next_of};
ghost use Rattle.log_text.specs.Answers.{Closes, CutsAsked, ReadsMark, Strips, TakesAsked};

use crate::cuts::{behind, cut_line, is_same};
use crate::sum::{spell, sum_after_both};

/// What follows the head of a mark.
fn behind_head<'a>(name: &[u8], line: &'a [u8]) -> Option<&'a [u8]>
    ensures { Strips (mark_head name.now) line.now (option_map (λ rest. rest.now) result) }
{
    let Some(rest) = behind(b"=", line) else {
        return None;
    };
    let Some(rest) = behind(name, rest) else {
        return None;
    };
    behind(b" ", rest)
}

/// What follows the number of the bytes before a mark, if the mark has the number `before`.
fn behind_place<'a>(name: &[u8], before: usize, line: &'a [u8]) -> Option<&'a [u8]>
    ensures { Strips (mark_place own_sums name.now before) line.now (option_map (λ rest. rest.now) result) }
{
    let Some(rest) = behind_head(name, line) else {
        return None;
    };
    behind(&spell(before as u64), rest)
}

/// The sum of the replies that a mark of these bytes records, and the mark's own sum.
fn mark_parts<'a>(name: &[u8], asked: &[u8], line: &'a [u8]) -> Option<(&'a [u8], &'a [u8])>
    ensures { ReadsMark name.now asked.now line.now (option_map (λ mark. (mark.0.now, mark.1.now)) result) }
{
    let Some(rest) = behind_place(name, asked.len(), line) else {
        return None;
    };
    let Some(rest) = behind(b" ", rest) else {
        return None;
    };
    let Some((told, rest)) = rest.split_at_checked(16) else {
        return None;
    };
    let Some(sum) = behind(b" ", rest) else {
        return None;
    };
    Some((told, sum))
}

/// The sum of the replies that the mark of these bytes records, and the sum after the mark.
fn close<'a>(name: &[u8], sum: u64, asked: &[u8], line: &'a [u8]) -> Option<(&'a [u8], u64)>
    ensures { Closes name.now sum asked.now line.now (option_map (λ mark. (mark.0.now, mark.1)) result) }
{
    let Some((told, given)) = mark_parts(name, asked, line) else {
        return None;
    };
    let next = sum_after_both(sum, asked, &line[..line.len() - given.len()]);
    if is_same(given, &spell(next)) {
        Some((told, next))
    } else {
        None
    }
}

/// Whether it is a line that was asked.
fn is_asked(line: &[u8]) -> bool
    ensures { result ≡ (tag_of line.now == 43) }
{
    match line {
        [tag, ..] => *tag == b'+',
        [] => false,
    }
}

/// A batch that was read: the bytes of its lines, the sum of all replies so far that its mark records, the sum after
/// the batch, and what follows its mark.
#[derive(Clone, Copy)]
pub struct NextBatch<'a> {
    pub asked: &'a [u8],
    pub told: &'a [u8],
    pub sum: u64,
    pub behind: &'a [u8],
}

/// The bytes of the first lines that were asked, the line after them, and what follows its LF.
fn asked_part(bytes: &[u8]) -> Option<(&[u8], &[u8], &[u8])>
    ensures { CutsAsked bytes.now (option_map (λ part. (part.0.now, part.1.now, part.2.now)) result) }
{
    let mut rest = bytes;
    'lines: loop {
        let Some((line, behind)) = cut_line(rest) else {
            return None;
        };
        if !is_asked(line) {
            return Some((&bytes[..bytes.len() - rest.len()], line, behind));
        }
        rest = behind;
    }
}

/// The first batch of the bytes, by the sum before it. With none the bytes are the end of the log, which no mark closes.
#[tactic(auto, using(crate::proofs::Batches::ends_there, crate::proofs::Batches::faulty_there))]
pub fn next_batch<'a>(name: &[u8], sum: u64, bytes: &'a [u8]) -> Option<NextBatch<'a>>
    ensures read { ReadsBatch own_sums name.now sum bytes.now
        (option_map (λ next. next_of next.asked.now next.told.now next.sum next.behind.now) result) }
    ensures shorter { IfSome result (λ next. length next.behind.now < length bytes.now) }
{
    let Some((asked, line, behind)) = asked_part(bytes) else {
        return None;
    };
    let Some((told, sum)) = close(name, sum, asked, line) else {
        return None;
    };
    Some(NextBatch {
        asked,
        told,
        sum,
        behind,
    })
}

/// The first line that was asked in a batch's bytes, and the bytes after it.
pub fn next_asked(asked: &[u8]) -> Option<(&[u8], &[u8])>
    ensures { TakesAsked asked.now (option_map (λ cut. (cut.0.now, cut.1.now)) result) }
{
    let Some((line, rest)) = cut_line(asked) else {
        return None;
    };
    match line {
        [_, text @ ..] => Some((text, rest)),
        [] => Some((line, rest)),
    }
}

/// Whether the line begins as each mark of the log.
fn is_a_mark(name: &[u8], line: &[u8]) -> bool
    ensures { result ≡ is_mark name.now line.now }
{
    match behind_head(name, line) {
        Some(_) => true,
        None => false,
    }
}

/// Whether a mark says how many bytes stand before it.
fn is_in_place(name: &[u8], before: usize, line: &[u8]) -> bool
    ensures { result ≡ is_placed own_sums name.now (before, line.now) }
{
    match behind_place(name, before, line) {
        Some(_) => true,
        None => false,
    }
}

/// Whether the bytes may be the end of the batch that was written last.
fn may_be_end(name: &[u8], bytes: &[u8]) -> bool
    ensures { result ≡ may_end own_sums name.now (marks name.now 0 (whole_lines bytes.now)) }
{
    let mut rest = bytes;
    let mut is_marked = false;
    'lines: loop {
        let Some((line, behind)) = cut_line(rest) else {
            return true;
        };
        if is_a_mark(name, line) {
            if is_marked || !is_in_place(name, bytes.len() - rest.len(), line) {
                return false;
            }
            is_marked = true;
        }
        rest = behind;
    }
}

/// How many of the whole lines, from the first on, are lines that were asked.
fn count_asked(bytes: &[u8]) -> usize
    ensures { result ≡ asked_first (whole_lines bytes.now) }
{
    let mut rest = bytes;
    let mut count = 0;
    'lines: loop {
        let Some((line, behind)) = cut_line(rest) else {
            return count;
        };
        if is_asked(line) {
            count += 1;
            rest = behind;
        } else {
            return count;
        }
    }
}

/// The number of whole lines before the one that is at fault, if what follows the last batch is refused: if it has two
/// or more marks of the log, or one in the wrong place. Otherwise it is the end of a batch that was never acknowledged.
pub fn fault_behind(name: &[u8], bytes: &[u8]) -> Option<usize>
    ensures { result ≡ fault_in own_sums name.now bytes.now }
{
    if may_be_end(name, bytes) {
        return None;
    }
    Some(count_asked(bytes))
}
