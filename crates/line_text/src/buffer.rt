//! A buffer of bytes that are read ahead, and how lines are taken from it.

ghost use Rattle.std.specs.Prelude.{◌≡◌, ◌≢◌, ℕ, List, ◌<◌, ◌≤◌, ◌⊎◌, ◌∷◌, ◌++◌, Ok, None, true, false, IfSome};
ghost use Rattle.std.specs.Prelude.{IfOk, IfErr, OnOk, OnErr, length, take, slice_index, slice_range, vec_len};
ghost use Rattle.std.specs.Io.KnownBytes.{Keeps, IsAtEnd};
ghost use Rattle.line_text.specs.Calls.{StopsReading};
ghost use Rattle.line_text.specs.Limits.{kept_limit};
ghost use Rattle.line_text.specs.Reading.{HasNoBreak, TakesLine, TakesPart};

use crate::calls::{Call, ReaderCalls};
use crate::fault::LineFault;
use line_parser::LINE_LIMIT;
use memchr::memchr;
use std::alloc::{AllocError, Global};
use std::io::Read;

/// A buffer: `bytes[start..end]` is read ahead and not yet taken. The reader itself is passed to each call.
#[derive(Drop)]
pub(crate) struct Buffer {
    pub(crate) bytes: Vec<u8>,
    start: usize,
    end: usize,
    calls: ReaderCalls,
    ghost ordered: { start ≤ end },
    ghost in_bounds: { end ≤ vec_len bytes },
    ghost room: { 0 < vec_len bytes },
}

/// Where a line is: in the buffer, or moved to bytes beside it.
#[derive(Clone, Copy)]
pub(crate) enum Place {
    InBuffer(usize, usize),
    Moved,
}

impl Buffer {
    ghost use Rattle.line_text.specs.inside.Buffers.{IsInside, ahead_in, left_in};

    /// Nothing is read yet. Takes memory for `capacity` bytes, the most that one read brings.
    pub(crate) fn with_capacity(alloc: Global, capacity: usize) -> Result<Buffer, AllocError>
        requires { 0 < capacity }
        ensures room { IfOk result (λ buffer. vec_len buffer.bytes ≡ capacity) }
        ensures start { IfOk result (λ buffer. buffer.start ≡ 0) }
        ensures end { IfOk result (λ buffer. buffer.end ≡ 0) }
        ensures made { IfOk result (λ buffer. buffer.calls.made ≡ 0) }
        ensures failed { IfOk result (λ buffer. buffer.calls.failed ≡ false) }
    {
        let mut bytes = Vec::with_capacity(alloc, capacity)?;
        bytes.resize(capacity, 0)?;
        Ok(Buffer {
            bytes,
            start: 0,
            end: 0,
            calls: ReaderCalls::none(),
        })
    }

    /// Whether there is a byte to take. Reads until there is one or the input ends; a read that is
    /// interrupted is made again, and each counts. After an `Err` nothing is read ahead.
    pub(crate) fn fill<R: Read>(&mut self, reader: &mut R) -> Result<bool, LineFault>
        ensures bytes { Keeps (left_in self.old (R.remaining reader.old)) (left_in self.new (R.remaining reader.new)) }
        ensures some { result ≡ Ok true → self.new.start < self.new.end }
        ensures none { result ≡ Ok false → self.new.end ≤ self.new.start }
        ensures end { result ≡ Ok false → IsAtEnd (R.remaining reader.new) }
        ensures kept { self.old.start < self.old.end → self.new.calls.made ≡ self.old.calls.made }
        ensures counts { result ≡ Ok true → self.old.end ≤ self.old.start → self.old.calls.made < self.new.calls.made }
        ensures memory { IfErr result (λ e. e ≢ LineFault.Memory) }
        ensures cause { IfErr result (λ e. StopsReading e self.new.calls) }
        ensures failed { OnErr result (self.new.end ≤ self.new.start) }
    {
        if self.start < self.end {
            return Ok(true);
        }
        self.start = 0;
        self.end = 0;
        'tries: while self.calls.is_left() {
            match self.calls.read(reader, &mut self.bytes) {
                Call::Gave(n) => {
                    self.end = n;
                    return Ok(n > 0);
                }
                Call::Interrupted => {}
                Call::Failed => return Err(LineFault::Read),
            }
        }
        Err(LineFault::TooMuch)
    }

    /// Moves bytes up to an LF to the line, and says whether an LF was met. The line keeps at most
    /// one byte more than a line may have. After an `Err` no byte was taken.
    fn take_ready(&mut self, line: &mut Vec<u8>) -> Result<bool, AllocError>
        requires { vec_len line.old ≤ kept_limit }
        ensures broken { result ≡ Ok true → (front : List ℕ) × (ahead_in self.old ≡ front ++ 10 ∷ ahead_in self.new)
            × HasNoBreak front × (line.new.items ≡ take kept_limit (line.old.items ++ front)) }
        ensures whole { result ≡ Ok false → HasNoBreak (ahead_in self.old) }
        ensures kept { result ≡ Ok false → line.new.items ≡ take kept_limit (line.old.items ++ ahead_in self.old) }
        ensures empty { result ≡ Ok false → self.new.end ≤ self.new.start }
        ensures calls { self.new.calls ≡ self.old.calls }
        ensures err { OnErr result (self.new ≡ self.old) }
    {
        let ready = &self.bytes[self.start..self.end];
        let Some(at) = break_at(ready) else {
            extend_capped(line, ready)?;
            self.start = self.end;
            return Ok(false);
        };
        extend_capped(line, &ready[..at])?;
        self.start += at + 1;
        Ok(true)
    }

    /// Moves the next line, cut to one byte more than a line may have; `false` at the end. After an `Err`
    /// a part of the line may have been taken.
    pub(crate) fn move_line<R: Read>(
        &mut self,
        reader: &mut R,
        line: &mut Vec<u8>,
    ) -> Result<bool, LineFault>
        ensures line { result ≡ Ok true → (l : List ℕ) × (line.new.items ≡ take kept_limit l)
            × TakesLine (left_in self.old (R.remaining reader.old)) (left_in self.new (R.remaining reader.new)) l }
        ensures kept { result ≡ Ok false → Keeps (left_in self.old (R.remaining reader.old)) (left_in self.new (R.remaining reader.new)) }
        ensures empty { result ≡ Ok false → self.new.end ≤ self.new.start }
        ensures end { result ≡ Ok false → IsAtEnd (R.remaining reader.new) }
        ensures part { OnErr result (TakesPart (left_in self.old (R.remaining reader.old)) (left_in self.new (R.remaining reader.new))) }
        ensures cause { IfErr result (λ e. StopsReading e self.new.calls) }
        ensures failed { IfErr result (λ e. (e ≡ LineFault.Memory) ⊎ (self.new.end ≤ self.new.start)) }
    {
        line.clear();
        'pieces: while self.fill(reader)? {
            if self.take_ready(line)? {
                return Ok(true);
            }
        }
        if line.is_empty() {
            return Ok(false);
        }
        Ok(true)
    }

    /// Takes the next line if all of it is in the buffer, and says where it begins and ends.
    pub(crate) fn take_whole(&mut self) -> Option<(usize, usize)>
        ensures place { IfSome result (λ l. IsInside (Place.InBuffer l.0 l.1) (vec_len self.new.bytes)) }
        ensures some { IfSome result (λ l. ahead_in self.old ≡ slice_range self.new.bytes.items l.0 l.1 ++ 10 ∷ ahead_in self.new) }
        ensures one { IfSome result (λ l. HasNoBreak (slice_range self.new.bytes.items l.0 l.1)) }
        ensures none { result ≡ None → self.new ≡ self.old }
        ensures calls { self.new.calls ≡ self.old.calls }
    {
        let from = self.start;
        let at = break_at(&self.bytes[from..self.end])?;
        self.start = from + at + 1;
        Some((from, from + at))
    }
}

/// Where the first LF is.
fn break_at(ready: &[u8]) -> Option<usize>
    ensures none { result ≡ None → HasNoBreak ready.now }
    ensures some { IfSome result (λ at. at < length ready.now) }
    ensures first { IfSome result (λ at. HasNoBreak (take at ready.now)) }
    ensures is { IfSome result (λ at. slice_index ready.now at ≡ 10) }
{
    memchr(b'\n', ready)
}

/// Adds bytes to the line, up to one byte more than a line may have.
fn extend_capped(line: &mut Vec<u8>, front: &[u8]) -> Result<(), AllocError>
    requires { vec_len line.old ≤ kept_limit }
    ensures { OnOk result (line.new.items ≡ take kept_limit (line.old.items ++ front.now)) }
{
    let room = LINE_LIMIT + 1 - line.len();
    let kept = front.len().min(room);
    line.extend_from_slice(&front[..kept])?;
    Ok(())
}
