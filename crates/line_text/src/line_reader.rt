//! The lines of an input, one by one.

ghost use Rattle.std.specs.Prelude.{◌≡◌, ◌≢◌, ◌<◌, List, ℕ, [], Ok, Option, IfErr, IfOk, OnErr, OnOk, true, false};
ghost use Rattle.std.specs.Io.KnownBytes.{Keeps, IsAtEnd};
ghost use Rattle.line_text.specs.Calls.{HasCause, HasNothingAhead, StopsReading};
ghost use Rattle.line_text.specs.Reading.{IsFresh, TakesCut, TakesPart, left_of};

use crate::buffer::{Buffer, Place};
use crate::fault::LineFault;
use crate::streams::Output;
use std::alloc::{AllocError, Global};
use std::io::{Read, Write};
use std::marker::Model;

/// Bytes that are read at once.
const CAPACITY: usize = 65536;

/// Reads the lines of an input: what it has read ahead and not taken, the line that was taken last, and how many calls of
/// the reader were made. The reader itself is passed to each call.
#[derive(Drop)]
pub struct LineReader {
    buffer: Buffer,
    place: Place,
    moved: Vec<u8>,
}

impl Model for LineReader {
    ghost use Rattle.std.specs.Prelude.{vec_len};
    ghost use Rattle.line_text.specs.inside.Buffers.{IsInside, ahead_in, bytes_at};
    ghost use Rattle.line_text.specs.Reading.{Reading};

    ghost Value = { Reading };

    ghost view = { λ r. record {
      ahead = ahead_in r.buffer;
      line = bytes_at r.place r.buffer.bytes.items r.moved.items;
      calls = r.buffer.calls;
    } };

    ghost invariant = { λ r. IsInside r.place (vec_len r.buffer.bytes) };
}

impl LineReader {
    /// Nothing is read yet. Takes 65,536 bytes.
    pub fn new(alloc: Global) -> Result<LineReader, AllocError>
        ensures fresh { IfOk result (λ lines. IsFresh lines) }
        ensures made { IfOk result (λ lines. lines.calls.made ≡ 0) }
        ensures failed { IfOk result (λ lines. lines.calls.failed ≡ false) }
    {
        LineReader::with_capacity(alloc, CAPACITY)
    }

    /// The same, with a buffer of the given number of bytes, at least one: a read brings at most that many.
    pub fn with_capacity(alloc: Global, bytes: usize) -> Result<LineReader, AllocError>
        requires { 0 < bytes }
        ensures fresh { IfOk result (λ lines. IsFresh lines) }
        ensures made { IfOk result (λ lines. lines.calls.made ≡ 0) }
        ensures failed { IfOk result (λ lines. lines.calls.failed ≡ false) }
    {
        Ok(LineReader {
            buffer: Buffer::with_capacity(alloc, bytes)?,
            place: Place::Moved,
            moved: Vec::new(alloc),
        })
    }

    /// Whether there is a byte to take. Reads until there is one or the input ends; a read that is
    /// interrupted is made again, and each counts. After an `Err` nothing is read ahead.
    ///
    /// # Errors
    ///
    /// `Read` if a call of the reader failed, and `TooMuch` if one more than 1,073,741,824 would be needed.
    pub fn fill<R: Read>(&mut self, reader: &mut R) -> Result<bool, LineFault>
        ensures bytes { Keeps (left_of self.old (R.remaining reader.old)) (left_of self.new (R.remaining reader.new)) }
        ensures some { result ≡ Ok true → self.new.ahead ≢ [] }
        ensures none { result ≡ Ok false → self.new.ahead ≡ [] }
        ensures end { result ≡ Ok false → IsAtEnd (R.remaining reader.new) }
        ensures memory { IfErr result (λ e. e ≢ LineFault.Memory) }
        ensures cause { IfErr result (λ e. StopsReading e self.new.calls) }
        ensures failed { OnErr result (self.new.ahead ≡ []) }
    {
        // What is read may lie where the last line was.
        self.place = Place::Moved;
        self.buffer.fill(reader)
    }

    /// Takes the next line if all of it is read ahead, and says whether it is. Nothing is read.
    pub fn take_whole(&mut self) -> bool
        ensures some { result ≡ true → (rest : Option (List ℕ)) → TakesCut (left_of self.old rest) (left_of self.new rest) self.new.line }
        ensures none { result ≡ false → self.new ≡ self.old }
        ensures calls { self.new.calls ≡ self.old.calls }
    {
        let Some((from, to)) = self.buffer.take_whole() else {
            return false;
        };
        self.place = Place::InBuffer(from, to);
        true
    }

    /// Takes the next line, of which not all is read ahead; `false` at the end.
    fn take_moved<R: Read>(&mut self, reader: &mut R) -> Result<bool, LineFault>
        ensures line { result ≡ Ok true → TakesCut (left_of self.old (R.remaining reader.old))
            (left_of self.new (R.remaining reader.new)) self.new.line }
        ensures kept { result ≡ Ok false → Keeps (left_of self.old (R.remaining reader.old)) (left_of self.new (R.remaining reader.new)) }
        ensures none { result ≡ Ok false → self.new.ahead ≡ [] }
        ensures end { result ≡ Ok false → IsAtEnd (R.remaining reader.new) }
        ensures part { OnErr result (TakesPart (left_of self.old (R.remaining reader.old)) (left_of self.new (R.remaining reader.new))) }
        ensures cause { IfErr result (λ e. StopsReading e self.new.calls) }
        ensures failed { IfErr result (λ e. HasNothingAhead e self.new.ahead) }
    {
        self.place = Place::Moved;
        self.buffer.move_line(reader, &mut self.moved)
    }

    /// Takes the next line, where it lies if it can be; `false` at the end. After an `Err` a part of the
    /// line may have been taken. Of a line above 65,536 bytes at least the first 65,537 are kept.
    ///
    /// # Errors
    ///
    /// Those of `fill`, and `Memory` if memory was refused.
    pub fn next_line<R: Read>(&mut self, reader: &mut R) -> Result<bool, LineFault>
        ensures line { result ≡ Ok true → TakesCut (left_of self.old (R.remaining reader.old))
            (left_of self.new (R.remaining reader.new)) self.new.line }
        ensures kept { result ≡ Ok false → Keeps (left_of self.old (R.remaining reader.old)) (left_of self.new (R.remaining reader.new)) }
        ensures none { result ≡ Ok false → self.new.ahead ≡ [] }
        ensures end { result ≡ Ok false → IsAtEnd (R.remaining reader.new) }
        ensures part { OnErr result (TakesPart (left_of self.old (R.remaining reader.old)) (left_of self.new (R.remaining reader.new))) }
        ensures cause { IfErr result (λ e. StopsReading e self.new.calls) }
        ensures failed { IfErr result (λ e. HasNothingAhead e self.new.ahead) }
    {
        if self.take_whole() {
            return Ok(true);
        }
        self.take_moved(reader)
    }

    /// Takes the next line. If that takes a read, which may wait, what was written goes out before. After
    /// an `Err` a part of the line may have been taken. Of a line above 65,536 bytes the first 65,537 are kept.
    ///
    /// # Errors
    ///
    /// Those of `fill`; `Write` if what was written didn't go out, and `Memory` if memory was refused.
    pub fn next_flushed<R: Read, W: Write>(
        &mut self,
        reader: &mut R,
        output: &mut Output<W>,
    ) -> Result<bool, LineFault>
        ensures line { result ≡ Ok true → TakesCut (left_of self.old (R.remaining reader.old))
            (left_of self.new (R.remaining reader.new)) self.new.line }
        ensures kept { result ≡ Ok false → Keeps (left_of self.old (R.remaining reader.old)) (left_of self.new (R.remaining reader.new)) }
        ensures none { result ≡ Ok false → self.new.ahead ≡ [] }
        ensures end { result ≡ Ok false → IsAtEnd (R.remaining reader.new) }
        ensures written { Keeps (W.contents output.old.writer) (W.contents output.new.writer) }
        ensures part { OnErr result (TakesPart (left_of self.old (R.remaining reader.old)) (left_of self.new (R.remaining reader.new))) }
        ensures cause { IfErr result (λ e. HasCause e self.new.calls output.new.calls) }
        ensures failed { IfErr result (λ e. HasNothingAhead e self.new.ahead) }
        ensures unfailed { OnOk result (output.new.calls.failed ≡ output.old.calls.failed) }

        // Where a read was made, however it ends, nothing is held back: the flush is before it, since it may fail.
        ensures waits { self.new.calls.made ≢ self.old.calls.made → output.new.calls.held ≡ false }
        ensures out { result ≡ Ok false → output.new.calls.held ≡ false }
        ensures stopped { IfErr result (λ e. e ≢ LineFault.Write → output.new.calls.held ≡ false) }
    {
        if self.take_whole() {
            return Ok(true);
        }
        output.flush()?;
        self.take_moved(reader)
    }

    /// The line that was taken last.
    pub fn line(&self) -> &[u8]
        ensures { result.now ≡ self.now.line }
    {
        match self.place {
            Place::InBuffer(from, to) => &self.buffer.bytes[from..to],
            Place::Moved => self.moved.as_slice(),
        }
    }
}
