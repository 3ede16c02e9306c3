//! An input and an output, each with what is noted of its calls.

ghost use Rattle.std.specs.Prelude.{◌≡◌, ◌<◌, false, true, Err, IfOk, OnErr, OnOk};
ghost use Rattle.std.specs.Io.KnownBytes.{Appends, Keeps};
ghost use Rattle.line_text.specs.Writing.{WrittenInPart};
ghost use Rattle.line_text.specs.Reading.{IsFresh};
ghost use Rattle.line_text.specs.declared.fault.LineFault.TheVariants as fault;

use crate::fault::LineFault;
use crate::line_reader::LineReader;
use crate::written::WriterCalls;
use std::alloc::{AllocError, Global};
use std::io::{Read, Write};

/// A reader, with the lines that are read ahead and what is noted of its calls.
#[derive(Drop)]
pub struct Input<R> {
    pub lines: LineReader,
    pub reader: R,
}

/// A writer, with whether one of its calls failed, and whether something that was written is held back.
#[derive(Drop)]
pub struct Output<W> {
    pub calls: WriterCalls,
    pub writer: W,
}

impl<R: Read + Drop> Input<R> {
    /// Nothing is read yet. Takes 65,536 bytes.
    pub fn new(alloc: Global, reader: R) -> Result<Input<R>, AllocError>
        ensures reader { IfOk result (λ input. input.reader ≡ reader) }
        ensures fresh { IfOk result (λ input. IsFresh input.lines) }
        ensures failed { IfOk result (λ input. input.lines.calls.failed ≡ false) }
    {
        let lines = LineReader::new(alloc)?;
        Ok(Input { lines, reader })
    }

    /// The same, with a buffer of the given number of bytes, at least one: a read brings at most that many.
    pub fn with_capacity(alloc: Global, reader: R, bytes: usize) -> Result<Input<R>, AllocError>
        requires { 0 < bytes }
        ensures reader { IfOk result (λ input. input.reader ≡ reader) }
        ensures fresh { IfOk result (λ input. IsFresh input.lines) }
        ensures failed { IfOk result (λ input. input.lines.calls.failed ≡ false) }
    {
        let lines = LineReader::with_capacity(alloc, bytes)?;
        Ok(Input { lines, reader })
    }
}

impl<W: Write> Output<W> {
    /// Nothing is written yet.
    pub fn new(writer: W) -> Output<W>
        ensures writer { result.writer ≡ writer }
        ensures failed { result.calls.failed ≡ false }
        ensures held { result.calls.held ≡ false }
    {
        Output {
            calls: WriterCalls::none(),
            writer,
        }
    }

    /// Writes all of the bytes. A write that is interrupted is made again. From now on something is held back.
    ///
    /// # Errors
    ///
    /// `Write` if a write failed or took none, and only then. Of the bytes a beginning was written.
    pub fn write_whole(&mut self, bytes: &[u8]) -> Result<(), LineFault>
        ensures whole { OnOk result (Appends (W.contents self.old.writer) (W.contents self.new.writer) bytes.now) }
        ensures part { OnErr result (WrittenInPart (W.contents self.old.writer) (W.contents self.new.writer) bytes.now) }
        ensures unfailed { OnOk result (self.new.calls.failed ≡ self.old.calls.failed) }
        ensures fault { OnErr result (result ≡ Err fault.Write) }
        ensures failed { OnErr result (self.new.calls.failed ≡ true) }
        ensures held { self.new.calls.held ≡ true }
    {
        self.calls.write_whole(&mut self.writer, bytes)
    }

    /// Lets out what was written: then nothing is held back.
    ///
    /// # Errors
    ///
    /// `Write` if the flush failed, and only then. What was held back may be so still.
    pub fn flush(&mut self) -> Result<(), LineFault>
        ensures kept { Keeps (W.contents self.old.writer) (W.contents self.new.writer) }
        ensures unfailed { OnOk result (self.new.calls.failed ≡ self.old.calls.failed) }
        ensures fault { OnErr result (result ≡ Err fault.Write) }
        ensures failed { OnErr result (self.new.calls.failed ≡ true) }
        ensures out { OnOk result (self.new.calls.held ≡ false) }
        ensures held { OnErr result (self.new.calls.held ≡ self.old.calls.held) }
    {
        self.calls.flush(&mut self.writer)
    }
}
