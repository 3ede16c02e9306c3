//! Calls of a writer: bytes that are written whole, or in part.

ghost use Rattle.std.specs.Prelude.{◌≡◌, ◌≤◌, ◌<◌, ◌+◌, Err, IfOk, OnOk, OnErr, take, length, true, false};
ghost use Rattle.std.specs.Io.KnownBytes.{Appends, Keeps};
ghost use Rattle.line_text.specs.declared.fault.LineFault.TheVariants as fault;

use crate::fault::LineFault;
use std::io::{ErrorKind, Write};

/// Whether a call of a writer failed, and how many were interrupted: nothing else is a failure. And whether something is
/// held back: bytes were written since the last flush that went well, as far as calls go.
#[derive(Drop)]
pub struct WriterCalls {
    failed: bool,
    held: bool,
    interrupted: u64,
    ghost counted: { interrupted ≤ 18446744073709551615 },
}

impl WriterCalls {
    ghost use Rattle.line_text.specs.Writing.{WrittenInPart};

    /// No call was made yet.
    pub fn none() -> WriterCalls
        ensures failed { result.failed ≡ false }
        ensures held { result.held ≡ false }
        ensures interrupted { result.interrupted ≡ 0 }
    {
        WriterCalls {
            failed: false,
            held: false,
            interrupted: 0,
        }
    }

    /// Writes bytes, of which there are some, and answers how many: none if the write was interrupted.
    /// One that takes none fails, and so does an interrupted one after `u64::MAX` of them.
    fn write_some<W: Write>(&mut self, writer: &mut W, bytes: &[u8]) -> Result<usize, LineFault>
        ensures len { IfOk result (λ n. n ≤ length bytes.now) }
        ensures some { IfOk result (λ n. Appends (W.contents writer.old) (W.contents writer.new) (take n bytes.now)) }
        ensures none { OnErr result (Keeps (W.contents writer.old) (W.contents writer.new)) }
        ensures unfailed { OnOk result (self.new.failed ≡ self.old.failed) }
        ensures fault { OnErr result (result ≡ Err fault.Write) }
        ensures failed { OnErr result (self.new.failed ≡ true) }
        ensures held { self.new.held ≡ self.old.held }

        // A write that isn't interrupted takes some bytes.
        ensures onward { IfOk result (λ n. self.old.interrupted < self.new.interrupted + n) }
    {
        match writer.write(bytes) {
            Ok(0) => {}
            Ok(n) => return Ok(n),
            Err(e) => {
                if e.kind() == ErrorKind::Interrupted && self.interrupted < u64::MAX {
                    self.interrupted += 1;
                    return Ok(0);
                }
            }
        }
        self.failed = true;
        Err(LineFault::Write)
    }

    /// Writes all of the bytes. A write that is interrupted is made again. From now on something is held back, whatever
    /// the bytes are and however it ends.
    ///
    /// # Errors
    ///
    /// `Write` if a write failed or took none, and only then. Of the bytes a beginning was written.
    pub fn write_whole<W: Write>(&mut self, writer: &mut W, bytes: &[u8]) -> Result<(), LineFault>
        ensures whole { OnOk result (Appends (W.contents writer.old) (W.contents writer.new) bytes.now) }
        ensures part { OnErr result (WrittenInPart (W.contents writer.old) (W.contents writer.new) bytes.now) }
        ensures unfailed { OnOk result (self.new.failed ≡ self.old.failed) }
        ensures fault { OnErr result (result ≡ Err fault.Write) }
        ensures failed { OnErr result (self.new.failed ≡ true) }
        ensures held { self.new.held ≡ true }
    {
        self.held = true;
        let mut rest = bytes;
        'writes: while !rest.is_empty() {
            rest = &rest[self.write_some(writer, rest)?..];
        }
        Ok(())
    }

    /// Lets out what was written: then nothing is held back.
    ///
    /// # Errors
    ///
    /// `Write` if the flush failed, and only then. What was held back may be so still.
    pub fn flush<W: Write>(&mut self, writer: &mut W) -> Result<(), LineFault>
        ensures kept { Keeps (W.contents writer.old) (W.contents writer.new) }
        ensures unfailed { OnOk result (self.new.failed ≡ self.old.failed) }
        ensures fault { OnErr result (result ≡ Err fault.Write) }
        ensures failed { OnErr result (self.new.failed ≡ true) }
        ensures out { OnOk result (self.new.held ≡ false) }
        ensures held { OnErr result (self.new.held ≡ self.old.held) }
    {
        if writer.flush().is_ok() {
            self.held = false;
            return Ok(());
        }
        self.failed = true;
        Err(LineFault::Write)
    }
}
