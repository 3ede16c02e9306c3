//! A writer that keeps within the system's limit on the size of files.

ghost use Rattle.std.specs.Prelude.{◌≡◌};

use crate::limit::{length_of, size_limit};
use std::io::{self, ErrorKind, Write};
use std::rt::Files;

/// A writer to a stream of the host, whose write fails where the stream is a file that may not grow. Where there is no limit, or
/// no file, it asks the system nothing.
#[derive(Drop)]
pub struct LimitedWriter<'a, R, W> {
    files: &'a R,
    path: &'static str,
    limit: Option<u64>,
    writer: W,
}

impl<'a, R: Files, W: Write> LimitedWriter<'a, R, W> {
    /// What is written goes to the path, such as `/proc/self/fd/1`. The limit is looked up here, once.
    pub fn new(files: &'a R, path: &'static str, writer: W) -> LimitedWriter<'a, R, W>
        ensures { result.writer ≡ writer }
    {
        let limit = match length_of(files, path) {
            Some(_) => size_limit(files),
            None => None,
        };
        LimitedWriter {
            files,
            path,
            limit,
            writer,
        }
    }
}

impl<R: Files, W> LimitedWriter<'_, R, W> {
    /// Whether the file may not grow.
    fn is_full(&self) -> bool {
        match self.limit {
            None => false,
            Some(limit) => match length_of(self.files, self.path) {
                None => false,
                Some(length) => length >= limit,
            },
        }
    }
}

impl<R: Files, W: Write> Write for LimitedWriter<'_, R, W> {
    ghost contents = { λ limited. W.contents limited.writer };

    fn write(&mut self, buf: &[u8]) -> io::Result<usize> {
        if !buf.is_empty() && self.is_full() {
            return Err(io::Error::from(ErrorKind::FileTooLarge));
        }
        self.writer.write(buf)
    }

    fn flush(&mut self) -> io::Result<()> {
        self.writer.flush()
    }
}
