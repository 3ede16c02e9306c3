//! A reader and a writer that fail.

use std::io;
use std::io::{ErrorKind, Read, Write};

/// Gives its bytes, and then fails or ends.
#[derive(Drop)]
pub struct FailingReader<'a> {
    pub rest: &'a [u8],
    pub fails: bool,
}

impl<'a> Read for FailingReader<'a> {
    fn read(&mut self, buffer: &mut [u8]) -> io::Result<usize> {
        if self.fails && self.rest.is_empty() {
            return Err(io::Error::from(ErrorKind::TimedOut));
        }
        self.rest.read(buffer)
    }
}

/// Takes no byte: each write fails.
#[derive(Drop)]
pub struct FailingWriter;

impl Write for FailingWriter {
    fn write(&mut self, _bytes: &[u8]) -> io::Result<usize> {
        Err(io::Error::from(ErrorKind::TimedOut))
    }

    fn flush(&mut self) -> io::Result<()> {
        Ok(())
    }
}
