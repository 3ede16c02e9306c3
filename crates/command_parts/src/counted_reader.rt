//! A reader whose calls are counted.

ghost use Rattle.std.specs.Prelude.{◌≡◌, ◌↔◌, ◌≤◌, IfErr, IfOk, IfSome};
ghost use Rattle.line_text.specs.Limits.{calls_limit};

use crate::files::{FileFault, fault_of};
use std::alloc::Global;
use std::io::{self, ErrorKind, Read};

/// Calls of the reader, at most: interrupted ones count.
const CALLS_LIMIT: u64 = 1_073_741_824;

/// A reader that fails if it is called more than 1,073,741,824 times.
#[derive(Drop)]
pub struct CountedReader<R> {
    reader: R,
    made: u64,
    ghost counted: { made ≤ calls_limit },
}

impl<R: Read> CountedReader<R> {
    /// No call was made yet.
    pub fn new(reader: R) -> CountedReader<R>
        ensures reader { result.reader ≡ reader }
        ensures made { result.made ≡ 0 }
    {
        CountedReader { reader, made: 0 }
    }
}

impl<R: Read> Read for CountedReader<R> {
    ghost remaining = { λ counted. R.remaining counted.reader };

    fn read(&mut self, buf: &mut [u8]) -> io::Result<usize> {
        if self.made >= CALLS_LIMIT {
            return Err(io::Error::from(ErrorKind::Other));
        }
        self.made += 1;
        self.reader.read(buf)
    }
}

/// All that the reader has left.
///
/// # Errors
///
/// `TooMuch` where all calls were made before the end was met, `Failed` where one failed. `Memory`.
pub fn read_to_end<R: Read>(
    alloc: Global,
    reader: &mut CountedReader<R>,
) -> Result<Vec<u8>, FileFault>
    ensures read { IfOk result (λ bytes. IfSome (R.remaining reader.old.reader) (λ left. bytes.items ≡ left)) }
    ensures too_much { IfErr result (λ why. (why ≡ FileFault.TooMuch) ↔ (reader.new.made ≡ calls_limit)) }
{
    let mut bytes = Vec::new(alloc);
    match reader.read_to_end(&mut bytes) {
        Ok(_) => Ok(bytes),
        Err(error) => {
            if reader.made >= CALLS_LIMIT {
                return Err(FileFault::TooMuch);
            }
            Err(fault_of(error))
        }
    }
}
