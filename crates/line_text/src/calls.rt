//! Calls of a reader, counted.

ghost use Rattle.std.specs.Prelude.{◌≡◌, ◌+◌, ◌<◌, ◌≤◌, ℕ, nat_lt, take, vec_len, true, false, IfOk, OnErr};
ghost use Rattle.std.specs.Io.KnownBytes.{Keeps, Consumes, IsAtEnd};
ghost use Rattle.line_text.specs.Limits.{calls_limit};

use std::io::{ErrorKind, Read};

/// Calls of the reader, at most: interrupted ones count.
const CALLS_LIMIT: u64 = 1_073_741_824;

/// How many calls of a reader were made, and whether the last one failed. Nothing else is counted as
/// a call, and nothing else is a failure.
#[derive(Drop)]
pub struct ReaderCalls {
    made: u64,
    failed: bool,
    ghost counted: { made ≤ calls_limit },
}

/// The result of one call of a reader.
#[derive(Clone, Copy)]
pub(crate) enum Call {
    /// This many bytes: none only at the end.
    Gave(usize),
    /// The call was interrupted, and may be made again.
    Interrupted,
    Failed,
}

/// One read, over the whole of the buffer.
fn read_over<R: Read>(reader: &mut R, buffer: &mut Vec<u8>) -> std::io::Result<usize>
    ensures len { vec_len buffer.new ≡ vec_len buffer.old }
    ensures bound { IfOk result (λ n. n ≤ vec_len buffer.new) }
    ensures ok { IfOk result (λ n. Consumes (R.remaining reader.old) (R.remaining reader.new) (take n buffer.new.items)) }
    ensures end { IfOk result (λ n. n ≡ 0 → 0 < vec_len buffer.old → IsAtEnd (R.remaining reader.new)) }
    ensures err { OnErr result (Keeps (R.remaining reader.old) (R.remaining reader.new)) }
{
    reader.read(buffer.as_mut_slice())
}

impl ReaderCalls {
    ghost use Rattle.line_text.specs.Calls.{Called, has_failed};

    /// No call was made yet.
    pub(crate) fn none() -> ReaderCalls
        ensures made { result.made ≡ 0 }
        ensures failed { result.failed ≡ false }
    {
        ReaderCalls {
            made: 0,
            failed: false,
        }
    }

    /// Whether one call more may be made.
    pub(crate) fn is_left(&self) -> bool
        ensures { result ≡ nat_lt self.now.made calls_limit }
    {
        self.made < CALLS_LIMIT
    }

    /// One call, over the whole of a buffer that has room.
    pub(crate) fn read<R: Read>(&mut self, reader: &mut R, buffer: &mut Vec<u8>) -> Call
        requires left { self.old.made < calls_limit }
        requires room { 0 < vec_len buffer.old }
        ensures len { vec_len buffer.new ≡ vec_len buffer.old }
        ensures made { self.new.made ≡ self.old.made + 1 }
        ensures failed { self.new.failed ≡ has_failed result }
        ensures bytes { Called (R.remaining reader.old) (R.remaining reader.new) buffer.new.items result }
    {
        self.made += 1;
        self.failed = false;
        match read_over(reader, buffer) {
            Ok(n) => Call::Gave(n),
            Err(e) => {
                if e.kind() == ErrorKind::Interrupted {
                    return Call::Interrupted;
                }
                self.failed = true;
                Call::Failed
            }
        }
    }
}
