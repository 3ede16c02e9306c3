//! The system's limit on the size of files.

use std::fs::File;
use std::io::Read;
use std::rt::Files;
use std::{fs, str};

/// Where the system lists the limits of a process, a row for each: its name, the limit, and the value up to which it
/// may be raised.
const LIMITS: &str = "/proc/self/limits";

/// What the row of the most bytes of a file begins with.
const FILE_SIZE: &str = "Max file size";

/// The room for the rows.
const ROWS_BYTES: usize = 4_096;

/// The number of the row, and nothing if there is no limit.
fn limit_in(rows: &[u8]) -> Option<u64> {
    let text = str::from_utf8(rows).ok()?;
    let (_, row) = text.split_once(FILE_SIZE)?;
    row.split_whitespace().next()?.parse::<u64>().ok()
}

/// Reads up to the end, or until there is no room, and answers how many bytes were read: none if a call fails.
fn read_rows<F: Read>(file: &mut F, rows: &mut [u8; ROWS_BYTES]) -> usize {
    let mut end = 0;
    for _ in 0..ROWS_BYTES {
        if end >= ROWS_BYTES {
            return end;
        }
        match file.read(&mut rows[end..]) {
            Ok(0) => return end,
            Ok(count) => end += count,
            Err(_) => return 0,
        }
    }
    end
}

/// The most bytes that a regular file may have when it is written (`ulimit -f`), if the system reports a limit. At a
/// write beyond it the system ends the program by a signal.
pub fn size_limit(files: &impl Files) -> Option<u64> {
    let mut file = File::open(files, LIMITS).ok()?;
    let mut rows = [0; ROWS_BYTES];
    let end = read_rows(&mut file, &mut rows);
    limit_in(rows.get(..end)?)
}

/// The length of the regular file at the path, in bytes, and nothing if none is there. Links are followed.
pub fn length_of(files: &impl Files, path: &str) -> Option<u64> {
    match fs::metadata(files, path) {
        Ok(found) if found.is_file() => Some(found.len()),
        _ => None,
    }
}
