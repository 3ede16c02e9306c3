//! Regular files that are no links.

use std::fs::{self, File, OpenOptions};
use std::io::{self, ErrorKind, Write};
use std::os::unix::fs::{MetadataExt, OpenOptionsExt};
use std::rt::Files;

/// Who may read and write a new file: its owner.
const FILE_MODE: u32 = 0o600;

/// Makes a file that is read, and written at its end. It fails where anything has the path, a link as well.
pub fn make_file<R: Files<File = File>>(files: &R, path: &str) -> io::Result<File> {
    let mut options = OpenOptions::new();
    options.read(true).append(true).create_new(true);
    options.mode(FILE_MODE);
    options.open(files, path)
}

/// Opens the regular file at the path, to read it and to write at its end. It fails where a link has the path.
pub fn open_file<R: Files<File = File>>(files: &R, path: &str) -> io::Result<File> {
    let found = fs::symlink_metadata(files, path)?;
    if !found.is_file() {
        return Err(io::Error::from(ErrorKind::InvalidInput));
    }
    let mut options = OpenOptions::new();
    options.read(true).append(true);
    let file = options.open(files, path)?;
    let opened = file.metadata()?;
    if opened.dev() != found.dev() || opened.ino() != found.ino() {
        return Err(io::Error::from(ErrorKind::Other));
    }
    Ok(file)
}

/// Takes away what has the path, if anything has it. Of a link it is the link.
pub fn take_away(files: &impl Files, path: &str) -> io::Result<()> {
    match fs::remove_file(files, path) {
        Err(error) if error.kind() != ErrorKind::NotFound => Err(error),
        _ => Ok(()),
    }
}

/// Fails where anything has the path.
pub fn check_free(files: &impl Files, path: &str) -> io::Result<()> {
    match fs::symlink_metadata(files, path) {
        Ok(_) => Err(io::Error::from(ErrorKind::AlreadyExists)),
        Err(error) if error.kind() == ErrorKind::NotFound => Ok(()),
        Err(error) => Err(error),
    }
}

/// Writes all of the bytes at the file's end, or nothing if that end would then be beyond the limit.
pub fn write_within(mut file: &File, limit: Option<u64>, bytes: &[u8]) -> io::Result<()> {
    if let Some(most) = limit {
        if most.saturating_sub(file.metadata()?.len()) < bytes.len() as u64 {
            return Err(io::Error::from(ErrorKind::FileTooLarge));
        }
    }
    file.write_all(bytes)
}

/// Cuts the file to its first `length` bytes, and syncs it to the disk. It fails if the file has fewer.
pub fn cut(file: &File, length: u64) -> io::Result<()> {
    if file.metadata()?.len() < length {
        return Err(io::Error::from(ErrorKind::InvalidInput));
    }
    file.set_len(length)?;
    file.sync_all()
}
