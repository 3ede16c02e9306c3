//! What is at a path once its links are followed.

use std::alloc::Global;
use std::fs;
use std::io::{self, ErrorKind};
use std::path::Path;
use std::rt::Files;

/// How many links are followed from one path, as the system does.
const MOST_LINKS: u32 = 40;

/// The folders in which the system shows what the process has open.
const OPEN_FILES: [&str; 2] = ["/proc/", "/dev/fd/"];

/// Where what is written to a path goes.
#[derive(Drop)]
pub enum Place {
    /// To a file at this path, which is no link: a regular file is there, or nothing.
    File(String),

    /// To what is there: a pipe, a device, or what the process has open, as `/dev/stdout`.
    Stream,
}

/// Where the link at the path leads, if a link is there.
fn link_at<R: Files>(files: &R, alloc: Global, path: &str) -> io::Result<Option<String>> {
    match fs::symlink_metadata(files, path) {
        Ok(found) if found.is_symlink() => {
            let target = files.read_link(alloc, path)?;
            let next = Path::new(path).with_file_name(alloc, target.as_str())?;
            Ok(Some(next.into_string()))
        }
        Ok(_) => Ok(None),
        Err(error) if error.kind() == ErrorKind::NotFound => Ok(None),
        Err(error) => Err(error),
    }
}

/// Whether the system shows there what the process has open.
fn is_open_file(path: &str) -> bool {
    path.starts_with(OPEN_FILES[0]) || path.starts_with(OPEN_FILES[1])
}

/// Follows the links from the path.
fn followed<R: Files>(files: &R, alloc: Global, path: &str) -> io::Result<Place> {
    let mut at = String::from_str(alloc, path)?;
    for _ in 0..MOST_LINKS {
        let Some(next) = link_at(files, alloc, at.as_str())? else {
            return Ok(Place::File(at));
        };
        if is_open_file(at.as_str()) {
            return Ok(Place::Stream);
        }
        at = next;
    }
    Err(io::Error::from(ErrorKind::FilesystemLoop))
}

/// Where what is written to the path goes.
///
/// # Errors
///
/// A call at the path or at a link on the way failed, or there are more than 40 links; memory was refused.
pub fn place_of<R: Files>(files: &R, alloc: Global, path: &str) -> io::Result<Place> {
    match fs::metadata(files, path) {
        Ok(found) if !found.is_file() => Ok(Place::Stream),
        Err(error) if error.kind() != ErrorKind::NotFound => Err(error),
        _ => followed(files, alloc, path),
    }
}
