//! The name of a new file beside another.

ghost use Rattle.std.specs.Prelude.{◌≡◌, ◌++◌, codes, IfOk, string_bytes};
ghost use Rattle.std.specs.Path.{path_with_file_name};

use std::alloc::{AllocError, Global};
use std::io;
use std::path::Path;
use std::random::RandomSource;

/// What the name of a new file begins with until it has its place. Sixteen digits follow.
const NEW_NAME: &str = ".silo-";

/// The digits of a name.
const DIGITS: &[u8; 16] = b"0123456789abcdef";

/// How many digits a name has: as many random numbers of four bits.
const DIGITS_OF_A_NAME: usize = 16;

/// The name of a new file, with these digits.
fn new_name(alloc: Global, chosen: &[u8]) -> Result<String, AllocError> {
    let mut name = String::from_str(alloc, NEW_NAME)?;
    for byte in chosen {
        name.push(char::from(DIGITS[usize::from(*byte % 16)]))?;
    }
    Ok(name)
}

/// The path with another name in its folder.
fn beside(alloc: Global, path: &str, name: &str) -> Result<String, AllocError>
    ensures { IfOk result (λ beside. string_bytes beside ≡ path_with_file_name path.now name.now) }
{
    let beside = Path::new(path).with_file_name(alloc, name)?;
    Ok(beside.into_string())
}

/// The path of a new file in the folder of this path, whose name nobody can guess. It has 22 bytes, however long the path's
/// own name is.
///
/// # Errors
///
/// The system gives no random bytes, or memory was refused.
pub fn new_beside(files: &impl RandomSource, alloc: Global, path: &str) -> io::Result<String> {
    let mut chosen = [0; DIGITS_OF_A_NAME];
    files.fill_bytes(&mut chosen)?;
    let name = new_name(alloc, &chosen)?;
    Ok(beside(alloc, path, name.as_str())?)
}
