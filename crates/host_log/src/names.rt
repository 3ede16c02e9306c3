//! The names in a folder of data.

ghost use Rattle.std.specs.Prelude.{◌≡◌, ◌++◌, codes, IfOk, string_bytes};
ghost use Rattle.host_log.specs.Names.{IsPlace, Named};

use std::alloc::{AllocError, Global};

/// The path of a file, and the path beside it at which a new one is made.
#[derive(Drop)]
pub struct Place {
    pub file: String,
    pub beside: String,
}

/// The paths of a folder of data, of the folder that has it, and of its files.
#[derive(Drop)]
pub struct Names {
    pub folder: String,
    pub above: String,
    pub lock: String,
    pub log: Place,
    pub checkpoint: Place,
}

/// The first text, followed by the second.
fn joined(alloc: Global, first: &str, second: &str) -> Result<String, AllocError>
    ensures { IfOk result (λ text. string_bytes text ≡ first.now ++ second.now) }
{
    let mut text = String::from_str(alloc, first)?;
    text.push_str(second)?;
    Ok(text)
}

/// The place with these names in the folder at the path.
fn place_in(alloc: Global, path: &str, file: &str, beside: &str) -> Result<Place, AllocError>
    ensures { IfOk result (λ place. IsPlace place (path.now ++ file.now) (path.now ++ beside.now)) }
{
    let file = joined(alloc, path, file)?;
    let beside = joined(alloc, path, beside)?;
    Ok(Place { file, beside })
}

/// The place of the log in the folder at the path.
fn log_in(alloc: Global, path: &str) -> Result<Place, AllocError>
    ensures { IfOk result (λ place. IsPlace place (path.now ++ codes "/log") (path.now ++ codes "/log.new")) }
{
    place_in(alloc, path, "/log", "/log.new")
}

/// The place of the checkpoint in the folder at the path.
fn checkpoint_in(alloc: Global, path: &str) -> Result<Place, AllocError>
    ensures { IfOk result (λ place. IsPlace place (path.now ++ codes "/checkpoint") (path.now ++ codes "/checkpoint.new")) }
{
    place_in(alloc, path, "/checkpoint", "/checkpoint.new")
}

/// The names in the folder at the path.
pub fn names_in(alloc: Global, path: &str) -> Result<Names, AllocError>
    ensures { IfOk result (λ names. Named names path.now) }
{
    let folder = String::from_str(alloc, path)?;
    let above = joined(alloc, path, "/..")?;
    let lock = joined(alloc, path, "/lock")?;
    let log = log_in(alloc, path)?;
    let checkpoint = checkpoint_in(alloc, path)?;
    Ok(Names {
        folder,
        above,
        lock,
        log,
        checkpoint,
    })
}
