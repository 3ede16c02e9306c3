//! A log that is on the disk before its replies go out.
//!
//! A layer above may rely on this: `commit` writes the request lines, brings them to the disk and then writes the
//! replies to them. At each moment of it, whether it ends well or not, the replies written so far are the beginning of
//! what the log left by a crash answers. What a host is asked and holds is in `specs/Acts.antt`, what lasts in
//! `specs/Lasting.antt`.
#![tactic(auto)]

mod committing;
mod host;
pub mod laws;
mod memory;
mod place;

pub use committing::{CommitFault, commit};
pub use host::{HostFault, LogFiles, LogHost, OpenFault};
pub use memory::{Did, Fuse, MemoryLog, OldLog};
pub use place::LogPlace;
