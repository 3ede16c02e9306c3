//! The folder of the data that a silo keeps: a log, perhaps a checkpoint, and a lock that one process holds.
//!
//! A layer above may rely on this: no two processes have one folder, as long as all of them open it by
//! `DataFolder::open`; a new log or checkpoint is in its place whole or not at all; what was appended and synced is on the
//! disk, after what was there before. What a file of the host does is beyond what a contract can say; which call ends with
//! which fault isn't.
#![tactic(auto)]

mod fault;
mod folder;
mod names;
mod plain_file;

pub use fault::FolderFault;
pub use folder::DataFolder;
