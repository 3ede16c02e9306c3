//! The folder of data of the host, as a log. Of what files of the system hold nothing is known.

ghost use Rattle.std.specs.Prelude.{◌≡◌, [], OnErr, OnOk, None, true};

use crate::failure::say_bytes;
use crate::files::DataFiles;
use crate::host_files::HostFiles;
use host_log::{DataFolder, FolderFault};
use line_text::Output;
use log_host::{HostFault, LogFiles, LogHost, OpenFault};
use std::alloc::Global;
use std::fs::File;
use std::io::Write;
use std::rt::Files;

/// The folder of data of the host, if one is open; whether its log is brought to the disk; and whether a call failed.
#[derive(Drop)]
pub(crate) struct HostData<'a, R> {
    folder: Option<DataFolder<'a, R>>,
    syncs: bool,
    failed: bool,
}

impl<R> HostData<'_, R> {
    /// No folder is open, and no call failed.
    pub(crate) fn new() -> Self {
        HostData {
            folder: None,
            syncs: true,
            failed: false,
        }
    }
}

/// What a fault of the folder is to who opens its log.
fn open_fault(fault: FolderFault) -> OpenFault {
    match fault {
        FolderFault::Memory => OpenFault::Memory,
        FolderFault::InUse => OpenFault::InUse,
        FolderFault::Read => OpenFault::Read,
        FolderFault::Write => OpenFault::Write,
    }
}

/// The folder at the path, held by this process, and the bytes of its log, if there is one.
fn open_folder<'a, R: Files<File = File>>(
    rt: &'a R,
    alloc: Global,
    path: &str,
) -> Result<(DataFolder<'a, R>, Option<Vec<u8>>), FolderFault> {
    let mut folder = DataFolder::open(rt, alloc, path)?;
    let found = folder.read_log(alloc)?;
    Ok((folder, found))
}

/// A log of this head, in place of the one that is there, if there is one.
fn begin_in<R: Files<File = File>>(
    folder: &mut DataFolder<'_, R>,
    head: &[u8],
) -> Result<(), FolderFault> {
    if folder.has_log() {
        return folder.replace_log(head);
    }
    folder.begin_log(head)
}

/// Puts a checkpoint in its place, and then a log of this head in place of the one that is there.
fn switch_log<R: Files<File = File>>(
    folder: &mut DataFolder<'_, R>,
    checkpoint: &[u8],
    head: &[u8],
) -> Result<(), FolderFault> {
    folder.place_checkpoint(checkpoint)?;
    folder.replace_log(head)
}

/// Notes whether a call went well.
fn note(failed: &mut bool, done: bool) -> Result<(), HostFault>
    ensures ok { OnOk result (failed.new ≡ failed.old) }
    ensures err { OnErr result (failed.new ≡ true) }
{
    if done {
        return Ok(());
    }
    *failed = true;
    Err(HostFault)
}

impl<R: Files<File = File> + AllocGlobal> LogHost for HostFiles<'_, R> {
    ghost begun = { λ _. None };

    ghost acts = { λ _. None };

    ghost past = { λ _. record { point = None; logs = [] } };

    ghost failed = { λ files. files.data.failed };

    fn append(&mut self, bytes: &[u8]) -> Result<(), HostFault> {
        let done = match &mut self.data.folder {
            Some(folder) => folder.append(bytes).is_ok(),
            None => false,
        };
        note(&mut self.data.failed, done)
    }

    fn sync(&mut self) -> Result<(), HostFault> {
        if !self.data.syncs {
            return Ok(());
        }
        let done = match &mut self.data.folder {
            Some(folder) => folder.sync().is_ok(),
            None => false,
        };
        note(&mut self.data.failed, done)
    }

    fn tell<W: Write>(&mut self, output: &mut Output<W>, bytes: &[u8]) -> Result<(), HostFault> {
        if say_bytes(output, bytes) {
            return Ok(());
        }
        self.data.failed = true;
        Err(HostFault)
    }
}

impl<R: Files<File = File> + AllocGlobal> LogFiles for HostFiles<'_, R> {
    fn open(&mut self, alloc: Global, path: &str) -> Result<Option<Vec<u8>>, OpenFault> {
        match open_folder(self.rt, alloc, path) {
            Ok((folder, found)) => {
                self.data.folder = Some(folder);
                Ok(found)
            }
            Err(why) => {
                self.data.failed = true;
                Err(open_fault(why))
            }
        }
    }

    fn begin(&mut self, head: &[u8]) -> Result<(), HostFault> {
        let done = match &mut self.data.folder {
            Some(folder) => begin_in(folder, head).is_ok(),
            None => false,
        };
        note(&mut self.data.failed, done)
    }

    fn keep(&mut self, length: usize) -> Result<(), HostFault> {
        let done = match &mut self.data.folder {
            Some(folder) => folder.keep(length).is_ok(),
            None => false,
        };
        note(&mut self.data.failed, done)
    }

    fn checkpoint(&mut self, alloc: Global) -> Result<Option<Vec<u8>>, OpenFault> {
        let read = match &self.data.folder {
            Some(folder) => folder.read_checkpoint(alloc),
            None => Err(FolderFault::Read),
        };
        match read {
            Ok(found) => Ok(found),
            Err(why) => {
                self.data.failed = true;
                Err(open_fault(why))
            }
        }
    }

    // Both are brought to the disk, whether the log is or not.
    fn switch(&mut self, checkpoint: &[u8], head: &[u8]) -> Result<(), HostFault> {
        let done = match &mut self.data.folder {
            Some(folder) => switch_log(folder, checkpoint, head).is_ok(),
            None => false,
        };
        note(&mut self.data.failed, done)
    }
}

impl<R: Files<File = File> + AllocGlobal> DataFiles for HostFiles<'_, R> {
    fn set_sync(&mut self, sync: bool) {
        self.data.syncs = sync;
    }
}
