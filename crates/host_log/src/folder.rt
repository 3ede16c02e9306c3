//! A folder of data, held by one process.

ghost use Rattle.std.specs.Prelude.{◌≡◌, ◌≢◌, ◌↔◌, None, IfErr, IfOk, IfSome, IsErrOf, IsSome, IsTrue, OnErr, OnOk};
ghost use Rattle.host_log.specs.Names.{Named};

use crate::fault::{FolderFault, reading_fault, written};
use crate::names::{Names, Place, names_in};
use crate::plain_file::{check_free, cut, make_file, open_file, take_away, write_within};
use host_writing::size_limit;
use std::alloc::Global;
use std::fs::{self, DirBuilder, File, TryLockError};
use std::io::{self, ErrorKind, Read};
use std::os::unix::fs::DirBuilderExt;
use std::rt::Files;

/// Who may look into a new folder: its owner.
const FOLDER_MODE: u32 = 0o700;

/// A folder of data. Its lock is held as long as this lives, and ends with the process however that ends.
#[derive(Drop)]
pub struct DataFolder<'a, R> {
    files: &'a R,
    names: Names,
    lock: File,
    limit: Option<u64>,
    log: Option<File>,
}

/// Makes the folder if there is none.
fn make_folder(files: &impl Files, path: &str) -> Result<(), FolderFault>
    ensures { IfErr result (λ why. why ≡ FolderFault.Write) }
{
    if DirBuilder::new()
        .mode(FOLDER_MODE)
        .create(files, path)
        .is_ok()
    {
        return Ok(());
    }
    match fs::metadata(files, path) {
        Ok(found) if found.is_dir() => Ok(()),
        _ => Err(FolderFault::Write),
    }
}

/// Makes the file of the lock, or opens it if it is there.
fn open_lock<R: Files<File = File>>(files: &R, path: &str) -> io::Result<File> {
    match make_file(files, path) {
        Err(error) if error.kind() == ErrorKind::AlreadyExists => open_file(files, path),
        made => made,
    }
}

/// Takes the lock, without waiting.
fn hold_lock<R: Files<File = File>>(files: &R, path: &str) -> Result<File, FolderFault>
    ensures { IfErr result (λ why. why ≢ FolderFault.Read) }
{
    let file = written(open_lock(files, path))?;
    match file.try_lock() {
        Ok(()) => Ok(file),
        Err(TryLockError::WouldBlock) => Err(FolderFault::InUse),
        Err(TryLockError::Error(_)) => Err(FolderFault::Write),
    }
}

/// All that the file has.
fn read_all(alloc: Global, mut file: &File) -> Result<Vec<u8>, FolderFault>
    ensures { IfErr result (λ why. why ≢ FolderFault.InUse) }
{
    let length = match file.metadata() {
        Ok(found) => found.len(),
        Err(error) => return Err(reading_fault(error)),
    };
    let Ok(length) = usize::try_from(length) else {
        return Err(FolderFault::Memory);
    };
    let mut bytes = Vec::with_capacity(alloc, length.saturating_add(1))?;
    match file.read_to_end(&mut bytes) {
        Ok(_) => Ok(bytes),
        Err(error) => Err(reading_fault(error)),
    }
}

impl<'a, R: Files<File = File>> DataFolder<'a, R> {
    /// Makes the folder at the path if there is none, and holds its lock. Nothing is known of its log yet. The folder above has to
    /// be there. The system's limit on the size of files is looked up here, once.
    ///
    /// # Errors
    ///
    /// `InUse` if another process holds the folder, or another value in this one; `Write` if it wasn't made, or its lock wasn't made or
    /// taken; `Memory`.
    pub fn open(files: &'a R, alloc: Global, path: &str) -> Result<DataFolder<'a, R>, FolderFault>
        ensures named { IfOk result (λ folder. Named folder.names path.now) }
        ensures unread { IfOk result (λ folder. folder.log ≡ None) }
        ensures fault { IfErr result (λ why. why ≢ FolderFault.Read) }
    {
        let names = names_in(alloc, path)?;
        make_folder(files, path)?;
        let lock = hold_lock(files, names.lock.as_str())?;
        Ok(DataFolder {
            files,
            names,
            lock,
            limit: size_limit(files),
            log: None,
        })
    }

    /// Has the names of the folder on the disk, and its own name too where the folder above may be read.
    fn sync_names(&self) -> io::Result<()> {
        File::open(self.files, self.names.folder.as_str())?.sync_all()?;
        match File::open(self.files, self.names.above.as_str()) {
            Ok(above) => above.sync_all(),
            Err(error) if error.kind() == ErrorKind::PermissionDenied => Ok(()),
            Err(error) => Err(error),
        }
    }

    /// Has a file that is there, and its name, on the disk.
    fn sync_found(&self, file: &File) -> io::Result<()> {
        file.sync_all()?;
        self.sync_names()
    }

    /// The regular file at the path, open, and all its bytes, which are then on the disk with its name; nothing if there is none.
    fn read_whole(&self, alloc: Global, path: &str) -> Result<Option<(File, Vec<u8>)>, FolderFault>
        ensures fault { IfErr result (λ why. why ≢ FolderFault.InUse) }
    {
        let file = match open_file(self.files, path) {
            Ok(file) => file,
            Err(error) if error.kind() == ErrorKind::NotFound => return Ok(None),
            Err(error) => return Err(reading_fault(error)),
        };
        let bytes = read_all(alloc, &file)?;
        written(self.sync_found(&file))?;
        Ok(Some((file, bytes)))
    }

    /// All bytes of the log, which is then on the disk and open; nothing if there is none.
    ///
    /// # Errors
    ///
    /// `Read` if it wasn't opened or read, or is a link or no regular file; `Write` if it isn't on the disk; `Memory`. Nothing is opened
    /// then.
    pub fn read_log(&mut self, alloc: Global) -> Result<Option<Vec<u8>>, FolderFault>
        ensures found { IfOk result (λ bytes. IsSome bytes → IsSome self.new.log) }
        ensures nothing { result ≡ Ok None → self.new ≡ self.old }
        ensures kept { self.new ≡ record self.old { log = self.new.log } }
        ensures err { OnErr result (self.new ≡ self.old) }
        ensures fault { IfErr result (λ why. why ≢ FolderFault.InUse) }
    {
        let Some((log, bytes)) = self.read_whole(alloc, self.names.log.file.as_str())? else {
            return Ok(None);
        };
        self.log = Some(log);
        Ok(Some(bytes))
    }

    /// All bytes of the checkpoint, which is then on the disk; nothing if there is none.
    ///
    /// # Errors
    ///
    /// `Read` if it wasn't opened or read, or is a link or no regular file; `Write` if it isn't on the disk; `Memory`.
    pub fn read_checkpoint(&self, alloc: Global) -> Result<Option<Vec<u8>>, FolderFault>
        ensures fault { IfErr result (λ why. why ≢ FolderFault.InUse) }
    {
        match self.read_whole(alloc, self.names.checkpoint.file.as_str())? {
            Some((_, bytes)) => Ok(Some(bytes)),
            None => Ok(None),
        }
    }

    /// Writes the new file beside its place and, once it is on the disk, puts it there.
    fn put_there(&self, file: &File, place: &Place, bytes: &[u8]) -> io::Result<()> {
        write_within(file, self.limit, bytes)?;
        file.sync_all()?;
        fs::rename(self.files, place.beside.as_str(), place.file.as_str())?;
        self.sync_names()
    }

    /// Makes a file of these bytes alone, in place of one or of none. If that fails, what was made of it is taken away again, but for a
    /// file that is in its place.
    fn make_whole(&self, place: &Place, bytes: &[u8]) -> io::Result<File> {
        take_away(self.files, place.beside.as_str())?;
        let file = make_file(self.files, place.beside.as_str())?;
        if let Err(error) = self.put_there(&file, place, bytes) {
            drop(take_away(self.files, place.beside.as_str()));
            return Err(error);
        }
        Ok(file)
    }

    /// Makes a log of these bytes alone, where there is none.
    fn make_first_log(&self, head: &[u8]) -> io::Result<File> {
        check_free(self.files, self.names.log.file.as_str())?;
        self.make_whole(&self.names.log, head)
    }

    /// Whether a log is open.
    pub fn has_log(&self) -> bool
        ensures { IsTrue result ↔ IsSome self.now.log }
    {
        self.log.is_some()
    }

    /// Begins a log that has this head and nothing after it, where there is no log. The log is put in its place once it
    /// is on the disk, and is open then. What an earlier start left of such a log, before it was in its place, is
    /// removed.
    ///
    /// # Errors
    ///
    /// `Write` if there is a log, or a call failed, or a file may not be as long. Nothing is opened then; the log may be there,
    /// whole.
    pub fn begin_log(&mut self, head: &[u8]) -> Result<(), FolderFault>
        ensures open { OnOk result (IsSome self.new.log) }
        ensures once { IsSome self.old.log → IsErrOf result FolderFault.Write }
        ensures kept { self.new ≡ record self.old { log = self.new.log } }
        ensures err { OnErr result (self.new ≡ self.old) }
        ensures fault { IfErr result (λ why. why ≡ FolderFault.Write) }
    {
        if self.log.is_some() {
            return Err(FolderFault::Write);
        }
        let log = written(self.make_first_log(head))?;
        self.log = Some(log);
        Ok(())
    }

    /// A log that has this head and nothing after it, in place of the one that is open. It is put there once it is on the disk, and is
    /// open then; the one before is closed, and gone. What an earlier start left beside is removed.
    ///
    /// # Errors
    ///
    /// `Write` if no log is open, or a call failed, or a file may not be as long. The log is as it was then, or the new one, whole;
    /// nobody knows which, and the log must not be used any more.
    pub fn replace_log(&mut self, head: &[u8]) -> Result<(), FolderFault>
        ensures open { OnOk result (IsSome self.new.log) }
        ensures closed { self.old.log ≡ None → IsErrOf result FolderFault.Write }
        ensures kept { self.new ≡ record self.old { log = self.new.log } }
        ensures err { OnErr result (self.new ≡ self.old) }
        ensures fault { IfErr result (λ why. why ≡ FolderFault.Write) }
    {
        if self.log.is_none() {
            return Err(FolderFault::Write);
        }
        let log = written(self.make_whole(&self.names.log, head))?;
        self.log = Some(log);
        Ok(())
    }

    /// A checkpoint that has these bytes, in place of another or of none. It is put there once it is on the disk. What an
    /// earlier run left beside is removed. The log stays as it is.
    ///
    /// # Errors
    ///
    /// `Write` if a call failed, or a file may not be as long. The checkpoint is as it was then, or the new one, whole.
    pub fn place_checkpoint(&mut self, bytes: &[u8]) -> Result<(), FolderFault>
        ensures same { self.new ≡ self.old }
        ensures fault { IfErr result (λ why. why ≡ FolderFault.Write) }
    {
        match self.make_whole(&self.names.checkpoint, bytes) {
            Ok(_) => Ok(()),
            Err(_) => Err(FolderFault::Write),
        }
    }

    /// Cuts the log to its first `length` bytes, on the disk.
    ///
    /// # Errors
    ///
    /// `Write` if no log is open, or it hasn't as many bytes, or a call failed: then nobody knows whether it was cut.
    pub fn keep(&mut self, length: usize) -> Result<(), FolderFault>
        ensures same { self.new ≡ self.old }
        ensures closed { self.old.log ≡ None → IsErrOf result FolderFault.Write }
        ensures fault { IfErr result (λ why. why ≡ FolderFault.Write) }
    {
        match &self.log {
            Some(log) => written(cut(log, length as u64)),
            None => Err(FolderFault::Write),
        }
    }

    /// Writes all of the bytes at the log's end. Nothing says yet that they are on the disk.
    ///
    /// # Errors
    ///
    /// `Write` if no log is open, or it may not be as long, and then nothing was written; or a call failed, and then a
    /// part of the bytes may be there: the log must not be used any more.
    pub fn append(&mut self, bytes: &[u8]) -> Result<(), FolderFault>
        ensures same { self.new ≡ self.old }
        ensures closed { self.old.log ≡ None → IsErrOf result FolderFault.Write }
        ensures fault { IfErr result (λ why. why ≡ FolderFault.Write) }
    {
        match &self.log {
            Some(log) => written(write_within(log, self.limit, bytes)),
            None => Err(FolderFault::Write),
        }
    }

    /// Has all of the log on the disk. It isn't tried again: the system may forget what it couldn't write.
    ///
    /// # Errors
    ///
    /// `Write` if no log is open, or the call failed: the log must not be used any more.
    pub fn sync(&mut self) -> Result<(), FolderFault>
        ensures same { self.new ≡ self.old }
        ensures closed { self.old.log ≡ None → IsErrOf result FolderFault.Write }
        ensures fault { IfErr result (λ why. why ≡ FolderFault.Write) }
    {
        match &self.log {
            Some(log) => written(log.sync_data()),
            None => Err(FolderFault::Write),
        }
    }
}
