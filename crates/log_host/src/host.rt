//! A host that keeps a log and writes the replies, and one that opens a log, too.

ghost use Rattle.std.specs.Prelude.{◌≡◌, ◌≢◌, false, true, Bool, List, ℕ, [], ◌∷◌, IfErr, IfOk, None, OnErr, OnOk, Option, option_map};
ghost use Rattle.std.specs.Io.KnownBytes.{Appends};
ghost use Rattle.log_host.specs.Acts.{Act, Adds, AddsPart, TellsPart, synced, told, wrote};
ghost use Rattle.log_host.specs.Files.{Begins, Cuts, Finds, MayBegin, MayCut, MaySwitch, Past, Switches};

use line_text::Output;
use std::alloc::Global;
use std::io::Write;

/// A call of the host failed.
#[derive(Clone, Copy, Debug, PartialEq, Eq)]
pub struct HostFault;

/// A log, and the way to reply to whoever sent a request.
pub trait LogHost {
    /// The log's bytes, head and all, when it was opened, begun or cut last; none if there was no log.
    ghost begun: { Self → Option (List ℕ) };

    /// What was done since, if it is known: of files of the system nothing is.
    ghost acts: { Self → Option (List Act) };

    /// The checkpoint on which the log goes on, and the logs that were replaced since the log was opened.
    ghost past: { Self → Past };

    /// Whether a call failed.
    ghost failed: { Self → Bool };

    /// Writes the bytes at the log's end.
    fn append(&mut self, bytes: &[u8]) -> Result<(), HostFault>
        ensures begun { begun self.new ≡ begun self.old }
        ensures past { past self.new ≡ past self.old }
        ensures ok { OnOk result (Adds (acts self.old) (acts self.new) (wrote bytes.now ∷ [])) }
        ensures err { OnErr result (AddsPart (acts self.old) (acts self.new) wrote bytes.now) }
        ensures unfailed { OnOk result (failed self.new ≡ failed self.old) }
        ensures failed { OnErr result (failed self.new ≡ true) };

    /// Brings all of the log to the disk.
    fn sync(&mut self) -> Result<(), HostFault>
        ensures begun { begun self.new ≡ begun self.old }
        ensures past { past self.new ≡ past self.old }
        ensures ok { OnOk result (Adds (acts self.old) (acts self.new) (synced ∷ [])) }
        ensures err { OnErr result (Adds (acts self.old) (acts self.new) []) }
        ensures unfailed { OnOk result (failed self.new ≡ failed self.old) }
        ensures failed { OnErr result (failed self.new ≡ true) };

    /// Sends the bytes to whoever sent the requests: writes them to the output, and flushes it.
    fn tell<W: Write>(&mut self, output: &mut Output<W>, bytes: &[u8]) -> Result<(), HostFault>
        ensures begun { begun self.new ≡ begun self.old }
        ensures past { past self.new ≡ past self.old }
        ensures ok { OnOk result (Adds (acts self.old) (acts self.new) (told bytes.now ∷ [])) }
        ensures written { OnOk result (Appends (W.contents output.old.writer) (W.contents output.new.writer) bytes.now) }
        ensures err { OnErr result (TellsPart (acts self.old) (acts self.new)
            (W.contents output.old.writer) (W.contents output.new.writer) bytes.now) }
        ensures unfailed { OnOk result (failed self.new ≡ failed self.old) }
        ensures output { OnOk result (output.new.calls.failed ≡ output.old.calls.failed) }
        ensures out { OnOk result (output.new.calls.held ≡ false) }
        ensures failed { OnErr result (failed self.new ≡ true) };
}

/// Why a log wasn't opened.
#[derive(Clone, Copy, Debug, PartialEq, Eq)]
pub enum OpenFault {
    /// Memory was refused.
    Memory,

    /// Another process has it.
    InUse,

    /// A call that reads failed.
    Read,

    /// A call that makes the folder or the lock failed.
    Write,
}

/// A log that can be opened, begun and cut, none of which is to be asked of a log to which anything was done since; and a checkpoint
/// that may replace it.
pub trait LogFiles: LogHost {
    /// Opens the log at the path for this process alone, and gives its bytes, head and all, which are on the disk then; none
    /// if there's no log. That they are on the disk is for the host to do: what was found counts as synced.
    ///
    /// # Errors
    ///
    /// Those of `OpenFault`; the log is as it was.
    fn open(&mut self, alloc: Global, path: &str) -> Result<Option<Vec<u8>>, OpenFault>
        ensures ok { IfOk result (λ found. Finds (Self.acts self.old) (Self.begun self.old) (Self.acts self.new) (Self.begun self.new)
            (option_map (λ bytes. bytes.items) found)) }
        ensures err { OnErr result ((Self.acts self.new ≡ Self.acts self.old) × (Self.begun self.new ≡ Self.begun self.old)) }
        ensures acts { Self.acts self.new ≡ Self.acts self.old }
        ensures past { Self.past self.new ≡ Self.past self.old }
        ensures unfailed { OnOk result (Self.failed self.new ≡ Self.failed self.old) }
        ensures failed { IfErr result (λ why. why ≢ OpenFault.Memory → why ≢ OpenFault.InUse → Self.failed self.new ≡ true) };

    /// A new log in place of none or of another, which has this head and nothing after it, on the disk.
    ///
    /// # Errors
    ///
    /// A call failed: the log is as it was, or the new one.
    fn begin(&mut self, head: &[u8]) -> Result<(), HostFault>
        ensures ok { OnOk result (Begins (Self.acts self.old) (Self.acts self.new) (Self.begun self.new) head.now) }
        ensures err { OnErr result (MayBegin (Self.acts self.old) (Self.begun self.old) (Self.acts self.new) (Self.begun self.new)
            head.now) }
        ensures acts { Self.acts self.new ≡ Self.acts self.old }
        ensures past { Self.past self.new ≡ Self.past self.old }
        ensures unfailed { OnOk result (Self.failed self.new ≡ Self.failed self.old) }
        ensures failed { OnErr result (Self.failed self.new ≡ true) };

    /// Cuts the log to its first `length` bytes, its head included, on the disk.
    ///
    /// # Errors
    ///
    /// A call failed: the log is as it was, or cut.
    fn keep(&mut self, length: usize) -> Result<(), HostFault>
        ensures ok { OnOk result (Cuts (Self.acts self.old) (Self.begun self.old) (Self.acts self.new) (Self.begun self.new) length) }
        ensures err { OnErr result (MayCut (Self.acts self.old) (Self.begun self.old) (Self.acts self.new) (Self.begun self.new) length) }
        ensures past { Self.past self.new ≡ Self.past self.old }
        ensures unfailed { OnOk result (Self.failed self.new ≡ Self.failed self.old) }
        ensures failed { OnErr result (Self.failed self.new ≡ true) };

    /// The bytes of the checkpoint, which are on the disk; none if there's no checkpoint. It is asked of a log that is open.
    ///
    /// # Errors
    ///
    /// Those of `OpenFault`; all is as it was.
    fn checkpoint(&mut self, alloc: Global) -> Result<Option<Vec<u8>>, OpenFault>
        ensures ok { IfOk result (λ found. Self.acts self.old ≡ Some []
            → (Self.past self.old).point ≡ option_map (λ bytes. bytes.items) found) }
        ensures begun { Self.begun self.new ≡ Self.begun self.old }
        ensures acts { Self.acts self.new ≡ Self.acts self.old }
        ensures past { Self.past self.new ≡ Self.past self.old }
        ensures unfailed { OnOk result (Self.failed self.new ≡ Self.failed self.old) }
        ensures failed { IfErr result (λ why. why ≢ OpenFault.Memory → why ≢ OpenFault.InUse → Self.failed self.new ≡ true) };

    /// A checkpoint in place of none or of another, and then a log in place of the one that is there, which has this head
    /// and nothing after it. Each is on the disk before what follows is done.
    ///
    /// # Errors
    ///
    /// A call failed: all is as it was, or the checkpoint alone is in its place, or the new log too.
    fn switch(&mut self, checkpoint: &[u8], head: &[u8]) -> Result<(), HostFault>
        ensures ok { OnOk result (Switches (Self.acts self.old) (Self.begun self.old) (Self.past self.old)
            (Self.acts self.new) (Self.begun self.new) (Self.past self.new) checkpoint.now head.now) }
        ensures err { OnErr result (MaySwitch (Self.acts self.old) (Self.begun self.old) (Self.past self.old)
            (Self.acts self.new) (Self.begun self.new) (Self.past self.new) checkpoint.now head.now) }
        ensures unknown { Self.acts self.old ≡ None → Self.acts self.new ≡ None }
        ensures unfailed { OnOk result (Self.failed self.new ≡ Self.failed self.old) }
        ensures failed { OnErr result (Self.failed self.new ≡ true) };
}
