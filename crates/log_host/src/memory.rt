//! A log in memory, for trials of what fails.

ghost use Rattle.std.specs.Prelude.{◌≡◌, ◌⊎◌, true, false, [], ◌∷◌, ◌++◌, None, Some, IfErr, IfOk, OnErr, OnOk, map, option_map};
ghost use Rattle.std.specs.Io.KnownBytes.{Appends};
ghost use Rattle.line_text.specs.Writing.{WrittenInPart};
ghost use Rattle.log_host.specs.Acts.{Adds, AddsPart, TellsPart, synced, told, wrote};
ghost use Rattle.log_host.specs.Memory.{acts_of, burns, bytes_in, later, replaced_of};

use crate::host::{HostFault, LogFiles, LogHost, OpenFault};
use line_text::{LineFault, Output};
use std::alloc::Global;
use std::io::Write;
use std::mem;

/// What a log in memory did.
#[derive(Drop)]
pub enum Did {
    Wrote(Vec<u8>),
    Synced,
    Told(Vec<u8>),
}

/// A log in memory that was replaced: the checkpoint on which it went on, what it began with, and what it did.
#[derive(Drop)]
pub struct OldLog {
    pub point: Option<Vec<u8>>,
    pub begun: Option<Vec<u8>>,
    pub did: Vec<Did>,
}

/// Which call fails, counted from 1, and how many of its bytes are done before; 0 is no call. A switch that fails has done nothing
/// where that is 0, and placed the checkpoint otherwise.
#[derive(Clone, Copy, Debug)]
pub struct Fuse {
    pub calls: u64,
    pub part: usize,
}

impl Fuse {
    /// Whether this call fails.
    fn burns(&mut self) -> bool
        ensures burns { result ≡ burns self.old }
        ensures later { self.new ≡ later self.old }
    {
        if self.calls == 0 {
            return false;
        }
        self.calls -= 1;
        self.calls == 0
    }
}

/// A log that begins with some bytes on the disk, or isn't there, and notes what it is asked; a checkpoint, if there is one; and the
/// logs that were replaced. Of its calls one fails where the fuse burns; and one where memory is refused, which is noted too.
#[derive(Drop)]
pub struct MemoryLog {
    pub alloc: Global,
    pub point: Option<Vec<u8>>,
    pub begun: Option<Vec<u8>>,
    pub did: Vec<Did>,
    pub replaced: Vec<OldLog>,
    pub fuse: Fuse,
    pub failed: bool,
    pub refused: bool,
}

impl MemoryLog {
    /// Holds the bytes, has no checkpoint, and has done nothing.
    pub fn new(alloc: Global, begun: Option<Vec<u8>>, fuse: Fuse) -> MemoryLog
        ensures begun { result.begun ≡ begun }
        ensures did { result.did.items ≡ [] }
        ensures past { (result.point ≡ None) × (result.replaced.items ≡ []) }
        ensures fuse { result.fuse ≡ fuse }
        ensures failed { (result.failed ≡ false) × (result.refused ≡ false) }
    {
        MemoryLog {
            alloc,
            point: None,
            begun,
            did: Vec::new(alloc),
            replaced: Vec::new(alloc),
            fuse,
            failed: false,
            refused: false,
        }
    }

    /// Notes that a call failed.
    fn fail(&mut self) -> HostFault
        ensures { self.new ≡ record self.old { failed = true } }
    {
        self.failed = true;
        HostFault
    }

    /// Notes what was done.
    fn note(&mut self, did: Did) -> Result<(), HostFault>
        ensures begun { self.new.begun ≡ self.old.begun }
        ensures past { (self.new.point ≡ self.old.point) × (self.new.replaced ≡ self.old.replaced) }
        ensures fuse { self.new.fuse ≡ self.old.fuse }
        ensures ok { OnOk result (self.new.did.items ≡ self.old.did.items ++ did ∷ []) }
        ensures unfailed { OnOk result ((self.new.failed ≡ self.old.failed) × (self.new.refused ≡ self.old.refused)) }
        ensures err { OnErr result (self.new.did.items ≡ self.old.did.items) }
        ensures failed { OnErr result ((self.new.failed ≡ true) × (self.new.refused ≡ true)) }
    {
        if self.did.push(did).is_err() {
            self.refused = true;
            return Err(self.fail());
        }
        Ok(())
    }

    /// A copy of the bytes.
    fn copied(&mut self, bytes: &[u8]) -> Result<Vec<u8>, HostFault>
        ensures ok { IfOk result (λ copy. (copy.items ≡ bytes.now) × (self.new ≡ self.old)) }
        ensures err { OnErr result (self.new ≡ record self.old { failed = true; refused = true }) }
    {
        match Vec::from_slice(self.alloc, bytes) {
            Ok(copy) => Ok(copy),
            Err(_) => {
                self.refused = true;
                Err(self.fail())
            }
        }
    }

    /// Notes that the bytes were written.
    fn wrote(&mut self, bytes: &[u8]) -> Result<(), HostFault>
        ensures begun { self.new.begun ≡ self.old.begun }
        ensures past { (self.new.point ≡ self.old.point) × (self.new.replaced ≡ self.old.replaced) }
        ensures fuse { self.new.fuse ≡ self.old.fuse }
        ensures ok { OnOk result (acts_of self.new.did.items ≡ acts_of self.old.did.items ++ wrote bytes.now ∷ []) }
        ensures unfailed { OnOk result ((self.new.failed ≡ self.old.failed) × (self.new.refused ≡ self.old.refused)) }
        ensures err { OnErr result (self.new.did.items ≡ self.old.did.items) }
        ensures failed { OnErr result ((self.new.failed ≡ true) × (self.new.refused ≡ true)) }
    {
        let copy = self.copied(bytes)?;
        self.note(Did::Wrote(copy))
    }

    /// Notes that the bytes went out as replies.
    fn told(&mut self, bytes: &[u8]) -> Result<(), HostFault>
        ensures begun { self.new.begun ≡ self.old.begun }
        ensures past { (self.new.point ≡ self.old.point) × (self.new.replaced ≡ self.old.replaced) }
        ensures fuse { self.new.fuse ≡ self.old.fuse }
        ensures ok { OnOk result (acts_of self.new.did.items ≡ acts_of self.old.did.items ++ told bytes.now ∷ []) }
        ensures unfailed { OnOk result ((self.new.failed ≡ self.old.failed) × (self.new.refused ≡ self.old.refused)) }
        ensures err { OnErr result (self.new.did.items ≡ self.old.did.items) }
        ensures failed { OnErr result ((self.new.failed ≡ true) × (self.new.refused ≡ true)) }
    {
        let copy = self.copied(bytes)?;
        self.note(Did::Told(copy))
    }
}

/// A copy of the bytes, if there are any.
fn copy_of(alloc: Global, bytes: &Option<Vec<u8>>) -> Result<Option<Vec<u8>>, OpenFault>
    ensures copy { IfOk result (λ copy. option_map bytes_in copy ≡ option_map bytes_in bytes.now) }
    ensures fault { IfErr result (λ why. why ≡ OpenFault.Memory) }
{
    let Some(bytes) = bytes else {
        return Ok(None);
    };
    match Vec::from_slice(alloc, bytes.as_slice()) {
        Ok(copy) => Ok(Some(copy)),
        Err(_) => Err(OpenFault::Memory),
    }
}

/// Writes all of the bytes to the output, and lets them out.
#[tactic(auto, using(crate::proofs::Known::all_written))]
fn write_out<W: Write>(output: &mut Output<W>, bytes: &[u8]) -> Result<(), LineFault>
    ensures ok { OnOk result (Appends (W.contents output.old.writer) (W.contents output.new.writer) bytes.now) }
    ensures err { OnErr result (WrittenInPart (W.contents output.old.writer) (W.contents output.new.writer) bytes.now) }
    ensures unfailed { OnOk result (output.new.calls.failed ≡ output.old.calls.failed) }
    ensures out { OnOk result (output.new.calls.held ≡ false) }
    ensures failed { OnErr result (output.new.calls.failed ≡ true) }
{
    output.write_whole(bytes)?;
    output.flush()
}

impl LogHost for MemoryLog {
    ghost begun = { λ log. option_map bytes_in log.begun };

    ghost acts = { λ log. Some (acts_of log.did.items) };

    ghost past = { λ log. record { point = option_map bytes_in log.point; logs = map replaced_of log.replaced.items } };

    ghost failed = { λ log. log.failed };

    fn append(&mut self, bytes: &[u8]) -> Result<(), HostFault>
        ensures begun { self.new.begun ≡ self.old.begun }
        ensures past { (self.new.point ≡ self.old.point) × (self.new.replaced ≡ self.old.replaced) }
        ensures ok { OnOk result (Adds (Some (acts_of self.old.did.items)) (Some (acts_of self.new.did.items)) (wrote bytes.now ∷ [])) }
        ensures err { OnErr result (AddsPart (Some (acts_of self.old.did.items)) (Some (acts_of self.new.did.items)) wrote bytes.now) }
        ensures unfailed { OnOk result (self.new.failed ≡ self.old.failed) }
        ensures failed { OnErr result (self.new.failed ≡ true) }

        // It fails where the fuse burns, and otherwise only where memory is refused.
        ensures fuse { self.new.fuse ≡ later self.old.fuse }
        ensures lit { OnOk result (burns self.old.fuse ≡ false) }
        ensures cause { OnErr result ((burns self.old.fuse ≡ true) ⊎ (self.new.refused ≡ true)) }
    {
        if self.fuse.burns() {
            self.wrote(&bytes[..bytes.len().min(self.fuse.part)])?;
            return Err(self.fail());
        }
        self.wrote(bytes)
    }

    fn sync(&mut self) -> Result<(), HostFault>
        ensures begun { self.new.begun ≡ self.old.begun }
        ensures past { (self.new.point ≡ self.old.point) × (self.new.replaced ≡ self.old.replaced) }
        ensures ok { OnOk result (Adds (Some (acts_of self.old.did.items)) (Some (acts_of self.new.did.items)) (synced ∷ [])) }
        ensures err { OnErr result (Adds (Some (acts_of self.old.did.items)) (Some (acts_of self.new.did.items)) []) }
        ensures unfailed { OnOk result (self.new.failed ≡ self.old.failed) }
        ensures failed { OnErr result (self.new.failed ≡ true) }

        // It fails where the fuse burns, and otherwise only where memory is refused.
        ensures fuse { self.new.fuse ≡ later self.old.fuse }
        ensures lit { OnOk result (burns self.old.fuse ≡ false) }
        ensures cause { OnErr result ((burns self.old.fuse ≡ true) ⊎ (self.new.refused ≡ true)) }
    {
        if self.fuse.burns() {
            return Err(self.fail());
        }
        self.note(Did::Synced)
    }

    fn tell<W: Write>(&mut self, output: &mut Output<W>, bytes: &[u8]) -> Result<(), HostFault>
        ensures begun { self.new.begun ≡ self.old.begun }
        ensures past { (self.new.point ≡ self.old.point) × (self.new.replaced ≡ self.old.replaced) }
        ensures ok { OnOk result (Adds (Some (acts_of self.old.did.items)) (Some (acts_of self.new.did.items)) (told bytes.now ∷ [])) }
        ensures written { OnOk result (Appends (W.contents output.old.writer) (W.contents output.new.writer) bytes.now) }
        ensures err { OnErr result (TellsPart (Some (acts_of self.old.did.items)) (Some (acts_of self.new.did.items))
            (W.contents output.old.writer) (W.contents output.new.writer) bytes.now) }
        ensures unfailed { OnOk result (self.new.failed ≡ self.old.failed) }
        ensures output { OnOk result (output.new.calls.failed ≡ output.old.calls.failed) }
        ensures out { OnOk result (output.new.calls.held ≡ false) }
        ensures failed { OnErr result (self.new.failed ≡ true) }

        // It fails where the fuse burns, and otherwise only where memory is refused or a call of the output fails.
        ensures fuse { self.new.fuse ≡ later self.old.fuse }
        ensures lit { OnOk result (burns self.old.fuse ≡ false) }
        ensures cause { OnErr result ((burns self.old.fuse ≡ true) ⊎ ((self.new.refused ≡ true) ⊎ (output.new.calls.failed ≡ true))) }
    {
        if self.fuse.burns() {
            let some = &bytes[..bytes.len().min(self.fuse.part)];
            self.told(some)?;
            let _ = output.write_whole(some);
            return Err(self.fail());
        }
        self.told(bytes)?;
        if let Err(_) = write_out(output, bytes) {
            return Err(self.fail());
        }
        Ok(())
    }
}

impl LogFiles for MemoryLog {
    fn open(&mut self, alloc: Global, _path: &str) -> Result<Option<Vec<u8>>, OpenFault> {
        if self.fuse.burns() {
            self.failed = true;
            return Err(OpenFault::Read);
        }
        copy_of(alloc, &self.begun)
    }

    fn begin(&mut self, head: &[u8]) -> Result<(), HostFault> {
        if self.fuse.burns() {
            return Err(self.fail());
        }
        let copy = self.copied(head)?;
        self.begun = Some(copy);
        Ok(())
    }

    fn keep(&mut self, length: usize) -> Result<(), HostFault> {
        if self.fuse.burns() {
            return Err(self.fail());
        }
        if let Some(bytes) = &mut self.begun {
            bytes.truncate(length);
        }
        Ok(())
    }

    fn checkpoint(&mut self, alloc: Global) -> Result<Option<Vec<u8>>, OpenFault> {
        if self.fuse.burns() {
            self.failed = true;
            return Err(OpenFault::Read);
        }
        copy_of(alloc, &self.point)
    }

    fn switch(&mut self, checkpoint: &[u8], head: &[u8]) -> Result<(), HostFault> {
        let point = self.copied(checkpoint)?;
        let begun = self.copied(head)?;
        if self.replaced.reserve(1).is_err() {
            self.refused = true;
            return Err(self.fail());
        }
        if self.fuse.burns() {
            if self.fuse.part > 0 {
                self.point = Some(point);
            }
            return Err(self.fail());
        }
        let old = OldLog {
            point: self.point.replace(point),
            begun: self.begun.replace(begun),
            did: mem::replace(&mut self.did, Vec::new(self.alloc)),
        };
        self.replaced.push_reserved(old);
        Ok(())
    }
}
