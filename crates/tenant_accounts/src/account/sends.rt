//! What a tenant's grains sent, and is not yet delivered.

ghost use Rattle.std.specs.Prelude.{◌≡◌, ◌∷◌, [], ◌++◌, ◌-◌, OnOk, OnErr, length, map, option_map, take};
ghost use Rattle.std.specs.Option.{option_copied};
ghost use Rattle.tenant_accounts.specs.Sends.{first_send, first_source, message_bytes, send_of, sent_bytes};
ghost use Rattle.tenant_accounts.specs.inside.Deliveries.{FindsFirst, without_first};

use crate::account::{Account, Sent, index};
use grain_id::GrainId;
use std::alloc::{AllocError, Global};
use std::collections::VecDeque;

impl Account {
    /// The first call that the grain sent.
    pub fn first_from(&self, grain: &GrainId) -> Option<&Sent>
        ensures { FindsFirst grain.now self.now.sends result }
    {
        let Some(number) = index::first(&self.index, grain) else {
            return None;
        };
        self.sends.get(&number)
    }

    /// The grain that sent what was sent first, if anything is left.
    pub fn first_sender(&self) -> Option<&GrainId>
        ensures { option_copied result ≡ first_source self.now.sends }
    {
        let Some((_, sent)) = self.sends.first_key_value() else {
            return None;
        };
        Some(&sent.source)
    }

    /// What was sent first, if anything is left.
    pub fn first(&self) -> Option<&Sent>
        ensures { option_map send_of (option_copied result) ≡ first_send self.now.sends }
    {
        let Some((_, sent)) = self.sends.first_key_value() else {
            return None;
        };
        Some(sent)
    }

    /// How many calls are left. Takes the same time however many there are.
    pub fn sent_calls(&self) -> usize
        ensures { result ≡ length self.now.sends }
    {
        self.sends.len()
    }

    /// How many bytes the messages of all that is left have. Takes the same time however many there are.
    pub fn sent_bytes(&self) -> u64
        ensures { result ≡ sent_bytes self.now.sends }
    {
        self.bytes
    }

    /// The first call that the grain sent is taken out. Takes no memory.
    pub(crate) fn take_first(&mut self, grain: &GrainId)
        ensures { self.new ≡ record self.old { sends = without_first grain.now self.old.sends } }
    {
        if let Some(number) = index::take_first(&mut self.index, grain) {
            if let Some(sent) = self.sends.remove(&number) {
                self.bytes -= message_bytes(&sent);
            }
        }
    }

    /// Its grains sent these, after what they sent before.
    ///
    /// # Errors
    ///
    /// Out of memory: the account is as before.
    pub(crate) fn send(&mut self, alloc: Global, mut sent: VecDeque<Sent>) -> Result<(), AllocError>
        ensures done { OnOk result (self.new ≡ record self.old { sends = self.old.sends ++ map send_of sent.items }) }
        ensures unchanged { OnErr result (self.new ≡ self.old) }
    {
        let before = self.sends.len();
        while let Some(one) = sent.pop_front() {
            match self.add(alloc, one) {
                Ok(()) => {}
                Err(AllocError) => {
                    self.keep(before);
                    return Err(AllocError);
                }
            }
        }
        Ok(())
    }

    /// A grain of it sent this, after what was sent before.
    ///
    /// # Errors
    ///
    /// Out of memory, or of numbers: the account is as before.
    fn add(&mut self, alloc: Global, sent: Sent) -> Result<(), AllocError>
        ensures done { OnOk result (self.new ≡ record self.old { sends = self.old.sends ++ send_of sent ∷ [] }) }
        ensures unchanged { OnErr result (self.new ≡ self.old) }
    {
        let number = self.next;
        let Some(next) = number.checked_add(1) else {
            drop(sent);
            return Err(AllocError);
        };
        let Some(bytes) = self.bytes.checked_add(message_bytes(&sent)) else {
            drop(sent);
            return Err(AllocError);
        };
        index::add_last(alloc, &mut self.index, &sent.source, number)?;
        match self.sends.insert(number, sent) {
            Ok(replaced) => {
                drop(replaced);
                self.next = next;
                self.bytes = bytes;
                Ok(())
            }
            Err(refused) => {
                let (_, sent) = refused.value;
                let _ = index::take_last(&mut self.index, &sent.source);
                drop(sent);
                Err(AllocError)
            }
        }
    }

    /// Only that many of the first calls stay. Takes no memory.
    fn keep(&mut self, many: usize)
        ensures { self.new ≡ record self.old { sends = take many self.old.sends } }
    {
        while many < self.sends.len() {
            self.take_last();
        }
    }

    /// The last call that was sent is taken out. Takes no memory.
    fn take_last(&mut self)
        ensures { self.new ≡ record self.old { sends = take (length self.old.sends - 1) self.old.sends } }
    {
        if let Some((_, sent)) = self.sends.pop_last() {
            let _ = index::take_last(&mut self.index, &sent.source);
            self.bytes -= message_bytes(&sent);
        }
    }
}

/// How many bytes the message has.
fn message_bytes(sent: &Sent) -> u64
    ensures { result ≡ message_bytes (send_of sent.now) }
{
    sent.message.bytes().len() as u64
}
