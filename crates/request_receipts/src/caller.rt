//! What is kept of one caller.

ghost use Rattle.std.specs.Prelude.{◌≡◌, ◌+◌, ◌<◌, ◌≤◌, ◌++◌, ◌∷◌, ◌^◌, [], IfOk, IfSome, OnOk, OnErr, length};
ghost use Rattle.std.specs.Option.{option_copied};
ghost use Rattle.request_receipts.specs.Receipts.{bytes_in, bytes_of_caller, greatest_number, is_full, line_of, unseen};
ghost use Rattle.request_receipts.specs.Parts.{all_of};

use std::alloc::{AllocError, Global};
use std::marker::Model;

/// How many receipts a caller may have.
const MOST_OF_CALLER: u64 = 1_000;

/// How many bytes of lines a caller may have.
const BYTES_OF_CALLER: u64 = 1_048_576;

/// A number that acted, and the line of its reply.
#[derive(Drop)]
pub struct Receipt {
    pub number: u64,
    pub line: Vec<u8>,
}

/// How many receipts were dropped, and how many bytes their lines had.
#[derive(Clone, Copy)]
pub(crate) struct Freed {
    pub count: u64,
    pub bytes: u64,
}

/// What is kept of one caller: the greatest number that acted, and the receipts of the numbers that it hasn't seen.
#[derive(Drop)]
pub struct CallerReceipts {
    last: u64,
    receipts: Vec<Receipt>,
    /// How many bytes the lines have.
    bytes: u64,
}

impl Model for CallerReceipts {
    ghost use Rattle.std.specs.Prelude.{◌≡◌, ◌≤◌};
    ghost use Rattle.std.specs.Coded.{codes};
    ghost use Rattle.request_receipts.specs.Receipts as kept;
    ghost use Rattle.request_receipts.specs.Receipts.{bytes_in, greatest_number};
    ghost use Rattle.request_receipts.specs.Parts.{all_of};

    ghost Value = { kept.Caller };

    ghost coded = { Prim.hlevel codes };

    ghost view = { λ c. record { last = c.last; receipts = all_of c.receipts.items } };

    ghost invariant = { λ c. (c.last ≤ greatest_number) × (c.bytes ≡ bytes_in (all_of c.receipts.items)) };
}

impl CallerReceipts {
    /// A number acted, the first of its caller, and the line answered it.
    pub(crate) fn first(
        alloc: Global,
        number: u64,
        line: &[u8],
    ) -> Result<CallerReceipts, AllocError>
        requires { number ≤ greatest_number }
        ensures { IfOk result (λ c. c ≡ record { last = number; receipts = (number, line.now) ∷ [] }) }
    {
        let mut receipts = Vec::with_capacity(alloc, 1)?;
        receipts.push(Receipt {
            number,
            line: Vec::from_slice(alloc, line)?,
        })?;
        Ok(CallerReceipts {
            last: number,
            receipts,
            bytes: line.len() as u64,
        })
    }

    /// The greatest number that acted.
    pub fn last(&self) -> u64
        ensures last { result ≡ self.now.last }
        ensures bound { result ≤ greatest_number }
    {
        self.last
    }

    /// The line of the number's reply, if it has a receipt.
    pub(crate) fn line_of(&self, number: u64) -> Option<&[u8]>
        ensures { option_copied result ≡ line_of number self.now.receipts }
    {
        line_in(self.receipts.as_slice(), number)
    }

    /// The receipts, in the order in which they came.
    pub fn receipts(&self) -> &[Receipt]
        ensures { all_of result.now ≡ self.now.receipts }
    {
        self.receipts.as_slice()
    }

    /// What was kept of a caller, unless the lines are longer than can be counted.
    pub(crate) fn restored(last: u64, receipts: Vec<Receipt>) -> Option<CallerReceipts>
        requires { last ≤ greatest_number }
        ensures { IfSome result (λ c. c ≡ record { last = last; receipts = all_of receipts.items }) }
    {
        let bytes = weigh(receipts.as_slice())?;
        Some(CallerReceipts {
            last,
            receipts,
            bytes,
        })
    }

    /// How many receipts there are.
    pub(crate) fn count(&self) -> u64
        ensures { result ≡ length self.now.receipts }
    {
        self.receipts.len() as u64
    }

    /// How many bytes their lines have.
    pub(crate) fn bytes(&self) -> u64
        ensures { result ≡ bytes_in self.now.receipts }
    {
        self.bytes
    }

    /// Whether there is no room for one more receipt.
    pub(crate) fn is_full(&self) -> bool
        ensures { result ≡ is_full self.now.receipts }
    {
        MOST_OF_CALLER <= self.receipts.len() as u64 || BYTES_OF_CALLER <= self.bytes
    }

    /// Drops the receipts up to that number.
    pub(crate) fn drop_seen(&mut self, number: u64) -> Freed
        ensures left { self.new ≡ record self.old { receipts = unseen number self.old.receipts } }
        ensures count { length self.new.receipts + result.count ≡ length self.old.receipts }
        ensures bytes { bytes_in self.new.receipts + result.bytes ≡ bytes_in self.old.receipts }
    {
        let count = self.receipts.len() as u64;
        retain_unseen(&mut self.receipts, number);
        let bytes = bytes_of(self.receipts.as_slice());
        let freed = Freed {
            count: count - self.receipts.len() as u64,
            bytes: self.bytes - bytes,
        };
        self.bytes = bytes;
        freed
    }

    /// A number acted, and the line answered it.
    ///
    /// # Errors
    ///
    /// Out of memory: nothing changed.
    pub(crate) fn keep(&mut self, alloc: Global, number: u64, line: &[u8]) -> Result<(), AllocError>
        requires number { number ≤ greatest_number }
        requires room { bytes_in self.old.receipts < bytes_of_caller }
        ensures kept { OnOk result (self.new ≡ record { last = number; receipts = self.old.receipts ++ (number, line.now) ∷ [] }) }
        ensures unchanged { OnErr result (self.new ≡ self.old) }
    {
        self.receipts.push(Receipt {
            number,
            line: Vec::from_slice(alloc, line)?,
        })?;
        self.last = number;
        self.bytes += line.len() as u64;
        Ok(())
    }
}

/// The line of the number's reply, if it has a receipt there.
fn line_in(receipts: &[Receipt], number: u64) -> Option<&[u8]>
    ensures { option_copied result ≡ line_of number (all_of receipts.now) }
{
    'receipts: for receipt in receipts {
        if number == receipt.number {
            return Some(receipt.line.as_slice());
        }
    }
    None
}

/// How many bytes the lines have.
fn bytes_of(receipts: &[Receipt]) -> u64
    requires { bytes_in (all_of receipts.now) < 2 ^ 64 }
    ensures { result ≡ bytes_in (all_of receipts.now) }
{
    let mut bytes = 0;
    'receipts: for receipt in receipts {
        bytes += receipt.line.len() as u64;
    }
    bytes
}

/// Drops the receipts up to that number.
fn retain_unseen(receipts: &mut Vec<Receipt>, number: u64)
    ensures left { all_of receipts.new.items ≡ unseen number (all_of receipts.old.items) }
    ensures fewer { length receipts.new.items ≤ length receipts.old.items }
    ensures lighter { bytes_in (all_of receipts.new.items) ≤ bytes_in (all_of receipts.old.items) }
{
    receipts.retain(|receipt| number < receipt.number);
}

/// How many bytes the lines have, unless the sum doesn't fit.
fn weigh(receipts: &[Receipt]) -> Option<u64>
    ensures { IfSome result (λ bytes. bytes ≡ bytes_in (all_of receipts.now)) }
{
    let mut bytes: u64 = 0;
    'receipts: for receipt in receipts {
        bytes = bytes.checked_add(receipt.line.len() as u64)?;
    }
    Some(bytes)
}
