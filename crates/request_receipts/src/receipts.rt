//! What is kept of a tenant's callers.

ghost use Rattle.std.specs.Prelude.{◌≡◌, ◌+◌, ◌<◌, ◌≤◌, IfOk, IfSome, OnOk, OnErr, nat_le, string_bytes, if◌then◌else◌};
ghost use Rattle.std.specs.FinMap as finite;
ghost use Rattle.std.specs.Option.{option_copied};
ghost use Rattle.request_receipts.specs.Judgements.{acts, judged, judgement, judgement_of, not_seen_of_tenant};
ghost use Rattle.request_receipts.specs.Receipts.{bytes_in, bytes_of_all, bytes_of_caller, count_of_all, greatest_number, is_tenant_full};
ghost use Rattle.request_receipts.specs.Receipts.{kept, last_of, most_of_tenant, none_kept, receipts_of, saw, with_receipt, without_seen};
ghost use Rattle.request_receipts.specs.Parts.{all_named, all_of, with_caller};
ghost use Rattle.request_receipts.specs.inside.Tables.{by_bytes};

use crate::caller::{CallerReceipts, Freed, Receipt};
use crate::verdict::Verdict;
use std::alloc::{AllocError, Global};
use std::collections::{BTreeMap, btree_map};
use std::marker::Model;

/// How many bytes of lines a tenant may have for each receipt that it may have.
const BYTES_A_RECEIPT: u64 = 1_024;

/// What is kept of a tenant's callers, each by its name after the slash.
#[derive(Drop)]
pub struct TenantReceipts {
    most: u64,
    callers: BTreeMap<String, CallerReceipts>,
    /// How many receipts all callers have.
    count: u64,
    /// How many bytes their lines have.
    bytes: u64,
}

impl Model for TenantReceipts {
    ghost use Rattle.std.specs.Coded.{codes};
    ghost use Rattle.request_receipts.specs.Receipts as kept;
    ghost use Rattle.request_receipts.specs.Receipts.{by_text_code};
    ghost use Rattle.request_receipts.specs.Parts.{all_named, all_of, with_caller};
    ghost use Rattle.request_receipts.specs.inside.Tables.{by_bytes, IsCounted};

    ghost Value = { kept.Receipts };

    ghost coded = { Prim.hlevel (codes, by_text_code) };

    ghost view = { λ r. record { most = r.most; callers = by_bytes r.callers } };

    ghost invariant = { λ r. IsCounted r.most (by_bytes r.callers) r.count r.bytes };
}

impl TenantReceipts {
    /// Nothing is kept. The tenant may have that many callers, and that many receipts.
    pub fn new(alloc: Global, most: u64) -> TenantReceipts
        requires { most ≤ most_of_tenant }
        ensures { result ≡ none_kept most }
    {
        TenantReceipts {
            most,
            callers: BTreeMap::new(alloc),
            count: 0,
            bytes: 0,
        }
    }

    /// What is kept of each caller, ascending by the names.
    pub fn callers(&self) -> btree_map::Iter<'_, String, CallerReceipts>
        ensures { all_named result ≡ finite.entries self.now.callers }
    {
        self.callers.iter()
    }

    /// Keeps again what was kept of a caller. Nothing changes if something of the caller is kept.
    ///
    /// # Errors
    ///
    /// Out of memory, or a count would overflow: nothing changed.
    pub fn restore(
        &mut self,
        caller: String,
        last: u64,
        receipts: Vec<Receipt>,
    ) -> Result<(), AllocError>
        requires { last ≤ greatest_number }
        ensures restored { OnOk result (self.new ≡ with_caller self.old (string_bytes caller)
            (finite.get self.old.callers (string_bytes caller)) (record { last = last; receipts = all_of receipts.items })) }
        ensures unchanged { OnErr result (self.new ≡ self.old) }
    {
        if self.last(caller.as_str()).is_some() {
            return Ok(());
        }
        let Some(record) = CallerReceipts::restored(last, receipts) else {
            return Err(AllocError);
        };
        let Some(count) = sum_of(self.count, record.count()) else {
            return Err(AllocError);
        };
        let Some(bytes) = sum_of(self.bytes, record.bytes()) else {
            return Err(AllocError);
        };
        add_in(&mut self.callers, caller, record)?;
        self.count = count;
        self.bytes = bytes;
        Ok(())
    }

    /// The greatest number of the caller that acted, if one did.
    pub fn last(&self, caller: &str) -> Option<u64>
        ensures last { result ≡ last_of (finite.get self.now.callers caller.now) }
        ensures bound { IfSome result (λ last. last ≤ greatest_number) }
    {
        match self.callers.get(caller) {
            Some(record) => Some(record.last()),
            None => None,
        }
    }

    /// What becomes of a request of that number that is to act once.
    pub fn find(&self, caller: &str, number: u64) -> Verdict<'_>
        ensures { judgement_of result ≡ judgement self.now caller.now number }
    {
        self.judge(self.callers.get(caller), number)
    }

    /// What becomes of a request, by what is kept of its caller.
    fn judge<'a>(&'a self, found: Option<&'a CallerReceipts>, number: u64) -> Verdict<'a>
        ensures { judgement_of result ≡ judged self.now (option_copied found.entry) number }
    {
        let Some(record) = found else {
            if self.has_most_callers() {
                return Verdict::ManyCallers;
            }
            return self.of_tenant();
        };
        if let Some(line) = record.line_of(number) {
            return Verdict::Again(line);
        }
        if number <= record.last() {
            return Verdict::Answered;
        }
        if record.is_full() {
            return Verdict::NotSeenOfCaller;
        }
        self.of_tenant()
    }

    /// Whether the tenant has as many callers as it may have.
    fn has_most_callers(&self) -> bool
        ensures { result ≡ nat_le self.now.most (finite.len self.now.callers) }
    {
        self.most <= self.callers.len() as u64
    }

    /// The caller has seen its replies up to that number: their receipts are dropped.
    pub fn seen(&mut self, caller: &str, number: u64)
        ensures { self.new ≡ saw self.old caller.now number }
    {
        let freed = drop_seen(&mut self.callers, caller, number);
        self.count -= freed.count;
        self.bytes -= freed.bytes;
    }

    /// A number that acts was answered by the line, which has no LF: it is the caller's greatest then, and the line is its receipt.
    ///
    /// # Errors
    ///
    /// Out of memory: nothing changed.
    pub fn keep(
        &mut self,
        alloc: Global,
        caller: &str,
        number: u64,
        line: &[u8],
    ) -> Result<(), AllocError>
        requires number { number ≤ greatest_number }
        requires acts { judgement self.old caller.now number ≡ acts }
        ensures kept { OnOk result (self.new ≡ kept self.old caller.now number line.now) }
        ensures unchanged { OnErr result (self.new ≡ self.old) }
    {
        keep_in(alloc, &mut self.callers, caller, number, line)?;
        self.count += 1;
        self.bytes += line.len() as u64;
        Ok(())
    }

    /// What becomes of a request whose caller has room: it acts, if its tenant has room.
    fn of_tenant(&self) -> Verdict<'_>
        ensures { judgement_of result ≡ (if is_tenant_full self.now then not_seen_of_tenant else acts) }
    {
        if self.most <= self.count || self.most * BYTES_A_RECEIPT <= self.bytes {
            return Verdict::NotSeenOfTenant;
        }
        Verdict::Acts
    }
}

/// The caller has seen its replies up to that number.
fn drop_seen(callers: &mut BTreeMap<String, CallerReceipts>, caller: &str, number: u64) -> Freed
    ensures left { by_bytes callers.new ≡ without_seen (by_bytes callers.old) caller.now
        (finite.get (by_bytes callers.old) caller.now) number }
    ensures count { count_of_all (by_bytes callers.new) + result.count ≡ count_of_all (by_bytes callers.old) }
    ensures bytes { bytes_of_all (by_bytes callers.new) + result.bytes ≡ bytes_of_all (by_bytes callers.old) }
{
    let Some(record) = callers.get_mut(caller) else {
        return Freed { count: 0, bytes: 0 };
    };
    record.drop_seen(number)
}

/// A number of the caller was answered by the line.
///
/// # Errors
///
/// Out of memory: nothing changed.
fn keep_in(
    alloc: Global,
    callers: &mut BTreeMap<String, CallerReceipts>,
    caller: &str,
    number: u64,
    line: &[u8],
) -> Result<(), AllocError>
    requires number { number ≤ greatest_number }
    requires room { bytes_in (receipts_of (finite.get (by_bytes callers.old) caller.now)) < bytes_of_caller }
    ensures kept { OnOk result (by_bytes callers.new ≡ finite.insert (by_bytes callers.old) caller.now
        (with_receipt (finite.get (by_bytes callers.old) caller.now) number line.now)) }
    ensures unchanged { OnErr result (by_bytes callers.new ≡ by_bytes callers.old) }
{
    if let Some(record) = callers.get_mut(caller) {
        return record.keep(alloc, number, line);
    }
    let record = CallerReceipts::first(alloc, number, line)?;
    callers.insert(String::from_str(alloc, caller)?, record)?;
    Ok(())
}

/// One caller more.
///
/// # Errors
///
/// Out of memory: nothing changed.
fn add_in(
    callers: &mut BTreeMap<String, CallerReceipts>,
    caller: String,
    kept: CallerReceipts,
) -> Result<(), AllocError>
    ensures added { OnOk result (by_bytes callers.new ≡ finite.insert (by_bytes callers.old) (string_bytes caller) kept) }
    ensures unchanged { OnErr result (by_bytes callers.new ≡ by_bytes callers.old) }
{
    callers.insert(caller, kept)?;
    Ok(())
}

/// The sum, if it fits.
fn sum_of(a: u64, b: u64) -> Option<u64>
    ensures { IfSome result (λ sum. sum ≡ a + b) }
{
    a.checked_add(b)
}
