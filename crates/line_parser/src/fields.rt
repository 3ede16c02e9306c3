//! The fields of a map: they are put in the order in which they come, and at the end of the map in that of their names.

ghost use Rattle.std.specs.Prelude.{◌≡◌, ◌<◌, ◌≤◌, ◌^◌, ◌+◌, ◌++◌, ◌∷◌, [], ℕ, List, length, map, None, OnOk, slice_range};
ghost use Rattle.std.specs.Prelude.{is_some, bytes_eq};
ghost use Rattle.serde_json.specs.Data.{Data};
ghost use Rattle.request_codec.specs.Json.{hex_name, hex_of};
ghost use Rattle.line_parser.specs.inside.Fields.{PlacedField, HoldsFields, AreBehind, PutsSorted, AreSorted, Ascend, LieWithin, bytes_at};
ghost use Rattle.line_parser.specs.inside.Fields.{place_kept, field_spelling, members_of};

use crate::quick_fault::QuickFault;
use arrayvec::ArrayVec;
use request_codec::bytes::may_follow;
use std::alloc::{AllocError, Global};

/// How many fields of a map are noted in place. The more room there is, the longer it takes to make it ready.
const FEW_FIELDS: usize = 4;

/// What is kept of a field: its name, where its bytes begin, and how many they are.
#[derive(Clone, Copy, Default, PartialEq, Eq, PartialOrd, Ord)]
pub(crate) struct Known<'a> {
    name: &'a str,
    start: u32,
    count: u32,
}

/// The fields of a map that were put: a few are noted in place, more on the heap. It knows whether their names
/// ascend so far.
#[derive(Drop)]
pub(crate) struct Fields<'a> {
    few: ArrayVec<Known<'a>, FEW_FIELDS>,
    more: Vec<Known<'a>>,
    last: Option<&'a str>,
    ascend: bool,
}

/// Whether it is the name that bytes stand beside. Most names are of another length, which costs no call.
#[inline(always)]
pub(crate) fn is_hex_name(name: &str) -> bool
    ensures { result ≡ bytes_eq name.now hex_name }
{
    if name.len() != 4 {
        return false;
    }
    name == "$hex"
}

/// Appends a part of these bytes to `sorted`.
fn put_part(sorted: &mut Vec<u8>, bytes: &[u8], start: u32, count: u32) -> Result<(), AllocError>
    requires { start + count ≤ length bytes.now }
    ensures { OnOk result (sorted.new.items ≡ sorted.old.items ++ slice_range bytes.now start (start + count)) }
{
    let start = start as usize;
    sorted.extend_from_slice(&bytes[start..start + count as usize])
}

/// Appends the bytes of these fields to `sorted`, one after another. If a name isn't above the one before it, the line
/// is left to the tree.
fn put_in_order(sorted: &mut Vec<u8>, bytes: &[u8], known: &[Known<'_>]) -> Result<(), QuickFault>
    requires { LieWithin (length bytes.now) (map place_kept known.now) }
    ensures ascend { OnOk result (Ascend None (map place_kept known.now)) }
    ensures bytes { OnOk result (sorted.new.items ≡ sorted.old.items ++ bytes_at bytes.now (map place_kept known.now)) }
{
    let mut last = None;
    for place in 0..known.len() {
        let field = known[place];
        if !may_follow(last, field.name) {
            return Err(QuickFault::LeftToTree);
        }
        put_part(sorted, bytes, field.start, field.count)?;
        last = Some(field.name);
    }
    Ok(())
}

impl<'a> Fields<'a> {
    /// No field yet.
    pub(crate) fn new(alloc: Global) -> Fields<'a>
        ensures { HoldsFields [] result }
    {
        Fields {
            few: ArrayVec::new(),
            more: Vec::new(alloc),
            last: None,
            ascend: true,
        }
    }

    /// How many there are.
    pub(crate) fn count(&self) -> usize
        ensures { (placed : List PlacedField) → HoldsFields placed self.now → result ≡ length placed }
    {
        self.few.len() + self.more.len()
    }

    /// Whether there is one alone and its name is `$hex`, so that the map stands for bytes.
    #[inline(always)]
    pub(crate) fn is_hex(&self) -> bool
        ensures { (placed : List PlacedField) → HoldsFields placed self.now → result ≡ is_some (hex_of (members_of placed)) }
    {
        if self.count() != 1 {
            return false;
        }
        let Some(name) = self.last else {
            return false;
        };
        is_hex_name(name)
    }

    /// Takes in the field that was put last.
    pub(crate) fn add(
        &mut self,
        name: &'a str,
        start: usize,
        count: usize,
    ) -> Result<(), AllocError>
        requires small { start + count < 2 ^ 32 }
        ensures { OnOk result ((placed : List PlacedField) (d : Data) → HoldsFields placed self.old
            → length (field_spelling name.now d) ≡ count
            → HoldsFields (placed ++ (record { name = name.now; value = d; start = start }) ∷ []) self.new) }
    {
        let field = Known {
            name,
            start: start as u32,
            count: count as u32,
        };
        if self.few.try_push(field).is_err() {
            self.more.push(field)?;
        }
        self.ascend = self.ascend && may_follow(self.last, name);
        self.last = Some(name);
        Ok(())
    }

    /// Appends the bytes of the fields to `sorted`, in the order of their names.
    fn put_sorted(&mut self, sorted: &mut Vec<u8>, bytes: &[u8]) -> Result<(), QuickFault>
        requires { (placed : List PlacedField) × (front : List ℕ) × (start : ℕ) × HoldsFields placed self.old
            × AreBehind placed start front bytes.now }
        ensures { OnOk result ((placed : List PlacedField) → HoldsFields placed self.old → sorted.old.items ≡ []
            → PutsSorted placed bytes.now sorted.new.items) }
    {
        if self.more.is_empty() {
            self.few.sort_unstable();
            return put_in_order(sorted, bytes, self.few.as_slice());
        }
        self.more.extend_from_slice(self.few.as_slice())?;
        self.more.sort_unstable();
        put_in_order(sorted, bytes, self.more.as_slice())
    }

    /// Brings the bytes of the fields, which begin at `start`, into the order of their names. A line with
    /// a name twice is left.
    pub(crate) fn sort(&mut self, out: &mut Vec<u8>, start: usize) -> Result<(), QuickFault>
        requires { (placed : List PlacedField) × (front : List ℕ) × HoldsFields placed self.old
            × AreBehind placed start front out.old.items }
        ensures sorted { OnOk result ((placed : List PlacedField) (front : List ℕ) → HoldsFields placed self.old
            → AreBehind placed start front out.old.items → AreSorted placed front out.new.items) }
        ensures len { OnOk result (length out.new.items ≡ length out.old.items) }
    {
        if self.ascend {
            return Ok(());
        }
        let mut sorted = Vec::with_capacity(*out.allocator(), out.len() - start)?;
        self.put_sorted(&mut sorted, out.as_slice())?;
        out.truncate(start);
        out.extend_from_slice(sorted.as_slice())?;
        Ok(())
    }
}
