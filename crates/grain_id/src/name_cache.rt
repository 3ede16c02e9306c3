//! Names that were read lately, so that the next reading of the same text shares them.

ghost use Rattle.std.specs.Prelude.{◌≡◌, ◌<◌, IfOk, IfSome, OnOk, [], length};
ghost use Rattle.grain_id.specs.Names.{IsTextOfGrain, IsTextOfNoGrain, IsTextOfClient, IsTextOfNoClient};
ghost use Rattle.grain_id.specs.Reading.{Gives, IfFaulty, grain_read, caller_read};

use crate::caller::Caller;
use crate::fault::IdFault;
use crate::grain::GrainId;
use std::alloc::{AllocError, Global};

/// The most grains that are kept.
const GRAINS: usize = 16_384;

/// The most callers that are kept.
const CALLERS: usize = 8_192;

/// How many places there are for grains, and for callers, until that many were read that weren't in the cache.
const FEW: usize = 512;

/// Names that were read lately, each at the place of its text's hash. A name takes the place of the
/// one before it, and the first stands at all places till then, as does the first after the places became more. It takes
/// 8 bytes a place: 4 kB for grains and as much for callers, till 512 came; 128 kB for more grains, and 64 kB for more
/// callers.
#[derive(Drop)]
pub struct NameCache {
    grains: Vec<GrainId>,
    callers: Vec<Caller>,
    /// How many grains came that weren't there, and how many callers.
    new_grains: usize,
    new_callers: usize,
}

/// The hash of what came before and eight bytes more.
fn stirred(sum: u64, word: u64) -> u64 {
    (sum.rotate_left(5) ^ word).wrapping_mul(0x517c_c1b7_2722_0a95)
}

/// A few bytes in one word.
fn packed(bytes: &[u8]) -> u64 {
    let mut word = 0;
    'bytes: for byte in bytes {
        word = (word << 8) | u64::from(*byte);
    }
    word
}

/// The last eight bytes in one word, or all of fewer.
fn last_word(bytes: &[u8]) -> u64 {
    if let Some(last) = bytes.last_chunk::<8>() {
        return u64::from_be_bytes(*last);
    }
    if let Some((front, last)) = bytes.split_last_chunk::<4>() {
        return (packed(front) << 32) | u64::from(u32::from_be_bytes(*last));
    }
    packed(bytes)
}

/// The hash of a text, below 16,384: of its length, of each eight bytes from the front on, and of its last eight.
#[inline(always)]
fn hash_of(text: &str) -> usize {
    let bytes = text.as_bytes();
    let (words, _) = bytes.as_chunks::<8>();
    let mut sum = bytes.len() as u64;
    'words: for word in words {
        sum = stirred(sum, u64::from_le_bytes(*word));
    }
    (stirred(sum, last_word(bytes)) >> 50) as usize
}

/// How many places there are once `new` names were read that weren't in the cache, `FEW` or `most`, and the place of a
/// text among them.
#[inline(always)]
fn places_for(text: &str, new: usize, most: usize) -> (usize, usize)
    requires { 0 < most }
    ensures { result.1 < result.0 }
{
    let hash = hash_of(text);
    if new < FEW {
        (FEW, hash % FEW)
    } else {
        (most, hash % most)
    }
}

/// The grain at that place, if its text is this one.
fn grain_at(grains: &[GrainId], place: usize, text: &str) -> Result<Option<GrainId>, AllocError>
    ensures { IfOk result (λ found. IfSome found (λ grain. IsTextOfGrain text.now grain)) }
{
    match grains.get(place) {
        Some(grain) if grain.text() == text => Ok(Some(grain.clone()?)),
        _ => Ok(None),
    }
}

/// The caller at that place, if its text is this one.
fn caller_at(callers: &[Caller], place: usize, text: &str) -> Result<Option<Caller>, AllocError>
    ensures { IfOk result (λ found. IfSome found (λ caller. IsTextOfClient text.now caller)) }
{
    match callers.get(place) {
        Some(caller) if caller.text() == text => Ok(Some(caller.clone()?)),
        _ => Ok(None),
    }
}

/// Keeps a name at its place. If there are fewer than `places` places, the missing ones are added instead, all with
/// this name.
///
/// # Errors
///
/// Out of memory: nothing more is kept.
fn keep<T: Clone>(
    names: &mut Vec<T>,
    places: usize,
    place: usize,
    name: T,
) -> Result<(), AllocError>
    requires { place < places }
    ensures { OnOk result (length names.new.items ≡ places) }
{
    if names.len() != places {
        names.resize(places, name)?;
        return Ok(());
    }
    names[place] = name;
    Ok(())
}

impl NameCache {
    /// No name was read yet.
    pub fn new(alloc: Global) -> NameCache
        ensures grains { result.grains.items ≡ [] }
        ensures callers { result.callers.items ≡ [] }
    {
        NameCache {
            grains: Vec::new(alloc),
            callers: Vec::new(alloc),
            new_grains: 0,
            new_callers: 0,
        }
    }

    /// Reads a grain, as `GrainId::read` does, and shares one that was read lately.
    ///
    /// # Errors
    ///
    /// Those of `GrainId::read`.
    pub fn read_grain(&mut self, alloc: Global, text: &str) -> Result<GrainId, IdFault>
        ensures gives { Gives result (grain_read text.now) }
        ensures whole { IfOk result (λ grain. IsTextOfGrain text.now grain) }
        ensures none { IfFaulty result (IsTextOfNoGrain text.now) }
    {
        let (places, place) = places_for(text, self.new_grains, GRAINS);
        if let Some(grain) = grain_at(self.grains.as_slice(), place, text)? {
            return Ok(grain);
        }
        let grain = GrainId::read(alloc, text)?;
        keep(&mut self.grains, places, place, grain.clone()?)?;
        self.new_grains = self.new_grains.saturating_add(1);
        Ok(grain)
    }

    /// Reads a caller, as `Caller::read` does, and shares one that was read lately.
    ///
    /// # Errors
    ///
    /// Those of `Caller::read`.
    pub fn read_caller(&mut self, alloc: Global, text: &str) -> Result<Caller, IdFault>
        ensures gives { Gives result (caller_read text.now) }
        ensures whole { IfOk result (λ caller. IsTextOfClient text.now caller) }
        ensures none { IfFaulty result (IsTextOfNoClient text.now) }
    {
        let (places, place) = places_for(text, self.new_callers, CALLERS);
        if let Some(caller) = caller_at(self.callers.as_slice(), place, text)? {
            return Ok(caller);
        }
        let caller = Caller::read(alloc, text)?;
        keep(&mut self.callers, places, place, caller.clone()?)?;
        self.new_callers = self.new_callers.saturating_add(1);
        Ok(caller)
    }
}
