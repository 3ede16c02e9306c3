//! The bytes of a state: in place if they are few, and otherwise shared by all clones; or in a block that
//! was taken beforehand.

ghost use Rattle.std.specs.Prelude.{◌≡◌, ◌≤◌, ◌+◌, ◌∷◌, length, take, IfOk};
ghost use Rattle.request_codec.specs.inside.SmallBytes.{bytes_of_small};
ghost use Rattle.request_codec.specs.Tree.{integer};
ghost use Rattle.request_codec.specs.Written.{text_spelling, spelling};

use std::alloc::{AllocError, Global};
use std::sync::ArcSlice;

/// The most bytes in place, so that a state takes 24 bytes: a number's state has 9, and that of a
/// text has 5 more than the text.
const SHORT: usize = 22;

/// From how many bytes on a block that is nearly full stays as it is.
const LARGE: usize = 1_024;

/// The most bytes that spell a number's decimal text: 20 digits, and 5 bytes in front of them.
const DECIMAL: usize = 25;

/// Bytes: as many in place as the count says, or shared, or as many as the count says in a block of
/// their own.
#[derive(Debug, Drop)]
pub(crate) enum SmallBytes {
    Short(u8, [u8; SHORT]),
    Long(ArcSlice<u8>),
    Apart(u8, Box<[u8; DECIMAL]>),
}

/// The bytes, in place.
fn hold_short(bytes: &[u8]) -> SmallBytes
    requires { length bytes.now ≤ 22 }
    ensures { bytes_of_small result ≡ bytes.now }
{
    let mut short = [0; SHORT];
    let count = bytes.len();
    short[..count].copy_from_slice(bytes);
    SmallBytes::Short(count as u8, short)
}

/// Whether `count` bytes may stay in a block of `room` bytes. A large block that is nearly full stays as it is: if its
/// end were given back, what is made next would take that, and the hole that the block leaves one day would be a few
/// bytes too short for the next one of its kind.
fn may_stay(count: usize, room: usize) -> bool {
    count >= LARGE && room.saturating_sub(count) <= count / 4
}

/// The bytes, held. Shared ones keep little spare room, and none if they are few.
pub(crate) fn hold(bytes: Vec<u8>) -> Result<SmallBytes, AllocError>
    ensures { IfOk result (λ held. bytes_of_small held ≡ bytes.items) }
{
    if bytes.len() <= SHORT {
        return Ok(hold_short(bytes.as_slice()));
    }
    let mut bytes = bytes;
    if !may_stay(bytes.len(), bytes.capacity()) {
        bytes.shrink_to_fit();
    }
    Ok(SmallBytes::Long(ArcSlice::from_vec(bytes)?))
}

/// A copy of the bytes, held.
pub(crate) fn hold_copy(alloc: Global, bytes: &[u8]) -> Result<SmallBytes, AllocError>
    ensures { IfOk result (λ held. bytes_of_small held ≡ bytes.now) }
{
    if bytes.len() <= SHORT {
        return Ok(hold_short(bytes));
    }
    Ok(SmallBytes::Long(ArcSlice::from_slice(alloc, bytes)?))
}

/// The spelling of a text of at most 20 bytes, followed by zeros.
fn spell_text(text: &[u8]) -> [u8; DECIMAL]
    requires { length text.now ≤ 20 }
    ensures { take (5 + length text.now) result ≡ 4 ∷ text_spelling text.now }
{
    let mut spelled = [0; DECIMAL];
    let count = text.len();
    spelled[0] = 4;
    spelled[1..5].copy_from_slice(&(count as u32).to_be_bytes());
    spelled[5..5 + count].copy_from_slice(text);
    spelled
}

/// The spelling of a text of at most 20 bytes, held.
pub(crate) fn hold_text(alloc: Global, text: &[u8]) -> Result<SmallBytes, AllocError>
    requires { length text.now ≤ 20 }
    ensures { IfOk result (λ held. bytes_of_small held ≡ 4 ∷ text_spelling text.now) }
{
    let spelled = spell_text(text);
    hold_copy(alloc, &spelled[..5 + text.len()])
}

/// A block for the spelling of a text of at most 20 bytes.
pub(crate) fn text_block(alloc: Global) -> Result<Box<[u8; DECIMAL]>, AllocError> {
    Ok(Box::new(alloc, [0; DECIMAL])?)
}

/// The spelling of a text of at most 20 bytes, held in place if it is short, and otherwise in the block.
pub(crate) fn hold_text_in(mut block: Box<[u8; DECIMAL]>, text: &[u8]) -> SmallBytes
    requires { length text.now ≤ 20 }
    ensures { bytes_of_small result ≡ 4 ∷ text_spelling text.now }
{
    let spelled = spell_text(text);
    let count = 5 + text.len();
    if count <= SHORT {
        return hold_short(&spelled[..count]);
    }
    Box::replace(&mut block, spelled);
    SmallBytes::Apart(count as u8, block)
}

/// The spelling of a whole number, held in place.
#[tactic(auto, unfolding(crate::specs::Written::spelling))]
pub(crate) fn hold_integer(number: i64) -> SmallBytes
    ensures { bytes_of_small result ≡ spelling (integer number) }
{
    let mut spelled = [3; 9];
    spelled[1..].copy_from_slice(&number.to_be_bytes());
    hold_short(&spelled)
}

/// The bytes that are held.
pub(crate) fn show(held: &SmallBytes) -> &[u8]
    ensures { result.now ≡ bytes_of_small held.now }
{
    match held {
        SmallBytes::Short(count, bytes) => &bytes[..usize::from(*count).min(SHORT)],
        SmallBytes::Long(bytes) => bytes.as_slice(),
        SmallBytes::Apart(count, bytes) => &bytes[..usize::from(*count).min(DECIMAL)],
    }
}

/// The same bytes, held once more. Those in a block of their own are shared from then on.
pub(crate) fn copy_held(held: &SmallBytes) -> Result<SmallBytes, AllocError>
    ensures { IfOk result (λ copy. bytes_of_small copy ≡ bytes_of_small held.now) }
{
    match held {
        SmallBytes::Short(count, bytes) => Ok(SmallBytes::Short(*count, *bytes)),
        SmallBytes::Long(bytes) => Ok(SmallBytes::Long(bytes.clone()?)),
        SmallBytes::Apart(_, bytes) => hold_copy(*Box::allocator(bytes), show(held)),
    }
}
