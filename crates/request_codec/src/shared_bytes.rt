//! The bytes of a message, shared by all clones: in the block of the count of clones if they are few.

ghost use Rattle.std.specs.Prelude.{◌≡◌, ◌≤◌, length, IfOk};
ghost use Rattle.std.specs.Arc.{arc_value};
ghost use Rattle.request_codec.specs.inside.SharedBytes.{bytes_of_shared};

use std::alloc::{AllocError, Global};
use std::sync::Arc;

/// The most bytes in that block: `add` by a number has 28.
const SHORT: usize = 30;

/// Bytes: as many here as the count says, or in a block of their own.
#[derive(Debug, Drop)]
pub(crate) enum SharedBytes {
    Short(u8, [u8; SHORT]),
    Long(Vec<u8>),
}

/// The bytes, here.
fn keep_short(bytes: &[u8]) -> SharedBytes
    requires { length bytes.now ≤ 30 }
    ensures { bytes_of_shared result ≡ bytes.now }
{
    let mut short = [0; SHORT];
    let count = bytes.len();
    short[..count].copy_from_slice(bytes);
    SharedBytes::Short(count as u8, short)
}

/// What is kept, to be shared.
fn share(alloc: Global, kept: SharedBytes) -> Result<Arc<SharedBytes>, AllocError>
    ensures { IfOk result (λ shared. arc_value shared ≡ kept) }
{
    Ok(Arc::new(alloc, kept)?)
}

/// The bytes, to be shared.
pub(crate) fn keep(bytes: Vec<u8>) -> Result<Arc<SharedBytes>, AllocError>
    ensures { IfOk result (λ shared. bytes_of_shared (arc_value shared) ≡ bytes.items) }
{
    let alloc = *bytes.allocator();
    if bytes.len() <= SHORT {
        return share(alloc, keep_short(bytes.as_slice()));
    }
    share(alloc, SharedBytes::Long(bytes))
}

/// A copy of the bytes, to be shared.
pub(crate) fn keep_copy(alloc: Global, bytes: &[u8]) -> Result<Arc<SharedBytes>, AllocError>
    ensures { IfOk result (λ shared. bytes_of_shared (arc_value shared) ≡ bytes.now) }
{
    if bytes.len() <= SHORT {
        return share(alloc, keep_short(bytes));
    }
    let copy = Vec::from_slice(alloc, bytes)?;
    share(alloc, SharedBytes::Long(copy))
}

/// The bytes that are kept.
pub(crate) fn show(kept: &SharedBytes) -> &[u8]
    ensures { result.now ≡ bytes_of_shared kept.now }
{
    match kept {
        SharedBytes::Short(count, bytes) => &bytes[..usize::from(*count).min(SHORT)],
        SharedBytes::Long(bytes) => bytes.as_slice(),
    }
}
