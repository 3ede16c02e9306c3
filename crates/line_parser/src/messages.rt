//! Messages that were read lately, so that the next one of the same bytes shares them.

ghost use Rattle.std.specs.Prelude.{◌≡◌, ◌<◌, Some, IsSome, IfOk, IfSome};
ghost use Rattle.request_codec.specs.Call.{message_call};

use request_codec::Message;
use std::alloc::{AllocError, Global};

/// The most bytes of a message that is kept.
const SHORT: usize = 64;

/// How many messages are kept.
const PLACES: usize = 8;

/// Room for the bytes of the next message, and short ones that were read lately, each at the place of its length and its
/// last byte.
#[derive(Drop)]
pub(crate) struct Messages {
    pub(crate) bytes: Vec<u8>,
    pub(crate) kept: [Option<Message>; PLACES],
}

impl Messages {
    /// No message was read yet.
    pub(crate) fn new(alloc: Global) -> Messages {
        Messages {
            bytes: Vec::new(alloc),
            kept: [None, None, None, None, None, None, None, None],
        }
    }
}

/// The place of a message's bytes.
fn place_of(bytes: &[u8]) -> usize
    ensures { result < 8 }
{
    match bytes {
        [.., last] => (bytes.len() ^ usize::from(*last)) % PLACES,
        [] => 0,
    }
}

/// The message, if its bytes are these.
fn shared(kept: &Option<Message>, bytes: &[u8]) -> Result<Option<Message>, AllocError>
    ensures { IfOk result (λ found. IfSome found (λ message. message_call bytes.now ≡ Some message)) }
{
    match kept {
        Some(message) if message.bytes() == bytes => Ok(Some(message.clone()?)),
        _ => Ok(None),
    }
}

/// The message that the bytes spell, which is shared with the one before it of these bytes if it is short.
///
/// # Errors
///
/// Out of memory.
pub(crate) fn message_at(
    alloc: Global,
    kept: &mut [Option<Message>; PLACES],
    bytes: &[u8],
) -> Result<Message, AllocError>
    requires { IsSome (message_call bytes.now) }
    ensures { IfOk result (λ made. message_call bytes.now ≡ Some made) }
{
    if bytes.len() > SHORT {
        return Message::copy_spelling(alloc, bytes);
    }
    let place = place_of(bytes);
    if let Some(message) = shared(&kept[place], bytes)? {
        return Ok(message);
    }
    let message = Message::copy_spelling(alloc, bytes)?;
    kept[place] = Some(message.clone()?);
    Ok(message)
}
