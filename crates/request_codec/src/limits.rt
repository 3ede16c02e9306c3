//! The versions of messages, the limits of messages and states, and the room that is made for a short one.

/// The first byte of a message: the version of its form.
pub const MESSAGE_VERSION: u8 = 2;

/// The first byte of a message of the form before, which had no bytes among its values.
pub const OLD_VERSION: u8 = 1;

/// Bytes of a message.
pub const MAX_MESSAGE_BYTES: usize = 65_536;

/// Bytes of a state.
pub const MAX_STATE_BYTES: usize = 262_144;

/// How deep a value of a message or a state may be: 1, and one more for each list or map round it.
pub const MAX_DEPTH: u8 = 32;

/// Bytes that are made room for at once where a message is written: a short one fits.
pub const MESSAGE_ROOM: usize = 32;

/// Bytes that are made room for at once where a state is written: a number fits.
pub const STATE_ROOM: usize = 16;
