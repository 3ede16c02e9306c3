//! The parts of the message form, which every reader and writer of it stands on.

mod draft;
mod hexadecimal;
mod start;

pub use crate::value_end::value_end;
pub use crate::value_writer::{message_bytes, put_value, state_bytes};
pub(crate) use draft::put_counted;
pub use draft::{counted, put, put_start, put_text};
pub(crate) use hexadecimal::{decode_digits, encode_digits};
pub use hexadecimal::{are_digits, push_digits, put_digits};
pub use start::{Start, bytes_of, may_follow, start_of, text_of, u32_of};
