//! The tests of the parts of a name, and the cut at a separator.

ghost use Rattle.std.specs.Prelude.{◌≡◌, ◌+◌, ◌-◌, ◌<◌, length, take, drop, slice_index, option_map};
ghost use Rattle.std.specs.List.{list_all};
ghost use Rattle.grain_id.specs.Words.{is_word_byte, is_name_byte, is_word, is_name};
ghost use Rattle.grain_id.specs.Reading.{cut_at};

/// The greatest length of a kind, a tenant and a client, in bytes.
const MAX_WORD_BYTES: usize = 32;

/// The greatest length of a grain's name within its kind and tenant, in bytes.
const MAX_NAME_BYTES: usize = 128;

fn is_word_byte(byte: u8) -> bool
    ensures { result ≡ is_word_byte byte }
{
    matches!(byte, b'a'..=b'z' | b'0'..=b'9' | b'-')
}

fn all_word_bytes(bytes: &[u8]) -> bool
    ensures { result ≡ list_all is_word_byte bytes.now }
{
    bytes.iter().all(|byte| is_word_byte(*byte))
}

fn all_name_bytes(bytes: &[u8]) -> bool
    ensures { result ≡ list_all is_name_byte bytes.now }
{
    bytes.iter().all(|byte| matches!(*byte, 0x21..=0x7e))
}

/// Whether the text may be the name of a kind, a tenant or a client.
#[tactic(auto, unfolding(crate::specs::Words::is_word))]
pub(crate) fn is_word(text: &str) -> bool
    ensures { result ≡ is_word text.now }
{
    let bytes = text.as_bytes();
    match bytes {
        [b'a'..=b'z', ..] => bytes.len() <= MAX_WORD_BYTES && all_word_bytes(bytes),
        _ => false,
    }
}

/// Whether the text may be the name of a grain within its kind and tenant.
#[tactic(auto, unfolding(crate::specs::Words::is_name))]
pub(crate) fn is_name(text: &str) -> bool
    ensures { result ≡ is_name text.now }
{
    let bytes = text.as_bytes();
    !bytes.is_empty() && bytes.len() <= MAX_NAME_BYTES && all_name_bytes(bytes)
}

/// What stands before the first such character, and what stands after it.
#[tactic(auto, unfolding(crate::specs::Reading::cut_at))]
pub(crate) fn cut(text: &str, at: char) -> Option<(&str, &str)>
    requires { at < 128 }
    ensures { option_map (λ parts. (parts.0.now, parts.1.now)) result ≡ cut_at at text.now }
{
    text.split_once(at)
}

/// What stands before an ASCII character at this place.
pub(crate) fn before(text: &str, place: usize) -> &str
    requires inside { place < length text.now }
    requires ascii { slice_index text.now place < 128 }
    ensures { result.now ≡ take place text.now }
{
    &text[..place]
}

/// What stands after an ASCII character at this place.
pub(crate) fn after(text: &str, place: usize) -> &str
    requires inside { place < length text.now }
    requires ascii { slice_index text.now place < 128 }
    ensures { result.now ≡ drop (place + 1) text.now }
{
    &text[place + 1..]
}

/// What stands between two ASCII characters at these places.
pub(crate) fn between(text: &str, from: usize, to: usize) -> &str
    requires in_order { from < to }
    requires inside { to < length text.now }
    requires from_ascii { slice_index text.now from < 128 }
    requires to_ascii { slice_index text.now to < 128 }
    ensures { result.now ≡ take (to - (from + 1)) (drop (from + 1) text.now) }
{
    &text[from + 1..to]
}
