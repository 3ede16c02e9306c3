//! The text of a name, in place if it is short.

ghost use Rattle.std.specs.Prelude.{◌≡◌, IfOk};
ghost use Rattle.grain_id.specs.inside.NameTexts.{bytes_of};

use arrayvec::ArrayString;
use std::alloc::{AllocError, Global};
use std::ops::DerefStr;

/// The most bytes of a text that stands in place.
const SHORT: usize = 32;

/// The text of a name: in place if it is short, so that the name is one block of memory, or in a block of its own.
#[derive(Debug, Drop)]
pub(crate) enum NameText {
    Short(ArrayString<SHORT>),
    Long(String),
}

impl NameText {
    /// A copy of the text.
    ///
    /// # Errors
    ///
    /// Out of memory.
    pub(crate) fn of(alloc: Global, text: &str) -> Result<NameText, AllocError>
        ensures { IfOk result (λ held. bytes_of held ≡ text.now) }
    {
        match ArrayString::from(text) {
            Ok(short) => Ok(NameText::Short(short)),
            Err(_) => Ok(NameText::Long(String::from_str(alloc, text)?)),
        }
    }

    /// The text.
    #[inline(always)]
    pub(crate) fn as_str(&self) -> &str
        ensures { result.now ≡ bytes_of self.now }
    {
        match self {
            NameText::Short(text) => text.as_str(),
            NameText::Long(text) => text.as_str(),
        }
    }
}

impl DerefStr for NameText {
    ghost deref_gives = { λ text bytes. bytes ≡ bytes_of text };

    #[inline(always)]
    fn deref(&self) -> &str {
        self.as_str()
    }
}
