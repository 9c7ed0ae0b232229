//! The text of an identifier.
ghost use Rattle.std.specs.Prelude.{◌≡◌, ◌≤◌, length, IfOk, IsOk};
ghost use Rattle.std.specs.Str.{IsUtf8};
ghost use Rattle.ld_base.specs.IdText.{letters_of};

use crate::memory::NoMemory;
use arrayvec::ArrayString;
use std::alloc::Global;

/// How many bytes lie in the value itself.
const SHORT: usize = 16;

/// A text of an identifier. A short one, as most are, lies in the value itself and takes no memory.
#[derive(Drop)]
pub(crate) enum IdText {
    Short(ArrayString<SHORT>),
    Long(String),
}

impl IdText {
    /// The text. The only error is out of memory, which a text of up to 16 bytes never meets.
    pub(crate) fn of(alloc: Global, text: &str) -> Result<IdText, NoMemory>
        ensures ok { IfOk result (λ kept. letters_of kept ≡ text.now) }
        ensures short { length text.now ≤ 16 → IsOk result }
    {
        if text.len() > SHORT {
            return Ok(IdText::Long(String::from_str(alloc, text)?));
        }
        let mut short = ArrayString::new();
        short.push_str(text);
        Ok(IdText::Short(short))
    }

    /// The text where it stands.
    pub(crate) fn as_str(&self) -> &str
        ensures bytes { result.now ≡ letters_of self.now }
        ensures utf8 { IsUtf8 result.now }
    {
        match self {
            IdText::Short(text) => text.as_str(),
            IdText::Long(text) => text.as_str(),
        }
    }

    /// The same text once more.
    pub(crate) fn copy(&self) -> Result<IdText, NoMemory>
        ensures { IfOk result (λ kept. letters_of kept ≡ letters_of self.now) }
    {
        match self {
            IdText::Short(text) => Ok(IdText::Short(*text)),
            IdText::Long(text) => Ok(IdText::Long(text.clone()?)),
        }
    }
}
