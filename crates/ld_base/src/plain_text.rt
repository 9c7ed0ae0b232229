//! Texts that do not change: titles, subjects, addresses.
ghost use Rattle.std.specs.Prelude.{◌≡◌, List, ℕ, IfOk, string_bytes};
ghost use Rattle.std.specs.Str.{IsUtf8};

use crate::memory::NoMemory;
use std::alloc::Global;
use std::marker::Model;

/// A text in UTF-8 that does not change, seen by contracts as its bytes.
#[derive(Drop)]
pub struct PlainText {
    text: String,
}

impl Model for PlainText {
    ghost Value = { List ℕ };

    ghost view = { λ s. string_bytes s.text };
}

impl PlainText {
    /// A text of its own with the bytes of `piece`.
    pub fn of(alloc: Global, piece: &str) -> Result<PlainText, NoMemory>
        ensures { IfOk result (λ t. t ≡ piece.now) }
    {
        let text = String::from_str(alloc, piece)?;
        Ok(PlainText { text })
    }

    /// The text itself. It takes no memory.
    pub fn from_text(text: String) -> PlainText
        ensures { result ≡ string_bytes text }
    {
        PlainText { text }
    }

    /// The whole text.
    pub fn as_str(&self) -> &str
        ensures bytes { result.now ≡ self.now }
        ensures utf8 { IsUtf8 result.now }
    {
        self.text.as_str()
    }
}
