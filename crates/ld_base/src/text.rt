//! Texts in UTF-8 that grow at their end, with a promise of room.
ghost use Rattle.std.specs.Prelude.{◌≡◌, ◌≤◌, ◌+◌, ◌-◌, ◌<◌, ◌++◌, [], length, All, OnOk, OnErr, IfOk, IsOk, string_bytes, string_len, string_capacity};
ghost use Rattle.std.specs.Str.{IsUtf8, IsAscii, bytes_eq};
ghost use Rattle.std.specs.Hash as fed;
ghost use Rattle.std.specs.Cmp.Rules.{comparing, hashing};
ghost use Rattle.std.proofs.Common.{rules};
ghost use Rattle.ld_base.specs.Roomy.{Roomy, KeepsRoom, room_of};

use crate::memory::NoMemory;
use std::alloc::Global;
use std::hash::{Hash, Hasher};
use std::marker::Model;

/// A text, seen by contracts as its bytes and its spare room, both in bytes.
#[derive(Drop)]
pub struct Text {
    text: String,
}

impl Model for Text {
    ghost Value = { Roomy };

    ghost view = { λ t. record {
      bytes = string_bytes t.text;
      spare = string_capacity t.text - string_len t.text;
    } };
}

impl Text {
    /// An empty text, which takes no memory.
    pub fn new(alloc: Global) -> Text
        ensures { result.bytes ≡ [] }
    {
        Text {
            text: String::new(alloc),
        }
    }

    /// An empty text that takes `room` bytes without asking for memory again.
    pub fn with_room(alloc: Global, room: usize) -> Result<Text, NoMemory>
        ensures empty { IfOk result (λ t. t.bytes ≡ []) }
        ensures room { IfOk result (λ t. room ≤ t.spare) }
    {
        let text = String::with_capacity(alloc, room)?;
        Ok(Text { text })
    }

    /// A text of its own with the bytes of `piece`.
    pub fn of(alloc: Global, piece: &str) -> Result<Text, NoMemory>
        ensures ok { IfOk result (λ t. t.bytes ≡ piece.now) }
    {
        let text = String::from_str(alloc, piece)?;
        Ok(Text { text })
    }

    /// Makes room for this many bytes more, which cannot fail where there is such room already. The
    /// bytes stay as they are.
    pub fn reserve(&mut self, more: usize) -> Result<(), NoMemory>
        ensures room { OnOk result (more ≤ self.new.spare) }
        ensures within { more ≤ self.old.spare → IsOk result }
        ensures bytes { self.new.bytes ≡ self.old.bytes }
        ensures kept { KeepsRoom self.old self.new }
    {
        self.text.reserve(more)?;
        Ok(())
    }

    /// Appends the piece. Where memory runs out the bytes stay as they were, which cannot come
    /// within the spare room.
    pub fn push(&mut self, piece: &str) -> Result<(), NoMemory>
        ensures ok { OnOk result (self.new.bytes ≡ self.old.bytes ++ piece.now) }
        ensures err { OnErr result (self.new.bytes ≡ self.old.bytes) }
        ensures within { length piece.now ≤ self.old.spare → IsOk result }
        ensures room { KeepsRoom self.old self.new }
    {
        self.text.push_str(piece)?;
        Ok(())
    }

    /// Appends the bytes of an ASCII text, as `push` does.
    pub fn push_ascii(&mut self, piece: &[u8]) -> Result<(), NoMemory>
        requires { IsAscii piece.now }
        ensures ok { OnOk result (self.new.bytes ≡ self.old.bytes ++ piece.now) }
        ensures err { OnErr result (self.new.bytes ≡ self.old.bytes) }
        ensures within { length piece.now ≤ self.old.spare → IsOk result }
        ensures room { KeepsRoom self.old self.new }
    {
        match str::from_utf8(piece) {
            Ok(text) => self.push(text),
            Err(_) => unreachable!(),
        }
    }

    /// Appends the other text, as `push` does. Where this one is empty and has no more room than
    /// the other, the other takes its place without a copy.
    pub fn append(&mut self, text: String) -> Result<(), NoMemory>
        ensures ok { OnOk result (self.new.bytes ≡ self.old.bytes ++ string_bytes text) }
        ensures err { OnErr result (self.new.bytes ≡ self.old.bytes) }
        ensures within { length (string_bytes text) ≤ self.old.spare → IsOk result }
        ensures room { KeepsRoom self.old self.new }
    {
        if self.text.is_empty() && self.text.capacity() <= text.capacity() {
            self.text = text;
            return Ok(());
        }
        self.push(text.as_str())
    }

    /// The whole text.
    pub fn as_str(&self) -> &str
        ensures bytes { result.now ≡ self.now.bytes }
        ensures utf8 { IsUtf8 result.now }
    {
        self.text.as_str()
    }

    /// Empties the text and keeps its room.
    pub fn clear(&mut self)
        ensures empty { self.new.bytes ≡ [] }
        ensures room { KeepsRoom self.old self.new }
    {
        self.text.clear();
    }
}

/// Two texts are equal where their bytes are, whatever their room.
impl PartialEq for Text {
    ghost eq = { λ a b. bytes_eq a.bytes b.bytes };

    ghost laws = { Prim.search (comparing, rules) };

    fn eq(&self, other: &Text) -> bool {
        self.text == other.text
    }
}

impl Eq for Text {
    ghost laws = { Prim.search (comparing, rules) };
}

impl Hash for Text {
    ghost hash_input = { λ t. fed.str t.bytes };

    ghost respects_eq = { Prim.search (hashing, rules) };

    fn hash<H: Hasher>(&self, state: &mut H) {
        self.text.hash(state)
    }
}
