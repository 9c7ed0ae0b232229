//! Identifiers of units, runs, persons and the parts of a unit.
#![tactic(auto, unfolding(crate::specs::Identifier::begins_identifier, crate::specs::Identifier::continues_identifier))]

ghost use Rattle.std.specs.Prelude.{◌≡◌, ◌≤◌, List, ℕ, length, IfOk, IfSome, IfNone, IsOk, IsTrue, false, IfErr};
ghost use Rattle.std.specs.Str.{IsUtf8, bytes_eq};
ghost use Rattle.std.specs.List.{list_all};
ghost use Rattle.std.specs.Hash as fed;
ghost use Rattle.std.specs.Cmp.Rules.{comparing, hashing};
ghost use Rattle.std.proofs.Common.{rules};
ghost use Rattle.ld_base.specs.Identifier.{IsIdentifier, has_identifier_form, begins_well, begins_identifier, continues_identifier};
ghost use Rattle.ld_base.specs.IdText.{letters_of};
ghost use Rattle.ld_base.specs.Maybe.{provided};

use crate::id_text::IdText;
use crate::memory::NoMemory;
use std::alloc::Global;
use std::cell::Cell;
use std::hash::{Hash, Hasher};
use std::marker::Model;

/// An identifier, seen by contracts as its bytes. It also keeps a number at which it may be found,
/// of which no contract speaks: whoever uses it looks whether the identifier is there.
pub struct Id {
    text: IdText,
    hint: Cell<u32>,
}

// By hand, so that a function which lets one go calls this and is not proved over each field again.
impl Drop for Id {
    fn drop(self) {
        let Self { text: _, hint: _ } = self;
    }
}

impl Model for Id {
    ghost use Rattle.std.specs.Prelude.{List, ℕ};
    ghost use Rattle.ld_base.specs.IdText.{letters_of};

    ghost Value = { List ℕ };

    ghost view = { λ s. letters_of s.text };
}

impl Id {
    /// The identifier of these bytes. `Ok(None)` exactly where the bytes are no identifier.
    pub fn read(alloc: Global, bytes: &[u8]) -> Result<Option<Id>, NoMemory>
        ensures some { IfOk result (λ o. IfSome o (λ id. (id ≡ bytes.now))) }
        ensures form { IfOk result (λ o. IfSome o (λ _. IsIdentifier bytes.now)) }
        ensures none { IfOk result (λ o. IfNone o (has_identifier_form bytes.now ≡ false)) }
    {
        if !has_form(bytes) {
            return Ok(None);
        }
        match str::from_utf8(bytes) {
            Ok(text) => Ok(Some(Id::of(IdText::of(alloc, text)?))),
            Err(_) => unreachable!(),
        }
    }

    /// The identifier that the text is, if it is one.
    pub fn from_text(alloc: Global, text: &str) -> Result<Option<Id>, NoMemory>
        ensures value { IfOk result (λ o. o ≡ provided (has_identifier_form text.now) text.now) }
        ensures within { length text.now ≤ 16 → IsOk result }
    {
        if !has_form(text.as_bytes()) {
            return Ok(None);
        }
        Ok(Some(Id::of(IdText::of(alloc, text)?)))
    }

    /// The identifier of this text.
    fn of(text: IdText) -> Id
        ensures { result ≡ letters_of text }
    {
        Id {
            text,
            hint: Cell::new(0),
        }
    }

    /// The number that `remember` was given last, or 0.
    pub fn hint(&self) -> u32 {
        self.hint.get()
    }

    /// Keeps a number at which the identifier may be found, for `hint`.
    pub fn remember(&self, number: u32) {
        self.hint.set(number);
    }

    /// The identifier's text.
    pub fn as_str(&self) -> &str
        ensures bytes { result.now ≡ self.now }
        ensures utf8 { IsUtf8 result.now }
    {
        self.text.as_str()
    }

    /// The same identifier once more, with the same hint.
    pub fn copy(&self) -> Result<Id, NoMemory>
        ensures { IfOk result (λ id. id ≡ self.now) }
    {
        let text = self.text.copy()?;
        let hint = Cell::new(self.hint.get());
        Ok(Id { text, hint })
    }
}

impl PartialEq for Id {
    ghost eq = { bytes_eq };

    ghost laws = { Prim.search (comparing, rules) };

    fn eq(&self, other: &Id) -> bool {
        self.text.as_str() == other.text.as_str()
    }
}

impl Eq for Id {
    ghost laws = { Prim.search (comparing, rules) };
}

impl Hash for Id {
    ghost hash_input = { fed.str };

    ghost respects_eq = { Prim.search (hashing, rules) };

    fn hash<H: Hasher>(&self, state: &mut H) {
        self.text.as_str().hash(state)
    }
}

/// Of each byte: 2 where an identifier may begin with it, 1 where it may only go on with it, else
/// 0.
const KINDS: [u8; 256] = [
    0, 0, 0, 0, 0, 0, 0, 0, 0, 0, 0, 0, 0, 0, 0, 0, 0, 0, 0, 0, 0, 0, 0, 0, 0, 0, 0, 0, 0, 0, 0, 0,
    0, 0, 0, 0, 0, 0, 0, 0, 0, 0, 0, 0, 0, 1, 1, 0, 1, 1, 1, 1, 1, 1, 1, 1, 1, 1, 0, 0, 0, 0, 0, 0,
    0, 2, 2, 2, 2, 2, 2, 2, 2, 2, 2, 2, 2, 2, 2, 2, 2, 2, 2, 2, 2, 2, 2, 2, 2, 2, 2, 0, 0, 0, 0, 2,
    0, 2, 2, 2, 2, 2, 2, 2, 2, 2, 2, 2, 2, 2, 2, 2, 2, 2, 2, 2, 2, 2, 2, 2, 2, 2, 2, 0, 0, 0, 0, 0,
    0, 0, 0, 0, 0, 0, 0, 0, 0, 0, 0, 0, 0, 0, 0, 0, 0, 0, 0, 0, 0, 0, 0, 0, 0, 0, 0, 0, 0, 0, 0, 0,
    0, 0, 0, 0, 0, 0, 0, 0, 0, 0, 0, 0, 0, 0, 0, 0, 0, 0, 0, 0, 0, 0, 0, 0, 0, 0, 0, 0, 0, 0, 0, 0,
    0, 0, 0, 0, 0, 0, 0, 0, 0, 0, 0, 0, 0, 0, 0, 0, 0, 0, 0, 0, 0, 0, 0, 0, 0, 0, 0, 0, 0, 0, 0, 0,
    0, 0, 0, 0, 0, 0, 0, 0, 0, 0, 0, 0, 0, 0, 0, 0, 0, 0, 0, 0, 0, 0, 0, 0, 0, 0, 0, 0, 0, 0, 0, 0,
];

/// Whether the bytes have the form of an identifier.
fn has_form(bytes: &[u8]) -> bool
    ensures { result ≡ has_identifier_form bytes.now }
{
    if !begins_form(bytes) {
        return false;
    }
    if bytes.len() > 64 {
        return false;
    }
    all_continue(bytes)
}

/// Whether an identifier may go on with each of the bytes.
fn all_continue(bytes: &[u8]) -> bool
    ensures { result ≡ list_all continues_identifier bytes.now }
{
    for b in bytes {
        if !continues(*b) {
            return false;
        }
    }
    true
}

/// Whether there is a first byte and an identifier may begin with it.
fn begins_form(bytes: &[u8]) -> bool
    ensures { result ≡ begins_well bytes.now }
{
    let [first, ..] = bytes else {
        return false;
    };
    begins(*first)
}

/// Whether an identifier may begin with this character.
fn begins(b: u8) -> bool
    ensures { result ≡ begins_identifier b }
{
    KINDS[b as usize] == 2
}

/// Whether an identifier may go on with this character.
fn continues(b: u8) -> bool
    ensures { result ≡ continues_identifier b }
{
    KINDS[b as usize] != 0
}
