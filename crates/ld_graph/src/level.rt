//! A row of words of 64 bits.
ghost use Rattle.std.specs.Prelude.{◌≡◌, ◌≢◌, ℕ, ◌+◌, ◌*◌, ◌/◌, ◌<◌, ◌≤◌, max, true, false, List, [], length, IfOk, IfSome, IfNone};
ghost use Rattle.ld_graph.specs.Words.{bit};

use ld_base::NoMemory;
use std::alloc::Global;
use std::marker::Model;

/// A row of bits, seen by contracts as its words.
#[derive(Drop)]
pub(crate) struct Level {
    words: Vec<u64>,
}

impl Model for Level {
    ghost Value = { List ℕ };

    ghost view = { λ l. l.words.items };
}

impl Level {
    /// No word, which takes no memory.
    pub(crate) fn new(alloc: Global) -> Level
        ensures { result ≡ [] }
    {
        Level {
            words: Vec::new(alloc),
        }
    }

    /// Sets a bit.
    pub(crate) fn set(&mut self, at: usize)
        requires { at / 64 < length self.old }
        ensures len { length self.new ≡ length self.old }
        ensures own { bit self.new at ≡ true }
        ensures others { (n : ℕ) → n ≢ at → bit self.new n ≡ bit self.old n }
    {
        self.words[at / 64] |= 1u64 << (at % 64);
    }

    /// Clears a bit, and answers whether its word is zero afterwards.
    pub(crate) fn clear(&mut self, at: usize) -> bool
        requires { at / 64 < length self.old }
        ensures len { length self.new ≡ length self.old }
        ensures own { bit self.new at ≡ false }
        ensures others { (n : ℕ) → n ≢ at → bit self.new n ≡ bit self.old n }
        ensures zero { result ≡ true → (n : ℕ) → n / 64 ≡ at / 64 → bit self.new n ≡ false }
        ensures full { result ≡ false → (n : ℕ) × (n / 64 ≡ at / 64) × (bit self.new n ≡ true) }
    {
        let word = self.words[at / 64] & !(1u64 << (at % 64));
        self.words[at / 64] = word;
        word == 0
    }

    /// The least bit that is set, from this one on and in its word.
    pub(crate) fn first_in_word(&self, from: usize) -> Option<usize>
        requires { from / 64 < length self.now }
        ensures found { IfSome result (λ n. (from ≤ n) × (n / 64 ≡ from / 64)
            × (bit self.now n ≡ true)) }
        ensures least { IfSome result (λ n. (k : ℕ) → from ≤ k → k < n → bit self.now k ≡ false) }
        ensures none { IfNone result ((k : ℕ) → from ≤ k → k / 64 ≡ from / 64
            → bit self.now k ≡ false) }
    {
        let rest = self.words[from / 64] & (u64::MAX << (from % 64));
        if rest == 0 {
            return None;
        }
        Some(from / 64 * 64 + rest.trailing_zeros() as usize)
    }

    /// Brings at least this many words into the row. Where memory runs out no bit changes.
    pub(crate) fn grow(&mut self, words: usize) -> Result<(), NoMemory>
        ensures ok { IfOk result (λ _. words ≤ length self.new) }
        ensures keeps { length self.old ≤ length self.new }
        ensures most { length self.new ≤ max (length self.old) words }
        ensures same { (n : ℕ) → bit self.new n ≡ bit self.old n }
    {
        if words > self.words.len() {
            self.words.resize(words, 0)?;
        }
        Ok(())
    }

    /// The number of words.
    pub(crate) fn len(&self) -> usize
        ensures { result ≡ length self.now }
    {
        self.words.len()
    }
}
