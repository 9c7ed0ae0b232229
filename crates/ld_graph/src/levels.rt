//! Rows of bits above one another: a bit of the next row, where it has words, says that a word of
//! this one is not zero.
ghost use Rattle.std.specs.Prelude.{◌≡◌, ◌≢◌, ℕ, ◌+◌, ◌*◌, ◌/◌, ◌^◌, ◌<◌, ◌≤◌, ◌⊎◌, true, false, length, IfOk, IfSome, IfNone};
ghost use Rattle.ld_graph.specs.Words.{bit, lowest, AreLevels};

use crate::level::Level;
use ld_base::NoMemory;

/// So few words of a level are looked at one by one, also to know that all are zero: no other level
/// marks them.
const FEW: usize = 32;

/// Sets a bit of the lowest level.
pub(crate) fn set_at(levels: &mut [Level], at: usize)
    requires levels { AreLevels levels.old }
    requires within { at / 64 < length (lowest levels.old) }
    ensures levels { AreLevels levels.new }
    ensures count { length levels.new ≡ length levels.old }
    ensures len { length (lowest levels.new) ≡ length (lowest levels.old) }
    ensures own { bit (lowest levels.new) at ≡ true }
    ensures others { (n : ℕ) → n ≢ at → bit (lowest levels.new) n ≡ bit (lowest levels.old) n }
{
    let Some((lower, above)) = levels.split_first_mut() else {
        return;
    };
    lower.set(at);
    if are_in_use(above) {
        set_at(above, at / 64);
    }
}

/// Clears a bit of the lowest level. True says that none is left there.
pub(crate) fn clear_at(levels: &mut [Level], at: usize) -> bool
    requires levels { AreLevels levels.old }
    requires within { at / 64 < length (lowest levels.old) }
    ensures levels { AreLevels levels.new }
    ensures count { length levels.new ≡ length levels.old }
    ensures len { length (lowest levels.new) ≡ length (lowest levels.old) }
    ensures own { bit (lowest levels.new) at ≡ false }
    ensures others { (n : ℕ) → n ≢ at → bit (lowest levels.new) n ≡ bit (lowest levels.old) n }
    ensures none { result ≡ true → (n : ℕ) → bit (lowest levels.new) n ≡ false }
{
    let Some((lower, above)) = levels.split_first_mut() else {
        return false;
    };
    let zero = lower.clear(at);
    if !zero {
        return false;
    }
    if are_in_use(above) {
        return clear_at(above, at / 64);
    }
    is_zero(lower)
}

/// Whether no bit of the level is set; false where it has more than a few words.
fn is_zero(level: &Level) -> bool
    requires { length level.now ≤ 2 ^ 32 }
    ensures { result ≡ true → (n : ℕ) → bit level.now n ≡ false }
{
    if level.len() > FEW {
        return false;
    }
    match next_in(level, 0) {
        Some(_) => false,
        None => true,
    }
}

/// Whether the first of the levels has words.
fn are_in_use(levels: &[Level]) -> bool
    ensures used { result ≡ true → 0 < length (lowest levels.now) }
    ensures unused { result ≡ false → length (lowest levels.now) ≡ 0 }
{
    let Some(level) = levels.first() else {
        return false;
    };
    level.len() > 0
}

/// Whether the levels above are to mark this many words of this one: they do already, or it has no
/// word yet and one of them would say too little.
fn are_to_mark(lower: &Level, above: &[Level], words: usize) -> bool
    ensures yes { result ≡ true → (0 < length (lowest above.now))
        ⊎ ((length lower.now ≡ 0) × (length (lowest above.now) ≡ 0)) }
    ensures no { result ≡ false → length (lowest above.now) ≡ 0 }
{
    if are_in_use(above) {
        return true;
    }
    lower.len() == 0 && words > FEW
}

/// Brings at least this many words into the lowest level, and what marks them into those above.
/// Where memory runs out no bit changes.
pub(crate) fn grow(levels: &mut [Level], words: usize) -> Result<(), NoMemory>
    requires levels { AreLevels levels.old }
    requires fits { words ≤ 2 ^ 32 }
    ensures ok { IfOk result (λ _. 0 < length levels.old → words ≤ length (lowest levels.new)) }
    ensures levels { AreLevels levels.new }
    ensures count { length levels.new ≡ length levels.old }
    ensures len { length (lowest levels.old) ≤ length (lowest levels.new) }
    ensures same { (n : ℕ) → bit (lowest levels.new) n ≡ bit (lowest levels.old) n }
{
    let Some((lower, above)) = levels.split_first_mut() else {
        return Ok(());
    };
    if are_to_mark(lower, above, words) {
        grow(above, words / 64 + 1)?;
    }
    lower.grow(words)
}

/// The least bit of the lowest level that is set, from this one on.
pub(crate) fn next_at(levels: &[Level], from: usize) -> Option<usize>
    requires { AreLevels levels.now }
    ensures found { IfSome result (λ n. (from ≤ n) × (bit (lowest levels.now) n ≡ true)) }
    ensures least { IfSome result (λ n. (k : ℕ) → from ≤ k → k < n
        → bit (lowest levels.now) k ≡ false) }
    ensures none { IfNone result ((k : ℕ) → from ≤ k → bit (lowest levels.now) k ≡ false) }
{
    let Some((lower, above)) = levels.split_first() else {
        return None;
    };
    if from / 64 >= lower.len() {
        return None;
    }
    if let Some(n) = lower.first_in_word(from) {
        return Some(n);
    }
    if !are_in_use(above) {
        return next_in(lower, from / 64 + 1);
    }
    let word = next_at(above, from / 64 + 1)?;
    lower.first_in_word(word * 64)
}

/// The least bit that is set, from this word on: word by word.
fn next_in(level: &Level, first: usize) -> Option<usize>
    requires { length level.now ≤ 2 ^ 32 }
    ensures found { IfSome result (λ n. (first ≤ n / 64) × (bit level.now n ≡ true)) }
    ensures least { IfSome result (λ n. (k : ℕ) → first ≤ k / 64 → k < n
        → bit level.now k ≡ false) }
    ensures none { IfNone result ((k : ℕ) → first ≤ k / 64 → bit level.now k ≡ false) }
{
    for word in first..level.len() {
        if let Some(n) = level.first_in_word(word * 64) {
            return Some(n);
        }
    }
    None
}
