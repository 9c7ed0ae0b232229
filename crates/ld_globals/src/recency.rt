//! Slots in the order of their last use.
ghost use Rattle.std.specs.Prelude.{◌≡◌, ◌≤◌, ◌<◌, ◌-◌, ◌^◌, [], ◌∷◌, ◌++◌, ◌+◌, length, nat_eq, false, OnOk, OnErr, IsSome};
ghost use Rattle.std.specs.List.{AllByRecursion, IsDistinct, prefix_len};
ghost use Rattle.std.specs.Map.{keys_of, lookup, remove_entry};
ghost use Rattle.ld_globals.specs.Kept.{is_later, walk_left};
ghost use Rattle.ld_globals.specs.Recent.{Grows, IsRecency};

use ld_base::{NoMemory, Steps};
use lru::{Iter, LruCache};
use std::alloc::Global;
use std::marker::Model;
use std::sync::ledger::Ledger;

/// The slots below some number, each with the number of its last use, the latest use first. A
/// slot that was never used has 0. To use a slot takes no memory.
#[derive(Drop)]
pub(crate) struct Recency {
    alloc: Global,
    cache: Option<LruCache<usize, u64>>,
}

impl Model for Recency {
    ghost use Rattle.std.specs.Prelude.{ℕ, List};
    ghost use Rattle.ld_globals.specs.Recent.{slots_in, IsRecency, IsEndless};

    ghost Value = { List (ℕ × ℕ) };

    ghost view = { λ s. slots_in s.cache };

    ghost invariant = { λ s. IsRecency (slots_in s.cache) × IsEndless s.cache };
}

impl Recency {
    /// No slot, which takes no memory.
    pub(crate) fn new(alloc: Global) -> Recency
        ensures { result ≡ [] }
    {
        Recency { alloc, cache: None }
    }

    /// The number of slots.
    pub(crate) fn len(&self) -> usize
        ensures { result ≡ length self.now }
    {
        match &self.cache {
            Some(cache) => cache.len(),
            None => 0,
        }
    }

    /// A walk over the slots, the latest use first; none where there is no slot.
    pub(crate) fn iter(&self) -> Option<Iter<'_, usize, u64>>
        ensures walk { walk_left result ≡ self.now }
        ensures slots { IsRecency self.now }
        ensures distinct { IsDistinct nat_eq (keys_of self.now) }
    {
        let Some(cache) = &self.cache else {
            return None;
        };
        // No slot stands twice, as the call of `len` says.
        let _count = cache.len();
        Some(cache.iter())
    }

    /// How many slots come first in a walk, as long as their uses came after the bound. Each is a
    /// step.
    pub(crate) fn count_since<L: Ledger>(&self, bound: u64, steps: &mut Steps<L>) -> usize
        ensures count { result ≡ prefix_len (is_later bound) self.now }
        ensures cost { steps.new ≡ steps.old + result }
    {
        let Some(cache) = &self.cache else {
            return 0;
        };
        // There are fewer than 2^63, as the call of `len` says.
        let _count = cache.len();
        count_later(cache.iter(), bound, steps)
    }

    /// Has at least this many slots. What is added was never used; where memory runs out only
    /// some may be.
    pub(crate) fn grow_to(&mut self, len: usize) -> Result<(), NoMemory>
        ensures ok { OnOk result (len ≤ length self.new) }
        ensures grows { Grows self.old self.new }
    {
        while self.len() < len {
            self.add()?;
        }
        Ok(())
    }

    /// Uses the slot: it stands first, with this number.
    pub(crate) fn touch(&mut self, slot: usize, number: u64)
        requires slot { slot < length self.old }
        requires latest { AllByRecursion (λ e. e.1 ≤ number) self.old }
        ensures slots { self.new ≡ (slot, number) ∷ remove_entry (nat_eq slot) self.old }
        ensures others { AllByRecursion (λ e. nat_eq slot e.0
            ≡ false) (remove_entry (nat_eq slot) self.old) }
        ensures count { length self.new ≡ length self.old }
    {
        let Some(cache) = &mut self.cache else {
            unreachable!();
        };
        use_slot(cache, slot, number);
    }

    /// Adds one slot at the end.
    fn add(&mut self) -> Result<(), NoMemory>
        ensures ok { OnOk result (self.new ≡ self.old ++ (length self.old, 0) ∷ []) }
        ensures err { OnErr result (self.new ≡ self.old) }
    {
        if let Some(cache) = &mut self.cache {
            return add_slot(cache);
        }
        let mut cache = LruCache::unbounded(self.alloc)?;
        let added = add_slot(&mut cache);
        self.cache = Some(cache);
        added
    }
}

/// Uses a slot of the cache.
fn use_slot(cache: &mut LruCache<usize, u64>, slot: usize, number: u64)
    requires { IsSome (lookup (nat_eq slot) cache.old.entries) }
    ensures slots { cache.new.entries
        ≡ (slot, number) ∷ remove_entry (nat_eq slot) cache.old.entries }
    ensures others { AllByRecursion (λ e. nat_eq slot e.0
        ≡ false) (remove_entry (nat_eq slot) cache.old.entries) }
    ensures count { length cache.new.entries ≡ length cache.old.entries }
    ensures cap { cache.new.cap ≡ cache.old.cap }
{
    // No slot stands twice, as the call of `len` says.
    let _count = cache.len();
    let Ok(_) = cache.put(slot, number) else {
        unreachable!();
    };
}

/// Adds a slot to the cache, at the end.
fn add_slot(cache: &mut LruCache<usize, u64>) -> Result<(), NoMemory>
    requires slots { IsRecency cache.old.entries }
    requires cap { cache.old.cap ≡ 2 ^ 64 - 1 }
    ensures ok { OnOk result (cache.new.entries
        ≡ cache.old.entries ++ (length cache.old.entries, 0) ∷ []) }
    ensures err { OnErr result (cache.new.entries ≡ cache.old.entries) }
    ensures slots { IsRecency cache.new.entries }
    ensures cap { cache.new.cap ≡ cache.old.cap }
{
    let slot = cache.len();
    cache.put(slot, 0)?;
    cache.demote(&slot);
    Ok(())
}

/// How many slots come first in the walk, as long as their uses came after the bound. Each is a
/// step.
fn count_later<L: Ledger>(slots: Iter<'_, usize, u64>, bound: u64, steps: &mut Steps<L>) -> usize
    requires { length slots < 2 ^ 63 }
    ensures count { result ≡ prefix_len (is_later bound) slots.entry }
    ensures cost { steps.new ≡ steps.old + result }
{
    let mut count = 0;
    for (_, number) in slots {
        if *number <= bound {
            return count;
        }
        steps.tick();
        count += 1;
    }
    count
}
