//! A set of sites.
ghost use Rattle.std.specs.Prelude.{◌≡◌, ℕ, ◌^◌, ◌<◌, ◌≤◌, max, true, false, length, slice_set, replicate, IfOk, IsOk, OnErr, IfSome, IfNone};
ghost use Rattle.ld_graph.specs.Table.{has};

use crate::level::Level;
use crate::levels::{clear_at, grow, next_at, set_at};
use ld_base::NoMemory;
use std::alloc::Global;
use std::marker::Model;

// The upper level, where it has words, has a bit for each word of 64 bits of the lower one. For
// 120,000 sites, as many as a run may have, it has 30 words.
const LEVELS: usize = 2;

/// A set of sites below a number, its range, seen by contracts as a table with one entry for each
/// number of the range.
///
/// The bits of the sites stand in words of 64. Above them stands a smaller level, in which a bit
/// says that a word is not zero. So `next_from` passes over empty words without a look at them; the
/// upper level, where a word stands for 4,096 sites, is walked word by word. A set that first comes
/// into range with few words has no such level, and no memory for one: it is walked word by word,
/// however far it grows. A set that is known to be empty is not looked at.
#[derive(Drop)]
pub struct Dirty {
    range: u32,
    may_have_some: bool,
    levels: [Level; LEVELS],
}

impl Model for Dirty {
    ghost use Rattle.std.specs.Prelude.{◌≡◌, ℕ, ◌^◌, ◌<◌, ◌≤◌, List, Bool, false, length};
    ghost use Rattle.ld_graph.specs.Words.{bit, bits_of, lowest, IsTable};

    ghost Value = { List Bool };

    ghost view = { λ d. bits_of (lowest d.levels) d.range };

    ghost invariant = { λ d. IsTable d.levels d.range
        × (d.may_have_some ≡ false → (n : ℕ) → bit (lowest d.levels) n ≡ false) };
}

impl Dirty {
    /// The empty set, for sites below the number. Where that is 0, it takes no memory.
    pub fn new(alloc: Global, sites: u32) -> Result<Dirty, NoMemory>
        ensures none { sites ≡ 0 → IsOk result }
        ensures fresh { IfOk result (λ d. d ≡ replicate sites false) }
    {
        let mut dirty = Dirty {
            range: 0,
            may_have_some: false,
            levels: [Level::new(alloc), Level::new(alloc)],
        };
        dirty.grow(sites)?;
        Ok(dirty)
    }

    /// Puts a site of the range into the set.
    pub fn set(&mut self, site: u32)
        requires { site < length self.old }
        ensures { self.new ≡ slice_set self.old site true }
    {
        set_at(&mut self.levels, site as usize);
        self.may_have_some = true;
    }

    /// Takes a site of the range out of the set.
    pub fn clear(&mut self, site: u32)
        requires { site < length self.old }
        ensures { self.new ≡ slice_set self.old site false }
    {
        if clear_at(&mut self.levels, site as usize) {
            self.may_have_some = false;
        }
    }

    /// The least site of the set that is at least this one, which may be out of range.
    pub fn next_from(&self, site: u32) -> Option<u32>
        ensures found { IfSome result (λ n. (site ≤ n) × (n < length self.now)
            × (has self.now n ≡ true)) }
        ensures least { IfSome result (λ n. (k : ℕ) → site ≤ k → k < n → has self.now k ≡ false) }
        ensures none { IfNone result ((k : ℕ) → site ≤ k → has self.now k ≡ false) }
        ensures fits { length self.now < 2 ^ 32 }
    {
        if !self.may_have_some {
            return None;
        }
        let Some(next) = next_at(&self.levels, site as usize) else {
            return None;
        };
        Some(next as u32)
    }

    /// Brings the sites below the number into range. The set stays the same, also where memory
    /// runs out, and the range never falls.
    pub fn grow(&mut self, sites: u32) -> Result<(), NoMemory>
        ensures ok { IfOk result (λ _. length self.new ≡ max (length self.old) sites) }
        ensures err { OnErr result (self.new ≡ self.old) }
        ensures same { (n : ℕ) → has self.new n ≡ has self.old n }
        ensures within { sites ≤ length self.old → IsOk result }
    {
        if sites > self.range {
            grow(&mut self.levels, sites as usize / 64 + 1)?;
            self.range = sites;
        }
        Ok(())
    }

    /// Takes every site out of the set, in time that grows with their number, and with that of the
    /// words of the highest level.
    pub fn empty(&mut self)
        ensures { self.new ≡ replicate (length self.old) false }
    {
        let mut from = 0;
        'sites: while let Some(site) = self.next_from(from) {
            self.clear(site);
            from = site + 1;
        }
    }

    /// The number below which sites are in range.
    pub fn range(&self) -> u32
        ensures { result ≡ length self.now }
    {
        self.range
    }
}
