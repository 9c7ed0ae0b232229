//! The first edge of each site, in pages.
ghost use Rattle.std.specs.Prelude.{◌≡◌, ℕ, ◌<◌, ◌≤◌, true, [], ◌++◌, length, get_or, set, replicate, IfOk, OnErr};
ghost use Rattle.ld_graph.specs.Linked.{none_at};
ghost use Rattle.ld_graph.specs.Paged.{Widens};
ghost use Rattle.ld_graph.specs.Table.{has};

use crate::edge::NONE;
use ld_base::NoMemory;
use std::alloc::Global;
use std::marker::Model;

/// How many sites a page has.
const PAGE: u32 = 16;

/// For each site in range the number of its first edge, or `NONE`.
///
/// Most sites in range never have an edge. So the entries stand in pages of sixteen sites, and a
/// page takes memory only where one of its sites was opened.
#[derive(Drop)]
pub(crate) struct Firsts {
    // the number of the page of each sixteen sites, or NONE
    pages: Vec<u32>,
    // the entries of the pages, one page after another
    entries: Vec<u32>,
    // the number below which sites are in range
    sites: u32,
}

impl Model for Firsts {
    ghost use Rattle.ld_graph.specs.Paged.{Paged, paged, ArePages};

    ghost Value = { Paged };

    ghost view = { λ f. paged f.pages.items f.entries.items f.sites };

    ghost invariant = { λ f. ArePages f.pages.items f.entries.items f.sites };
}

impl Firsts {
    /// No site in range, which takes no memory.
    pub(crate) fn new(alloc: Global) -> Firsts
        ensures { result.items ≡ [] }
    {
        Firsts {
            pages: Vec::new(alloc),
            entries: Vec::new(alloc),
            sites: 0,
        }
    }

    /// The number below which sites are in range.
    pub(crate) fn sites(&self) -> u32
        ensures { result ≡ length self.now.items }
    {
        self.sites
    }

    /// Brings the sites below the number into range. It adds no page.
    pub(crate) fn grow(&mut self, sites: u32) -> Result<(), NoMemory>
        ensures ok { IfOk result (λ _. sites ≤ length self.new.items) }
        ensures widens { Widens self.old self.new }
    {
        if sites <= self.sites {
            return Ok(());
        }
        pad(&mut self.pages, ((sites - 1) / PAGE + 1) as usize)?;
        self.sites = sites;
        Ok(())
    }

    /// Opens the site. Where memory runs out nothing changes.
    pub(crate) fn open(&mut self, site: u32) -> Result<(), NoMemory>
        requires { site < length self.old.items }
        ensures ok { IfOk result (λ _. has self.new.opened site ≡ true) }
        ensures err { OnErr result (self.new ≡ self.old) }
        ensures items { self.new.items ≡ self.old.items }
        ensures keeps { (i : ℕ) → has self.old.opened i ≡ true → has self.new.opened i ≡ true }
    {
        if self.pages[(site / PAGE) as usize] != NONE {
            return Ok(());
        }
        let count = self.entries.len() / PAGE as usize;
        if count >= NONE as usize {
            return Err(NoMemory);
        }
        add_page(&mut self.entries)?;
        self.pages[(site / PAGE) as usize] = count as u32;
        Ok(())
    }

    /// The first edge of the site, or `NONE`.
    pub(crate) fn get(&self, site: u32) -> u32
        requires { site < length self.now.items }
        ensures value { result ≡ get_or self.now.items site none_at }
        ensures opened { (result ≡ none_at → ⊥) → has self.now.opened site ≡ true }
    {
        let page = self.pages[(site / PAGE) as usize];
        if page == NONE {
            return NONE;
        }
        self.entries[page as usize * PAGE as usize + (site % PAGE) as usize]
    }

    /// Writes the first edge of a site that is open, and answers which one it was.
    pub(crate) fn replace(&mut self, site: u32, first: u32) -> u32
        requires site { site < length self.old.items }
        requires opened { has self.old.opened site ≡ true }
        ensures was { result ≡ get_or self.old.items site none_at }
        ensures items { self.new.items ≡ set self.old.items site first }
        ensures opened { self.new.opened ≡ self.old.opened }
    {
        let page = self.pages[(site / PAGE) as usize];
        let at = page as usize * PAGE as usize + (site % PAGE) as usize;
        let was = self.entries[at];
        self.entries[at] = first;
        was
    }
}

/// Adds a page whose sites have no edge. Where memory runs out nothing changes.
fn add_page(entries: &mut Vec<u32>) -> Result<(), NoMemory>
    ensures ok { IfOk result (λ _. entries.new.items ≡ entries.old.items ++ replicate 16 none_at) }
    ensures err { OnErr result (entries.new.items ≡ entries.old.items) }
{
    reserve_first_pages(entries)?;
    entries.resize(entries.len() + PAGE as usize, NONE)?;
    Ok(())
}

/// Makes room for the first pages, so that a small table is never moved.
fn reserve_first_pages(entries: &mut Vec<u32>) -> Result<(), NoMemory>
    ensures { entries.new.items ≡ entries.old.items }
{
    if !entries.is_empty() {
        return Ok(());
    }
    entries.reserve(4 * PAGE as usize)?;
    Ok(())
}

/// Brings at least this many numbers into the list; the new ones are `NONE`.
fn pad(list: &mut Vec<u32>, len: usize) -> Result<(), NoMemory>
    ensures ok { IfOk result (λ _. len ≤ length list.new.items) }
    ensures rest { (more : ℕ) × (list.new.items ≡ list.old.items ++ replicate more none_at) }
{
    if len > list.len() {
        list.resize(len, NONE)?;
    }
    Ok(())
}
