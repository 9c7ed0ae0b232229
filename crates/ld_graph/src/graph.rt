//! A set of pairs of a slot and a site.
ghost use Rattle.std.specs.Prelude.{◌≡◌, ◌≢◌, ℕ, ◌+◌, ◌^◌, ◌<◌, ◌≤◌, ◌⊎◌, ◌↔◌, true, false, [], length, Contains, All, IfOk, OnErr};
ghost use Rattle.ld_graph.specs.Slots.{AreDistinct};
ghost use Rattle.ld_graph.specs.Edges.{Edges, IsLinked, Changes, Grows, SameRange, IsOpen, row_at, edge_room};
ghost use Rattle.ld_graph.specs.Table.{has};

use crate::dirty::Dirty;
use crate::edge::{Edge, NONE, set_before, set_edge, set_free};
use crate::firsts::Firsts;
use crate::part::part;
use crate::readers::{Readers, set_all};
use crate::slots::SlotList;
use ld_base::NoMemory;
use std::alloc::Global;
use std::marker::Model;

/// A set of edges, each a pair of a slot and a site, with room for more.
///
/// One vector holds the edges. Each stands in the list of its slot, linked both ways, and in the
/// list of its site, which is only ever taken from its front and so is linked one way; the free
/// ones stand in a list of their own. So to relink a site costs what its old and new edges are,
/// whatever the others are, and takes no memory.
///
/// A site in range takes a quarter of a byte. Where its list begins stands in a page that it shares
/// with fifteen other sites, and that `open` adds: a site is opened before it is linked first.
#[derive(Drop)]
pub struct Graph {
    edges: Vec<Edge>,
    // the first edge of each slot
    firsts: Vec<u32>,
    // the first edge of each site
    site_firsts: Firsts,
    // the first free edge
    free: u32,
    // how many edges are free
    spare: u32,
}

impl Model for Graph {
    ghost use Rattle.std.specs.Prelude.{length};
    ghost use Rattle.ld_graph.specs.Edges.{Edges};

    ghost Value = { Edges };

    ghost use Rattle.ld_graph.specs.Columns.{seen, IsGraph};

    ghost view = { λ g. seen g.edges.items (length g.site_firsts.items) (length g.firsts.items)
        g.spare g.site_firsts.opened };

    ghost invariant = { λ g. IsGraph g.edges.items g.firsts.items g.site_firsts.items g.free
        g.spare };
}

impl Graph {
    /// No edge, no slot and no site in range, which takes no memory.
    pub fn new(alloc: Global) -> Graph
        ensures rows { result.rows ≡ [] }
        ensures slots { result.slots ≡ 0 }
        ensures spare { result.spare ≡ 0 }
    {
        Graph {
            edges: Vec::new(alloc),
            firsts: Vec::new(alloc),
            site_firsts: Firsts::new(alloc),
            free: NONE,
            spare: 0,
        }
    }

    /// Brings the slots and the sites below these numbers into range, and makes room for this many
    /// more edges. The edges stay, also where memory runs out, and neither ranges nor room fall.
    pub fn reserve(&mut self, slots: u32, sites: u32, edges: u32) -> Result<(), NoMemory>
        ensures slots { IfOk result (λ _. slots ≤ self.new.slots) }
        ensures sites { IfOk result (λ _. sites ≤ length self.new.rows) }
        ensures spare { IfOk result (λ _. edges ≤ self.new.spare) }
        ensures rows { (i : ℕ) → row_at self.new i ≡ row_at self.old i }
        ensures range { (length self.old.rows ≤ length self.new.rows)
            × (self.old.slots ≤ self.new.slots) }
        ensures room { edge_room self.old ≤ edge_room self.new }
        ensures grows { Grows self.old self.new }
    {
        self.grow_slots(slots)?;
        self.grow_sites(sites)?;
        self.grow_edges(edges)
    }

    /// Opens the site: it can be given edges from then on. Where memory runs out nothing changes.
    pub fn open(&mut self, site: u32) -> Result<(), NoMemory>
        requires { site < length self.old.rows }
        ensures ok { IfOk result (λ _. IsOpen self.new site) }
        ensures err { OnErr result (self.new ≡ self.old) }
        ensures rows { self.new.rows ≡ self.old.rows }
        ensures slots { self.new.slots ≡ self.old.slots }
        ensures spare { self.new.spare ≡ self.old.spare }
        ensures grows { Grows self.old self.new }
    {
        self.site_firsts.open(site)
    }

    /// The site, which has to be open, has edges to these slots afterwards and to no others. It
    /// takes no memory, and costs what the site's old edges and these slots are, whatever else the
    /// graph holds.
    pub fn relink(&mut self, site: u32, slots: &SlotList)
        requires site { site < length self.old.rows }
        requires opened { IsOpen self.old site }
        requires slots { (k : ℕ) → Contains slots.now.items k → k < self.old.slots }
        requires spare { length slots.now.items ≤ self.old.spare + length (row_at self.old site) }
        ensures own { (k : ℕ) → IsLinked self.new k site ↔ Contains slots.now.items k }
        ensures others { (i : ℕ) → i ≢ site → row_at self.new i ≡ row_at self.old i }
        ensures count { length (row_at self.new site) ≡ length slots.now.items }
        ensures range { SameRange self.old self.new }
        ensures room { edge_room self.new ≡ edge_room self.old }
    {
        self.unlink(site); // none of its old edges stays
        self.put_all(site, slots);
    }

    /// The site has no edge afterwards, and all other edges are as before.
    pub fn unlink(&mut self, site: u32)
        requires { site < length self.old.rows }
        ensures own { row_at self.new site ≡ [] }
        ensures others { (i : ℕ) → i ≢ site → row_at self.new i ≡ row_at self.old i }
        ensures range { SameRange self.old self.new }
        ensures room { edge_room self.new ≡ edge_room self.old }
        ensures changes { Changes self.old self.new site }
    {
        'edges: while self.take_off(site) {}
    }

    /// The sites that have an edge to the slot. It costs what it gives.
    pub fn readers(&self, slot: u32) -> Readers<'_>
        requires { slot < self.now.slots }
        ensures sites { (i : ℕ) → Contains result i ↔ IsLinked self.now slot i }
        ensures once { AreDistinct result }
        ensures range { All (λ i. i < length self.now.rows) result }
    {
        Readers {
            edges: &self.edges,
            at: self.firsts[slot as usize],
            left: self.edges.len() as u32,
        }
    }

    /// Puts each site that has an edge to the slot into the set.
    pub fn set_readers(&self, slot: u32, dirty: &mut Dirty)
        requires slot { slot < self.now.slots }
        requires range { (i : ℕ) → IsLinked self.now slot i → i < length dirty.old }
        ensures range { length dirty.new ≡ length dirty.old }
        ensures keeps { (i : ℕ) → has dirty.old i ≡ true → has dirty.new i ≡ true }
        ensures readers { (i : ℕ) → IsLinked self.now slot i → has dirty.new i ≡ true }
        ensures only { (i : ℕ) → has dirty.new i ≡ true
            → (has dirty.old i ≡ true) ⊎ IsLinked self.now slot i }
    {
        set_all(self.readers(slot), dirty);
    }

    /// What is true of every graph: no site has a slot twice, edges are in range, and the ranges
    /// fit.
    pub fn facts(&self)
        ensures once { (i : ℕ) → AreDistinct (row_at self.now i) }
        ensures slots { (k i : ℕ) → IsLinked self.now k i → k < self.now.slots }
        ensures sites { (k i : ℕ) → IsLinked self.now k i → i < length self.now.rows }
        ensures slots_fit { self.now.slots < 2 ^ 32 }
        ensures sites_fit { length self.now.rows < 2 ^ 32 }
    {
        let _ = &self.edges;
    }

    /// Leaves no edge. The ranges and the room stay.
    pub fn clear(&mut self)
        ensures none { (i : ℕ) → row_at self.new i ≡ [] }
        ensures range { SameRange self.old self.new }
        ensures room { edge_room self.new ≡ edge_room self.old }
    {
        for site in 0..self.sites() {
            self.unlink(site);
        }
    }

    /// The number below which slots are in range.
    pub fn slots(&self) -> u32
        ensures { result ≡ self.now.slots }
    {
        self.firsts.len() as u32
    }

    /// The number below which sites are in range.
    pub fn sites(&self) -> u32
        ensures { result ≡ length self.now.rows }
    {
        self.site_firsts.sites()
    }

    /// How many more edges there is room for.
    pub fn spare(&self) -> u32
        ensures { result ≡ self.now.spare }
    {
        self.spare
    }

    /// Brings the slots below the number into range.
    fn grow_slots(&mut self, slots: u32) -> Result<(), NoMemory>
        ensures ok { IfOk result (λ _. slots ≤ self.new.slots) }
        ensures grows { Grows self.old self.new }
    {
        if slots as usize > self.firsts.len() {
            self.firsts.resize(slots as usize, NONE)?;
        }
        Ok(())
    }

    /// Brings the sites below the number into range.
    fn grow_sites(&mut self, sites: u32) -> Result<(), NoMemory>
        ensures ok { IfOk result (λ _. sites ≤ length self.new.rows) }
        ensures grows { Grows self.old self.new }
    {
        self.site_firsts.grow(sites)
    }

    /// Makes room for this many more edges.
    fn grow_edges(&mut self, edges: u32) -> Result<(), NoMemory>
        ensures ok { IfOk result (λ _. edges ≤ self.new.spare) }
        ensures grows { Grows self.old self.new }
    {
        'edges: while self.spare() < edges {
            self.add_free()?;
        }
        Ok(())
    }

    /// Makes room for one more edge. Where memory runs out nothing changes.
    fn add_free(&mut self) -> Result<(), NoMemory>
        ensures ok { IfOk result (λ _. self.new.spare ≡ self.old.spare + 1) }
        ensures err { OnErr result (self.new ≡ self.old) }
        ensures grows { Grows self.old self.new }
    {
        let count = self.edges.len();
        if count >= NONE as usize {
            return Err(NoMemory);
        }
        let edge = Edge {
            slot: NONE,
            site: NONE,
            next: NONE,
            before: NONE,
            site_next: self.free,
        };
        self.edges.push(edge)?;
        self.free = count as u32;
        self.spare += 1;
        Ok(())
    }

    /// Puts an edge for each of these slots to a site that has none.
    fn put_all(&mut self, site: u32, slots: &SlotList)
        requires site { site < length self.old.rows }
        requires opened { IsOpen self.old site }
        requires empty { row_at self.old site ≡ [] }
        requires slots { (k : ℕ) → Contains slots.now.items k → k < self.old.slots }
        requires spare { length slots.now.items ≤ self.old.spare }
        ensures own { (k : ℕ) → IsLinked self.new k site ↔ Contains slots.now.items k }
        ensures count { length (row_at self.new site) ≡ length slots.now.items }
        ensures changes { Changes self.old self.new site }
    {
        let items = slots.as_slice();
        for slot in items {
            self.put_on(*slot, site);
        }
    }

    /// Takes away one edge of the site, if it has one.
    fn take_off(&mut self, site: u32) -> bool
        requires { site < length self.old.rows }
        ensures none { result ≡ false → (row_at self.new site ≡ []) × (self.new ≡ self.old) }
        ensures some { result ≡ true → Changes self.old self.new site }
        ensures less { result ≡ true
            → length (row_at self.new site) + 1 ≡ length (row_at self.old site) }
    {
        let first = self.site_firsts.get(site);
        if first == NONE {
            return false;
        }
        let edge = self.edges[first as usize];
        part(&mut self.edges, &mut self.firsts, edge);
        self.site_firsts.replace(site, edge.site_next);
        set_free(&mut self.edges, first, self.free);
        self.free = first;
        self.spare += 1;
        true
    }

    /// Puts an edge that is not there.
    fn put_on(&mut self, slot: u32, site: u32)
        requires slot { slot < self.old.slots }
        requires site { site < length self.old.rows }
        requires opened { IsOpen self.old site }
        requires spare { 0 < self.old.spare }
        requires new { IsLinked self.old slot site → ⊥ }
        ensures changes { Changes self.old self.new site }
        ensures more { length (row_at self.new site) ≡ length (row_at self.old site) + 1 }
        ensures own { (k : ℕ) → IsLinked self.new k site ↔ ((k ≡ slot) ⊎ IsLinked self.old k site) }
    {
        let free = self.free;
        let next = self.firsts[slot as usize];
        let site_next = self.site_firsts.replace(site, free);
        self.free = self.edges[free as usize].site_next;
        let edge = Edge {
            slot,
            site,
            next,
            before: NONE,
            site_next,
        };
        set_edge(&mut self.edges, free, edge);
        set_before(&mut self.edges, next, free);
        self.firsts[slot as usize] = free;
        self.spare -= 1;
    }
}
