//! The sites that have an edge to a slot.
ghost use Rattle.std.specs.Prelude.{◌≡◌, ℕ, ◌<◌, ◌⊎◌, true, length, All, Contains};
ghost use Rattle.std.specs.Iterator.{YieldsFirst, item_count};
ghost use Rattle.ld_graph.specs.Table.{has};

use crate::dirty::Dirty;
use crate::edge::Edge;
use std::marker::Model;

/// An iterator over the sites that have an edge to a slot, each once, in no stated order. Contracts
/// see it as the list of the sites that it has left.
#[derive(Drop)]
pub struct Readers<'a> {
    pub(crate) edges: &'a [Edge],
    // the next edge of the slot
    pub(crate) at: u32,
    // a number of edges that those to come don't exceed
    pub(crate) left: u32,
}

impl<'a> Model for Readers<'a> {
    ghost use Rattle.std.specs.Prelude.{ℕ, List};
    ghost use Rattle.ld_graph.specs.Readings.{sites_met};

    ghost Value = { List ℕ };

    ghost view = { λ r. sites_met r.edges.now r.at r.left };
}

impl<'a> Iterator for Readers<'a> {
    type Item = u32;

    ghost next_gives = { YieldsFirst (λ sites. sites) };

    ghost remaining = { item_count (λ sites. sites) };

    fn next(&mut self) -> Option<u32> {
        if self.left == 0 {
            return None;
        }
        let edge = self.edges.get(self.at as usize)?;
        self.at = edge.next;
        self.left -= 1;
        Some(edge.site)
    }
}

/// Puts each of the sites into the set.
pub(crate) fn set_all(sites: Readers<'_>, dirty: &mut Dirty)
    requires { All (λ i. i < length dirty.old) sites }
    ensures range { length dirty.new ≡ length dirty.old }
    ensures keeps { (i : ℕ) → has dirty.old i ≡ true → has dirty.new i ≡ true }
    ensures all { (i : ℕ) → Contains sites.entry i → has dirty.new i ≡ true }
    ensures only { (i : ℕ) → has dirty.new i ≡ true
        → (has dirty.old i ≡ true) ⊎ Contains sites.entry i }
{
    for site in sites {
        dirty.set(site);
    }
}
