//! The first node of a graph that leads to itself.
//!
//! Each node gets a label such that labels never rise along an edge, and are equal along an edge
//! just where its end leads back. Then the first node with an edge along which the label stays is
//! the one sought. That a label never rises, and that this node leads to itself, is looked up
//! before it is answered; so nothing rests on the labels but time.
ghost use Rattle.std.specs.Prelude.{◌≡◌, IfOk, map};
ghost use Rattle.ld_cycles.specs.Graphs.{first_on_cycle, next_of};

mod by_search;
mod labels;
mod levels;
mod way_back;

use by_search::first_on_cycle_by_search;
use labels::labels_of;
use ld_base::NoMemory;
use levels::{first_level, never_rise};
use std::alloc::Global;
use way_back::leads_back;

/// The first node that leads to itself, where `edges` has for each node the nodes to which it
/// leads. It takes time as the number of nodes and edges.
pub fn first_on_cycle(alloc: Global, edges: &[Vec<usize>]) -> Result<Option<usize>, NoMemory>
    ensures { IfOk result (λ found. found ≡ first_on_cycle (map (λ next. next.items) edges.now)) }
{
    let labels = labels_of(alloc, edges)?;
    if !never_rise(&labels, edges) {
        return first_on_cycle_by_search(alloc, edges);
    }
    let Some(node) = first_level(&labels, edges) else {
        return Ok(None);
    };
    if leads_back(alloc, edges, node)? {
        return Ok(Some(node));
    }
    first_on_cycle_by_search(alloc, edges)
}

/// The nodes to which the node leads by one step; a number that is no node leads to none.
fn next_of(edges: &[Vec<usize>], node: usize) -> &[usize]
    ensures { result.now ≡ next_of (map (λ next. next.items) edges.now) node }
{
    match edges.get(node) {
        Some(next) => next,
        None => &[],
    }
}
