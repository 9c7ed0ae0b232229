//! What the nodes of a graph without cycles expand to.
ghost use Rattle.std.specs.Prelude.{◌≡◌, ◌+◌, ℕ, IfOk, map, min, length, slice_get};
ghost use Rattle.std.specs.List.{sum_by};
ghost use Rattle.ld_base.specs.Numbers.{numbers_below};
ghost use Rattle.ld_cycles.specs.Graphs.{Graph, expanded_sizes, expanded_within, number_or_zero};

use ld_base::NoMemory;
use std::alloc::Global;

/// A size that is greater than every limit: sizes stand still at it.
pub const GREATEST: u64 = 1_000_000;

/// What each node expands to, or `GREATEST` where that is less: its own size, and that of each node
/// to which it leads, as often as ways lead to it. A number that is no node counts nothing.
///
/// It goes in rounds, each with ways of one more node, and stops after the first that changes
/// nothing: at most one more than the longest way has nodes, and at most as many as there are
/// nodes. A round takes time as there are nodes and edges. The only error is out of memory.
pub fn expanded_sizes(
    alloc: Global,
    own: &[u64],
    edges: &[Vec<usize>],
) -> Result<Vec<u64>, NoMemory>
    requires { length own.now ≡ length edges.now }
    ensures { IfOk result
        (λ sizes. sizes.items
        ≡ map (min 1000000) (expanded_sizes own.now (map (λ next. next.items) edges.now))) }
{
    let mut sizes = vec![in alloc; 0; edges.len()]?;
    for _ in 0..edges.len() {
        let next = next_sizes(alloc, own, edges, &sizes)?;
        if next.as_slice() == sizes.as_slice() {
            return Ok(sizes);
        }
        sizes = next;
    }
    Ok(sizes)
}

/// The sizes of all nodes with ways of one more node than those given. The only error is out of
/// memory.
fn next_sizes(
    alloc: Global,
    own: &[u64],
    edges: &[Vec<usize>],
    sizes: &[u64],
) -> Result<Vec<u64>, NoMemory>
    requires { length own.now ≡ length edges.now }
    ensures { IfOk result (λ after. (g : Graph) (k : ℕ) → g ≡ map (λ next. next.items) edges.now
        → sizes.now
        ≡ map (min 1000000) (map (expanded_within own.now g k) (numbers_below (length g)))
        → after.items
        ≡ map (min 1000000) (map (expanded_within own.now g (k + 1)) (numbers_below (length g)))) }
{
    let mut next = Vec::new(alloc);
    for node in 0..edges.len() {
        next.push(size_from(own[node], &edges[node], sizes))?;
    }
    Ok(next)
}

/// A node's own size and those of the nodes to which it leads, or `GREATEST` where that is less.
fn size_from(own: u64, next: &[usize], sizes: &[u64]) -> u64
    ensures { result
        ≡ min 1000000 (own + sum_by (λ node. number_or_zero (slice_get sizes.now node)) next.now) }
{
    let mut sum = own.min(GREATEST);
    for node in next {
        sum = sum.saturating_add(size_in(sizes, *node)).min(GREATEST);
    }
    sum
}

/// The size of the node, or 0 where the number is that of no node.
fn size_in(sizes: &[u64], node: usize) -> u64
    ensures { result ≡ number_or_zero (slice_get sizes.now node) }
{
    match sizes.get(node) {
        Some(size) => *size,
        None => 0,
    }
}
