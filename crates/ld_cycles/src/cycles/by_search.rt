//! The first node that leads to itself, by a search from each node: slow, and plainly the
//! definition.
ghost use Rattle.std.specs.Prelude.{◌≡◌, ◌||◌, IfOk, map, false, nat_eq, slice_get};
ghost use Rattle.std.specs.List.{list_any};
ghost use Rattle.std.specs.Option.{unwrap_or};
ghost use Rattle.ld_cycles.specs.Graphs.{first_on_cycle, is_on_cycle};

use ld_base::NoMemory;
use std::alloc::Global;

/// The first node that leads to itself. It takes time as the square of the number of nodes times
/// that of edges.
pub(crate) fn first_on_cycle_by_search(
    alloc: Global,
    edges: &[Vec<usize>],
) -> Result<Option<usize>, NoMemory>
    ensures { IfOk result (λ found. found ≡ first_on_cycle (map (λ next. next.items) edges.now)) }
{
    for node in 0..edges.len() {
        if is_on_cycle(alloc, edges, node)? {
            return Ok(Some(node));
        }
    }
    Ok(None)
}

/// Whether the node leads to itself: by one step, by two, and so on to as many as there are nodes.
fn is_on_cycle(alloc: Global, edges: &[Vec<usize>], node: usize) -> Result<bool, NoMemory>
    ensures { IfOk result (λ is. is ≡ is_on_cycle (map (λ next. next.items) edges.now) node) }
{
    let mut leading = Vec::new(alloc);
    for _steps in 0..edges.len() {
        leading = one_step_more(alloc, edges, node, &leading)?;
    }
    Ok(leads(&leading, node))
}

/// For each node whether it leads to the end by one step more than those that are told.
fn one_step_more(
    alloc: Global,
    edges: &[Vec<usize>],
    end: usize,
    leading: &[bool],
) -> Result<Vec<bool>, NoMemory>
    ensures { IfOk result
        (λ more. more.items
        ≡ map
        (λ next. list_any (λ c. nat_eq c end || unwrap_or (slice_get leading.now c) false)
        next.items) edges.now) }
{
    let mut more = Vec::with_capacity(alloc, edges.len())?;
    for next in edges {
        more.push(any_leads(next, end, leading))?;
    }
    Ok(more)
}

/// Whether one of the nodes is the end or is told to lead there.
fn any_leads(nodes: &[usize], end: usize, leading: &[bool]) -> bool
    ensures { result ≡ list_any (λ c. nat_eq c end || unwrap_or (slice_get leading.now c) false)
        nodes.now }
{
    nodes
        .iter()
        .any(|node| *node == end || leads(leading, *node))
}

/// Whether the node is told to lead to the end; a number that is no node leads nowhere.
fn leads(leading: &[bool], node: usize) -> bool
    ensures { result ≡ unwrap_or (slice_get leading.now node) false }
{
    leading.get(node).copied().unwrap_or(false)
}
