//! Whether a node leads to itself, by a search in breadth.
ghost use Rattle.std.specs.Prelude.{◌≡◌, ℕ, Bool, IfOk, IsTrue, true, map, nat_eq};
ghost use Rattle.std.specs.List.{list_all, list_any};
ghost use Rattle.ld_cycles.specs.Graphs.{is_on_cycle};

use super::next_of;
use ld_base::NoMemory;
use std::alloc::Global;

/// Whether the start was found to lead to itself. It takes time as the number of nodes and edges.
pub(super) fn leads_back(
    alloc: Global,
    edges: &[Vec<usize>],
    start: usize,
) -> Result<bool, NoMemory>
    ensures { IfOk result
        (λ back. IsTrue back → is_on_cycle (map (λ next. next.items) edges.now) start ≡ true) }
{
    let mut seen = none_seen(alloc, edges.len())?;
    let mut reached = Vec::new(alloc);
    reached.push(start)?;
    for at in 0..edges.len() {
        let Some(node) = reached.get(at).copied() else {
            return Ok(false);
        };
        let next = next_of(edges, node);
        if next.contains(&start) {
            return Ok(true);
        }
        reach(next, &mut seen, &mut reached)?;
    }
    Ok(false)
}

/// Puts those of the nodes that were not seen behind those that are reached. An error may leave
/// some of them there.
fn reach(next: &[usize], seen: &mut [bool], reached: &mut Vec<usize>) -> Result<(), NoMemory>
    ensures { (test : ℕ → Bool) → list_all test reached.old.items ≡ true → list_all test next.now
        ≡ true → list_all test reached.new.items ≡ true }
{
    for node in next {
        if see(seen, *node) {
            reached.push(*node)?;
        }
    }
    Ok(())
}

/// Marks the node as seen; whether it is one that was not.
fn see(seen: &mut [bool], node: usize) -> bool {
    let Some(mark) = seen.get_mut(node) else {
        return false;
    };
    if *mark {
        return false;
    }
    *mark = true;
    true
}

/// A mark for each node, none of which was seen.
fn none_seen(alloc: Global, nodes: usize) -> Result<Vec<bool>, NoMemory> {
    let mut seen = Vec::with_capacity(alloc, nodes)?;
    for _node in 0..nodes {
        seen.push(false)?;
    }
    Ok(seen)
}
