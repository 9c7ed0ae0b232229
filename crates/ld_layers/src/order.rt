//! An order of the nodes of a graph without cycles, in which each comes after those that lead to
//! it.
//!
//! A node is put in the order once all that lead to it are there. None of this is proved: whoever
//! takes the order may rest nothing on it but time.
use ld_base::NoMemory;
use std::alloc::Global;

/// The nodes in the order. It takes time as the number of nodes and edges. The only error is out of
/// memory.
pub(crate) fn order_of(alloc: Global, edges: &[Vec<usize>]) -> Result<Vec<usize>, NoMemory> {
    let mut awaited = awaited_by_each(alloc, edges)?;
    let mut order = first_nodes(alloc, &awaited)?;
    for place in 0..edges.len() {
        let Some(node) = order.get(place).copied() else {
            return Ok(order);
        };
        if let Some(next) = edges.get(node) {
            follow(next, &mut awaited, &mut order)?;
        }
    }
    Ok(order)
}

/// By how many edges nodes lead to each node.
fn awaited_by_each(alloc: Global, edges: &[Vec<usize>]) -> Result<Vec<usize>, NoMemory> {
    let mut awaited = vec![in alloc; 0usize; edges.len()]?;
    for next in edges {
        for node in next {
            if let Some(count) = awaited.get_mut(*node) {
                *count = count.saturating_add(1);
            }
        }
    }
    Ok(awaited)
}

/// The nodes to which none leads.
fn first_nodes(alloc: Global, awaited: &[usize]) -> Result<Vec<usize>, NoMemory> {
    let mut order = Vec::with_capacity(alloc, awaited.len())?;
    for node in 0..awaited.len() {
        if awaited[node] == 0 {
            order.push(node)?;
        }
    }
    Ok(order)
}

/// Lets the nodes await one edge less, and puts those in the order that now await none.
fn follow(next: &[usize], awaited: &mut [usize], order: &mut Vec<usize>) -> Result<(), NoMemory> {
    for node in next {
        if awaits_no_more(*node, awaited) {
            order.push(*node)?;
        }
    }
    Ok(())
}

/// Lets the node await one edge less, and tells whether it now awaits none.
fn awaits_no_more(node: usize, awaited: &mut [usize]) -> bool {
    let Some(count) = awaited.get_mut(node) else {
        return false;
    };
    *count = count.saturating_sub(1);
    *count == 0
}
