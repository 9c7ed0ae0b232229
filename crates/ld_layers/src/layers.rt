//! The layers of the nodes of a graph without cycles.
ghost use Rattle.std.specs.Prelude.{◌≡◌, ◌+◌, ◌<◌, ◌≤◌, ℕ, IfOk, None, cond, false, length, map, max, nat_eq};
ghost use Rattle.std.specs.List.{list_any};
ghost use Rattle.ld_cycles.specs.Graphs.{IsNext, first_on_cycle, number_or_zero_at};
ghost use Rattle.ld_layers.specs.Layers.{AreLayers};
ghost use Rattle.ld_layers.specs.Raising.{AreLow};

use crate::order::order_of;
use ld_base::NoMemory;
use std::alloc::Global;

/// The layer of each node, from 1 on: it is one above the highest of those of the nodes that lead
/// to it. So of a row of three nodes they are 1, 2 and 3.
///
/// Each number begins at 1, and is raised above those of the nodes that lead there until none is.
/// The first round goes along an order in which each node comes after those that lead to it, so
/// that the second changes nothing. That it is such an order is not proved: nothing rests on it but
/// time, which is as the number of nodes and edges. The only error is out of memory.
pub fn layers_of(alloc: Global, edges: &[Vec<usize>]) -> Result<Vec<usize>, NoMemory>
    requires { first_on_cycle (map (λ next. next.items) edges.now) ≡ None }
    ensures { IfOk result (λ layers. AreLayers (map (λ next. next.items) edges.now) layers.items) }
{
    let order = order_of(alloc, edges)?;
    let mut layers = vec![in alloc; 1; edges.len()]?;
    raise_to_layers(edges, &order, &mut layers);
    Ok(layers)
}

/// Raises the numbers until they are the layers, first along the order.
fn raise_to_layers(edges: &[Vec<usize>], order: &[usize], numbers: &mut [usize])
    requires acyclic { first_on_cycle (map (λ next. next.items) edges.now) ≡ None }
    requires low { AreLow (map (λ next. next.items) edges.now) numbers.old }
    ensures { AreLayers (map (λ next. next.items) edges.now) numbers.new }
{
    raise_along(edges, order, numbers);
    for _ in 0..edges.len() {
        if !raise_all(edges, numbers) {
            return;
        }
    }
}

/// Raises the numbers of the nodes to which nodes lead, for one of these after the other.
fn raise_along(edges: &[Vec<usize>], order: &[usize], numbers: &mut [usize])
    requires acyclic { first_on_cycle (map (λ next. next.items) edges.now) ≡ None }
    requires low { AreLow (map (λ next. next.items) edges.now) numbers.old }
    ensures { AreLow (map (λ next. next.items) edges.now) numbers.new }
{
    for node in order {
        if *node < edges.len() {
            raise_from(edges, *node, numbers);
        }
    }
}

/// Raises the numbers of all nodes to which nodes lead, in a round. Tells whether it raised one.
fn raise_all(edges: &[Vec<usize>], numbers: &mut [usize]) -> bool
    requires acyclic { first_on_cycle (map (λ next. next.items) edges.now) ≡ None }
    requires low { AreLow (map (λ next. next.items) edges.now) numbers.old }
    ensures low { AreLow (map (λ next. next.items) edges.now) numbers.new }
    ensures rise { (a b : ℕ) → b < length edges.now → IsNext (map (λ next. next.items) edges.now) a b
        → number_or_zero_at numbers.old a < number_or_zero_at numbers.new b }
    ensures still { result ≡ false → numbers.new ≡ numbers.old }
{
    let mut raised = false;
    for node in 0..edges.len() {
        if raise_from(edges, node, numbers) {
            raised = true;
        }
    }
    raised
}

/// Raises the numbers of the nodes to which the node leads above its own, where they are not. Tells
/// whether it raised one.
fn raise_from(edges: &[Vec<usize>], node: usize, numbers: &mut [usize]) -> bool
    requires node { node < length edges.now }
    requires acyclic { first_on_cycle (map (λ next. next.items) edges.now) ≡ None }
    requires low { AreLow (map (λ next. next.items) edges.now) numbers.old }
    ensures low { AreLow (map (λ next. next.items) edges.now) numbers.new }
    ensures grow { (b : ℕ) → number_or_zero_at numbers.old b ≤ number_or_zero_at numbers.new b }
    ensures rise { (b : ℕ) → b < length edges.now
        → IsNext (map (λ next. next.items) edges.now) node b
        → number_or_zero_at numbers.old node < number_or_zero_at numbers.new b }
    ensures still { result ≡ false → numbers.new ≡ numbers.old }
{
    let above = numbers[node] + 1;
    raise_each(&edges[node], above, numbers)
}

/// Raises the numbers of these nodes to this, where they are less. Tells whether one was.
fn raise_each(nodes: &[usize], least: usize, numbers: &mut [usize]) -> bool
    ensures each { length numbers.new ≡ length numbers.old }
    ensures value { (b : ℕ) → b < length numbers.old → number_or_zero_at numbers.new b
        ≡ max (number_or_zero_at numbers.old b)
        (cond (list_any (λ node. nat_eq node b) nodes.now) least 0) }
    ensures still { result ≡ false → numbers.new ≡ numbers.old }
{
    let mut raised = false;
    for node in nodes {
        if raise(*node, least, numbers) {
            raised = true;
        }
    }
    raised
}

/// Raises the number of the node to this, where it is less. Tells whether it was.
fn raise(node: usize, least: usize, numbers: &mut [usize]) -> bool
    ensures each { length numbers.new ≡ length numbers.old }
    ensures value { (b : ℕ) → b < length numbers.old → number_or_zero_at numbers.new b
        ≡ max (number_or_zero_at numbers.old b) (cond (nat_eq node b) least 0) }
    ensures still { result ≡ false → numbers.new ≡ numbers.old }
{
    if node >= numbers.len() || least <= numbers[node] {
        return false;
    }
    numbers[node] = least;
    true
}
