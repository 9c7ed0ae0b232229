//! The first loop of a graph.
ghost use Rattle.std.specs.Prelude.{◌≡◌, ◌+◌, ◌<◌, ◌≤◌, ◌++◌, ℕ, Bool, IfOk, Some, true, false, map, length, nat_eq, slice_get};
ghost use Rattle.std.specs.List.{list_any};
ghost use Rattle.std.specs.Option.{unwrap_or};
ghost use Rattle.ld_base.specs.Numbers.{numbers_below};
ghost use Rattle.ld_cycles.specs.Graphs.{Graph, first_on_cycle};
ghost use Rattle.ld_layers.specs.Layers.{leads_on};
ghost use Rattle.ld_layers.specs.Loops.{IsFirstLoop, first_way, next_towards, way_in};
ghost use Rattle.ld_layers.specs.Tables.{AreTables};

use ld_base::NoMemory;
use std::alloc::Global;

/// The first loop of the graph, where the start is the first node that leads to itself: it begins
/// there, is as short as any, and of these the first, compared node by node. It takes time as the
/// length of the loop times the number of edges. The only error is out of memory.
pub fn first_loop(alloc: Global, edges: &[Vec<usize>], start: usize) -> Result<Vec<usize>, NoMemory>
    requires { first_on_cycle (map (λ next. next.items) edges.now) ≡ Some start }
    ensures { IfOk result (λ way. IsFirstLoop (map (λ next. next.items) edges.now) way.items) }
{
    let tables = tables_back(alloc, edges, start)?;
    let way = follow(alloc, edges, start, &tables)?;
    Ok(way)
}

/// For each number of steps from 0 on, of each node whether a way of exactly this many steps leads from
/// it to the start; up to one step less than the shortest way from the start to itself has.
fn tables_back(
    alloc: Global,
    edges: &[Vec<usize>],
    start: usize,
) -> Result<Vec<Vec<bool>>, NoMemory>
    requires { first_on_cycle (map (λ next. next.items) edges.now) ≡ Some start }
    ensures { IfOk result (λ tables. AreTables (map (λ next. next.items) edges.now) start
        (map (λ table. table.items) tables.items)) }
{
    let mut tables = Vec::new(alloc);
    let mut table = only(alloc, edges.len(), start)?;
    for _ in 0..edges.len() {
        let next = one_step_back(alloc, edges, &table)?;
        let done = leads(&next, start);
        tables.push(table)?;
        if done {
            return Ok(tables);
        }
        table = next;
    }
    unreachable!()
}

/// Of each node whether it is the start.
fn only(alloc: Global, nodes: usize, start: usize) -> Result<Vec<bool>, NoMemory>
    ensures { IfOk result (λ table. table.items
        ≡ map (λ a. nat_eq a start) (numbers_below nodes)) }
{
    let mut table = Vec::with_capacity(alloc, nodes)?;
    for node in 0..nodes {
        table.push(node == start)?;
    }
    Ok(table)
}

/// Of each node whether it leads by one step to one of the nodes that the table names.
fn one_step_back(alloc: Global, edges: &[Vec<usize>], table: &[bool]) -> Result<Vec<bool>, NoMemory>
    ensures { IfOk result (λ more. more.items
        ≡ map (λ next. list_any (λ c. unwrap_or (slice_get table.now c) false) next.items) edges.now) }
{
    let mut more = Vec::with_capacity(alloc, edges.len())?;
    for next in edges {
        more.push(any_leads(next, table))?;
    }
    Ok(more)
}

/// Whether the table names one of the nodes.
fn any_leads(nodes: &[usize], table: &[bool]) -> bool
    ensures { result ≡ list_any (λ c. unwrap_or (slice_get table.now c) false) nodes.now }
{
    nodes.iter().any(|node| leads(table, *node))
}

/// Whether the table names the node; it names none that is no node.
fn leads(table: &[bool], node: usize) -> bool
    ensures { result ≡ unwrap_or (slice_get table.now node) false }
{
    table.get(node).copied().unwrap_or(false)
}

/// The nodes of the first way from the start to itself, of as many steps as there are tables.
fn follow(
    alloc: Global,
    edges: &[Vec<usize>],
    start: usize,
    tables: &[Vec<bool>],
) -> Result<Vec<usize>, NoMemory>
    requires { AreTables (map (λ next. next.items) edges.now) start
        (map (λ table. table.items) tables.now) }
    ensures { IfOk result (λ way. way.items
        ≡ first_way (map (λ next. next.items) edges.now) (length tables.now) start start) }
{
    let mut way = Vec::with_capacity(alloc, tables.len())?;
    let mut at = start;
    let mut left = tables.len();
    while left > 0 {
        left -= 1;
        way.push(at)?;
        at = first_towards(edges, at, &tables[left]);
    }
    Ok(way)
}

/// The least node to which the node leads and which the table names; 0 where there is none.
fn first_towards(edges: &[Vec<usize>], node: usize, table: &[bool]) -> usize
    ensures { (n end : ℕ) → ((a : ℕ) → unwrap_or (slice_get table.now a) false
        ≡ way_in (map (λ next. next.items) edges.now) n a end)
        → result ≡ next_towards (map (λ next. next.items) edges.now) n node end }
{
    for next in 0..edges.len() {
        if leads(table, next) && leads_on(edges, node, next) {
            return next;
        }
    }
    0
}

/// Whether one step leads from the one node to the other.
fn leads_on(edges: &[Vec<usize>], node: usize, next: usize) -> bool
    ensures { result ≡ leads_on (map (λ next. next.items) edges.now) node next }
{
    match edges.get(node) {
        Some(nodes) => nodes.contains(&next),
        None => false,
    }
}
