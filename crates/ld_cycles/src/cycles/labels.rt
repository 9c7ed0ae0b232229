//! Labels for the nodes of a graph: they never rise along an edge, and two nodes have the same just
//! where each leads to the other.
//!
//! It is Tarjan's search in depth, with one number for each node. None of this is proved: whoever
//! takes the labels looks whether they are right.
use super::next_of;
use ld_base::NoMemory;
use std::alloc::Global;

/// The label of each node, from 1 on. It takes time as the number of nodes and edges.
pub(super) fn labels_of(alloc: Global, edges: &[Vec<usize>]) -> Result<Vec<usize>, NoMemory> {
    let steps = steps_through(edges);
    let mut walk = Walk::new(alloc, edges.len())?;
    for root in 0..edges.len() {
        if walk.labels.get(root).copied() == Some(0) {
            walk.enter(root)?;
            walk.go(edges, steps)?;
        }
    }
    Ok(walk.labels)
}

/// How many steps a walk through the whole graph takes at most: each edge is looked at once, or
/// twice where it leads to a node not entered before; each node is left; and then the walk ends.
fn steps_through(edges: &[Vec<usize>]) -> usize {
    let mut steps = 1usize;
    for next in edges {
        steps = steps.saturating_add(next.len()).saturating_add(2);
    }
    steps
}

/// A node that the walk has entered and not left, the number that it got there, and how many of its
/// edges were followed.
#[derive(Clone, Copy, Drop)]
struct Visit {
    node: usize,
    number: usize,
    followed: usize,
}

/// A walk in depth through a graph.
#[derive(Drop)]
struct Walk {
    /// 0 for a node not entered yet; its label at the end; and between the two the number of the
    /// node entered first among those without label to which it was found to lead.
    labels: Vec<usize>,
    /// From the first node to the one at which the walk is.
    way: Vec<Visit>,
    /// The nodes entered that have no label yet, in the order in which they were.
    open: Vec<usize>,
    /// The next number: numbers fall from the greatest, and each is greater than every label.
    number: usize,
    /// The label given last: labels rise from 1.
    label: usize,
}

impl Walk {
    /// A walk that has entered none of this many nodes.
    fn new(alloc: Global, nodes: usize) -> Result<Walk, NoMemory> {
        let mut labels = Vec::with_capacity(alloc, nodes)?;
        for _node in 0..nodes {
            labels.push(0)?;
        }
        Ok(Walk {
            labels,
            way: Vec::new(alloc),
            open: Vec::new(alloc),
            number: usize::MAX,
            label: 0,
        })
    }

    /// Goes on until the way is empty, by no more than this many steps.
    fn go(&mut self, edges: &[Vec<usize>], steps: usize) -> Result<(), NoMemory> {
        for _step in 0..steps {
            let Some(visit) = self.way.pop() else {
                return Ok(());
            };
            self.step(edges, visit)?;
        }
        Ok(())
    }

    /// Follows the next edge of the node, or leaves it where no edge is left.
    fn step(&mut self, edges: &[Vec<usize>], visit: Visit) -> Result<(), NoMemory> {
        let Some(target) = next_of(edges, visit.node).get(visit.followed).copied() else {
            self.leave(visit);
            return Ok(());
        };
        self.follow(visit, target)
    }

    /// Follows an edge. Where its end was not entered yet, it is entered, and the edge will be
    /// looked at once more; else the node takes over how far back the end leads.
    fn follow(&mut self, visit: Visit, target: usize) -> Result<(), NoMemory> {
        let known = self.labels.get(target).copied();
        if known == Some(0) {
            self.way.push(visit)?;
            return self.enter(target);
        }
        if let Some(label) = known {
            self.raise(visit.node, label);
        }
        self.way.push(Visit {
            node: visit.node,
            number: visit.number,
            followed: visit.followed.saturating_add(1),
        })?;
        Ok(())
    }

    /// Enters a node.
    fn enter(&mut self, node: usize) -> Result<(), NoMemory> {
        let number = self.number;
        self.number = number.saturating_sub(1);
        self.raise(node, number);
        self.open.push(node)?;
        self.way.push(Visit {
            node,
            number,
            followed: 0,
        })?;
        Ok(())
    }

    /// Leaves a node. Where it leads to none entered before it, it and those entered since that
    /// have no label lead to each other: they get the next label.
    fn leave(&mut self, visit: Visit) {
        if self.labels.get(visit.node).copied() != Some(visit.number) {
            return;
        }
        self.label = self.label.saturating_add(1);
        for _node in 0..self.open.len() {
            let Some(node) = self.open.pop() else {
                return;
            };
            self.give_label(node);
            if node == visit.node {
                return;
            }
        }
    }

    /// Notes that the node leads to the one with this number.
    fn raise(&mut self, node: usize, number: usize) {
        if let Some(known) = self.labels.get_mut(node) {
            *known = (*known).max(number);
        }
    }

    /// Gives the node its label.
    fn give_label(&mut self, node: usize) {
        if let Some(known) = self.labels.get_mut(node) {
            *known = self.label;
        }
    }
}
