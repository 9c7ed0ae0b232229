//! What labels of a graph's nodes tell, where they never rise along an edge.
ghost use Rattle.std.specs.Prelude.{◌≡◌, ℕ, ◌<◌, IsTrue, IfSome, IfNone, true, false, map, length, nat_le, slice_get};
ghost use Rattle.std.specs.List.{list_all, list_any};
ghost use Rattle.std.specs.Option.{unwrap_or};
ghost use Rattle.ld_cycles.specs.Graphs.{next_of};

use super::next_of;

/// Whether no edge leads to a node with a greater label.
pub(super) fn never_rise(labels: &[usize], edges: &[Vec<usize>]) -> bool
    ensures { IsTrue result → (node : ℕ)
        → list_all
        (λ target. nat_le (unwrap_or (slice_get labels.now target) 0)
        (unwrap_or (slice_get labels.now node) 0))
        (next_of (map (λ next. next.items) edges.now) node) ≡ true }
{
    for node in 0..edges.len() {
        if !falls_or_stays(labels, node, next_of(edges, node)) {
            return false;
        }
    }
    true
}

/// Whether none of the nodes has a greater label than this.
fn falls_or_stays(labels: &[usize], node: usize, next: &[usize]) -> bool
    ensures { result
        ≡ list_all (λ target. nat_le (unwrap_or (slice_get labels.now target) 0)
        (unwrap_or (slice_get labels.now node) 0)) next.now }
{
    next.iter().all(|target| label_of(labels, *target) <= label_of(labels, node))
}

/// The first node with an edge to one whose label is not less.
pub(super) fn first_level(labels: &[usize], edges: &[Vec<usize>]) -> Option<usize>
    ensures within { IfSome result (λ first. first < length edges.now) }
    ensures before { IfSome result
        (λ first. (node : ℕ) → node < first
        → list_any
        (λ target. nat_le (unwrap_or (slice_get labels.now node) 0)
        (unwrap_or (slice_get labels.now target) 0))
        (next_of (map (λ next. next.items) edges.now) node) ≡ false) }
    ensures none { IfNone result
        ((node : ℕ) → node < length edges.now
        → list_any
        (λ target. nat_le (unwrap_or (slice_get labels.now node) 0)
        (unwrap_or (slice_get labels.now target) 0))
        (next_of (map (λ next. next.items) edges.now) node) ≡ false) }
{
    for node in 0..edges.len() {
        if stays(labels, node, next_of(edges, node)) {
            return Some(node);
        }
    }
    None
}

/// Whether the label of one of the nodes is not less than this one's.
fn stays(labels: &[usize], node: usize, next: &[usize]) -> bool
    ensures { result
        ≡ list_any (λ target. nat_le (unwrap_or (slice_get labels.now node) 0)
        (unwrap_or (slice_get labels.now target) 0)) next.now }
{
    next.iter().any(|target| label_of(labels, node) <= label_of(labels, *target))
}

/// The label of the node; 0 for a number that is no node.
fn label_of(labels: &[usize], node: usize) -> usize
    ensures { result ≡ unwrap_or (slice_get labels.now node) 0 }
{
    labels.get(node).copied().unwrap_or(0)
}
