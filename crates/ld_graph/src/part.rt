//! How an edge leaves the list of its slot.
ghost use Rattle.std.specs.Prelude.{◌≡◌, ◌≢◌, ◌<◌, ◌≤◌, ◌⊎◌, length, set};
ghost use Rattle.ld_graph.specs.Linked.{none_at};
ghost use Rattle.ld_graph.specs.Columns.{PassesOver};

use crate::edge::{Edge, NONE, set_before, set_next};

/// Takes an edge out of the list of its slot: the one before it and the next one name each other,
/// and where none is before it the slot's first edge is the next one.
pub(crate) fn part(edges: &mut Vec<Edge>, firsts: &mut Vec<u32>, edge: Edge)
    requires fits { length edges.old.items ≤ none_at }
    requires before { (edge.before ≡ none_at) ⊎ (edge.before < length edges.old.items) }
    requires next { (edge.next ≡ none_at) ⊎ (edge.next < length edges.old.items) }
    requires slot { edge.slot < length firsts.old.items }
    ensures columns { PassesOver edges.old.items edges.new.items edge }
    ensures first { edge.before ≡ none_at
        → firsts.new.items ≡ set firsts.old.items edge.slot edge.next }
    ensures middle { edge.before ≢ none_at → firsts.new.items ≡ firsts.old.items }
{
    set_next(edges, edge.before, edge.next);
    set_before(edges, edge.next, edge.before);
    if edge.before == NONE {
        firsts[edge.slot as usize] = edge.next;
    }
}
