//! One edge, and the writes to a vector of edges.
ghost use Rattle.std.specs.Prelude.{◌≡◌, ◌<◌, ◌≤◌, ◌⊎◌, length};
ghost use Rattle.ld_graph.specs.Linked.{none_at};
ghost use Rattle.ld_graph.specs.Columns.{ChangesNext, ChangesBefore, ChangesToFree, ChangesEdge};

/// The number that names no edge, no slot and no site.
pub(crate) const NONE: u32 = u32::MAX;

/// An edge of a slot and a site, or a free one, which has neither.
///
/// An edge stands in two lists, linked by the numbers of edges: that of its slot, both ways, and
/// that of its site. A free edge stands in the list of the free ones.
#[derive(Clone, Copy)]
pub(crate) struct Edge {
    pub(crate) slot: u32,
    pub(crate) site: u32,
    /// The next edge of the slot.
    pub(crate) next: u32,
    /// The edge before this one among those of the slot.
    pub(crate) before: u32,
    /// The next edge of the site, or the next free one.
    pub(crate) site_next: u32,
}

/// Writes which edge follows an edge in its slot's list; nothing where it is no edge.
pub(crate) fn set_next(edges: &mut Vec<Edge>, at: u32, next: u32)
    requires at { (at ≡ none_at) ⊎ (at < length edges.old.items) }
    requires fits { length edges.old.items ≤ none_at }
    ensures { ChangesNext edges.old.items edges.new.items at next }
{
    if at == NONE {
        return;
    }
    let mut edge = edges[at as usize];
    edge.next = next;
    edges[at as usize] = edge;
}

/// Writes which edge stands before an edge in its slot's list; nothing where it is no edge.
pub(crate) fn set_before(edges: &mut Vec<Edge>, at: u32, before: u32)
    requires at { (at ≡ none_at) ⊎ (at < length edges.old.items) }
    requires fits { length edges.old.items ≤ none_at }
    ensures { ChangesBefore edges.old.items edges.new.items at before }
{
    if at == NONE {
        return;
    }
    let mut edge = edges[at as usize];
    edge.before = before;
    edges[at as usize] = edge;
}

/// Makes an edge a free one, which this one follows.
pub(crate) fn set_free(edges: &mut Vec<Edge>, at: u32, site_next: u32)
    requires { at < length edges.old.items }
    ensures { ChangesToFree edges.old.items edges.new.items at site_next }
{
    let mut edge = edges[at as usize];
    edge.slot = NONE;
    edge.site = NONE;
    edge.site_next = site_next;
    edges[at as usize] = edge;
}

/// Writes a whole edge.
pub(crate) fn set_edge(edges: &mut Vec<Edge>, at: u32, edge: Edge)
    requires { at < length edges.old.items }
    ensures { ChangesEdge edges.old.items edges.new.items at edge }
{
    edges[at as usize] = edge;
}
