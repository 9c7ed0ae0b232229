//! What no clause says: that calls succeed where there is memory, and answers worked out by hand.
ghost use Rattle.std.specs.Prelude.{◌≡◌, ℕ, ◌<◌, true, length, Contains};
ghost use Rattle.ld_graph.specs.Edges.{IsOpen, row_at};

mod random;

use ld_graph::{Dirty, Graph, SlotList};
use std::alloc::Global;
use std::test::Fail;

/// A list of these slots, as far as there is room for eight.
fn list_of(alloc: Global, slots: &[u32]) -> Result<SlotList, Fail> {
    let mut list = SlotList::with_room(alloc, 8)?;
    for slot in slots {
        put(&mut list, *slot);
    }
    Ok(list)
}

/// Puts the slot where there is room.
fn put(list: &mut SlotList, slot: u32) {
    if list.len() < list.room() as usize {
        list.put(slot);
    }
}

/// Whether every slot is below a number.
fn all_below(slots: &[u32], bound: u32) -> bool
    ensures { result ≡ true → (k : ℕ) → Contains slots.now k → k < bound }
{
    for slot in slots {
        if *slot >= bound {
            return false;
        }
    }
    true
}

/// Whether the site and the slots are in the ranges of the graph.
fn are_in_range(graph: &Graph, site: u32, list: &SlotList) -> bool
    ensures site { result ≡ true → site < length graph.now.rows }
    ensures slots { result ≡ true → (k : ℕ) → Contains list.now.items k → k < graph.now.slots }
{
    site < graph.sites() && all_below(list.as_slice(), graph.slots())
}

/// Opens the site where it is in range, and answers whether it is open.
fn opens(graph: &mut Graph, site: u32) -> bool
    ensures opened { result ≡ true → IsOpen graph.new site }
    ensures rows { graph.new.rows ≡ graph.old.rows }
    ensures slots { graph.new.slots ≡ graph.old.slots }
    ensures spare { graph.new.spare ≡ graph.old.spare }
{
    if site >= graph.sites() {
        return false;
    }
    if let Err(_) = graph.open(site) {
        return false;
    }
    true
}

/// Opens and relinks the site where the condition of the calls holds, and answers whether it does.
fn relink(graph: &mut Graph, site: u32, list: &SlotList) -> bool
    ensures count { result ≡ true → length (row_at graph.new site) ≡ length list.now.items }
    ensures opened { result ≡ true → IsOpen graph.new site }
{
    if !opens(graph, site) {
        return false;
    }
    if !are_in_range(graph, site, list) || list.len() > graph.spare() as usize {
        return false;
    }
    graph.relink(site, list);
    true
}

/// Relinks the site to one list and then, in the room of these edges, to another. Answers whether
/// it reads slot 0 first, and afterwards slot 1 alone.
fn moves_to_slot_1(graph: &mut Graph, site: u32, list: &SlotList, other: &SlotList) -> bool {
    if !relink(graph, site, list) || readers(graph, 0) != Some(1 << (site % 64)) {
        return false;
    }
    if !are_in_range(graph, site, other) || other.len() > list.len() {
        return false;
    }
    graph.relink(site, other);
    readers(graph, 0) == Some(0) && readers(graph, 1) == Some(1 << (site % 64))
}

/// The readers of a slot as a number with a bit for each site, or None where one is given twice.
fn readers(graph: &Graph, slot: u32) -> Option<u64> {
    let mut bits = 0u64;
    if slot >= graph.slots() {
        return Some(0);
    }
    for site in graph.readers(slot) {
        let bit = 1u64 << (site % 64);
        if bits & bit != 0 {
            return None;
        }
        bits |= bit;
    }
    Some(bits)
}

#[test]
fn sites_are_found_in_order(rt: HostRuntime) -> Result<(), Fail> {
    let mut dirty = Dirty::new(rt.alloc(), 300_000)?;
    for site in [3, 64, 70_000, 299_999] {
        if site < dirty.range() {
            dirty.set(site);
        }
    }
    let table = [
        (0, Some(3)),
        (3, Some(3)),
        (4, Some(64)),
        (65, Some(70_000)),
        (70_001, Some(299_999)),
        (300_000, None),
        (4_000_000_000, None),
    ];
    for (from, wanted) in table {
        assert_eq!(rt; dirty.next_from(from), wanted, "from {from}");
    }
    if 64 < dirty.range() {
        dirty.clear(64);
    }
    assert_eq!(rt; dirty.next_from(4), Some(70_000));
    dirty.grow(5_000_000)?;
    if 4_999_999 < dirty.range() {
        dirty.set(4_999_999);
    }
    assert_eq!(rt; dirty.next_from(299_999), Some(299_999));
    assert_eq!(rt; dirty.next_from(300_000), Some(4_999_999));
    dirty.empty();
    assert_eq!(rt; dirty.next_from(0), None);
    assert_eq!(rt; dirty.range(), 5_000_000);
    Ok(())
}

/// Whether a set of this many sites, 1,000 or more, has two that are put into it until they are
/// taken out, and then a third one.
fn has_its_sites(alloc: Global, sites: u32) -> Result<bool, Fail> {
    let mut dirty = Dirty::new(alloc, sites)?;
    if dirty.range() < 1_000 {
        return Ok(false);
    }
    dirty.set(64);
    dirty.set(999);
    let both = dirty.next_from(0) == Some(64) && dirty.next_from(65) == Some(999);
    let last = dirty.next_from(1_000) == None;
    dirty.clear(64);
    let other = dirty.next_from(0) == Some(999);
    dirty.empty();
    let none = dirty.next_from(0) == None;
    dirty.set(3);
    Ok(both && last && other && none && dirty.next_from(0) == Some(3))
}

// 32 words of sites, and 33, which have a level above.
#[test]
fn sites_of_a_few_words_are_found(rt: HostRuntime) -> Result<(), Fail> {
    for sites in [1_000, 2_047, 2_048] {
        assert!(rt; has_its_sites(rt.alloc(), sites)?, "{sites}");
    }
    Ok(())
}

#[test]
fn a_site_is_found_until_it_is_cleared(rt: HostRuntime) -> Result<(), Fail> {
    let mut dirty = Dirty::new(rt.alloc(), 3)?;
    if 2 < dirty.range() {
        dirty.set(2);
    }
    assert_eq!(rt; dirty.next_from(0), Some(2));
    if 2 < dirty.range() {
        dirty.clear(2);
    }
    assert_eq!(rt; dirty.next_from(0), None);
    Ok(())
}

#[test]
fn the_old_edge_goes(rt: HostRuntime) -> Result<(), Fail> {
    let both = list_of(rt.alloc(), &[0, 1])?;
    let one = list_of(rt.alloc(), &[1])?;
    let mut graph = Graph::new(rt.alloc());
    graph.reserve(2, 1, 2)?;
    assert!(rt; moves_to_slot_1(&mut graph, 0, &both, &one));
    Ok(())
}

#[test]
fn slots_stand_once_in_their_order(rt: HostRuntime) -> Result<(), Fail> {
    let mut list = list_of(rt.alloc(), &[5, 4_000_000_000, 5, 9])?;
    assert_eq!(rt; list.as_slice(), [5, 4_000_000_000, 9].as_slice());
    assert_eq!(rt; list.len(), 3);
    assert_eq!(rt; list.get(2), Some(&9));
    assert_eq!(rt; list.get(3), None);
    assert!(rt; list.contains(9) && !list.contains(6));
    list.clear();
    assert_eq!(rt; list.len(), 0);
    put(&mut list, 9);
    put(&mut list, 5);
    assert_eq!(rt; list.as_slice(), [9, 5].as_slice());
    Ok(())
}

#[test]
fn a_new_list_has_no_room(rt: HostRuntime) -> Result<(), Fail> {
    let mut list = SlotList::new(rt.alloc());
    put(&mut list, 7);
    assert_eq!(rt; list.room(), 0);
    assert_eq!(rt; list.len(), 0);
    assert!(rt; !list.contains(7));
    list.clear();
    assert_eq!(rt; list.as_slice(), [].as_slice());
    Ok(())
}

#[test]
fn sites_far_apart_are_opened(rt: HostRuntime) -> Result<(), Fail> {
    let mut graph = Graph::new(rt.alloc());
    graph.reserve(1, 1_000_000, 6)?;
    let one = list_of(rt.alloc(), &[0])?;
    for site in [999_999, 17, 16, 15, 0, 123_463] {
        assert!(rt; opens(&mut graph, site), "site {site}");
        assert!(rt; opens(&mut graph, site), "site {site} again");
        assert!(rt; relink(&mut graph, site, &one), "site {site} linked");
    }
    assert!(rt; !opens(&mut graph, 1_000_000));
    assert_eq!(rt; graph.spare(), 0);
    let bits = 1 << 63 | 1 << 17 | 1 << 16 | 1 << 15 | 1 | 1 << 7;
    assert_eq!(rt; readers(&graph, 0), Some(bits));
    Ok(())
}

#[test]
fn sites_are_relinked(rt: HostRuntime) -> Result<(), Fail> {
    let mut graph = Graph::new(rt.alloc());
    graph.reserve(4, 3, 6)?;
    assert_eq!(rt; (graph.slots(), graph.sites(), graph.spare()), (4, 3, 6));
    assert!(rt; relink(&mut graph, 0, &list_of(rt.alloc(), &[1, 2])?));
    assert!(rt; relink(&mut graph, 1, &list_of(rt.alloc(), &[2])?));
    assert!(rt; relink(&mut graph, 2, &list_of(rt.alloc(), &[2, 3])?));
    assert_eq!(rt; graph.spare(), 1);
    for (slot, wanted) in [(0, 0b000), (1, 0b001), (2, 0b111), (3, 0b100)] {
        assert_eq!(rt; readers(&graph, slot), Some(wanted), "slot {slot}");
    }
    assert!(rt; relink(&mut graph, 0, &list_of(rt.alloc(), &[3])?));
    assert_eq!(rt; graph.spare(), 2);
    for (slot, wanted) in [(0, 0b000), (1, 0b000), (2, 0b110), (3, 0b101)] {
        assert_eq!(rt; readers(&graph, slot), Some(wanted), "slot {slot}");
    }
    let mut dirty = Dirty::new(rt.alloc(), 3)?;
    if 3 < graph.slots() && graph.sites() <= dirty.range() {
        graph.set_readers(3, &mut dirty);
    }
    assert_eq!(rt; dirty.next_from(0), Some(0));
    assert_eq!(rt; dirty.next_from(1), Some(2));
    if 2 < graph.sites() {
        graph.unlink(2);
    }
    assert_eq!(rt;
        (readers(&graph, 2), readers(&graph, 3)),
        (Some(0b010), Some(0b001))
    );
    graph.clear();
    assert_eq!(rt; (readers(&graph, 2), graph.spare()), (Some(0), 6));
    graph.facts();
    Ok(())
}
