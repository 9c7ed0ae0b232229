//! Random calls, beside a plain set of sites, a plain list of slots and a plain set of pairs.
ghost use Rattle.std.specs.Prelude.{◌<◌};

use super::{put, readers, relink};
use ld_graph::{Dirty, Graph, SlotList};
use std::test::Fail;

const SITES: usize = 40;

const SLOTS: usize = 10;

/// A generator of numbers that look random, by a linear congruence.
#[derive(Drop)]
struct Random(u64);

impl Random {
    /// A number below this one.
    fn below(&mut self, bound: u32) -> u32
        requires { 0 < bound }
        ensures { result < bound }
    {
        self.0 = self
            .0
            .wrapping_mul(6_364_136_223_846_793_005)
            .wrapping_add(1_442_695_040_888_963_407);
        (self.0 >> 33) as u32 % bound
    }
}

#[test]
fn a_set_of_sites(rt: HostRuntime) -> Result<(), Fail> {
    // sites stand far apart, so that most words are empty
    const STEP: u32 = 5003;
    let mut random = Random(1);
    let mut plain = [false; SITES];
    let mut dirty = Dirty::new(rt.alloc(), STEP * SITES as u32)?;
    for _ in 0..600 {
        let number = random.below(SITES as u32);
        let site = number * STEP;
        if site >= dirty.range() {
            continue;
        }
        if random.below(3) == 0 {
            dirty.clear(site);
            plain[number as usize] = false;
        } else {
            dirty.set(site);
            plain[number as usize] = true;
        }
        let from = random.below(SITES as u32);
        let wanted = plain.iter().skip(from as usize).position(|is_set| *is_set);
        let found = dirty.next_from(from * STEP);
        match wanted {
            Some(after) => assert_eq!(rt; found, Some((from + after as u32) * STEP)),
            None => assert_eq!(rt; found, None),
        }
    }
    Ok(())
}

#[test]
fn a_list_of_slots(rt: HostRuntime) -> Result<(), Fail> {
    const ROOM: u32 = 12;
    let mut random = Random(3);
    let mut plain: Vec<u32> = Vec::new(rt.alloc());
    let mut list = SlotList::with_room(rt.alloc(), ROOM)?;
    for round in 0..800 {
        if random.below(24) == 0 {
            list.clear();
            plain.clear();
        }
        let slot = random.below(30) * 1_000_003;
        put(&mut list, slot);
        if plain.len() < ROOM as usize && !plain.contains(&slot) {
            plain.push(slot)?;
        }
        assert_eq!(rt; list.as_slice(), plain.as_slice(), "round {round}");
        let index = random.below(ROOM) as usize;
        assert_eq!(rt; list.get(index), plain.get(index), "round {round}");
    }
    Ok(())
}

#[test]
fn a_set_of_pairs(rt: HostRuntime) -> Result<(), Fail> {
    let mut random = Random(2);
    let mut plain = [0u64; SLOTS];
    let mut graph = Graph::new(rt.alloc());
    graph.reserve(SLOTS as u32, SITES as u32, 240)?;
    let mut list = SlotList::with_room(rt.alloc(), 6)?;
    for round in 0..400 {
        let site = random.below(SITES as u32);
        list.clear();
        for _ in 0..random.below(7) {
            put(&mut list, random.below(SLOTS as u32));
        }
        assert!(rt; relink(&mut graph, site, &list), "round {round}");
        for (slot, bits) in plain.iter_mut().enumerate() {
            let bit = 1u64 << site;
            if list.as_slice().contains(&(slot as u32)) {
                *bits |= bit;
            } else {
                *bits &= !bit;
            }
        }
        for slot in 0..SLOTS {
            assert_eq!(rt;
                readers(&graph, slot as u32),
                Some(plain[slot]),
                "round {round}"
            );
        }
    }
    Ok(())
}
