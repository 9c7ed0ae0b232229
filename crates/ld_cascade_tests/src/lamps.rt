//! A row of lamps: a site hands its lamp on to the one before it.
ghost use Rattle.std.specs.Prelude.{◌≡◌, ◌-◌, ◌^◌, ◌<◌, false, length, replicate, set, IfOk};

use ld_base::{Fired, NoMemory, Steps};
use ld_cascade::{Judged, Sites};
use ld_graph::SlotList;
use std::alloc::Global;
use std::cell::Cell;
use std::sync::ledger::Ledger;

/// Lamps, the marks of their sites, the list that lends a site's reads, and how often a site was
/// judged and asked for its reads.
#[derive(Drop)]
pub struct Lamps {
    pub lit: Vec<bool>,
    pub marks: Vec<bool>,
    list: SlotList,
    judged: Cell<u32>,
    asked: u32,
    ghost even: { length lit.items ≡ length marks.items },
    ghost small: { length lit.items < 2 ^ 32 },
    ghost spacious: { 0 < list.room },
}

impl Lamps {
    /// So many lamps, of which the last one alone is lit, and no mark.
    pub fn new(alloc: Global, count: u32) -> Result<Lamps, NoMemory>
        ensures count { IfOk result (λ l. length l.lit.items ≡ count) }
        ensures marks { IfOk result (λ l. l.marks.items ≡ replicate count false) }
    {
        let mut lit = Vec::new(alloc);
        let Ok(()) = lit.resize(count as usize, false) else {
            return Err(NoMemory)
        };
        let mut marks = Vec::new(alloc);
        let Ok(()) = marks.resize(count as usize, false) else {
            return Err(NoMemory)
        };
        if let Some(last) = lit.last_mut() {
            *last = true;
        }
        let Ok(list) = SlotList::with_room(alloc, 1) else {
            return Err(NoMemory)
        };
        Ok(Lamps {
            lit,
            marks,
            list,
            judged: Cell::new(0),
            asked: 0,
        })
    }

    /// How often a site was judged.
    pub fn judged(&self) -> u32 {
        self.judged.get()
    }

    /// How often a site was asked for its reads.
    pub fn asked(&self) -> u32 {
        self.asked
    }

    /// Switches a lamp off.
    pub fn switch_off(&mut self, lamp: u32)
        requires lamp { lamp < length self.old.lit.items }
        ensures lit { self.new.lit.items ≡ set self.old.lit.items lamp false }
        ensures marks { self.new.marks.items ≡ self.old.marks.items }
    {
        self.lit[lamp as usize] = false;
    }

    /// Takes the lamps and the marks back to these, of which there are as many.
    pub fn take_back(&mut self, lit: Vec<bool>, marks: Vec<bool>)
        requires lit { length lit.items ≡ length self.old.lit.items }
        requires marks { length marks.items ≡ length self.old.lit.items }
        ensures lit { self.new.lit.items ≡ lit.items }
        ensures marks { self.new.marks.items ≡ marks.items }
    {
        self.lit = lit;
        self.marks = marks;
    }
}

impl Sites for Lamps {
    ghost use Rattle.ld_cascade_tests.specs.Lamps.{lamps, lamps_of, is_lawful};

    ghost system = { lamps };

    ghost now = { lamps_of };

    ghost room = { λ l. l.list.room };

    fn judge<L: Ledger>(&self, site: u32, steps: &mut Steps<L>) -> Judged {
        self.judged.set(self.judged.get().wrapping_add(1));
        if site as usize >= self.lit.len() {
            return Judged {
                test: false,
                mark: Some(false),
            };
        }
        steps.tick();
        Judged {
            test: self.lit[site as usize],
            mark: Some(self.marks[site as usize]),
        }
    }

    fn reads<L: Ledger>(&mut self, site: u32, steps: &mut Steps<L>) -> Result<&SlotList, NoMemory> {
        self.asked = self.asked.wrapping_add(1);
        self.list.clear();
        if site as usize >= self.lit.len() {
            return Ok(&self.list);
        }
        steps.tick();
        self.list.put(site);
        Ok(&self.list)
    }

    fn fire<L: Ledger>(
        &mut self,
        site: u32,
        verdict: bool,
        changed: &mut Vec<u32>,
        steps: &mut Steps<L>,
    ) -> Result<Fired, NoMemory> {
        steps.tick();
        let before = site.saturating_sub(1);
        self.marks[site as usize] = verdict;
        self.lit[before as usize] = verdict;
        if let Err(_) = changed.push(before) {
            return Err(NoMemory);
        }
        Ok(Fired {
            rejected: 0,
            sent: 0,
        })
    }

    ghost lawful = { is_lawful };
}
