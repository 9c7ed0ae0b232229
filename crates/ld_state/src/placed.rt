//! Which cell has a slot.
ghost use Rattle.std.specs.Prelude.{◌≡◌, flat_map, map, slice_get};
ghost use Rattle.ld_base.specs.Numbers.{numbers_below};
ghost use Rattle.ld_state.specs.Layout.{cell_for, cells_in};

use crate::slots::Slots;
use ld_base::PersonNo;
use ld_model::{CellName, Owner};

impl Slots {
    /// The cell that has the slot in a run with this many persons; None exactly where such a run
    /// has no such slot. It takes no memory, and no longer for a larger run.
    pub fn cell_at(&self, slot: u32, persons: u32) -> Option<CellName>
        ensures { result ≡ slice_get (cells_in self.now persons) slot }
    {
        let run = self.run_cells();
        let place = slot as usize;
        if place < run.len() {
            return Some(run[place]);
        }
        own_at(self.own_cells(), place - run.len(), persons)
    }
}

/// The cell at the place among the cells of all persons, where those of the first are these.
fn own_at(own: &[CellName], place: usize, persons: u32) -> Option<CellName>
    ensures { result ≡ slice_get
        (flat_map (λ p. map (cell_for p) own.now) (numbers_below persons)) place }
{
    if own.is_empty() {
        return None;
    }
    let person = place / own.len();
    if persons as usize <= person {
        return None;
    }
    let cell = own[place % own.len()];
    Some(cell_for(PersonNo(person as u32), cell))
}

/// The same cell, but of this person, whoever it was of; a cell that is of no one stays.
fn cell_for(person: PersonNo, cell: CellName) -> CellName
    ensures { result ≡ cell_for person.0 cell }
{
    let owner = Owner::Person(person);
    match cell {
        CellName::Prop(property, _) => CellName::Prop(property, owner),
        CellName::Vis(thing, _) => CellName::Vis(thing, person),
        CellName::Member(role, _) => CellName::Member(role, person),
        CellName::Chosen(thing, _) => CellName::Chosen(thing, owner),
        CellName::Opened(thing, _) => CellName::Opened(thing, owner),
        CellName::Mark(rule, _) => CellName::Mark(rule, owner),
        CellName::ActOpened(_) | CellName::Started | CellName::Now | CellName::Roster => cell,
    }
}
