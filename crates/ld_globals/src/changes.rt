//! The keys that were written since some stamp.
ghost use Rattle.std.specs.Prelude.{◌≡◌, length};
ghost use Rattle.std.specs.Iterator.{at_most};
ghost use Rattle.std.specs.Map.Iter.{TakesFirst};
ghost use Rattle.ld_globals.specs.Answers.{shown_key};
ghost use Rattle.ld_globals.specs.Kept.{IsFilled, key_at_slot};

use crate::cell::Cell;
use crate::declared::Declared;
use crate::key_number::KeyNumber;
use indexmap::{IndexMap, IndexSet};
use ld_base::{Id, Text};
use lru::Iter;
use std::marker::Model;

/// An iterator over keys of the store, the latest write first: each as its uri and, where it has
/// one, its person. Contracts see it as the list of the keys that it has left.
#[derive(Drop)]
pub struct Changes<'a> {
    pub(crate) declared: &'a IndexMap<Text, Declared>,
    pub(crate) persons: &'a IndexSet<Id>,
    pub(crate) cells: &'a IndexMap<KeyNumber, Cell>,
    pub(crate) slots: Option<Iter<'a, usize, u64>>,
    pub(crate) left: usize,
}

impl<'a> Model for Changes<'a> {
    ghost use Rattle.std.specs.Prelude.{List, ◌≤◌, length, map, take};
    ghost use Rattle.std.specs.List.{AllByRecursion};
    ghost use Rattle.ld_globals.specs.Kept.{IsFilled, key_at_slot, walk_left};
    ghost use Rattle.ld_globals.specs.Store.{Key};

    ghost Value = { List Key };

    ghost view = { λ c. map
        (key_at_slot c.declared.now.entries c.persons.now.keys c.cells.now.entries)
        (take c.left (walk_left c.slots)) };

    ghost invariant = { λ c. (c.left ≤ length (walk_left c.slots))
        × AllByRecursion (IsFilled c.declared.now.entries c.persons.now.keys c.cells.now.entries)
        (take c.left (walk_left c.slots)) };
}

impl<'a> Iterator for Changes<'a> {
    type Item = (&'a Text, Option<&'a Id>);

    ghost next_gives = { TakesFirst shown_key };

    ghost remaining = { λ s. at_most (length s) };

    fn next(&mut self) -> Option<(&'a Text, Option<&'a Id>)> {
        if self.left == 0 {
            return None;
        }
        let Some(slots) = &mut self.slots else {
            unreachable!();
        };
        let Some((slot, _)) = slots.next() else {
            unreachable!();
        };
        self.left -= 1;
        Some(shown(self.declared, self.persons, self.cells, *slot))
    }
}

/// The key of the cell at the slot.
fn shown<'a>(
    declared: &'a IndexMap<Text, Declared>,
    persons: &'a IndexSet<Id>,
    cells: &'a IndexMap<KeyNumber, Cell>,
    slot: usize,
) -> (&'a Text, Option<&'a Id>)
    requires { IsFilled declared.now.entries persons.now.keys cells.now.entries (slot, 0) }
    ensures { shown_key result ≡ key_at_slot declared.now.entries persons.now.keys
        cells.now.entries (slot, 0) }
{
    let Some((number, _)) = cells.get_index(slot) else {
        unreachable!();
    };
    let Some((uri, _)) = declared.get_index(number.uri) else {
        unreachable!();
    };
    let Some(person) = number.person else {
        return (uri, None);
    };
    (uri, persons.get_index(person))
}
