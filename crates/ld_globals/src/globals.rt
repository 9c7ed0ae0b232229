//! The store of global values.
ghost use Rattle.std.specs.Prelude.{◌≡◌, ◌≤◌, ◌<◌, ◌+◌, [], option_map, Some, None, Ok, Err, OnOk, OnErr, IfOk, IfErr, ◌↔◌, Contains, IsTrue, length};
ghost use Rattle.std.specs.List.{AllByRecursion, IsDistinct};
ghost use Rattle.std.specs.Map.{keys_of};
ghost use Rattle.std.specs.Str.{bytes_eq};
ghost use Rattle.ld_value.specs.Datum.{datum_of};
ghost use Rattle.ld_globals.specs.Answers.{got, key_given, meaning};
ghost use Rattle.ld_globals.specs.Given.{IsLent, given_text};
ghost use Rattle.ld_globals.specs.Kept.{IsWhole, pairs_of};
ghost use Rattle.ld_globals.specs.Store.{Key, Agrees, KeepsWrites, IsRefused, IsTold, IsSet, IsWritable, bound_of as bound_after, declare_in, declared_at, get_answer, key_at, last_write, put_in, reserve_in, same_key, set_answer, spend, written_since};

use crate::cell::Cell;
use crate::changes::Changes;
use crate::declared::{Declared, DeclaredList, suits};
use crate::declaring::{declare_pairs, first_to_differ};
use crate::faults::{DeclareFault, GlobalFault, SetFault};
use crate::finding::{Guess, find_uri};
use crate::given::Given;
use crate::key_number::{KeyNumber, find_cell, find_slot, person_number};
use crate::reading::read_declared;
use crate::recency::Recency;
use crate::writing::{has_value, next_number, number_person, write_cell};
use indexmap::{IndexMap, IndexSet};
use ld_base::{Id, NoMemory, Steps, Text};
use ld_value::Value;
use std::alloc::Global;
use std::marker::Model;
use std::sync::ledger::Ledger;

/// The store of global values, seen by contracts as its declarations, the last write of each key,
/// the number of all writes, and how many more writes are sure to need no memory. Each value fits
/// the declaration of its uri.
#[derive(Drop)]
pub struct Globals {
    alloc: Global,
    declared: IndexMap<Text, Declared>,
    guess: Guess,
    persons: IndexSet<Id>,
    /// Of each key that was written its cell; a cell's place is its slot.
    cells: IndexMap<KeyNumber, Cell>,
    /// The slots by their last write, and at the end some that no cell has yet.
    recency: Recency,
    stamp: u64,
    spare: usize,
}

impl Model for Globals {
    ghost use Rattle.std.specs.Prelude.{◌≡◌, ◌≤◌, ◌+◌, length};
    ghost use Rattle.std.specs.List.{AllByRecursion};
    ghost use Rattle.indexmap.specs.IndexMap as by_key;
    ghost use Rattle.indexmap.specs.IndexSet as members;
    ghost use Rattle.ld_globals.specs.Kept.{store_of, IsWhole, IsCell, IsCounted, IsTied, IsNumbering};
    ghost use Rattle.ld_globals.specs.Store.{Store};

    ghost Value = { Store };

    ghost view = { λ s. store_of s.declared.entries s.persons.keys s.cells.entries s.stamp
        s.spare };

    ghost invariant = { λ s. IsNumbering s.declared.entries s.persons.keys
        × AllByRecursion IsWhole s.declared.entries
        × AllByRecursion (IsCell s.declared.entries s.persons.keys) s.cells.entries
        × AllByRecursion (IsCounted s.stamp) s.cells.entries
        × AllByRecursion (IsTied s.cells.entries) s.recency
        × (s.spare ≤ members.spare s.persons) × (s.spare ≤ by_key.spare s.cells)
        × (length s.cells.entries + s.spare ≤ length s.recency) };
}

impl Globals {
    /// A store that declares nothing and holds no value.
    pub fn new(alloc: Global) -> Globals
        ensures { result ≡ record { declared = []; written = []; stamp = 0; spare = 0 } }
    {
        Globals {
            alloc,
            declared: IndexMap::new(alloc),
            guess: Guess::new(),
            persons: IndexSet::new(alloc),
            cells: IndexMap::new(alloc),
            recency: Recency::new(alloc),
            stamp: 0,
            spare: 0,
        }
    }

    /// The number of writes, up to its last value.
    pub fn stamp(&self) -> u64
        ensures { result ≡ self.now.stamp }
    {
        self.stamp
    }

    /// The keys that were written after the stamp, each once, the latest write first; after the
    /// last stamp all that were ever written. Each key that the iterator can give is a step.
    pub fn changed_since<L: Ledger>(&self, stamp: u64, steps: &mut Steps<L>) -> Changes<'_>
        ensures exactly { (key : Key) → Contains result key
            ↔ IsTrue (written_since self.now stamp key) }
        ensures once { IsDistinct same_key result }
        ensures cost { steps.new ≡ steps.old + length result }
    {
        // No key has two cells, as the call of `len` says.
        let _count = self.cells.len();
        Changes {
            declared: &self.declared,
            persons: &self.persons,
            cells: &self.cells,
            left: self.recency.count_since(bound_of(stamp), steps),
            slots: self.recency.iter(),
        }
    }

    /// The value of a key; None where it has none. It takes no memory, and counts as one step.
    pub fn get<L: Ledger>(
        &self,
        uri: &Text,
        person: Option<&Id>,
        steps: &mut Steps<L>,
    ) -> Result<Option<&Value>, GlobalFault>
        ensures writable { IfOk result (λ value.
            IsWritable self.now (key_given uri.now person.entry) (meaning value)) }
        ensures answer { got result ≡ get_answer self.now (key_given uri.now person.entry) }
        ensures cost { steps.new ≡ steps.old + 1 }
    {
        steps.tick();
        let Some((number, declared)) = find_uri(&self.declared, &self.guess, uri) else {
            return Err(GlobalFault::UnknownGlobal);
        };
        if !suits(declared.kind, person) {
            return Err(GlobalFault::NotAllowed);
        }
        let (uris, persons) = (&self.declared, &self.persons);
        match find_cell(uris, persons, &self.cells, uri, number, person) {
            Some(cell) => Ok(cell.value.as_ref()),
            None => Ok(declared.initial.as_ref()),
        }
    }

    /// Makes sure that this many writes need no memory. Where memory runs out the store stays as
    /// it was.
    pub fn reserve(&mut self, writes: u32) -> Result<(), NoMemory>
        ensures ok { OnOk result (self.new ≡ reserve_in self.old writes) }
        ensures kept { OnOk result (KeepsWrites self.old self.new) }
        ensures err { OnErr result (self.new ≡ self.old) }
    {
        self.make_room(writes as usize)
    }

    /// Gives the key the value. It takes no memory, and one of the writes that are to spare.
    pub fn put(&mut self, uri: &Text, person: Option<Id>, value: Option<Value>)
        requires spare { 0 < self.old.spare }
        requires writable { IsWritable self.old (key_at uri.now.bytes person)
            (option_map datum_of value) }
        ensures put { self.new ≡ spend (put_in self.old (key_at uri.now.bytes person)
            (option_map datum_of value)) }
        ensures kept { KeepsWrites self.old self.new }
    {
        let Ok(_) = self.give(uri, Given::own(person), value) else {
            unreachable!();
        };
    }

    /// Gives the key the text's value. It may take memory, and leaves as many writes to spare as
    /// before. Every refusal leaves the store as it was.
    pub fn set(&mut self, uri: &Text, person: Option<&Id>, text: &str) -> Result<(), SetFault>
        ensures ok { OnOk result (IsSet self.old self.new
            (key_given uri.now person.entry) text.now) }
        ensures refused { IfErr result (IsRefused (set_answer self.old
            (key_given uri.now person.entry) text.now)) }
        ensures kept { OnOk result (KeepsWrites self.old self.new) }
        ensures err { OnErr result (self.new ≡ self.old) }
    {
        let value = self.read(uri, person, text)?;
        let spare = self.spare;
        let Some(room) = spare.checked_add(1) else {
            return Err(SetFault::NoMemory);
        };
        self.make_room(room)?;
        let Ok(_) = self.give(uri, Given::lent(person), Some(value)) else {
            self.spare = spare;
            return Err(SetFault::NoMemory);
        };
        Ok(())
    }

    /// Gives the key the value. It takes one of the writes that are to spare, and no memory but for
    /// the copy of a person's identifier who has no number. Where memory runs out for that the
    /// store stays as it was.
    fn give(&mut self, uri: &Text, person: Given<'_>, value: Option<Value>) -> Result<(), NoMemory>
        requires spare { 0 < self.old.spare }
        requires writable { IsWritable self.old (key_at uri.now.bytes (given_text person))
            (option_map datum_of value) }
        ensures ok { OnOk result (self.new
            ≡ spend (put_in self.old (key_at uri.now.bytes (given_text person.entry))
            (option_map datum_of value))) }
        ensures kept { OnOk result (KeepsWrites self.old self.new) }
        ensures err { OnErr result (self.new ≡ self.old) }
        ensures lent { OnErr result (IsLent person.entry) }
    {
        let number = next_number(self.stamp);
        let spare = self.spare - 1;
        let Some((uri, declared)) = find_uri(&self.declared, &self.guess, uri) else {
            unreachable!();
        };
        let known = person_number(&self.persons, person.id());
        let slot = find_slot(&self.cells, uri, known);
        if has_value(&self.cells, slot, &declared.initial, &value) {
            self.spare = spare;
            return Ok(());
        }
        let person = number_person(&mut self.persons, known, person)?;
        let slot = write_cell(
            &mut self.cells,
            slot,
            KeyNumber { uri, person },
            Cell { value, number },
        );
        self.recency.touch(slot, number);
        self.stamp = number;
        self.spare = spare;
        Ok(())
    }

    /// The value that the key may be set to by the text.
    fn read(&self, uri: &Text, person: Option<&Id>, text: &str) -> Result<Value, SetFault>
        ensures ok { IfOk result (λ v. set_answer self.now (key_given uri.now person.entry) text.now
            ≡ Ok (datum_of v)) }
        ensures refused { IfErr result (IsRefused (set_answer self.now
            (key_given uri.now person.entry) text.now)) }
    {
        let Some((_, declared)) = find_uri(&self.declared, &self.guess, uri) else {
            return Err(SetFault::UnknownGlobal);
        };
        read_declared(self.alloc, declared, person, text)
    }

    /// Declares all uris of the list, or none. A uri that is declared already stays as it is;
    /// where one of them is declared with other contents the list is refused. The values of the
    /// store stay, and of a uri that was not declared no key was ever written.
    pub fn declare(&mut self, list: DeclaredList) -> Result<(), DeclareFault>
        requires differ { IsDistinct bytes_eq (keys_of (pairs_of list)) }
        requires whole { AllByRecursion IsWhole list }
        ensures ok { OnOk result (self.new ≡ declare_in self.old (pairs_of list)) }
        ensures kept { OnOk result (KeepsWrites self.old self.new) }
        ensures agree { OnOk result (AllByRecursion (Agrees self.old) (pairs_of list)) }
        ensures unwritten { OnOk result ((key : Key) → declared_at self.old key.uri ≡ None
            → last_write self.old key ≡ None) }
        ensures differs { IfErr result (IsTold self.old (pairs_of list)) }
        ensures err { OnErr result (self.new ≡ self.old) }
    {
        let pairs = list.into_vec();
        if let Some(place) = first_to_differ(&self.declared, &pairs) {
            let Ok(place) = u32::try_from(place) else {
                return Err(DeclareFault::NoMemory);
            };
            return Err(DeclareFault::Differs(place));
        }
        if let Err(_) = self.declared.reserve(pairs.len()) {
            return Err(DeclareFault::NoMemory);
        }
        declare_pairs(&mut self.declared, pairs);
        Ok(())
    }

    /// Makes room for this many writes, as `reserve` does.
    fn make_room(&mut self, room: usize) -> Result<(), NoMemory>
        ensures ok { OnOk result (self.new ≡ reserve_in self.old room) }
        ensures err { OnErr result (self.new ≡ self.old) }
    {
        if room <= self.spare {
            return Ok(());
        }
        let Some(slots) = self.cells.len().checked_add(room) else {
            return Err(NoMemory);
        };
        self.persons.reserve(room)?;
        self.cells.reserve(room)?;
        self.recency.grow_to(slots)?;
        self.spare = room;
        Ok(())
    }
}

/// The number after which writes come after the stamp: all come after the last stamp.
fn bound_of(stamp: u64) -> u64
    ensures { result ≡ bound_after stamp }
{
    if stamp == u64::MAX {
        return 0;
    }
    stamp
}
