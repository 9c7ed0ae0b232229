//! Writing a value, part by part. What it takes was reserved.
ghost use Rattle.std.specs.Prelude.{◌≡◌, ◌≤◌, ◌<◌, ◌+◌, ◌++◌, List, ℕ, Some, Ok, length, slice_get, option_map, IfOk, IfSome, OnErr};
ghost use Rattle.std.specs.List.{IsDistinct, position_or_len};
ghost use Rattle.std.specs.Map.{keys_of};
ghost use Rattle.std.specs.Option.{option_eq};
ghost use Rattle.std.specs.Str.{bytes_eq};
ghost use Rattle.indexmap.specs.IndexMap as by_key;
ghost use Rattle.indexmap.specs.IndexSet as members;
ghost use Rattle.ld_value.specs.Datum.{datum_of, same_datum};
ghost use Rattle.ld_globals.specs.Given.{IsLent, given_text};
ghost use Rattle.ld_globals.specs.Kept.{IsPersonNumber, datum_in, same_number, slot_of_key};
ghost use Rattle.ld_globals.specs.Store.{last_stamp, next_stamp};

use crate::cell::Cell;
use crate::declared::same_optional;
use crate::given::Given;
use crate::key_number::KeyNumber;
use indexmap::{IndexMap, IndexSet};
use ld_base::{Id, NoMemory};
use ld_value::Value;

/// Whether the key whose cell has this slot, or that was never written and has this initial value,
/// has the value.
pub(crate) fn has_value(
    cells: &IndexMap<KeyNumber, Cell>,
    slot: Option<usize>,
    initial: &Option<Value>,
    value: &Option<Value>,
) -> bool
    ensures { result ≡ option_eq same_datum (datum_in initial.now cells.now.entries slot)
        (option_map datum_of value.now) }
{
    let Some(slot) = slot else {
        return same_optional(initial, value);
    };
    let Some((_, cell)) = cells.get_index(slot) else {
        return same_optional(initial, value);
    };
    same_optional(&cell.value, value)
}

/// The number of the person, who is given one where none is known. It takes no memory where a
/// number is known or the identifier may be kept; where memory runs out nothing changes.
pub(crate) fn number_person(
    persons: &mut IndexSet<Id>,
    known: Option<Option<usize>>,
    person: Given<'_>,
) -> Result<Option<usize>, NoMemory>
    requires spare { 0 < members.spare persons.old }
    requires known { IfSome known (IsPersonNumber persons.old.keys (given_text person)) }
    ensures number { IfOk result (IsPersonNumber persons.new.keys (given_text person.entry)) }
    ensures known { IfSome known (λ number. result ≡ Ok number) }
    ensures keeps { (added : List (List ℕ)) × (persons.new.keys ≡ persons.old.keys ++ added) }
    ensures unique { IsDistinct bytes_eq persons.old.keys → IsDistinct bytes_eq persons.new.keys }
    ensures spare { members.spare persons.old ≤ members.spare persons.new + 1 }
    ensures err { OnErr result (persons.new ≡ persons.old) }
    ensures lent { OnErr result (IsLent person.entry) }
{
    if let Some(number) = known {
        return Ok(number);
    }
    match person {
        Given::Nobody => Ok(None),
        Given::Own(id) => Ok(Some(keep_person(persons, id))),
        Given::Lent(id) => {
            let copy = id.copy()?;
            Ok(Some(keep_person(persons, copy)))
        }
    }
}

/// The number of the person, who is given one where there was none.
fn keep_person(persons: &mut IndexSet<Id>, id: Id) -> usize
    requires { 0 < members.spare persons.old }
    ensures number { slice_get persons.new.keys result ≡ Some id }
    ensures keeps { (added : List (List ℕ)) × (persons.new.keys ≡ persons.old.keys ++ added) }
    ensures unique { IsDistinct bytes_eq persons.old.keys → IsDistinct bytes_eq persons.new.keys }
    ensures spare { members.spare persons.old ≤ members.spare persons.new + 1 }
{
    let Ok((number, _)) = persons.insert_full(id) else {
        unreachable!();
    };
    number
}

/// Writes the cell of the key with these numbers: at its slot where it has one, and else at a new
/// one. It gives the slot.
pub(crate) fn write_cell(
    cells: &mut IndexMap<KeyNumber, Cell>,
    slot: Option<usize>,
    number: KeyNumber,
    cell: Cell,
) -> usize
    requires spare { 0 < by_key.spare cells.old }
    requires slot { IfSome slot (λ at. slot_of_key cells.old.entries number.uri (Some number.person)
        ≡ Some at) }
    ensures entries { cells.new.entries
        ≡ by_key.insert_entry same_number cells.old.entries number cell }
    ensures slot { result ≡ position_or_len (same_number number) (keys_of cells.old.entries) }
    ensures within { result < length cells.new.entries }
    ensures count { length cells.new.entries ≤ length cells.old.entries + 1 }
    ensures spare { by_key.spare cells.old ≤ by_key.spare cells.new + 1 }
{
    if let Some(slot) = slot {
        cells[slot] = cell;
        return slot;
    }
    let Ok((slot, _)) = cells.insert_full(number, cell) else {
        unreachable!();
    };
    slot
}

/// The number of one write more, up to the last number, which stays.
pub(crate) fn next_number(stamp: u64) -> u64
    ensures next { result ≡ next_stamp stamp }
    ensures some { 0 < result }
    ensures more { stamp ≤ result }
    ensures most { stamp ≤ last_stamp }
{
    stamp.saturating_add(1)
}
