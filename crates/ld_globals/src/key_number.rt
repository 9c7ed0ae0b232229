//! The numbers by which a key is kept.
ghost use Rattle.std.specs.Prelude.{◌≡◌, Some, None, IfSome, option_map, option_copied, slice_get};
ghost use Rattle.std.specs.List.{AllByRecursion};
ghost use Rattle.std.specs.Map.{lookup};
ghost use Rattle.ld_globals.specs.declared.declared.Declared.{Declared};
ghost use Rattle.ld_globals.specs.Answers.{key_given};
ghost use Rattle.ld_globals.specs.Kept.{IsUriNumber, writes_of, IsCell, IsNumbering, IsPersonNumber, IsUnknown, slot_of_key, write_of};
ghost use Rattle.ld_globals.specs.Store.{same_key};

use crate::cell::Cell;
use crate::declared::Declared;
use indexmap::{IndexMap, IndexSet};
use ld_base::{Id, Text};

/// A key by the number of its uri and, where it has a person, the person's number.
#[derive(Clone, Copy, Debug, PartialEq, Eq, Hash)]
pub(crate) struct KeyNumber {
    pub(crate) uri: usize,
    pub(crate) person: Option<usize>,
}

/// The cell of the key of this uri, which has this number, if it was ever written.
pub(crate) fn find_cell<'a>(
    declared: &IndexMap<Text, Declared>,
    persons: &IndexSet<Id>,
    cells: &'a IndexMap<KeyNumber, Cell>,
    uri: &Text,
    number: usize,
    person: Option<&Id>,
) -> Option<&'a Cell>
    requires numbers { IsNumbering declared.now.entries persons.now.keys }
    requires cells { AllByRecursion (IsCell declared.now.entries persons.now.keys)
        cells.now.entries }
    requires declared { IsUriNumber declared.now.entries uri.now.bytes number }
    ensures { option_map (λ c. write_of c.now) result
        ≡ lookup (same_key (key_given uri.now person.entry))
        (writes_of declared.now.entries persons.now.keys cells.now.entries) }
{
    let person = person_number(persons, person)?;
    cells.get(&KeyNumber {
        uri: number,
        person,
    })
}

/// The slot of the cell of the key of the uri and the person with these numbers, if it was ever
/// written; none where the person has no number.
pub(crate) fn find_slot(
    cells: &IndexMap<KeyNumber, Cell>,
    uri: usize,
    person: Option<Option<usize>>,
) -> Option<usize>
    ensures { result ≡ slot_of_key cells.now.entries uri person }
{
    let person = person?;
    cells.get_index_of(&KeyNumber { uri, person })
}

/// The person's number, None where no person is given; nothing where the person has no number.
pub(crate) fn person_number(persons: &IndexSet<Id>, person: Option<&Id>) -> Option<Option<usize>>
    ensures some { IfSome result (IsPersonNumber persons.now.keys (option_copied person.entry)) }
    ensures none { result ≡ None → IsUnknown persons.now.keys (option_copied person.entry) }
{
    let Some(id) = person else {
        return Some(None);
    };
    let number = number_of(persons, id)?;
    Some(Some(number))
}

/// The number of the person of the identifier; nothing where there is none. The identifier is
/// searched for only where it is not the one at its hint.
fn number_of(persons: &IndexSet<Id>, id: &Id) -> Option<usize>
    ensures some { IfSome result (λ number. slice_get persons.now.keys number ≡ Some id.now) }
    ensures none { result ≡ None → IsUnknown persons.now.keys (Some id.now) }
{
    let hint = id.hint() as usize;
    let Some(found) = persons.get_index(hint) else {
        return search_person(persons, id);
    };
    if found == id {
        return Some(hint);
    }
    search_person(persons, id)
}

/// The number of the person of the identifier, by a search; nothing where there is none. Kept
/// apart, so that to find a person at a hint takes few registers.
#[inline(never)]
fn search_person(persons: &IndexSet<Id>, id: &Id) -> Option<usize>
    ensures some { IfSome result (λ number. slice_get persons.now.keys number ≡ Some id.now) }
    ensures none { result ≡ None → IsUnknown persons.now.keys (Some id.now) }
{
    let (number, _) = persons.get_full(id)?;
    remember(id, number);
    Some(number)
}

/// Keeps the number as the identifier's hint, if it is one of 32 bits.
fn remember(id: &Id, number: usize) {
    if let Ok(hint) = u32::try_from(number) {
        id.remember(hint);
    }
}
