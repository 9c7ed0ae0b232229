//! Reading values of the store.
ghost use Rattle.std.specs.Prelude.{◌≡◌, ◌+◌, ◌↔◌, IfOk, IsTrue};
ghost use Rattle.std.specs.Option.{option_eq};
ghost use Rattle.ld_cells.specs.Stored.{held};
ghost use Rattle.ld_globals.specs.Answers.{key_given, meaning};
ghost use Rattle.ld_globals.specs.Store.{IsWritable, value_at};
ghost use Rattle.ld_value.specs.Datum.{same_datum};
ghost use Rattle.ld_sharing.specs.Readable.{IsReadable};

use ld_base::{Id, NoMemory, Steps, Text};
use ld_globals::Globals;
use ld_value::{Value, same_value};
use std::alloc::Global;
use std::sync::ledger::Ledger;

/// The value of the key, whose uri is declared; None where it has none.
pub(crate) fn read_key<'a, L: Ledger>(
    globals: &'a Globals,
    uri: &Text,
    person: Option<&Id>,
    steps: &mut Steps<L>,
) -> Option<&'a Value>
    requires readable { IsReadable globals.now (key_given uri.now person) }
    ensures value { meaning result ≡ value_at globals.now (key_given uri.now person.entry) }
    ensures writable { IsWritable globals.now (key_given uri.now person.entry) (meaning result) }
    ensures cost { steps.new ≡ steps.old + 1 }
{
    let Ok(value) = globals.get(uri, person, steps) else {
        unreachable!();
    };
    value
}

/// The same value once more, if there is one.
pub(crate) fn copy_of(alloc: Global, value: Option<&Value>) -> Result<Option<Value>, NoMemory>
    ensures { IfOk result (λ copy. held copy ≡ meaning value.entry) }
{
    match value {
        Some(value) => Ok(Some(value.copy(alloc)?)),
        None => Ok(None),
    }
}

/// Whether both are absent or are one value.
pub(crate) fn are_one(first: Option<&Value>, second: Option<&Value>) -> bool
    ensures test { result ≡ option_eq same_datum (meaning first.entry) (meaning second.entry) }
    ensures same { IsTrue result ↔ (meaning first.entry ≡ meaning second.entry) }
{
    match (first, second) {
        (Some(a), Some(b)) => same_value(a, b),
        (None, None) => true,
        _ => false,
    }
}
