//! Writes to cells that are recorded, and rolled back.
ghost use Rattle.std.specs.Prelude.{◌≡◌, ◌↔◌, ◌<◌, ◌≤◌, ◌+◌, ◌++◌, ◌∷◌, [], OnOk, OnErr, IfErr, IsOk, IsTrue, take, ℕ, vec_len, vec_capacity};
ghost use Rattle.ld_cells.specs.Stored.{held, cells_of, with_value};
ghost use Rattle.ld_cells.specs.Recorded.{before, AreBelow};

use crate::change::Change;
use crate::refused::Refused;
use ld_value::{Value, same_value};
use std::mem;

/// Whether the two cells hold one value, or neither holds any.
pub fn same_cell(first: &Option<Value>, second: &Option<Value>) -> bool
    ensures { IsTrue result ↔ (held first.now ≡ held second.now) }
{
    match (first, second) {
        (Some(a), Some(b)) => same_value(a, b),
        (None, None) => true,
        _ => false,
    }
}

/// Appends a cell. Where memory runs out, all stays as it was.
pub fn append(values: &mut Vec<Option<Value>>, cell: Option<Value>) -> Result<(), Refused>
    ensures items { OnOk result (values.new.items ≡ values.old.items ++ cell ∷ []) }
    ensures err { OnErr result (values.new.items ≡ values.old.items) }
    ensures full { OnErr result (vec_capacity values.new ≡ vec_capacity values.old) }
    ensures returned { IfErr result (λ refused. refused.0 ≡ cell) }
    ensures capacity { vec_capacity values.old ≤ vec_capacity values.new }
    ensures within { vec_len values.old < vec_capacity values.old → IsOk result }
{
    if let Err(_) = values.reserve(1) {
        return Err(Refused(cell));
    }
    match values.push(cell) {
        Ok(()) => Ok(()),
        Err(_) => unreachable!(),
    }
}

/// Writes to the slot; what it held is dropped.
pub fn put(values: &mut Vec<Option<Value>>, slot: u32, value: Option<Value>)
    requires { slot < vec_len values.old }
    ensures cells { cells_of values.new.items ≡ with_value (cells_of values.old.items) slot value }
    ensures length { vec_len values.new ≡ vec_len values.old }
    ensures room { vec_capacity values.new ≡ vec_capacity values.old }
{
    values[slot as usize] = value;
}

/// Writes to the slot and records the write, so that taking it back gives what was there. Where
/// memory runs out, all stays as it was.
pub fn record(
    values: &mut Vec<Option<Value>>,
    changes: &mut Vec<Change>,
    slot: u32,
    value: Option<Value>,
) -> Result<(), Refused>
    requires { slot < vec_len values.old }
    ensures cells { OnOk result (
        cells_of values.new.items ≡ with_value (cells_of values.old.items) slot value) }
    ensures kept { (count : ℕ) → slot < count →
        before changes.new.items (take count (cells_of values.new.items))
        ≡ before changes.old.items (take count (cells_of values.old.items)) }
    ensures slots { (count : ℕ) → slot < count →
        AreBelow count changes.old.items → AreBelow count changes.new.items }
    ensures err { OnErr result (values.new ≡ values.old) }
    ensures unrecorded { OnErr result (changes.new.items ≡ changes.old.items) }
    ensures full { OnErr result (vec_capacity changes.new ≡ vec_capacity changes.old) }
    ensures returned { IfErr result (λ refused. refused.0 ≡ value) }
    ensures length { vec_len values.new ≡ vec_len values.old }
    ensures count { vec_len changes.new ≤ vec_len changes.old + 1 }
    ensures room { vec_capacity values.new ≡ vec_capacity values.old }
    ensures capacity { vec_capacity changes.old ≤ vec_capacity changes.new }
    ensures within { vec_len changes.old < vec_capacity changes.old → IsOk result }
{
    if let Err(_) = changes.reserve(1) {
        return Err(Refused(value));
    }
    let before = mem::replace(&mut values[slot as usize], value);
    let Ok(()) = changes.push(Change { slot, before }) else {
        unreachable!();
    };
    Ok(())
}

/// Takes the recorded writes back, the last of them first.
pub fn take_back(values: &mut Vec<Option<Value>>, changes: &mut Vec<Change>)
    requires { AreBelow (vec_len values.old) changes.old.items }
    ensures cells { cells_of values.new.items
        ≡ before changes.old.items (cells_of values.old.items) }
    ensures length { vec_len values.new ≡ vec_len values.old }
    ensures room { vec_capacity values.new ≡ vec_capacity values.old }
    ensures changes { changes.new.items ≡ [] }
    ensures capacity { vec_capacity changes.new ≡ vec_capacity changes.old }
{
    while let Some(change) = changes.pop() {
        put(values, change.slot, change.before);
    }
}
