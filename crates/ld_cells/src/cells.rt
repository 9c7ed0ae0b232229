//! The cells of a run's state.
ghost use Rattle.std.specs.Prelude.{◌≡◌, ◌↔◌, ◌<◌, ◌≤◌, ◌+◌, ◌-◌, ◌^◌, ◌++◌, ◌∷◌, [], length, false, IfOk, OnOk, OnErr, IfErr, IsOk, IfSome, IsSome, option_copied};
ghost use Rattle.ld_cells.specs.Stored.{Stored, IsHeldAt, KeepsCellRoom, held, marked_cells, with_value};

use crate::change::Change;
use crate::recorded::{append, put, record, same_cell, take_back};
use crate::refused::Refused;
use crate::savepoint::Savepoint;
use crate::undo_log::UndoLog;
use ld_base::{NoMemory, Steps};
use ld_value::Value;
use std::alloc::Global;
use std::marker::Model;
use std::mem;
use std::sync::ledger::Ledger;

/// Cells by slot, counted from 0, each with a value or none. Under a savepoint, what a write
/// replaces is recorded, so that it can be rolled back.
#[derive(Drop)]
pub struct Cells {
    values: Vec<Option<Value>>,
    changes: Vec<Change>,
    savepoint: Option<Savepoint>,
}

impl Model for Cells {
    ghost use Rattle.std.specs.Prelude.{option_map, vec_len, vec_capacity, ◌-◌};
    ghost use Rattle.ld_cells.specs.Stored.{Stored, cells_of};

    ghost Value = { Stored };

    ghost use Rattle.ld_cells.specs.Recorded.{kept_at, IsSound};

    ghost view = { λ s. record {
      cells = cells_of s.values.items;
      kept = option_map (kept_at s.changes.items (cells_of s.values.items)) s.savepoint;
      spare = vec_capacity s.changes - vec_len s.changes;
      room = vec_capacity s.values - vec_len s.values;
    } };

    ghost invariant = { λ s. IsSound s.values s.changes s.savepoint };
}

impl Cells {
    /// No cells and no savepoint, which takes no memory.
    pub fn new(alloc: Global) -> Cells
        ensures cells { result.cells ≡ [] }
        ensures no_savepoint { result.kept ≡ None }
        ensures spare { result.spare ≡ 0 }
    {
        Cells {
            values: Vec::new(alloc),
            changes: Vec::new(alloc),
            savepoint: None,
        }
    }

    /// Makes room for this many more cells, and for recording this many writes. The cells, and what
    /// is kept at the savepoint, stay as they are, also where memory runs out.
    pub fn reserve(&mut self, cells: u32, writes: u32) -> Result<(), NoMemory>
        ensures ok { OnOk result ((cells ≤ self.new.room) × (writes ≤ self.new.spare)) }
        ensures within { cells ≤ self.old.room → writes ≤ self.old.spare → IsOk result }
        ensures cells { self.new.cells ≡ self.old.cells }
        ensures kept { self.new.kept ≡ self.old.kept }
        ensures spare { self.old.spare ≤ self.new.spare }
        ensures room { self.old.room ≤ self.new.room }
    {
        self.values.reserve(cells as usize)?;
        self.changes.reserve(writes as usize)?;
        Ok(())
    }

    /// Exchanges the room for recording writes with that of the log. It takes no memory.
    pub fn exchange(&mut self, log: &mut UndoLog)
        requires { self.old.kept ≡ None }
        ensures rest { self.new ≡ record self.old { spare = log.old } }
        ensures log { log.new ≡ self.old.spare }
    {
        mem::swap(&mut self.changes, &mut log.changes);
    }

    /// The number of cells.
    pub fn len(&self) -> u32
        ensures { result ≡ length self.now.cells }
    {
        self.values.len() as u32
    }

    /// Appends a cell and answers its slot. A refusal comes where memory runs out, and changes
    /// nothing; it cannot come where there is room.
    pub fn add(&mut self, value: Option<Value>) -> Result<u32, Refused>
        requires { length self.old.cells < 2 ^ 32 - 1 }
        ensures slot { IfOk result (λ slot. slot ≡ length self.old.cells) }
        ensures cells { OnOk result (self.new.cells ≡ self.old.cells ++ held value ∷ []) }
        ensures refused { OnErr result (self.new ≡ self.old) }
        ensures returned { IfErr result (λ refused. refused.0 ≡ value) }
        ensures within { 0 < self.old.room → IsOk result }
        ensures kept { self.new.kept ≡ self.old.kept }
        ensures spare { self.new.spare ≡ self.old.spare }
        ensures room { KeepsCellRoom self.old self.new }
    {
        let slot = self.len();
        append(&mut self.values, value)?;
        Ok(slot)
    }

    /// What the slot holds; None exactly where it has no value. It counts as one step.
    pub fn read<L: Ledger>(&self, slot: u32, steps: &mut Steps<L>) -> Option<&Value>
        requires { slot < length self.now.cells }
        ensures value { IsHeldAt self.now.cells slot (option_copied result) }
        ensures steps { steps.new ≡ steps.old + 1 }
    {
        steps.tick();
        self.values[slot as usize].as_ref()
    }

    /// Gives the slot this value, or none, and answers whether that changed what it holds. A
    /// refusal comes where memory runs out, and changes nothing; it cannot come within the spare or
    /// where there is no savepoint.
    pub fn write(&mut self, slot: u32, value: Option<Value>) -> Result<bool, Refused>
        requires { slot < length self.old.cells }
        ensures cells { OnOk result (self.new.cells ≡ with_value self.old.cells slot value) }
        ensures answer { IfOk result (λ changed.
            (changed ≡ false) ↔ IsHeldAt self.old.cells slot value) }
        ensures same { result ≡ Ok false → self.new ≡ self.old }
        ensures refused { OnErr result (self.new ≡ self.old) }
        ensures returned { IfErr result (λ refused. refused.0 ≡ value) }
        ensures within { 0 < self.old.spare → IsOk result }
        ensures no_savepoint { self.old.kept ≡ None → IsOk result × (self.new.spare ≡ self.old.spare) }
        ensures kept { self.new.kept ≡ self.old.kept }
        ensures spare { self.old.spare ≤ self.new.spare + 1 }
        ensures room { self.new.room ≡ self.old.room }
    {
        let index = slot as usize;
        if same_cell(&self.values[index], &value) {
            return Ok(false);
        }
        match self.savepoint {
            Some(savepoint) if index < savepoint.cells => {
                record(&mut self.values, &mut self.changes, slot, value)?;
                Ok(true)
            }
            _ => {
                put(&mut self.values, slot, value);
                Ok(true)
            }
        }
    }

    /// Keeps the present cells, to which `undo` goes back.
    pub fn mark(&mut self)
        requires { self.old.kept ≡ None }
        ensures { self.new ≡ marked_cells self.old }
    {
        self.savepoint = Some(Savepoint {
            cells: self.values.len(),
            spare: self.changes.capacity(),
        });
    }

    /// Gives back the cells as they were at the savepoint, and no others. Its time grows with the
    /// writes that were recorded and the cells that were added since.
    pub fn undo(&mut self)
        requires { IsSome self.old.kept }
        ensures cells { IfSome self.old.kept (λ kept. self.new.cells ≡ kept.cells) }
        ensures no_savepoint { self.new.kept ≡ None }
        ensures mark_spare { IfSome self.old.kept (λ kept. kept.spare ≤ self.new.spare) }
        ensures spare { self.old.spare ≤ self.new.spare }
        ensures room { KeepsCellRoom self.old self.new }
    {
        let Some(savepoint) = self.savepoint.take() else {
            unreachable!();
        };
        self.values.truncate(savepoint.cells);
        take_back(&mut self.values, &mut self.changes);
    }

    /// Gives up what was kept at the savepoint. Its time grows with the writes that were recorded.
    pub fn keep(&mut self)
        requires { IsSome self.old.kept }
        ensures cells { self.new.cells ≡ self.old.cells }
        ensures no_savepoint { self.new.kept ≡ None }
        ensures mark_spare { IfSome self.old.kept (λ kept. kept.spare ≤ self.new.spare) }
        ensures spare { self.old.spare ≤ self.new.spare }
        ensures room { self.new.room ≡ self.old.room }
    {
        self.changes.clear();
        self.savepoint = None;
    }
}
