//! Gathering the slots of cells.
ghost use Rattle.std.specs.Prelude.{◌≡◌, ◌+◌, ◌∷◌, ◌≤◌, ◌<◌, ◌⊎◌, [], length, Contains, IfOk, OnErr, OnOk, option_map};
ghost use Rattle.ld_expr.specs.Membership.{is_member};
ghost use Rattle.ld_names.specs.Names.{role_number};
ghost use Rattle.ld_rules.specs.SiteLooks.{cell_list};
ghost use Rattle.ld_state.specs.RunState.{seen_in};
ghost use Rattle.ld_state.specs.StateView.{IsStateOf, run_of};
ghost use Rattle.ld_settling.specs.Gathering.{FallsShort, Gathers, with_slot};

use ld_base::{Id, NoMemory, PersonNo, RoleNo, Steps};
use ld_expr::{role_number, says_yes};
use ld_graph::SlotList;
use ld_model::{CellName, View};
use ld_rules::PreparedUnit;
use ld_state::State;
use std::alloc::Global;
use std::sync::ledger::Ledger;

/// A run, whose sites' reads are gathered: its unit, and its state.
#[derive(Drop)]
pub(crate) struct Reader<'a> {
    pub(crate) alloc: Global,
    pub(crate) unit: &'a PreparedUnit,
    pub(crate) state: &'a State,
    ghost own: { IsStateOf unit.now state.now },
}

impl<'a> Reader<'a> {
    /// Adds the slot of the cell, if the run has the cell and the slot is not in the list. Where
    /// there is no room for it, the list gets more. The only error is out of memory.
    pub(crate) fn put(&self, cell: CellName, list: &mut SlotList) -> Result<(), NoMemory>
        ensures gathers { OnOk result (Gathers self.now.unit.now (run_of self.now.state.now)
            (cell ∷ []) list.old list.new) }
        ensures short { OnErr result (FallsShort self.now.unit.now (run_of self.now.state.now)
            (cell ∷ []) list.old) }
        ensures room { list.old.room ≤ list.new.room }
    {
        let Some(slot) = self.state.slot(cell) else {
            return Ok(());
        };
        put_slot(self.alloc, slot, list)
    }

    /// The same of a cell that there need not be.
    pub(crate) fn put_if(&self, cell: Option<CellName>, list: &mut SlotList) -> Result<(), NoMemory>
        ensures gathers { OnOk result (Gathers self.now.unit.now (run_of self.now.state.now)
            (cell_list cell) list.old list.new) }
        ensures short { OnErr result (FallsShort self.now.unit.now (run_of self.now.state.now)
            (cell_list cell) list.old) }
        ensures room { list.old.room ≤ list.new.room }
    {
        match cell {
            Some(cell) => self.put(cell, list),
            None => Ok(()),
        }
    }

    /// The number of persons. It takes no memory.
    pub(crate) fn persons(&self) -> u32
        ensures { result ≡ length (run_of self.now.state.now).persons }
    {
        self.state.persons()
    }

    /// The number of the role that the identifier names; None exactly where it names none. It takes
    /// no memory.
    pub(crate) fn role(&self, id: &Id) -> Option<RoleNo>
        ensures number { option_map (λ role. role.0) result ≡ role_number self.now.unit.now id.now }
    {
        role_number(self.unit.unit(), self.unit.names(), id)
    }

    /// Whether the person is a member of the role. It is one step, and takes no memory.
    pub(crate) fn is_member<L: Ledger>(
        &self,
        role: RoleNo,
        person: PersonNo,
        steps: &mut Steps<L>,
    ) -> bool
        ensures value { result ≡ is_member (seen_in self.now.unit.now (run_of self.now.state.now))
            role.0 person.0 }
        ensures cost { steps.new ≡ steps.old + 1 }
    {
        says_yes(self.state, CellName::Member(role, person), steps)
    }
}

/// Adds the slot, if it is not in the list. Where there is no room for it, the list gets more.
fn put_slot(alloc: Global, slot: u32, list: &mut SlotList) -> Result<(), NoMemory>
    ensures put { OnOk result (list.new.items ≡ with_slot list.old.items slot) }
    ensures short { OnErr result (list.old.room < length (with_slot list.old.items slot)) }
    ensures room { list.old.room ≤ list.new.room }
{
    make_room(alloc, slot, list)?;
    list.put(slot);
    Ok(())
}

/// Makes room for the slot, if it is not in the list and the list is full.
fn make_room(alloc: Global, slot: u32, list: &mut SlotList) -> Result<(), NoMemory>
    ensures fits { OnOk result (Contains list.new.items slot
        ⊎ (length list.new.items < list.new.room)) }
    ensures short { OnErr result (list.old.room < length (with_slot list.old.items slot)) }
    ensures items { list.new.items ≡ list.old.items }
    ensures room { list.old.room ≤ list.new.room }
{
    if list.len() < list.room() as usize {
        return Ok(());
    }
    if list.contains(slot) {
        return Ok(());
    }
    grow(alloc, list)
}

/// Makes the room about twice as large. A refusal comes where memory runs out, and changes nothing.
fn grow(alloc: Global, list: &mut SlotList) -> Result<(), NoMemory>
    ensures more { OnOk result (list.old.room < list.new.room) }
    ensures items { list.new.items ≡ list.old.items }
    ensures room { list.old.room ≤ list.new.room }
{
    let room = list.room();
    if room > u32::MAX / 2 {
        return Err(NoMemory);
    }
    *list = widened(alloc, list, room * 2 + 1)?;
    Ok(())
}

/// The same slots in a list with this room.
fn widened(alloc: Global, list: &SlotList, room: u32) -> Result<SlotList, NoMemory>
    requires { list.now.room < room }
    ensures items { IfOk result (λ wide. wide.items ≡ list.now.items) }
    ensures room { IfOk result (λ wide. wide.room ≡ room) }
{
    let mut wide = SlotList::with_room(alloc, room)?;
    let slots = list.as_slice();
    for slot in slots {
        wide.put(*slot);
    }
    Ok(wide)
}
