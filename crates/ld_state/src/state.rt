//! The state of a run.
ghost use Rattle.std.specs.Prelude.{◌≡◌, ◌<◌, ◌≤◌, ◌+◌, ◌++◌, ◌∷◌, [], length, true, false, Some, None, Option, option_map, slice_get, IfOk, IfSome, OnOk, OnErr, IsOk, IsSome, vec_len, vec_capacity};
ghost use Rattle.ld_cells.specs.Stored.{cells_of, held};
ghost use Rattle.ld_model.specs.declared.unit.Unit.{Unit};
ghost use Rattle.ld_roles.specs.Kept.{persons_of};
ghost use Rattle.ld_roles.specs.Persons.{holds_role};
ghost use Rattle.ld_roles.specs.Refusals.{assign_fault, enrol_fault};
ghost use Rattle.ld_roles.specs.RoleBounds.{role_bounds};
ghost use Rattle.ld_roles.specs.declared.limit.TheConstants.{SEATS};
ghost use Rattle.ld_state.specs.Beginnings.{stored_for};
ghost use Rattle.ld_state.specs.GlobalValues.{GlobalValues};
ghost use Rattle.ld_state.specs.Layout.{cells_in, layout_of, slot_in};
ghost use Rattle.ld_state.specs.Notices.{notice_of, notices_of};
ghost use Rattle.ld_state.specs.RunState.{holding, joined, made_at, with_cell, with_notice};
ghost use Rattle.ld_state.specs.StateView.{HasSavedPersons, IsStateOf, has_cell, is_following, with_savepoint, run_before, run_of, slots_of_membership, slots_of_newcomer};

use crate::beginnings::Beginnings;
use crate::membership::{reserve_memberships, write_memberships};
use crate::newcomer::{add_newcomer, begin_own, reserve_newcomer};
use crate::notice::OutNotice;
use crate::slots::Slots;
use crate::writing::{begin_cells, write};
use ld_base::{Id, NoMemory, PersonNo, RoleNo, Steps};
use ld_cells::{Cells, UndoLog};
use ld_model::{CellName, View};
use ld_roles::{RoleTree, Roster};
use ld_value::{Moment, Value};
use std::alloc::Global;
use std::marker::Model;
use std::rc::Rc;
use std::sync::ledger::Ledger;

/// The state of a run: its cells, its persons with the roles that they hold, and the notices that
/// it has sent. Under a savepoint all changes can be rolled back. (docs/MEANING.md, "The state of a
/// run")
#[derive(Drop)]
pub struct State {
    slots: Rc<Slots>,
    cells: Cells,
    /// Where there is a savepoint, how many notices had been sent then.
    sent: Option<usize>,
    outbox: Vec<OutNotice>,
    roster: Roster,
}

impl Model for State {
    ghost use Rattle.ld_state.specs.StateView.{StateView};

    ghost Value = { StateView };

    ghost use Rattle.ld_state.specs.Parts.{IsState, state_of};

    ghost view = { λ s. state_of s.slots.value s.cells s.roster s.outbox.items s.sent };

    ghost invariant = { λ s. IsState s.slots.value s.cells s.roster s.outbox.items s.sent };
}

impl State {
    /// The state of a run of the unit that is made at this moment: without persons, and with no
    /// savepoint. `slots` and `roles` are the unit's, and `stored` has what the store holds of
    /// each global property.
    pub fn new(
        alloc: Global,
        slots: Rc<Slots>,
        roles: Rc<RoleTree>,
        from: &Beginnings<'_>,
        stored: &[Option<Value>],
        moment: Moment,
    ) -> Result<State, NoMemory>
        requires slots { slots.value ≡ layout_of from.now.unit.now }
        requires roles { roles.value ≡ role_bounds from.now.unit.now }
        requires stored { (store : GlobalValues)
            × (cells_of stored.now ≡ stored_for store None from.now.unit.now.properties) }
        ensures run { (store : GlobalValues)
            → cells_of stored.now ≡ stored_for store None from.now.unit.now.properties
            → IfOk result (λ state. run_of state
            ≡ made_at SEATS from.now.unit.now store moment.0) }
        ensures unit { IfOk result (IsStateOf from.now.unit.now) }
        ensures no_savepoint { IfOk result (λ state. state.kept ≡ None) }
    {
        let cells = begin_cells(alloc, slots.run_cells(), from, stored, moment)?;
        Ok(State {
            slots,
            cells,
            sent: None,
            outbox: Vec::new(alloc),
            roster: Roster::new(alloc, roles),
        })
    }

    /// The slot of the cell; None exactly where the state has no such cell. It takes no memory.
    pub fn slot(&self, cell: CellName) -> Option<u32>
        ensures { result ≡ slot_in self.now.layout (length self.now.rows) cell }
    {
        self.slots.slot(cell, self.roster.persons())
    }

    /// The cell that has the slot; None exactly where there is no such slot. It takes no memory.
    pub fn cell_at(&self, slot: u32) -> Option<CellName>
        ensures { result ≡ slice_get (cells_in self.now.layout (length self.now.rows)) slot }
    {
        self.slots.cell_at(slot, self.roster.persons())
    }

    /// How many slots there are: one for each cell. It takes no memory.
    pub fn slot_count(&self) -> u32
        ensures { result ≡ length (cells_in self.now.layout (length self.now.rows)) }
    {
        self.cells.len()
    }

    /// The persons and the roles that they hold.
    pub fn roster(&self) -> &Roster
        ensures rows { result.now.rows ≡ self.now.rows }
        ensures roles { result.now.roles ≡ self.now.roles }
    {
        &self.roster
    }

    /// The notices, from the oldest on.
    pub fn outbox(&self) -> &[OutNotice]
        ensures { notices_of result.now ≡ self.now.outbox }
    {
        &self.outbox
    }

    /// Gives the cell, which the state has and whose value does not follow from the persons, this
    /// value or none, and tells its slot where that changed its value. A refusal comes where memory
    /// runs out, and changes nothing; it cannot come within the spare and the room of `changed`.
    pub fn set(
        &mut self,
        cell: CellName,
        value: Option<Value>,
        changed: &mut Vec<u32>,
    ) -> Result<(), NoMemory>
        requires cell { has_cell self.old cell ≡ true }
        requires own { is_following cell ≡ false }
        ensures run { OnOk result (run_of self.new
            ≡ with_cell (run_of self.old) cell (held value)) }
        ensures same { OnOk result ((run_of self.old).cells cell ≡ held value
            → changed.new.items ≡ changed.old.items) }
        ensures changed { OnOk result (((run_of self.old).cells cell ≡ held value → ⊥)
            → Some changed.new.items ≡ option_map (λ slot. changed.old.items ++ slot ∷ [])
            (slot_in self.old.layout (length self.old.rows) cell)) }
        ensures rest { self.new
            ≡ record self.old { cells = self.new.cells; spare = self.new.spare } }
        ensures err { OnErr result (self.new ≡ self.old) }
        ensures untold { OnErr result (changed.new.items ≡ changed.old.items) }
        ensures within { 0 < self.old.spare → vec_len changed.old < vec_capacity changed.old
            → IsOk result }
        ensures spare { self.old.spare ≤ self.new.spare + 1 }
        ensures room { vec_capacity changed.old ≤ vec_capacity changed.new }
    {
        match self.slot(cell) {
            Some(slot) => write(&mut self.cells, slot, value, changed),
            None => unreachable!(),
        }
    }

    /// The person joins, last of all, with new cells, and gets the next number. `from` is of the
    /// run's unit, and `stored` has what the store holds of each global property for the person.
    /// The slots of the new cells and that of `Roster` are told. A refusal comes where memory runs
    /// out, and changes nothing.
    pub fn enrol(
        &mut self,
        alloc: Global,
        from: &Beginnings<'_>,
        person: &Id,
        stored: &[Option<Value>],
        moment: Moment,
        changed: &mut Vec<u32>,
    ) -> Result<PersonNo, NoMemory>
        requires own { IsStateOf from.now.unit.now self.old }
        requires stored { (store : GlobalValues) × (cells_of stored.now
            ≡ stored_for store (Some person.now) from.now.unit.now.properties) }
        requires seat { enrol_fault SEATS (persons_of self.old.rows) person.now ≡ None }
        requires saved { HasSavedPersons self.old }
        ensures number { IfOk result (λ number. number.0 ≡ length self.old.rows) }
        ensures run { (store : GlobalValues) → cells_of stored.now
            ≡ stored_for store (Some person.now) from.now.unit.now.properties
            → OnOk result (run_of self.new
            ≡ joined from.now.unit.now store (run_of self.old) moment.0 person.now) }
        ensures changed { OnOk result (changed.new.items
            ≡ changed.old.items ++ slots_of_newcomer self.old) }
        ensures rows { OnOk result (length self.new.rows ≡ length self.old.rows + 1) }
        ensures same { IsStateOf from.now.unit.now self.new }
        ensures kept { self.new.kept ≡ self.old.kept }
        ensures err { OnErr result (self.new ≡ record self.old { spare = self.new.spare }) }
        ensures untold { OnErr result (changed.new.items ≡ changed.old.items) }
        ensures spare { self.old.spare ≤ self.new.spare + 1 }
    {
        reserve_newcomer(&self.slots, &mut self.cells, changed)?;
        let values = begin_own(alloc, self.slots.own_cells(), from, stored, moment)?;
        let persons = self.roster.persons();
        let Ok(number) = self.roster.enrol(person) else {
            return Err(NoMemory);
        };
        add_newcomer(&self.slots, persons, &mut self.cells, values, changed);
        Ok(number)
    }

    /// The person holds the role from now on. The slots of the `Member` cells that change are told,
    /// in the order of the roles. A refusal comes where memory runs out, and changes nothing.
    pub fn assign(
        &mut self,
        person: PersonNo,
        role: RoleNo,
        changed: &mut Vec<u32>,
    ) -> Result<(), NoMemory>
        requires unit { (unit : Unit) × IsStateOf unit self.old }
        requires person { person.0 < length self.old.rows }
        requires role { role.0 < length self.old.roles }
        requires may { assign_fault self.old.roles (persons_of self.old.rows) role.0 person.0
            ≡ None }
        requires saved { HasSavedPersons self.old }
        ensures run { OnOk result
            (run_of self.new ≡ holding (run_of self.old) person.0 role.0 true) }
        ensures changed { OnOk result (changed.new.items ≡ changed.old.items
            ++ slots_of_membership self.old self.new person.0) }
        ensures rows { length self.new.rows ≡ length self.old.rows }
        ensures layout { self.new.layout ≡ self.old.layout }
        ensures roles { self.new.roles ≡ self.old.roles }
        ensures kept { self.new.kept ≡ self.old.kept }
        ensures err { OnErr result (self.new ≡ record self.old { spare = self.new.spare }) }
        ensures untold { OnErr result (changed.new.items ≡ changed.old.items) }
    {
        reserve_memberships(&self.slots, &mut self.cells, changed)?;
        let Ok(()) = self.roster.assign(person, role) else {
            unreachable!();
        };
        write_memberships(&self.slots, &self.roster, person, &mut self.cells, changed);
        Ok(())
    }

    /// The person holds the role no longer. The slots of the `Member` cells that change are told,
    /// in the order of the roles. A refusal comes where memory runs out, and changes nothing.
    /// Whether a role would be short of members is not asked here.
    pub fn drop_role(
        &mut self,
        person: PersonNo,
        role: RoleNo,
        changed: &mut Vec<u32>,
    ) -> Result<(), NoMemory>
        requires unit { (unit : Unit) × IsStateOf unit self.old }
        requires person { person.0 < length self.old.rows }
        requires role { role.0 < length self.old.roles }
        requires held { holds_role (persons_of self.old.rows) role.0 person.0 ≡ true }
        requires saved { HasSavedPersons self.old }
        ensures run { OnOk result
            (run_of self.new ≡ holding (run_of self.old) person.0 role.0 false) }
        ensures changed { OnOk result (changed.new.items ≡ changed.old.items
            ++ slots_of_membership self.old self.new person.0) }
        ensures rows { length self.new.rows ≡ length self.old.rows }
        ensures layout { self.new.layout ≡ self.old.layout }
        ensures roles { self.new.roles ≡ self.old.roles }
        ensures kept { self.new.kept ≡ self.old.kept }
        ensures err { OnErr result (self.new ≡ record self.old { spare = self.new.spare }) }
        ensures untold { OnErr result (changed.new.items ≡ changed.old.items) }
    {
        reserve_memberships(&self.slots, &mut self.cells, changed)?;
        let Ok(()) = self.roster.drop_role(person, role, false) else {
            unreachable!();
        };
        write_memberships(&self.slots, &self.roster, person, &mut self.cells, changed);
        Ok(())
    }

    /// Sends the notice. A refusal comes where memory runs out, and changes nothing.
    pub fn send(&mut self, notice: OutNotice) -> Result<(), NoMemory>
        ensures run { OnOk result
            (run_of self.new ≡ with_notice (run_of self.old) (notice_of notice)) }
        ensures rest { OnOk result (self.new ≡ record self.old { outbox = self.new.outbox }) }
        ensures err { OnErr result (self.new ≡ self.old) }
    {
        self.outbox.push(notice)?;
        Ok(())
    }

    /// Keeps the present state, to which `undo` goes back. It takes no memory.
    pub fn mark(&mut self)
        requires { self.old.kept ≡ None }
        ensures { self.new ≡ with_savepoint self.old }
    {
        self.cells.mark();
        self.roster.mark();
        self.sent = Some(self.outbox.len());
    }

    /// Gives back the state at the savepoint: its cells, persons and notices, and no others. It
    /// takes no memory, and time as what was done since.
    pub fn undo(&mut self)
        requires { IsSome self.old.kept }
        ensures run { Some (run_of self.new) ≡ run_before self.old }
        ensures layout { self.new.layout ≡ self.old.layout }
        ensures roles { self.new.roles ≡ self.old.roles }
        ensures no_savepoint { self.new.kept ≡ None }
        ensures mark_spare { IfSome self.old.kept (λ kept. kept.spare ≤ self.new.spare) }
        ensures spare { self.old.spare ≤ self.new.spare }
    {
        let Some(sent) = self.sent.take() else {
            unreachable!();
        };
        self.outbox.truncate(sent);
        self.cells.undo();
        self.roster.undo();
    }

    /// Gives up what was kept at the savepoint; what is there now stays. It takes no memory.
    pub fn keep(&mut self)
        requires { IsSome self.old.kept }
        ensures rest { self.new ≡ record self.old { kept = None; spare = self.new.spare } }
        ensures mark_spare { IfSome self.old.kept (λ kept. kept.spare ≤ self.new.spare) }
        ensures spare { self.old.spare ≤ self.new.spare }
    {
        self.cells.keep();
        self.roster.keep();
        self.sent = None;
    }

    /// Exchanges the room for recording writes to cells with that of the log. It takes no memory.
    pub fn exchange(&mut self, log: &mut UndoLog)
        requires { self.old.kept ≡ None }
        ensures rest { self.new ≡ record self.old { spare = log.old } }
        ensures log { log.new ≡ self.old.spare }
    {
        self.cells.exchange(log);
    }

    /// Makes room for this many writes under a savepoint. It changes nothing else, also where
    /// memory runs out.
    pub fn reserve(&mut self, writes: u32) -> Result<(), NoMemory>
        ensures ok { OnOk result (writes ≤ self.new.spare) }
        ensures within { writes ≤ self.old.spare → IsOk result }
        ensures rest { self.new ≡ record self.old { spare = self.new.spare } }
        ensures spare { self.old.spare ≤ self.new.spare }
    {
        self.cells.reserve(0, writes)
    }
}

impl View for State {
    ghost use Rattle.ld_state.specs.StateView.{seen_of};

    ghost seen = { seen_of };

    fn persons(&self) -> u32 {
        self.roster.persons()
    }

    fn get<L: Ledger>(&self, cell: CellName, steps: &mut Steps<L>) -> Option<&Value> {
        match self.slot(cell) {
            Some(slot) => self.cells.read(slot, steps),
            None => {
                steps.tick();
                None
            }
        }
    }
}
