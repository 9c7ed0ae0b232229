//! Which cells are read to know who is a member of a role, and what members have done.
ghost use Rattle.std.specs.Prelude.{◌≡◌, ◌+◌, ◌≤◌, flat_map, length, map, OnErr, OnOk};
ghost use Rattle.ld_expr.specs.Looks.{done_looks, member_looks, members_looks};
ghost use Rattle.ld_expr.specs.Membership.{is_member, members, members_of};
ghost use Rattle.ld_expr.specs.Owners.{of_person};
ghost use Rattle.ld_expr.specs.Seen.{everyone, member_cell};
ghost use Rattle.ld_state.specs.RunState.{seen_in};
ghost use Rattle.ld_state.specs.StateView.{run_of};
ghost use Rattle.ld_settling.specs.Gathering.{FallsShort, Gathers, cells_if};

use crate::reads::marks::read_mark;
use crate::reads::reader::Reader;
use ld_base::{Id, NoMemory, PersonNo, RoleNo, Steps};
use ld_graph::SlotList;
use ld_model::{CellName, Owner};
use std::sync::ledger::Ledger;

/// Gathers what is read to know whether the owner is a member of the role.
pub(crate) fn read_member(
    reader: &Reader<'_>,
    owner: Owner,
    role: &Id,
    list: &mut SlotList,
) -> Result<(), NoMemory>
    ensures gathers { OnOk result (Gathers reader.now.unit.now (run_of reader.now.state.now)
        (member_looks reader.now.unit.now
        (seen_in reader.now.unit.now (run_of reader.now.state.now)) owner role.now)
        list.old list.new) }
    ensures short { OnErr result (FallsShort reader.now.unit.now (run_of reader.now.state.now)
        (member_looks reader.now.unit.now
        (seen_in reader.now.unit.now (run_of reader.now.state.now)) owner role.now) list.old) }
    ensures room { list.old.room ≤ list.new.room }
{
    let person = match owner {
        Owner::Person(person) => person,
        Owner::Run => return Ok(()),
    };
    match reader.role(role) {
        Some(role) => reader.put(CellName::Member(role, person), list),
        None => Ok(()),
    }
}

/// Gathers what is read to know who the members of the role are.
pub(crate) fn read_members(
    reader: &Reader<'_>,
    role: &Id,
    list: &mut SlotList,
) -> Result<(), NoMemory>
    ensures gathers { OnOk result (Gathers reader.now.unit.now (run_of reader.now.state.now)
        (members_looks reader.now.unit.now
        (seen_in reader.now.unit.now (run_of reader.now.state.now)) role.now)
        list.old list.new) }
    ensures short { OnErr result (FallsShort reader.now.unit.now (run_of reader.now.state.now)
        (members_looks reader.now.unit.now
        (seen_in reader.now.unit.now (run_of reader.now.state.now)) role.now)
        list.old) }
    ensures room { list.old.room ≤ list.new.room }
{
    reader.put(CellName::Roster, list)?;
    match reader.role(role) {
        Some(role) => read_everyone(reader, role, list),
        None => Ok(()),
    }
}

/// Gathers the cells that say of each person whether the person is a member of the role.
fn read_everyone(reader: &Reader<'_>, role: RoleNo, list: &mut SlotList) -> Result<(), NoMemory>
    ensures gathers { OnOk result (Gathers reader.now.unit.now (run_of reader.now.state.now)
        (map (member_cell role.0)
        (everyone (seen_in reader.now.unit.now (run_of reader.now.state.now))))
        list.old list.new) }
    ensures short { OnErr result (FallsShort reader.now.unit.now (run_of reader.now.state.now)
        (map (member_cell role.0)
        (everyone (seen_in reader.now.unit.now (run_of reader.now.state.now))))
        list.old) }
    ensures room { list.old.room ≤ list.new.room }
{
    for number in 0..reader.persons() {
        reader.put(CellName::Member(role, PersonNo(number)), list)?;
    }
    Ok(())
}

/// Gathers what is read to know which members of the role have done the target. It takes a step for
/// each person, to know whether the person is a member.
pub(crate) fn read_members_marks<L: Ledger>(
    reader: &Reader<'_>,
    role: &Id,
    target: &Id,
    list: &mut SlotList,
    steps: &mut Steps<L>,
) -> Result<(), NoMemory>
    ensures gathers { OnOk result (Gathers reader.now.unit.now (run_of reader.now.state.now)
        (flat_map (λ p. done_looks reader.now.unit.now
        (seen_in reader.now.unit.now (run_of reader.now.state.now)) (of_person p) target.now)
        (members_of reader.now.unit.now
        (seen_in reader.now.unit.now (run_of reader.now.state.now)) role.now))
        list.old list.new) }
    ensures short { OnErr result (FallsShort reader.now.unit.now (run_of reader.now.state.now)
        (flat_map (λ p. done_looks reader.now.unit.now
        (seen_in reader.now.unit.now (run_of reader.now.state.now)) (of_person p) target.now)
        (members_of reader.now.unit.now
        (seen_in reader.now.unit.now (run_of reader.now.state.now)) role.now))
        list.old) }
    ensures room { list.old.room ≤ list.new.room }
    ensures cost { steps.new ≤ steps.old + length (members_looks reader.now.unit.now
        (seen_in reader.now.unit.now (run_of reader.now.state.now)) role.now) }
{
    match reader.role(role) {
        Some(role) => read_marks_of_members(reader, role, target, list, steps),
        None => Ok(()),
    }
}

/// The same of a role by its number.
fn read_marks_of_members<L: Ledger>(
    reader: &Reader<'_>,
    role: RoleNo,
    target: &Id,
    list: &mut SlotList,
    steps: &mut Steps<L>,
) -> Result<(), NoMemory>
    ensures gathers { OnOk result (Gathers reader.now.unit.now (run_of reader.now.state.now)
        (flat_map (λ p. done_looks reader.now.unit.now
        (seen_in reader.now.unit.now (run_of reader.now.state.now)) (of_person p) target.now)
        (members (seen_in reader.now.unit.now (run_of reader.now.state.now)) role.0))
        list.old list.new) }
    ensures short { OnErr result (FallsShort reader.now.unit.now (run_of reader.now.state.now)
        (flat_map (λ p. done_looks reader.now.unit.now
        (seen_in reader.now.unit.now (run_of reader.now.state.now)) (of_person p) target.now)
        (members (seen_in reader.now.unit.now (run_of reader.now.state.now)) role.0))
        list.old) }
    ensures room { list.old.room ≤ list.new.room }
    ensures cost { steps.new ≤ steps.old
        + length (everyone (seen_in reader.now.unit.now (run_of reader.now.state.now))) }
{
    for number in 0..reader.persons() {
        read_mark_of(reader, role, PersonNo(number), target, list, steps)?;
    }
    Ok(())
}

/// Gathers what is read to know whether the person has done the target, if the person is a member
/// of the role.
fn read_mark_of<L: Ledger>(
    reader: &Reader<'_>,
    role: RoleNo,
    person: PersonNo,
    target: &Id,
    list: &mut SlotList,
    steps: &mut Steps<L>,
) -> Result<(), NoMemory>
    ensures gathers { OnOk result (Gathers reader.now.unit.now (run_of reader.now.state.now)
        (cells_if (is_member (seen_in reader.now.unit.now (run_of reader.now.state.now))
        role.0 person.0) (done_looks reader.now.unit.now
        (seen_in reader.now.unit.now (run_of reader.now.state.now)) (of_person person.0)
        target.now))
        list.old list.new) }
    ensures short { OnErr result (FallsShort reader.now.unit.now (run_of reader.now.state.now)
        (cells_if (is_member (seen_in reader.now.unit.now (run_of reader.now.state.now))
        role.0 person.0) (done_looks reader.now.unit.now
        (seen_in reader.now.unit.now (run_of reader.now.state.now)) (of_person person.0)
        target.now))
        list.old) }
    ensures room { list.old.room ≤ list.new.room }
    ensures cost { steps.new ≡ steps.old + 1 }
{
    if !reader.is_member(role, person, steps) {
        return Ok(());
    }
    read_mark(reader, Owner::Person(person), target, list)
}
