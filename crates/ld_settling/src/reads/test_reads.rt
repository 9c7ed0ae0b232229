//! Which cells a test reads.
ghost use Rattle.std.specs.Prelude.{◌+◌, ◌≤◌, ◌++◌, flat_map, length, OnErr, OnOk};
ghost use Rattle.ld_model.specs.Expressions.{tests_from};
ghost use Rattle.ld_expr.specs.Looks.{members_looks, test_looks, tests_looks};
ghost use Rattle.ld_expr.specs.Membership.{is_member, members, members_of};
ghost use Rattle.ld_expr.specs.Owners.{of_person};
ghost use Rattle.ld_expr.specs.Seen.{everyone};
ghost use Rattle.ld_state.specs.RunState.{seen_in};
ghost use Rattle.ld_state.specs.StateView.{run_of};
ghost use Rattle.ld_settling.specs.Gathering.{FallsShort, Gathers, cells_if};

use crate::reads::marks::read_mark;
use crate::reads::members::{read_member, read_members};
use crate::reads::reader::Reader;
use crate::reads::terms::{read_both, read_property};
use ld_base::{Id, NoMemory, PersonNo, RoleNo, Steps};
use ld_graph::SlotList;
use ld_model::{Owner, Test, TestForm};
use std::sync::ledger::Ledger;

/// Gathers what is read to know whether the test holds for the owner. It takes at most a step for
/// each cell at which the test looks.
#[cycle(tests)]
pub(crate) fn read_test<L: Ledger>(
    reader: &Reader<'_>,
    owner: Owner,
    test: &Test,
    list: &mut SlotList,
    steps: &mut Steps<L>,
) -> Result<(), NoMemory>
    ensures gathers { OnOk result (Gathers reader.now.unit.now (run_of reader.now.state.now)
        (test_looks reader.now.unit.now
        (seen_in reader.now.unit.now (run_of reader.now.state.now)) owner test.now)
        list.old list.new) }
    ensures short { OnErr result (FallsShort reader.now.unit.now (run_of reader.now.state.now)
        (test_looks reader.now.unit.now
        (seen_in reader.now.unit.now (run_of reader.now.state.now)) owner test.now)
        list.old) }
    ensures room { list.old.room ≤ list.new.room }
    ensures cost { steps.new ≤ steps.old + length (test_looks reader.now.unit.now
        (seen_in reader.now.unit.now (run_of reader.now.state.now)) owner test.now) }
{
    match &*test.form {
        TestForm::Is(a, b) => read_both(reader, owner, a, b, list),
        TestForm::IsNot(a, b) => read_both(reader, owner, a, b, list),
        TestForm::GreaterThan(a, b) => read_both(reader, owner, a, b, list),
        TestForm::LessThan(a, b) => read_both(reader, owner, a, b, list),
        TestForm::And(tests) => read_tests(reader, owner, tests, list, steps),
        TestForm::Or(tests) => read_tests(reader, owner, tests, list, steps),
        TestForm::Not(test) => read_test(reader, owner, test, list, steps),
        TestForm::NoValue(property) => read_property(reader, owner, property, list),
        TestForm::IsMemberOfRole(role) => read_member(reader, owner, role, list),
        TestForm::UsersInRole(role, test) => read_users(reader, role, test, list, steps),
        TestForm::Complete(thing) => read_mark(reader, owner, thing, list),
    }
}

/// Gathers what is read to know which of the tests hold.
#[cycle(tests)]
fn read_tests<L: Ledger>(
    reader: &Reader<'_>,
    owner: Owner,
    tests: &[Test],
    list: &mut SlotList,
    steps: &mut Steps<L>,
) -> Result<(), NoMemory>
    ensures gathers { OnOk result (Gathers reader.now.unit.now (run_of reader.now.state.now)
        (tests_looks reader.now.unit.now
        (seen_in reader.now.unit.now (run_of reader.now.state.now)) owner (tests_from tests.now))
        list.old list.new) }
    ensures short { OnErr result (FallsShort reader.now.unit.now (run_of reader.now.state.now)
        (tests_looks reader.now.unit.now
        (seen_in reader.now.unit.now (run_of reader.now.state.now)) owner (tests_from tests.now))
        list.old) }
    ensures room { list.old.room ≤ list.new.room }
    ensures cost { steps.new ≤ steps.old + length (tests_looks reader.now.unit.now
        (seen_in reader.now.unit.now (run_of reader.now.state.now)) owner (tests_from tests.now)) }
{
    for test in tests {
        read_test(reader, owner, test, list, steps)?;
    }
    Ok(())
}

/// Gathers what is read to know whether the test holds for the members of the role: who they are,
/// and what the test reads for each. It takes at most a step for each cell.
#[cycle(tests)]
pub(crate) fn read_users<L: Ledger>(
    reader: &Reader<'_>,
    role: &Id,
    test: &Test,
    list: &mut SlotList,
    steps: &mut Steps<L>,
) -> Result<(), NoMemory>
    ensures gathers { OnOk result (Gathers reader.now.unit.now (run_of reader.now.state.now)
        (members_looks reader.now.unit.now
        (seen_in reader.now.unit.now (run_of reader.now.state.now)) role.now
        ++ flat_map (λ p. test_looks reader.now.unit.now
        (seen_in reader.now.unit.now (run_of reader.now.state.now)) (of_person p) test.now)
        (members_of reader.now.unit.now
        (seen_in reader.now.unit.now (run_of reader.now.state.now)) role.now))
        list.old list.new) }
    ensures short { OnErr result (FallsShort reader.now.unit.now (run_of reader.now.state.now)
        (members_looks reader.now.unit.now
        (seen_in reader.now.unit.now (run_of reader.now.state.now)) role.now
        ++ flat_map (λ p. test_looks reader.now.unit.now
        (seen_in reader.now.unit.now (run_of reader.now.state.now)) (of_person p) test.now)
        (members_of reader.now.unit.now
        (seen_in reader.now.unit.now (run_of reader.now.state.now)) role.now))
        list.old) }
    ensures room { list.old.room ≤ list.new.room }
    ensures cost { steps.new ≤ steps.old + length (members_looks reader.now.unit.now
        (seen_in reader.now.unit.now (run_of reader.now.state.now)) role.now
        ++ flat_map (λ p. test_looks reader.now.unit.now
        (seen_in reader.now.unit.now (run_of reader.now.state.now)) (of_person p) test.now)
        (members_of reader.now.unit.now
        (seen_in reader.now.unit.now (run_of reader.now.state.now)) role.now)) }
{
    read_members(reader, role, list)?;
    match reader.role(role) {
        Some(role) => read_for_members(reader, role, test, list, steps),
        None => Ok(()),
    }
}

/// Gathers what the test reads for each member of the role. It takes a step for each person, to
/// know whether the person is one, and the steps that the test takes.
#[cycle(tests)]
fn read_for_members<L: Ledger>(
    reader: &Reader<'_>,
    role: RoleNo,
    test: &Test,
    list: &mut SlotList,
    steps: &mut Steps<L>,
) -> Result<(), NoMemory>
    ensures gathers { OnOk result (Gathers reader.now.unit.now (run_of reader.now.state.now)
        (flat_map (λ p. test_looks reader.now.unit.now
        (seen_in reader.now.unit.now (run_of reader.now.state.now)) (of_person p) test.now)
        (members (seen_in reader.now.unit.now (run_of reader.now.state.now)) role.0))
        list.old list.new) }
    ensures short { OnErr result (FallsShort reader.now.unit.now (run_of reader.now.state.now)
        (flat_map (λ p. test_looks reader.now.unit.now
        (seen_in reader.now.unit.now (run_of reader.now.state.now)) (of_person p) test.now)
        (members (seen_in reader.now.unit.now (run_of reader.now.state.now)) role.0))
        list.old) }
    ensures room { list.old.room ≤ list.new.room }
    ensures cost { steps.new ≤ steps.old
        + (length (everyone (seen_in reader.now.unit.now (run_of reader.now.state.now)))
        + length (flat_map (λ p. test_looks reader.now.unit.now
        (seen_in reader.now.unit.now (run_of reader.now.state.now)) (of_person p) test.now)
        (members (seen_in reader.now.unit.now (run_of reader.now.state.now)) role.0))) }
{
    for number in 0..reader.persons() {
        read_for_member(reader, role, PersonNo(number), test, list, steps)?;
    }
    Ok(())
}

/// Gathers what the test reads for the person, if the person is a member of the role.
#[cycle(tests)]
fn read_for_member<L: Ledger>(
    reader: &Reader<'_>,
    role: RoleNo,
    person: PersonNo,
    test: &Test,
    list: &mut SlotList,
    steps: &mut Steps<L>,
) -> Result<(), NoMemory>
    ensures gathers { OnOk result (Gathers reader.now.unit.now (run_of reader.now.state.now)
        (cells_if (is_member (seen_in reader.now.unit.now (run_of reader.now.state.now))
        role.0 person.0) (test_looks reader.now.unit.now
        (seen_in reader.now.unit.now (run_of reader.now.state.now)) (of_person person.0) test.now))
        list.old list.new) }
    ensures short { OnErr result (FallsShort reader.now.unit.now (run_of reader.now.state.now)
        (cells_if (is_member (seen_in reader.now.unit.now (run_of reader.now.state.now))
        role.0 person.0) (test_looks reader.now.unit.now
        (seen_in reader.now.unit.now (run_of reader.now.state.now)) (of_person person.0) test.now))
        list.old) }
    ensures room { list.old.room ≤ list.new.room }
    ensures cost { steps.new ≤ steps.old + (1 + length (cells_if
        (is_member (seen_in reader.now.unit.now (run_of reader.now.state.now)) role.0 person.0)
        (test_looks reader.now.unit.now (seen_in reader.now.unit.now (run_of reader.now.state.now))
        (of_person person.0) test.now))) }
{
    if !reader.is_member(role, person, steps) {
        return Ok(());
    }
    read_test(reader, Owner::Person(person), test, list, steps)
}
