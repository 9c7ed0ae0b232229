//! Which cells the rules for one person read.
ghost use Rattle.std.specs.Prelude.{◌≡◌, ◌+◌, ◌≤◌, OnErr, OnOk, Some, length, map, slice_get};
ghost use Rattle.ld_expr.specs.Looks.{test_looks};
ghost use Rattle.ld_expr.specs.Owners.{of_person};
ghost use Rattle.ld_expr.specs.Seen.{member_cell};
ghost use Rattle.ld_rules.specs.SiteLooks.{site_activity_looks, all_done_looks, person_looks, reaching_roles};
ghost use Rattle.ld_state.specs.RunState.{seen_in};
ghost use Rattle.ld_state.specs.StateView.{run_of};
ghost use Rattle.ld_settling.specs.Gathering.{FallsShort, Gathers};

use crate::reads::completion::read_completion;
use crate::reads::marks::read_marks;
use crate::reads::reader::Reader;
use crate::reads::test_reads::read_test;
use ld_base::{NoMemory, PersonNo, RoleNo, Steps};
use ld_graph::SlotList;
use ld_model::{Activity, CellName, Condition, Owner, Structure};
use ld_names::Rule;
use ld_rules::completing_activity;
use std::sync::ledger::Ledger;

/// Gathers what is read to know what the rule asks of the person; of a rule for the run, nothing.
/// It takes at most a step for each cell at which the rule looks.
pub(crate) fn read_for_person<L: Ledger>(
    reader: &Reader<'_>,
    rule: Rule,
    person: PersonNo,
    list: &mut SlotList,
    steps: &mut Steps<L>,
) -> Result<(), NoMemory>
    ensures gathers { OnOk result (Gathers reader.now.unit.now (run_of reader.now.state.now)
        (person_looks reader.now.unit.now
        (seen_in reader.now.unit.now (run_of reader.now.state.now))
        person.0 rule) list.old list.new) }
    ensures short { OnErr result (FallsShort reader.now.unit.now (run_of reader.now.state.now)
        (person_looks reader.now.unit.now
        (seen_in reader.now.unit.now (run_of reader.now.state.now))
        person.0 rule) list.old) }
    ensures room { list.old.room ≤ list.new.room }
    ensures cost { steps.new ≤ steps.old + length (person_looks reader.now.unit.now
        (seen_in reader.now.unit.now (run_of reader.now.state.now))
        person.0 rule) }
{
    match rule {
        Rule::CompletesActivity(number) => {
            match reader.unit.unit().activities.get(number as usize) {
                Some(activity) => {
                    read_activity(reader, number as usize, activity, person, list, steps)
                }
                None => Ok(()),
            }
        }
        Rule::CompletesStructure(number) => {
            match reader.unit.unit().structures.get(number as usize) {
                Some(structure) => read_structure(reader, structure, person, list),
                None => Ok(()),
            }
        }
        Rule::JudgesCondition(number) => {
            match reader.unit.unit().conditions.get(number as usize) {
                Some(condition) => read_condition(reader, condition, person, list, steps),
                None => Ok(()),
            }
        }
        Rule::OpensAct(_, _)
        | Rule::CompletesPart(_, _, _)
        | Rule::CompletesAct(_, _)
        | Rule::CompletesPlay(_)
        | Rule::CompletesUnit => Ok(()),
    }
}

/// Gathers what is read to know whether the activity, which is the one of this number, is the
/// person's, and whether its completion rule, if there is one, holds.
fn read_activity<L: Ledger>(
    reader: &Reader<'_>,
    number: usize,
    activity: &Activity,
    person: PersonNo,
    list: &mut SlotList,
    steps: &mut Steps<L>,
) -> Result<(), NoMemory>
    requires { slice_get reader.now.unit.now.activities number ≡ Some activity.now }
    ensures gathers { OnOk result (Gathers reader.now.unit.now (run_of reader.now.state.now)
        (site_activity_looks reader.now.unit.now
        (seen_in reader.now.unit.now (run_of reader.now.state.now))
        person.0 activity.now) list.old list.new) }
    ensures short { OnErr result (FallsShort reader.now.unit.now (run_of reader.now.state.now)
        (site_activity_looks reader.now.unit.now
        (seen_in reader.now.unit.now (run_of reader.now.state.now))
        person.0 activity.now) list.old) }
    ensures room { list.old.room ≤ list.new.room }
    ensures cost { steps.new ≤ steps.old + length (site_activity_looks reader.now.unit.now
        (seen_in reader.now.unit.now (run_of reader.now.state.now))
        person.0 activity.now) }
{
    read_mine(reader, number, activity, person, list)?;
    let about = completing_activity(reader.unit.unit(), reader.unit.names(), activity, person);
    read_completion(reader, about, &activity.complete, list, steps)
}

/// Gathers what is read to know whether the activity, which is the one of this number, is the
/// person's: who is a member of the roles that reach it.
fn read_mine(
    reader: &Reader<'_>,
    number: usize,
    activity: &Activity,
    person: PersonNo,
    list: &mut SlotList,
) -> Result<(), NoMemory>
    requires { slice_get reader.now.unit.now.activities number ≡ Some activity.now }
    ensures gathers { OnOk result (Gathers reader.now.unit.now (run_of reader.now.state.now)
        (map (λ r. member_cell r person.0)
        (reaching_roles reader.now.unit.now activity.now.identifier)) list.old list.new) }
    ensures short { OnErr result (FallsShort reader.now.unit.now (run_of reader.now.state.now)
        (map (λ r. member_cell r person.0)
        (reaching_roles reader.now.unit.now activity.now.identifier)) list.old) }
    ensures room { list.old.room ≤ list.new.room }
{
    read_roles(reader, reader.unit.reach().roles(number), person, list)
}

/// Gathers what is read to know of which of the roles the person is a member.
fn read_roles(
    reader: &Reader<'_>,
    roles: &[u32],
    person: PersonNo,
    list: &mut SlotList,
) -> Result<(), NoMemory>
    ensures gathers { OnOk result (Gathers reader.now.unit.now (run_of reader.now.state.now)
        (map (λ r. member_cell r person.0) roles.now) list.old list.new) }
    ensures short { OnErr result (FallsShort reader.now.unit.now (run_of reader.now.state.now)
        (map (λ r. member_cell r person.0) roles.now) list.old) }
    ensures room { list.old.room ≤ list.new.room }
{
    for role in roles {
        reader.put(CellName::Member(RoleNo(*role), person), list)?;
    }
    Ok(())
}

/// Gathers what is read to know which of the structure's children are done for the person.
fn read_structure(
    reader: &Reader<'_>,
    structure: &Structure,
    person: PersonNo,
    list: &mut SlotList,
) -> Result<(), NoMemory>
    ensures gathers { OnOk result (Gathers reader.now.unit.now (run_of reader.now.state.now)
        (all_done_looks reader.now.unit.now
        (seen_in reader.now.unit.now (run_of reader.now.state.now)) (of_person person.0)
        structure.now.children)
        list.old list.new) }
    ensures short { OnErr result (FallsShort reader.now.unit.now (run_of reader.now.state.now)
        (all_done_looks reader.now.unit.now
        (seen_in reader.now.unit.now (run_of reader.now.state.now)) (of_person person.0)
        structure.now.children)
        list.old) }
    ensures room { list.old.room ≤ list.new.room }
{
    let children = structure.children.as_slice();
    read_marks(reader, Owner::Person(person), children, list)
}

/// Gathers what is read to know whether the test of the condition holds for the person.
fn read_condition<L: Ledger>(
    reader: &Reader<'_>,
    condition: &Condition,
    person: PersonNo,
    list: &mut SlotList,
    steps: &mut Steps<L>,
) -> Result<(), NoMemory>
    ensures gathers { OnOk result (Gathers reader.now.unit.now (run_of reader.now.state.now)
        (test_looks reader.now.unit.now
        (seen_in reader.now.unit.now (run_of reader.now.state.now))
        (of_person person.0) condition.now.test) list.old list.new) }
    ensures short { OnErr result (FallsShort reader.now.unit.now (run_of reader.now.state.now)
        (test_looks reader.now.unit.now
        (seen_in reader.now.unit.now (run_of reader.now.state.now))
        (of_person person.0) condition.now.test) list.old) }
    ensures room { list.old.room ≤ list.new.room }
    ensures cost { steps.new ≤ steps.old + length (test_looks reader.now.unit.now
        (seen_in reader.now.unit.now (run_of reader.now.state.now))
        (of_person person.0) condition.now.test) }
{
    read_test(reader, Owner::Person(person), &condition.test, list, steps)
}
