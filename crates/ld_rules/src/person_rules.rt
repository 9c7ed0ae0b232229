//! What the rules for one person ask.
#![tactic(auto, using(crate::proofs::Judging::row_is, crate::proofs::Judging::row_there, crate::proofs::Mine::mine_by_roles))]

ghost use Rattle.std.specs.Prelude.{◌≡◌, ◌+◌, ◌≤◌, ◌<◌, count_by, length, slice_get, Some};
ghost use Rattle.std.specs.List.{list_any};
ghost use Rattle.ld_names.specs.Identifiers.{HasDistinctIdentifiers};
ghost use Rattle.ld_names.specs.Names.{names_of};
ghost use Rattle.ld_expr.specs.Done.{is_done};
ghost use Rattle.ld_expr.specs.Lookup.{is_some_and, list_from};
ghost use Rattle.ld_expr.specs.Membership.{is_member};
ghost use Rattle.ld_expr.specs.Owners.{of_person};
ghost use Rattle.ld_rules.specs.Reach.{is_mine};
ghost use Rattle.ld_rules.specs.ReachTable.{reach_of};
ghost use Rattle.ld_rules.specs.SiteLooks.{site_activity_looks, all_done_looks, completion_looks_if, person_looks, reaching_roles};
ghost use Rattle.ld_rules.specs.SiteTests.{activity_completing, activity_test, completion_holds, holds_or_absent, number_needed, person_test, structure_test};
ghost use Rattle.ld_rules.specs.SiteView.{completing_of};

use crate::completion::{Completing, completion_holds};
use crate::reach::Reach;
use ld_base::{Id, PersonNo, RoleNo, Steps};
use ld_expr::{Scope, says_yes, thing_number};
use ld_model::{Activity, CellName, Owner, Structure, StructureKind, Unit, View};
use ld_names::{Names, Rule};
use std::sync::ledger::Ledger;

/// What the rule asks of the person; of a rule for the run, nothing holds. (docs/MEANING.md, "Rules
/// and sites")
pub(crate) fn judge_for_person<V: View, L: Ledger>(
    scope: &Scope<'_, V>,
    reach: &Reach,
    rule: Rule,
    person: PersonNo,
    steps: &mut Steps<L>,
) -> bool
    requires distinct { HasDistinctIdentifiers scope.now.unit.now }
    requires reach { reach.now ≡ reach_of scope.now.unit.now }
    ensures value { result ≡ person_test scope.now.unit.now
        (V.seen scope.now.view.now) person.0 rule }
    ensures cost { steps.new ≤ steps.old + length (person_looks scope.now.unit.now
        (V.seen scope.now.view.now) person.0 rule) }
{
    match rule {
        Rule::CompletesActivity(number) => {
            judge_activity(scope, reach, number as usize, person, steps)
        }
        Rule::CompletesStructure(number) => match scope.unit.structures.get(number as usize) {
            Some(structure) => judge_structure(scope, structure, person, steps),
            None => false,
        },
        Rule::JudgesCondition(number) => match scope.unit.conditions.get(number as usize) {
            Some(condition) => { scope.holds(Owner::Person(person), &condition.test, steps) }
            None => false,
        },
        Rule::OpensAct(_, _)
        | Rule::CompletesPart(_, _, _)
        | Rule::CompletesAct(_, _)
        | Rule::CompletesPlay(_)
        | Rule::CompletesUnit => false,
    }
}

/// Whether the activity of this number is the person's, and its completion rule holds, if there is
/// one.
fn judge_activity<V: View, L: Ledger>(
    scope: &Scope<'_, V>,
    reach: &Reach,
    number: usize,
    person: PersonNo,
    steps: &mut Steps<L>,
) -> bool
    requires distinct { HasDistinctIdentifiers scope.now.unit.now }
    requires reach { reach.now ≡ reach_of scope.now.unit.now }
    ensures value { result ≡ is_some_and (activity_test scope.now.unit.now
        (V.seen scope.now.view.now) person.0) (slice_get scope.now.unit.now.activities number) }
    ensures cost { steps.new ≤ steps.old + length (list_from (site_activity_looks scope.now.unit.now
        (V.seen scope.now.view.now) person.0) (slice_get scope.now.unit.now.activities number)) }
{
    let Some(activity) = scope.unit.activities.get(number) else {
        return false;
    };
    if !is_mine(scope, reach, number, activity, person, steps) {
        return false;
    }
    is_completed(scope, activity, person, steps)
}

/// Whether the activity, which is the one of this number, is the person's.
fn is_mine<V: View, L: Ledger>(
    scope: &Scope<'_, V>,
    reach: &Reach,
    number: usize,
    activity: &Activity,
    person: PersonNo,
    steps: &mut Steps<L>,
) -> bool
    requires distinct { HasDistinctIdentifiers scope.now.unit.now }
    requires reach { reach.now ≡ reach_of scope.now.unit.now }
    requires number { slice_get scope.now.unit.now.activities number ≡ Some activity.now }
    ensures value { result ≡ is_mine scope.now.unit.now (V.seen scope.now.view.now)
        activity.now.identifier person.0 }
    ensures cost { steps.new
        ≤ steps.old + length (reaching_roles scope.now.unit.now activity.now.identifier) }
{
    is_in_one(reach.roles(number), person, scope.view, steps)
}

/// Whether the person is a member of one of the roles, which are given by their numbers.
fn is_in_one<V: View, L: Ledger>(
    roles: &[u32],
    person: PersonNo,
    view: &V,
    steps: &mut Steps<L>,
) -> bool
    ensures value { result ≡ list_any (λ r. is_member (V.seen view.now) r person.0) roles.now }
    ensures cost { steps.new ≤ steps.old + length roles.now }
{
    for role in roles {
        if says_yes(view, CellName::Member(RoleNo(*role), person), steps) {
            return true;
        }
    }
    false
}

/// Whether the completion rule of the activity holds for the person, if there is one.
fn is_completed<V: View, L: Ledger>(
    scope: &Scope<'_, V>,
    activity: &Activity,
    person: PersonNo,
    steps: &mut Steps<L>,
) -> bool
    ensures value { result ≡ holds_or_absent (completion_holds scope.now.unit.now
        (V.seen scope.now.view.now)
        (activity_completing scope.now.unit.now person.0 activity.now)) activity.now.complete }
    ensures cost { steps.new ≤ steps.old + length (completion_looks_if scope.now.unit.now
        (V.seen scope.now.view.now)
        (activity_completing scope.now.unit.now person.0 activity.now) activity.now.complete) }
{
    match &activity.complete {
        Some(completion) => {
            let about = completing_activity(scope.unit, scope.names, activity, person);
            completion_holds(scope, about, completion, steps)
        }
        None => true,
    }
}

/// What the completion rule of the activity speaks of: it begins when the person first opens it. It
/// takes no memory.
pub fn completing_activity<'a>(
    unit: &Unit,
    names: &Names,
    activity: &Activity,
    person: PersonNo,
) -> Completing<'a>
    requires { names.now ≡ names_of unit.now }
    ensures { completing_of result ≡ activity_completing unit.now person.0 activity.now }
{
    let owner = Owner::Person(person);
    match thing_number(unit, names, &activity.identifier) {
        Some(thing) => Completing {
            owner,
            chosen: Some(CellName::Chosen(thing, owner)),
            start: Some(CellName::Opened(thing, owner)),
            last_act: None,
        },
        None => Completing {
            owner,
            chosen: None,
            start: None,
            last_act: None,
        },
    }
}

/// Whether as many of the structure's children are done for the person as it needs.
fn judge_structure<V: View, L: Ledger>(
    scope: &Scope<'_, V>,
    structure: &Structure,
    person: PersonNo,
    steps: &mut Steps<L>,
) -> bool
    ensures value { result ≡ structure_test scope.now.unit.now
        (V.seen scope.now.view.now) person.0 structure.now }
    ensures cost { steps.new ≤ steps.old + length (all_done_looks scope.now.unit.now
        (V.seen scope.now.view.now) (of_person person.0) structure.now.children) }
{
    let children = structure.children.as_slice();
    number_needed(structure) <= count_done(scope, children, person, steps)
}

/// How many of the structure's children are to be done.
fn number_needed(structure: &Structure) -> usize
    ensures { result ≡ number_needed structure.now.kind structure.now.number_to_select
        (length structure.now.children) }
{
    let all = structure.children.len();
    match structure.kind {
        StructureKind::Sequence => all,
        StructureKind::Selection => match structure.number_to_select {
            Some(number) => number as usize,
            None => all,
        },
    }
}

/// How many of what the identifiers name is done for the person.
fn count_done<V: View, L: Ledger>(
    scope: &Scope<'_, V>,
    ids: &[Id],
    person: PersonNo,
    steps: &mut Steps<L>,
) -> usize
    ensures value { result ≡ count_by (is_done scope.now.unit.now
        (V.seen scope.now.view.now) (of_person person.0)) ids.now }
    ensures cost { steps.new ≤ steps.old + length (all_done_looks scope.now.unit.now
        (V.seen scope.now.view.now) (of_person person.0) ids.now) }
{
    let mut count = 0;
    for id in ids {
        count += usize::from(scope.is_done(Owner::Person(person), id, steps));
    }
    count
}
