//! When what rules ask next switches.
ghost use Rattle.std.specs.Prelude.{◌≡◌, ◌+◌, ◌*◌, ◌++◌, ◌∷◌, [], ◌≤◌, length, option_map, None};
ghost use Rattle.ld_model.specs.declared.cell.CellName.TheVariants.{Now};
ghost use Rattle.ld_expr.specs.Seen.{moment_of_value};
ghost use Rattle.ld_rules.specs.SiteLooks.{cell_list, completion_looks, completion_looks_if, person_looks, rule_looks, run_looks};
ghost use Rattle.ld_rules.specs.SiteView.{completing_of, shown_in};
ghost use Rattle.ld_alarm.specs.Later.{next_after};
ghost use Rattle.ld_alarm.specs.Switches.{completion_switches, completion_switches_if, limit_switches, person_switches, rule_switches, run_switches};

use crate::later::limit_after;
use crate::test_switches::{next_of_test, next_of_users};
use ld_base::{PersonNo, Steps};
use ld_expr::Scope;
use ld_model::{CellName, Completion, Owner, View};
use ld_names::Rule;
use ld_rules::{Completing, act_at, completing_activity, completing_play, opening_cell};
use ld_value::{Moment, Value};
use std::alloc::Global;
use std::sync::ledger::Ledger;

/// The first switch of what the rule asks of the run or the person that comes after the moment. It
/// takes at most a step for each cell at which the rule asks to look, and for each two switches one
/// less.
pub(crate) fn next_of_rule<V: View, L: Ledger>(
    alloc: Global,
    scope: &Scope<'_, V>,
    rule: Rule,
    owner: Owner,
    after: Moment,
    steps: &mut Steps<L>,
) -> Option<Moment>
    ensures value { option_map (λ moment. moment.0) result ≡ next_after after.0
        (rule_switches scope.now.unit.now (V.seen scope.now.view.now) owner rule) }
    ensures cost { 2 * steps.new
        + length (rule_switches scope.now.unit.now (V.seen scope.now.view.now) owner rule)
        ≤ 2 * steps.old
        + 2 * length (rule_looks scope.now.unit.now (V.seen scope.now.view.now) owner rule) }
{
    match owner {
        Owner::Run => next_for_run(alloc, scope, rule, after, steps),
        Owner::Person(person) => next_for_person(alloc, scope, rule, person, after, steps),
    }
}

/// The first switch of what the rule asks of the person.
fn next_for_person<V: View, L: Ledger>(
    alloc: Global,
    scope: &Scope<'_, V>,
    rule: Rule,
    person: PersonNo,
    after: Moment,
    steps: &mut Steps<L>,
) -> Option<Moment>
    ensures value { option_map (λ moment. moment.0) result ≡ next_after after.0
        (person_switches scope.now.unit.now (V.seen scope.now.view.now) person.0 rule) }
    ensures cost { 2 * steps.new
        + length (person_switches scope.now.unit.now (V.seen scope.now.view.now) person.0 rule)
        ≤ 2 * steps.old
        + 2 * length (person_looks scope.now.unit.now (V.seen scope.now.view.now) person.0 rule) }
{
    match rule {
        Rule::CompletesActivity(number) => match scope.unit.activities.get(number as usize) {
            Some(activity) => {
                let about = completing_activity(scope.unit, scope.names, activity, person);
                next_if(alloc, scope, about, &activity.complete, after, steps)
            }
            None => None,
        },
        Rule::JudgesCondition(number) => match scope.unit.conditions.get(number as usize) {
            Some(condition) => {
                let owner = Owner::Person(person);
                next_of_test(alloc, scope, owner, &condition.test, after, steps)
            }
            None => None,
        },
        Rule::CompletesStructure(_)
        | Rule::OpensAct(_, _)
        | Rule::CompletesPart(_, _, _)
        | Rule::CompletesAct(_, _)
        | Rule::CompletesPlay(_)
        | Rule::CompletesUnit => None,
    }
}

/// The first switch of what the rule asks of the run.
fn next_for_run<V: View, L: Ledger>(
    alloc: Global,
    scope: &Scope<'_, V>,
    rule: Rule,
    after: Moment,
    steps: &mut Steps<L>,
) -> Option<Moment>
    ensures value { option_map (λ moment. moment.0) result ≡ next_after after.0
        (run_switches scope.now.unit.now (V.seen scope.now.view.now) rule) }
    ensures cost { 2 * steps.new
        + length (run_switches scope.now.unit.now (V.seen scope.now.view.now) rule)
        ≤ 2 * steps.old
        + 2 * length (run_looks scope.now.unit.now (V.seen scope.now.view.now) rule) }
{
    match rule {
        Rule::CompletesAct(play, act) => match act_at(scope.unit, play as usize, act as usize) {
            Some(act) => {
                let about = begun_at(opening_cell(scope.unit, scope.names, act));
                next_if(alloc, scope, about, &act.complete, after, steps)
            }
            None => None,
        },
        Rule::CompletesPlay(play) => match scope.unit.method.plays.get(play as usize) {
            Some(play) => {
                let about = completing_play(play);
                next_if(alloc, scope, about, &play.complete, after, steps)
            }
            None => None,
        },
        Rule::CompletesUnit => {
            let about = begun_at(Some(CellName::Started));
            next_if(
                alloc,
                scope,
                about,
                &scope.unit.method.complete,
                after,
                steps,
            )
        }
        Rule::OpensAct(_, _)
        | Rule::CompletesPart(_, _, _)
        | Rule::CompletesActivity(_)
        | Rule::CompletesStructure(_)
        | Rule::JudgesCondition(_) => None,
    }
}

/// What is to be completed for the run and began as this cell says.
fn begun_at<'a>(start: Option<CellName>) -> Completing<'a>
    ensures { completing_of result
        ≡ record { owner = Owner.Run; chosen = None; start = start; last_act = None } }
{
    Completing {
        owner: Owner::Run,
        chosen: None,
        start,
        last_act: None,
    }
}

/// The first switch of the completion rule, if there is one.
fn next_if<V: View, L: Ledger>(
    alloc: Global,
    scope: &Scope<'_, V>,
    about: Completing<'_>,
    completion: &Option<Completion>,
    after: Moment,
    steps: &mut Steps<L>,
) -> Option<Moment>
    ensures value { option_map (λ moment. moment.0) result ≡ next_after after.0
        (completion_switches_if scope.now.unit.now (V.seen scope.now.view.now)
        (completing_of about.entry) completion.now) }
    ensures cost { 2 * steps.new
        + length (completion_switches_if scope.now.unit.now (V.seen scope.now.view.now)
        (completing_of about.entry) completion.now)
        ≤ 2 * steps.old
        + 2 * length (completion_looks_if scope.now.unit.now (V.seen scope.now.view.now)
        (completing_of about.entry) completion.now) }
{
    match completion {
        Some(completion) => next_of_completion(alloc, scope, about, completion, after, steps),
        None => None,
    }
}

/// The first switch of the completion rule.
fn next_of_completion<V: View, L: Ledger>(
    alloc: Global,
    scope: &Scope<'_, V>,
    about: Completing<'_>,
    completion: &Completion,
    after: Moment,
    steps: &mut Steps<L>,
) -> Option<Moment>
    ensures value { option_map (λ moment. moment.0) result ≡ next_after after.0
        (completion_switches scope.now.unit.now (V.seen scope.now.view.now)
        (completing_of about.entry) completion.now) }
    ensures cost { 2 * steps.new
        + length (completion_switches scope.now.unit.now (V.seen scope.now.view.now)
        (completing_of about.entry) completion.now)
        ≤ 2 * steps.old
        + 2 * length (completion_looks scope.now.unit.now (V.seen scope.now.view.now)
        (completing_of about.entry) completion.now) }
{
    match completion {
        Completion::TimeLimit(seconds) => {
            next_of_limit(scope.view, *seconds, about.start, after, steps)
        }
        Completion::WhenConditionTrue(role, test) => {
            next_of_users(alloc, scope, role, test, after, steps)
        }
        Completion::UserChoice
        | Completion::WhenPropertyValueIsSet(_, _)
        | Completion::WhenRolePartCompleted(_)
        | Completion::WhenLastActCompleted
        | Completion::WhenPlayCompleted(_) => None,
    }
}

/// The moment this many seconds after the one that the cell shows, where it comes after the other.
fn next_of_limit<V: View, L: Ledger>(
    view: &V,
    seconds: u64,
    start: Option<CellName>,
    after: Moment,
    steps: &mut Steps<L>,
) -> Option<Moment>
    ensures value { option_map (λ moment. moment.0) result ≡ next_after after.0
        (limit_switches seconds (shown_in (V.seen view.now).value start)) }
    ensures cost { 2 * steps.new
        + length (limit_switches seconds (shown_in (V.seen view.now).value start))
        ≤ 2 * steps.old + 2 * length (cell_list start ++ Now ∷ []) }
{
    let Some(cell) = start else {
        return None;
    };
    let Some(begun) = moment_in(view, cell, steps) else {
        return None;
    };
    limit_after(after, begun, seconds)
}

/// The moment that the cell shows, if it shows one.
pub(crate) fn moment_in<V: View, L: Ledger>(
    view: &V,
    cell: CellName,
    steps: &mut Steps<L>,
) -> Option<Moment>
    ensures value { option_map (λ moment. moment.0) result
        ≡ moment_of_value ((V.seen view.now).value cell) }
    ensures cost { steps.new ≡ steps.old + 1 }
{
    match view.get(cell, steps) {
        Some(Value::Moment(moment)) => Some(*moment),
        _ => None,
    }
}
