//! When tests next switch.
ghost use Rattle.std.specs.Prelude.{◌≡◌, ◌+◌, ◌*◌, ◌++◌, ◌≤◌, length, option_map};
ghost use Rattle.ld_model.specs.Expressions.{tests_from};
ghost use Rattle.ld_expr.specs.Looks.{term_looks, test_looks, tests_looks};
ghost use Rattle.ld_expr.specs.Seen.{moment_of_value};
ghost use Rattle.ld_expr.specs.Terms.{term_value};
ghost use Rattle.ld_expr.specs.Users.{looks_for_members, looks_for_users};
ghost use Rattle.ld_alarm.specs.Later.{next_after};
ghost use Rattle.ld_alarm.specs.Switches.{compare_switches, is_clock, test_switches, tests_switches, value_switches};
ghost use Rattle.ld_alarm.specs.UsersSwitches.{switches_for_members, switches_for_users};

use crate::later::{earlier, switch_about};
use ld_base::{Id, PersonNo, RoleNo, Steps};
use ld_expr::{Scope, role_number, says_yes};
use ld_model::{CellName, Owner, Term, TermForm, Test, TestForm, View};
use ld_value::{Moment, Value};
use std::alloc::Global;
use std::sync::ledger::Ledger;

/// The first switch of the test for the owner that comes after the moment. It takes at most a step
/// for each cell at which the test looks, and for each two switches one less.
#[cycle(tests)]
pub(crate) fn next_of_test<V: View, L: Ledger>(
    alloc: Global,
    scope: &Scope<'_, V>,
    owner: Owner,
    test: &Test,
    after: Moment,
    steps: &mut Steps<L>,
) -> Option<Moment>
    ensures value { option_map (λ moment. moment.0) result ≡ next_after after.0
        (test_switches scope.now.unit.now (V.seen scope.now.view.now) owner test.now) }
    ensures cost { 2 * steps.new
        + length (test_switches scope.now.unit.now (V.seen scope.now.view.now) owner test.now)
        ≤ 2 * steps.old
        + 2 * length (test_looks scope.now.unit.now (V.seen scope.now.view.now) owner test.now) }
{
    match &*test.form {
        TestForm::Is(a, b)
        | TestForm::IsNot(a, b)
        | TestForm::GreaterThan(a, b)
        | TestForm::LessThan(a, b) => next_of_pair(alloc, scope, owner, a, b, after, steps),
        TestForm::And(tests) | TestForm::Or(tests) => {
            next_of_tests(alloc, scope, owner, tests, after, steps)
        }
        TestForm::Not(test) => next_of_test(alloc, scope, owner, test, after, steps),
        TestForm::UsersInRole(role, test) => {
            next_of_users(alloc, scope, role, test, after, steps)
        }
        TestForm::NoValue(_) | TestForm::IsMemberOfRole(_) | TestForm::Complete(_) => None,
    }
}

/// The first switch of one of the tests.
#[cycle(tests)]
fn next_of_tests<V: View, L: Ledger>(
    alloc: Global,
    scope: &Scope<'_, V>,
    owner: Owner,
    tests: &[Test],
    after: Moment,
    steps: &mut Steps<L>,
) -> Option<Moment>
    ensures value { option_map (λ moment. moment.0) result ≡ next_after after.0
        (tests_switches scope.now.unit.now (V.seen scope.now.view.now) owner (tests_from tests.now)) }
    ensures cost { 2 * steps.new + length (tests_switches scope.now.unit.now
        (V.seen scope.now.view.now) owner (tests_from tests.now))
        ≤ 2 * steps.old + 2 * length (tests_looks scope.now.unit.now
        (V.seen scope.now.view.now) owner (tests_from tests.now)) }
{
    let mut next = None;
    for test in tests {
        let own = next_of_test(alloc, scope, owner, test, after, steps);
        next = earlier(next, own);
    }
    next
}

/// The first switch of the test for one of the members of the role.
#[cycle(tests)]
pub(crate) fn next_of_users<V: View, L: Ledger>(
    alloc: Global,
    scope: &Scope<'_, V>,
    role: &Id,
    test: &Test,
    after: Moment,
    steps: &mut Steps<L>,
) -> Option<Moment>
    ensures value { option_map (λ moment. moment.0) result ≡ next_after after.0
        (switches_for_users scope.now.unit.now (V.seen scope.now.view.now) role.now test.now) }
    ensures cost { 2 * steps.new + length (switches_for_users scope.now.unit.now
        (V.seen scope.now.view.now) role.now test.now)
        ≤ 2 * steps.old + 2 * length (looks_for_users scope.now.unit.now
        (V.seen scope.now.view.now) role.now test.now) }
{
    match role_number(scope.unit, scope.names, role) {
        Some(role) => next_of_members(alloc, scope, role, test, after, steps),
        None => None,
    }
}

/// The same, of the role of this number.
#[cycle(tests)]
fn next_of_members<V: View, L: Ledger>(
    alloc: Global,
    scope: &Scope<'_, V>,
    role: RoleNo,
    test: &Test,
    after: Moment,
    steps: &mut Steps<L>,
) -> Option<Moment>
    ensures value { option_map (λ moment. moment.0) result ≡ next_after after.0
        (switches_for_members scope.now.unit.now (V.seen scope.now.view.now) role.0 test.now) }
    ensures cost { 2 * steps.new + length (switches_for_members scope.now.unit.now
        (V.seen scope.now.view.now) role.0 test.now)
        ≤ 2 * steps.old + 2 * length (looks_for_members scope.now.unit.now
        (V.seen scope.now.view.now) role.0 test.now) }
{
    let mut next = None;
    for number in 0..scope.view.persons() {
        let person = PersonNo(number);
        if !says_yes(scope.view, CellName::Member(role, person), steps) {
            continue;
        }
        let own = next_of_test(alloc, scope, Owner::Person(person), test, after, steps);
        next = earlier(next, own);
    }
    next
}

/// The first switch of the comparison of the two terms.
fn next_of_pair<V: View, L: Ledger>(
    alloc: Global,
    scope: &Scope<'_, V>,
    owner: Owner,
    a: &Term,
    b: &Term,
    after: Moment,
    steps: &mut Steps<L>,
) -> Option<Moment>
    ensures value { option_map (λ moment. moment.0) result ≡ next_after after.0
        (compare_switches scope.now.unit.now (V.seen scope.now.view.now) owner a.now b.now) }
    ensures cost { 2 * steps.new + length (compare_switches scope.now.unit.now
        (V.seen scope.now.view.now) owner a.now b.now)
        ≤ 2 * steps.old
        + 2 * length (term_looks scope.now.unit.now (V.seen scope.now.view.now) owner a.now
        ++ term_looks scope.now.unit.now (V.seen scope.now.view.now) owner b.now) }
{
    if is_clock(a) {
        return next_about(alloc, scope, owner, b, after, steps);
    }
    if is_clock(b) {
        return next_about(alloc, scope, owner, a, after, steps);
    }
    None
}

/// Whether the term is the moment of the command.
fn is_clock(term: &Term) -> bool
    ensures { result ≡ is_clock term.now }
{
    match &*term.form {
        TermForm::CurrentDatetime => true,
        _ => false,
    }
}

/// The first switch about the value of the term, where that is a moment.
fn next_about<V: View, L: Ledger>(
    alloc: Global,
    scope: &Scope<'_, V>,
    owner: Owner,
    term: &Term,
    after: Moment,
    steps: &mut Steps<L>,
) -> Option<Moment>
    ensures value { option_map (λ moment. moment.0) result ≡ next_after after.0 (value_switches
        (term_value scope.now.unit.now (V.seen scope.now.view.now) owner term.now)) }
    ensures cost { steps.new ≤ steps.old
        + length (term_looks scope.now.unit.now (V.seen scope.now.view.now) owner term.now) }
{
    match moment_of(alloc, scope, owner, term, steps) {
        Some(at) => switch_about(after, at),
        None => None,
    }
}

/// The value of the term, where that is a moment.
fn moment_of<V: View, L: Ledger>(
    alloc: Global,
    scope: &Scope<'_, V>,
    owner: Owner,
    term: &Term,
    steps: &mut Steps<L>,
) -> Option<Moment>
    ensures value { option_map (λ moment. moment.0) result ≡ moment_of_value
        (term_value scope.now.unit.now (V.seen scope.now.view.now) owner term.now) }
    ensures cost { steps.new ≤ steps.old
        + length (term_looks scope.now.unit.now (V.seen scope.now.view.now) owner term.now) }
{
    // Memory is wanted for a text alone, which is no moment.
    let Ok(value) = scope.value_of(alloc, owner, term, steps) else {
        return None;
    };
    match value {
        Some(Value::Moment(moment)) => Some(moment),
        _ => None,
    }
}
