//! The cells at which terms and tests look, in a run of one person who holds every role.
ghost use Rattle.std.specs.Prelude.{◌≡◌, ◌++◌};
ghost use Rattle.ld_model.specs.Expressions.{terms_from, tests_from};
ghost use Rattle.ld_expr.specs.Looks.{term_looks, terms_looks, test_looks, tests_looks};
ghost use Rattle.ld_rank.specs.Alone.{seen_alone, users_looks};
ghost use Rattle.ld_rank.specs.Telling.{Tells, told_after};

use crate::sink::{CellSink, put_mark, put_property};
use ld_base::{Id, PersonNo};
use ld_expr::role_number;
use ld_model::{Owner, Term, TermForm, Test, TestForm};
use ld_rules::PreparedUnit;

/// Tells the cells at which the term looks.
#[cycle(terms)]
pub(crate) fn put_term<S: CellSink>(
    unit: &PreparedUnit,
    owner: Owner,
    term: &Term,
    cells: &mut S,
) -> Result<(), S::Stop>
    ensures { Tells S.can_fail (told_after S.after (S.told cells.old)
        (term_looks unit.now (seen_alone unit.now) owner term.now)) result (S.told cells.new) }
{
    match &*term.form {
        TermForm::Property(id) => put_property(unit, owner, id, cells),
        TermForm::Text(_)
        | TermForm::Integer(_)
        | TermForm::Boolean(_)
        | TermForm::Datetime(_)
        | TermForm::Duration(_) => Ok(()),
        TermForm::Sum(terms) => put_terms(unit, owner, terms, cells),
        TermForm::Multiply(terms) => put_terms(unit, owner, terms, cells),
        TermForm::Subtract(a, b) => put_both(unit, owner, a, b, cells),
        TermForm::Divide(a, b) => put_both(unit, owner, a, b, cells),
        TermForm::CurrentDatetime => Ok(()),
        TermForm::DatetimeActivityStarted(_) => Ok(()),
        TermForm::TimeUnitOfLearningStarted => Ok(()),
    }
}

/// Tells the cells at which the terms look.
#[cycle(terms)]
fn put_terms<S: CellSink>(
    unit: &PreparedUnit,
    owner: Owner,
    terms: &[Term],
    cells: &mut S,
) -> Result<(), S::Stop>
    ensures { Tells S.can_fail (told_after S.after (S.told cells.old)
        (terms_looks unit.now (seen_alone unit.now) owner (terms_from terms.now))) result
        (S.told cells.new) }
{
    for term in terms {
        put_term(unit, owner, term, cells)?;
    }
    Ok(())
}

/// Tells the cells at which the two terms look.
#[cycle(terms)]
pub(crate) fn put_both<S: CellSink>(
    unit: &PreparedUnit,
    owner: Owner,
    a: &Term,
    b: &Term,
    cells: &mut S,
) -> Result<(), S::Stop>
    ensures { Tells S.can_fail (told_after S.after (S.told cells.old)
        (term_looks unit.now (seen_alone unit.now) owner a.now
        ++ term_looks unit.now (seen_alone unit.now) owner b.now)) result (S.told cells.new) }
{
    put_term(unit, owner, a, cells)?;
    put_term(unit, owner, b, cells)
}

/// Tells the cells at which the test looks.
#[cycle(tests)]
pub(crate) fn put_test<S: CellSink>(
    unit: &PreparedUnit,
    owner: Owner,
    test: &Test,
    cells: &mut S,
) -> Result<(), S::Stop>
    ensures { Tells S.can_fail (told_after S.after (S.told cells.old)
        (test_looks unit.now (seen_alone unit.now) owner test.now)) result (S.told cells.new) }
{
    match &*test.form {
        TestForm::Is(a, b) => put_both(unit, owner, a, b, cells),
        TestForm::IsNot(a, b) => put_both(unit, owner, a, b, cells),
        TestForm::GreaterThan(a, b) => put_both(unit, owner, a, b, cells),
        TestForm::LessThan(a, b) => put_both(unit, owner, a, b, cells),
        TestForm::And(tests) => put_tests(unit, owner, tests, cells),
        TestForm::Or(tests) => put_tests(unit, owner, tests, cells),
        TestForm::Not(test) => put_test(unit, owner, test, cells),
        TestForm::NoValue(property) => put_property(unit, owner, property, cells),
        TestForm::IsMemberOfRole(_) => Ok(()),
        TestForm::UsersInRole(role, test) => put_users(unit, role, test, cells),
        TestForm::Complete(thing) => put_mark(unit, owner, thing, cells),
    }
}

/// Tells the cells at which the tests look.
#[cycle(tests)]
fn put_tests<S: CellSink>(
    unit: &PreparedUnit,
    owner: Owner,
    tests: &[Test],
    cells: &mut S,
) -> Result<(), S::Stop>
    ensures { Tells S.can_fail (told_after S.after (S.told cells.old)
        (tests_looks unit.now (seen_alone unit.now) owner (tests_from tests.now))) result
        (S.told cells.new) }
{
    for test in tests {
        put_test(unit, owner, test, cells)?;
    }
    Ok(())
}

/// Tells the cells at which is looked to know whether the test holds for the members of the role:
/// for that run's one person, where there is such a role.
#[cycle(tests)]
pub(crate) fn put_users<S: CellSink>(
    unit: &PreparedUnit,
    role: &Id,
    test: &Test,
    cells: &mut S,
) -> Result<(), S::Stop>
    ensures { Tells S.can_fail (told_after S.after (S.told cells.old)
        (users_looks unit.now role.now test.now)) result (S.told cells.new) }
{
    match role_number(unit.unit(), unit.names(), role) {
        Some(_) => put_test(unit, Owner::Person(PersonNo(0)), test, cells),
        None => Ok(()),
    }
}
