//! The parts of tests.
ghost use Rattle.std.specs.Prelude.{◌≡◌, ◌∷◌, ◌++◌, [], not, OnOk};
ghost use Rattle.ld_model.specs.Expressions.{tests_from, users_test};
ghost use Rattle.ld_walk.specs.ExpressionParts.{term_parts, test_parts, tests_parts, reads_clock, within_members};
ghost use Rattle.ld_walk.specs.Places.{member, nth, item_at};
ghost use Rattle.ld_walk.specs.Walks.{added};

use crate::items::list_reference;
use crate::kind::Wanted;
use crate::part::What;
use crate::terms::{list_leaf, list_operand, reads_clock};
use crate::walk::Walk;
use ld_base::{Id, NoMemory, number};
use ld_model::{Level, Term, Test, TestForm};

/// Lists a test, and whether it is asked of each member of a role.
#[cycle(tests)]
pub fn list_test<'a>(walk: &mut Walk<'a>, of_members: bool, test: &'a Test) -> Result<(), NoMemory>
    ensures { OnOk result (walk.new ≡ added walk.old (test_parts walk.old.at of_members test.now)) }
{
    match &*test.form {
        TestForm::Is(a, b) => list_comparison(walk, of_members, "is", a, b),
        TestForm::IsNot(a, b) => list_comparison(walk, of_members, "is-not", a, b),
        TestForm::GreaterThan(a, b) => list_comparison(walk, of_members, "greater-than", a, b),
        TestForm::LessThan(a, b) => list_comparison(walk, of_members, "less-than", a, b),
        TestForm::And(tests) => list_tests(walk, of_members, "and", tests),
        TestForm::Or(tests) => list_tests(walk, of_members, "or", tests),
        TestForm::Not(test) => list_inner(walk, of_members, "not", test),
        TestForm::NoValue(id) => list_leaf(walk, of_members, "no-value", Wanted::Property, id),
        TestForm::IsMemberOfRole(id) => {
            list_leaf(walk, of_members, "is-member-of-role", Wanted::Role, id)
        }
        TestForm::UsersInRole(role, test) => list_users(walk, of_members, role, test),
        TestForm::Complete(id) => list_leaf(walk, of_members, "complete", Wanted::Completable, id),
    }
}

/// Lists two terms that are compared. The moment of the command may be one of them where the other
/// doesn't look at it.
fn list_comparison<'a>(
    walk: &mut Walk<'a>,
    of_members: bool,
    name: &'static str,
    a: &'a Term,
    b: &'a Term,
) -> Result<(), NoMemory>
    ensures { OnOk result
        (walk.new
        ≡ added walk.old
        (term_parts (nth walk.old.at name.now 0) of_members (not (reads_clock b.now)) a.now
        ++ term_parts (nth walk.old.at name.now 1) of_members (not (reads_clock a.now)) b.now)) }
{
    list_operand(walk, of_members, !reads_clock(b), name, 0, a)?;
    list_operand(walk, of_members, !reads_clock(a), name, 1, b)
}

/// Lists the test in the member of this name.
#[cycle(tests)]
fn list_inner<'a>(
    walk: &mut Walk<'a>,
    of_members: bool,
    name: &'static str,
    test: &'a Test,
) -> Result<(), NoMemory>
    ensures { OnOk result
        (walk.new ≡ added walk.old (test_parts (member walk.old.at name.now) of_members test.now)) }
{
    walk.enter(name)?;
    list_test(walk, of_members, test)?;
    walk.leave();
    Ok(())
}

/// Lists the tests in the member of this name.
#[cycle(tests)]
fn list_tests<'a>(
    walk: &mut Walk<'a>,
    of_members: bool,
    name: &'static str,
    tests: &'a [Test],
) -> Result<(), NoMemory>
    ensures { OnOk result
        (walk.new ≡ added walk.old
        (tests_parts (member walk.old.at name.now) of_members 0 (tests_from tests.now))) }
{
    for (i, test) in tests.iter().enumerate() {
        list_nth_test(walk, of_members, name, number(i)?, test)?;
    }
    Ok(())
}

/// Lists the test of this number in the member of this name.
#[cycle(tests)]
fn list_nth_test<'a>(
    walk: &mut Walk<'a>,
    of_members: bool,
    name: &'static str,
    index: u32,
    test: &'a Test,
) -> Result<(), NoMemory>
    ensures { OnOk result
        (walk.new
        ≡ added walk.old (test_parts (nth walk.old.at name.now index) of_members test.now)) }
{
    walk.enter_nth(name, index)?;
    list_test(walk, of_members, test)?;
    walk.leave();
    Ok(())
}

/// Lists a test of the members of a role. It is left out where it is itself asked of each member of
/// a role.
#[cycle(tests)]
fn list_users<'a>(
    walk: &mut Walk<'a>,
    of_members: bool,
    role: &'a Id,
    test: &'a Test,
) -> Result<(), NoMemory>
    ensures { OnOk result
        (walk.new
        ≡ added walk.old (test_parts walk.old.at of_members (users_test role.now test.now))) }
{
    if of_members {
        walk.put(Level::A, What::LeftOut)?;
    }
    walk.enter("users-in-role")?;
    list_reference(walk, "role", Wanted::Role, role)?;
    list_inner(walk, true, "expression", test)?;
    walk.leave();
    Ok(())
}
