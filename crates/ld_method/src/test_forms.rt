//! The readers of tests.
#![tactic(auto, using(ld_json::proofs::First::says_more))]

ghost use Rattle.std.specs.Prelude.{◌≡◌, IfOk, IfErr, codes};
ghost use Rattle.ld_formats.specs.Tests.{test, test_cases, plain_test_cases, of_members};
ghost use Rattle.ld_json.specs.Access.{IsObject};
ghost use Rattle.ld_json.specs.declared.fault.ReadFault.TheVariants.{NoMemory};
ghost use Rattle.ld_model.specs.TestForms.{test_of};
ghost use Rattle.ld_shape.specs.Lists.{list_of};
ghost use Rattle.ld_shape.specs.Objects.{needed_in};
ghost use Rattle.ld_shape.specs.Reading.{GivesOrSays};
ghost use Rattle.ld_shape.specs.Soles.{chosen, sole};

use ld_base::{Id, Items};
use ld_json::{Code, Node, ReadFault};
use ld_model::{Term, Test, TestForm};
use ld_reader::TermShape;
use ld_shape::{Identifier, PairOf, Reads, count_from, needed_at};
use std::alloc::Global;

/// A test.
pub struct TestShape;

impl Reads for TestShape {
    type Value = Test;

    ghost shape = { test };

    fn read(alloc: Global, node: &Node<'_, '_>) -> Result<Test, ReadFault> {
        read_test(alloc, node)
    }
}

/// A role, and a test that is to hold for each of its members.
pub struct MembersTest;

impl Reads for MembersTest {
    type Value = (Id, Test);

    ghost shape = { of_members test };

    fn read(alloc: Global, node: &Node<'_, '_>) -> Result<(Id, Test), ReadFault> {
        read_of_members(alloc, node)
    }
}

/// The test of this form.
fn test_of_form(alloc: Global, form: TestForm) -> Result<Test, ReadFault>
    ensures ok { IfOk result (λ test. test ≡ test_of form) }
    ensures err { IfErr result (λ error. error ≡ NoMemory) }
{
    let form = Box::new(alloc, form)?;
    Ok(Test { form })
}

/// The test of an object whose only member has this name, if it is made of no tests.
fn read_plain(alloc: Global, node: &Node<'_, '_>, name: &str) -> Result<Test, ReadFault>
    requires { IsObject node.now }
    ensures { GivesOrSays (chosen plain_test_cases node.now name.now) result }
{
    match name {
        "is" => {
            let (first, second) = needed_at::<PairOf<TermShape>>(alloc, node, "is")?;
            test_of_form(alloc, TestForm::Is(first, second))
        }
        "is-not" => {
            let (first, second) = needed_at::<PairOf<TermShape>>(alloc, node, "is-not")?;
            test_of_form(alloc, TestForm::IsNot(first, second))
        }
        "greater-than" => {
            let (first, second) = needed_at::<PairOf<TermShape>>(alloc, node, "greater-than")?;
            test_of_form(alloc, TestForm::GreaterThan(first, second))
        }
        "less-than" => {
            let (first, second) = needed_at::<PairOf<TermShape>>(alloc, node, "less-than")?;
            test_of_form(alloc, TestForm::LessThan(first, second))
        }
        "no-value" => {
            let property = needed_at::<Identifier>(alloc, node, "no-value")?;
            test_of_form(alloc, TestForm::NoValue(property))
        }
        "is-member-of-role" => {
            let role = needed_at::<Identifier>(alloc, node, "is-member-of-role")?;
            test_of_form(alloc, TestForm::IsMemberOfRole(role))
        }
        "complete" => {
            let thing = needed_at::<Identifier>(alloc, node, "complete")?;
            test_of_form(alloc, TestForm::Complete(thing))
        }
        _ => Err(node.fault(alloc, Code::UnknownMember)),
    }
}

/// A test.
#[cycle(tests)]
fn read_test(alloc: Global, node: &Node<'_, '_>) -> Result<Test, ReadFault>
    ensures { GivesOrSays (test.reading node.now) result }
{
    read_one(alloc, &*node)
}

/// A test, made of tests or of none.
#[cycle(tests)]
fn read_one(alloc: Global, node: &Node<'_, '_>) -> Result<Test, ReadFault>
    ensures { GivesOrSays ((sole (test_cases test)).reading node.now) result }
{
    match node.sole(alloc)? {
        "and" => {
            let tests = read_tests(alloc, &node.member(alloc, "and")?)?;
            test_of_form(alloc, TestForm::And(tests.into_vec()))
        }
        "or" => {
            let tests = read_tests(alloc, &node.member(alloc, "or")?)?;
            test_of_form(alloc, TestForm::Or(tests.into_vec()))
        }
        "not" => {
            let test = read_test(alloc, &node.member(alloc, "not")?)?;
            test_of_form(alloc, TestForm::Not(Box::new(alloc, test)?))
        }
        "users-in-role" => {
            let (role, test) = read_of_members(alloc, &node.member(alloc, "users-in-role")?)?;
            test_of_form(alloc, TestForm::UsersInRole(role, Box::new(alloc, test)?))
        }
        name => read_plain(alloc, node, name),
    }
}

/// A role, and what is tested of each of its members.
#[cycle(tests)]
fn read_of_members(alloc: Global, node: &Node<'_, '_>) -> Result<(Id, Test), ReadFault>
    ensures { GivesOrSays ((of_members test).reading node.now) result }
{
    node.only(alloc, &["role", "expression"])?;
    let role = needed_at::<Identifier>(alloc, node, "role")?;
    let test = expression_at(alloc, &*node)?;
    Ok((role, test))
}

/// The test at the member `expression`, which has to be there.
#[cycle(tests)]
fn expression_at(alloc: Global, node: &Node<'_, '_>) -> Result<Test, ReadFault>
    requires { IsObject node.now }
    ensures { GivesOrSays ((needed_in (codes "expression") test).reading node.now) result }
{
    read_test(alloc, &node.member(alloc, "expression")?)
}

/// The tests of an array, two or more.
#[cycle(tests)]
fn read_tests(alloc: Global, node: &Node<'_, '_>) -> Result<Items<Test>, ReadFault>
    ensures { GivesOrSays ((list_of 2 test).reading node.now) result }
{
    let count = count_from(alloc, node, 2)?;
    let mut tests = Items::new(alloc);
    for index in 0..count {
        let test = read_test(alloc, &node.item(index))?;
        tests.push(test)?;
    }
    Ok(tests)
}
