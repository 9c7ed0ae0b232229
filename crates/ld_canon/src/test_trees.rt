//! Tests.
ghost use Rattle.std.specs.Prelude.{◌≡◌, IfOk, map};
ghost use Rattle.serde_json.specs.Data.{array};
ghost use Rattle.serde_json.specs.View.{view, items_of};
ghost use Rattle.ld_canon.specs.Canonical.{canonical_term, canonical_test, canonical_tests};
ghost use Rattle.ld_canon.specs.Terms.{sole_tree, two_trees, term_tree};
ghost use Rattle.ld_canon.specs.Tests.{of_members_tree, test_tree, test_trees};
ghost use Rattle.ld_model.specs.Expressions.{tests_from};

use crate::soles::{pair_tree, sole, sole_id};
use crate::terms::tree_of_term;
use ld_base::{Id, NoMemory};
use ld_model::{Term, Test, TestForm};
use ld_prints::members::{needed, object_tree};
use ld_prints::values::IdTree;
use serde_json::{Map, Value, put};
use std::alloc::Global;

/// The tree of a test, its value texts as their values are printed.
#[cycle(tests)]
pub(crate) fn tree_of_test(alloc: Global, test: &Test) -> Result<Value, NoMemory>
    ensures { IfOk result (λ tree. view tree ≡ test_tree (canonical_test test.now)) }
{
    match &*test.form {
        TestForm::Is(a, b) => tree_of_pair(alloc, "is", a, b),
        TestForm::IsNot(a, b) => tree_of_pair(alloc, "is-not", a, b),
        TestForm::GreaterThan(a, b) => tree_of_pair(alloc, "greater-than", a, b),
        TestForm::LessThan(a, b) => tree_of_pair(alloc, "less-than", a, b),
        TestForm::And(tests) => tree_of_list(alloc, "and", tests),
        TestForm::Or(tests) => tree_of_list(alloc, "or", tests),
        TestForm::Not(test) => {
            let tree = tree_of_test(alloc, test)?;
            sole(alloc, "not", tree)
        }
        TestForm::NoValue(property) => sole_id(alloc, "no-value", property),
        TestForm::IsMemberOfRole(role) => sole_id(alloc, "is-member-of-role", role),
        TestForm::UsersInRole(role, test) => {
            let tree = tree_of_test(alloc, test)?;
            let tree = members_tree(alloc, role, tree)?;
            sole(alloc, "users-in-role", tree)
        }
        TestForm::Complete(thing) => sole_id(alloc, "complete", thing),
    }
}

/// The object of one member, the list of the tests.
#[cycle(tests)]
fn tree_of_list(alloc: Global, name: &str, tests: &[Test]) -> Result<Value, NoMemory>
    ensures { IfOk result (λ tree. view tree ≡ sole_tree name.now
        (array (items_of (test_trees (canonical_tests (tests_from tests.now)))))) }
{
    let trees = trees_of_tests(alloc, tests)?;
    sole(alloc, name, Value::from(trees))
}

/// The trees of tests.
#[cycle(tests)]
fn trees_of_tests(alloc: Global, tests: &[Test]) -> Result<Vec<Value>, NoMemory>
    ensures { IfOk result (λ trees.
        map view trees.items ≡ test_trees (canonical_tests (tests_from tests.now))) }
{
    let mut trees = Vec::new(alloc);
    for test in tests {
        let tree = tree_of_test(alloc, test)?;
        trees.push(tree)?;
    }
    Ok(trees)
}

/// The object of one member, the list of two terms.
fn tree_of_pair(alloc: Global, name: &str, a: &Term, b: &Term) -> Result<Value, NoMemory>
    ensures { IfOk result (λ tree. view tree ≡ sole_tree name.now
        (two_trees (term_tree (canonical_term a.now)) (term_tree (canonical_term b.now)))) }
{
    let first = tree_of_term(alloc, a)?;
    let second = tree_of_term(alloc, b)?;
    let pair = pair_tree(alloc, first, second)?;
    sole(alloc, name, pair)
}

/// The object of a role and of what is tested of each of its members.
pub(crate) fn members_tree(alloc: Global, role: &Id, tree: Value) -> Result<Value, NoMemory>
    ensures { IfOk result (λ whole. view whole ≡ of_members_tree role.now (view tree)) }
{
    let mut members = Map::new(alloc);
    needed::<IdTree>(alloc, "role", role, &mut members)?;
    put(&mut members, alloc, "expression", tree)?;
    Ok(object_tree(members))
}
