//! The types in tests.
#![tactic(auto, using(ld_json::proofs::First::first_of_both))]

ghost use Rattle.std.specs.Prelude.{◌≡◌, [], IfErr, OnOk};
ghost use Rattle.ld_json.specs.Fault.{SaysFirst};
ghost use Rattle.ld_model.specs.Expressions.{compare_test, tests_from};
ghost use Rattle.ld_types.specs.Operators.{checked_comparison_of};
ghost use Rattle.ld_types.specs.TermFaults.{is_no_comparison, test_faults, tests_faults};
ghost use Rattle.ld_types.specs.TypingView.{find_by};

use crate::types::{Comparison, ValueType};
use crate::typing::Typing;
use ld_json::{Code, ReadFault};
use ld_model::{Term, Test, TestForm};
use ld_walk::Spot;
use std::alloc::Global;

impl<'a> Typing<'a> {
    /// That the test at the place has no fault.
    #[cycle(tests)]
    pub(crate) fn check_test(
        &self,
        alloc: Global,
        at: &Spot<'_>,
        test: &Test,
    ) -> Result<(), ReadFault>
        ensures faultless { OnOk result (test_faults (find_by self.now) at.now test.now ≡ []) }
        ensures first { IfErr result (SaysFirst (test_faults (find_by self.now) at.now test.now)) }
    {
        match &*test.form {
            TestForm::Is(a, b) => self.check_comparison(alloc, at, Comparison::Equal, a, b),
            TestForm::IsNot(a, b) => self.check_comparison(alloc, at, Comparison::Different, a, b),
            TestForm::GreaterThan(a, b) => {
                self.check_comparison(alloc, at, Comparison::Greater, a, b)
            }
            TestForm::LessThan(a, b) => self.check_comparison(alloc, at, Comparison::Less, a, b),
            TestForm::And(tests) => self.check_tests(alloc, &at.member("and"), tests),
            TestForm::Or(tests) => self.check_tests(alloc, &at.member("or"), tests),
            TestForm::Not(test) => self.check_test(alloc, &at.member("not"), test),
            TestForm::UsersInRole(_, test) => {
                let users = at.member("users-in-role");
                self.check_test(alloc, &users.member("expression"), test)
            }
            TestForm::NoValue(_) | TestForm::IsMemberOfRole(_) | TestForm::Complete(_) => Ok(()),
        }
    }

    /// That the tests of the list at the place have no fault.
    #[cycle(tests)]
    fn check_tests(&self, alloc: Global, at: &Spot<'_>, tests: &[Test]) -> Result<(), ReadFault>
        ensures faultless { OnOk result
            (tests_faults (find_by self.now) at.now 0 (tests_from tests.now) ≡ []) }
        ensures first { IfErr result
            (SaysFirst (tests_faults (find_by self.now) at.now 0 (tests_from tests.now))) }
    {
        for (i, test) in tests.iter().enumerate() {
            self.check_test(alloc, &at.item(i), test)?;
        }
        Ok(())
    }

    /// That the two terms can be compared so, and have no fault.
    fn check_comparison(
        &self,
        alloc: Global,
        at: &Spot<'_>,
        comparison: Comparison,
        a: &Term,
        b: &Term,
    ) -> Result<(), ReadFault>
        ensures faultless { OnOk result (test_faults (find_by self.now) at.now
            (compare_test (checked_comparison_of comparison) a.now b.now) ≡ []) }
        ensures first { IfErr result (SaysFirst (test_faults (find_by self.now) at.now
            (compare_test (checked_comparison_of comparison) a.now b.now))) }
    {
        let first = self.term_type(alloc, a)?;
        let second = self.term_type(alloc, b)?;
        if is_no_comparison(comparison, first, second) {
            return Err(at.fault(alloc, Code::BadType));
        }
        let list = at.member(comparison.word());
        self.check_term(alloc, &list.item(0), false, a)?;
        self.check_term(alloc, &list.item(1), false, b)?;
        Ok(())
    }
}

/// Whether two values of these types cannot be compared so.
fn is_no_comparison(comparison: Comparison, a: Option<ValueType>, b: Option<ValueType>) -> bool
    ensures { result ≡ is_no_comparison (checked_comparison_of comparison) a b }
{
    match (a, b) {
        (Some(a), Some(b)) => !comparison.compares(a, b),
        _ => false,
    }
}
