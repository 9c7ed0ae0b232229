//! Terms and tests in a run all of whose cells are alike.
#![tactic(auto)]

ghost use Rattle.std.specs.Prelude.{◌≡◌, ◌<◌};

use crate::alike::Alike;
use crate::units::{check, full};
use ld_base::{NoMemory, PersonNo, PlainText, PropNo, RoleNo, RuleNo, Steps, ThingNo};
use ld_expr::{cell_of_mark, cell_of_property, role_number, says_yes, thing_number};
use ld_model::{CellName, Owner, TestForm};
use ld_rules::PreparedUnit;
use ld_value::Value;
use std::alloc::Global;
use std::marker::Brand;
use std::sync::ledger::{Blank, Ledger};
use std::test::Fail;

const FIRST: PersonNo = PersonNo(0);

const OWNER: Owner = Owner::Person(FIRST);

#[test]
fn terms_and_tests_are_worked_out(rt: HostRuntime) -> Result<(), Fail> {
    let unit = full(rt.alloc())?;
    assert!(rt; names_cells(&unit));
    work_out::<Brand>(rt.alloc(), &unit, Blank::new(1))
}

/// Works the terms and tests out, with steps that are counted from 0.
fn work_out<L: Ledger>(alloc: Global, unit: &PreparedUnit, blank: Blank) -> Result<(), Fail>
    requires name { blank.name ≡ L.name }
    requires parts { blank.parts ≡ L.parts }
    requires some { 0 < L.parts }
{
    let mut steps = Steps::<L>::new(blank);
    work_out_with(alloc, unit, &mut steps)
}

/// Refuses the test where a term or a test of the unit comes out wrong.
fn work_out_with<L: Ledger>(
    alloc: Global,
    unit: &PreparedUnit,
    steps: &mut Steps<L>,
) -> Result<(), Fail> {
    check(is_score(unit, 7, steps), "the score is 7")?;
    check(!is_score(unit, 8, steps), "the score is not 8")?;
    check(has_score(alloc, unit, "7", steps), "the value 7")?;
    check(!has_score(alloc, unit, "8", steps), "not the value 8")?;
    check(is_seven(value_in(alloc, unit, 0, steps)), "3 and 4 are 7")?;
    check(is_word(value_in(alloc, unit, 2, steps)), "a text")?;
    check(says(unit, true, steps), "all is so")?;
    check(says(unit, false, steps), "nothing is so")
}

/// Whether the first condition holds where the score is this.
fn is_score<L: Ledger>(unit: &PreparedUnit, score: i64, steps: &mut Steps<L>) -> bool {
    let [condition, _, _] = unit.unit().conditions.as_slice() else {
        return false;
    };
    let view = Alike {
        value: Some(Value::Int(score)),
    };
    unit.scope(&view).holds(OWNER, &condition.test, steps)
}

/// Whether the score has the value of this text where it is 7.
fn has_score<L: Ledger>(
    alloc: Global,
    unit: &PreparedUnit,
    text: &str,
    steps: &mut Steps<L>,
) -> bool {
    let Some(score) = unit.unit().properties.get(0) else {
        return false;
    };
    let Ok(text) = PlainText::of(alloc, text) else {
        return false;
    };
    let view = Alike {
        value: Some(Value::Int(7)),
    };
    unit.scope(&view)
        .has_value(OWNER, &score.identifier, &Some(text), steps)
}

/// The value of the second term of the condition of this number.
fn value_in<L: Ledger>(
    alloc: Global,
    unit: &PreparedUnit,
    number: usize,
    steps: &mut Steps<L>,
) -> Result<Option<Value>, NoMemory> {
    let Some(condition) = unit.unit().conditions.get(number) else {
        return Ok(None);
    };
    let TestForm::Is(_, term) = &*condition.test.form else {
        return Ok(None);
    };
    let view = Alike { value: None };
    unit.scope(&view).value_of(alloc, OWNER, term, steps)
}

/// Whether the value is the number 7.
fn is_seven(value: Result<Option<Value>, NoMemory>) -> bool {
    matches!(value, Ok(Some(Value::Int(7))))
}

/// Whether the value is the text of the third condition.
fn is_word(value: Result<Option<Value>, NoMemory>) -> bool {
    matches!(value, Ok(Some(Value::Text(text))) if text.as_str() == "seven")
}

/// Whether this is said of the person, where every cell says it: to be a member, to have done what
/// there is to do, and that all members have.
fn says<L: Ledger>(unit: &PreparedUnit, truth: bool, steps: &mut Steps<L>) -> bool {
    let [_, condition, _] = unit.unit().conditions.as_slice() else {
        return false;
    };
    let TestForm::UsersInRole(role, done) = &*condition.test.form else {
        return false;
    };
    let TestForm::Complete(activity) = &*done.form else {
        return false;
    };
    let view = Alike {
        value: Some(Value::Bool(truth)),
    };
    let scope = unit.scope(&view);
    scope.is_member_of(FIRST, role, steps) == truth
        && scope.is_owner_in_role(OWNER, role, steps) == truth
        && scope.is_done(OWNER, activity, steps) == truth
        && says_yes(&view, CellName::Started, steps) == truth
        && scope.holds_for_users(role, done, steps) == truth
}

/// Whether the parts of the unit have their numbers and cells.
fn names_cells(unit: &PreparedUnit) -> bool {
    let (course, names) = (unit.unit(), unit.names());
    let [score, word, _] = course.properties.as_slice() else {
        return false;
    };
    let [role] = course.roles.as_slice() else {
        return false;
    };
    let [activity] = course.activities.as_slice() else {
        return false;
    };
    let mark = CellName::Mark(RuleNo(0), OWNER);
    let of_word = CellName::Prop(PropNo(1), Owner::Run);
    role_number(course, names, &role.identifier) == Some(RoleNo(0))
        && thing_number(course, names, &activity.identifier) == Some(ThingNo(1))
        && cell_of_mark(course, names, OWNER, &activity.identifier) == Some(mark)
        && cell_of_property(course, names, OWNER, &score.identifier)
            == Some(CellName::Prop(PropNo(0), OWNER))
        && cell_of_property(course, names, OWNER, &word.identifier) == Some(of_word)
}
