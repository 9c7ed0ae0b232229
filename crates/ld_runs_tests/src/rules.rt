//! A prepared unit, what its rules speak of and what they say.
#![tactic(auto, using(ld_rules::proofs::Judging::row_there))]

ghost use Rattle.std.specs.Prelude.{◌≡◌, ◌<◌};

use crate::alike::Alike;
use crate::units::{check, full};
use ld_base::{PersonNo, PropNo, RuleNo, Steps, ThingNo};
use ld_model::{CellName, Owner};
use ld_names::{Named, Rule};
use ld_rules::judge::judge;
use ld_rules::{
    PreparedUnit, Reach, Site, act_at, completing_activity, completing_play, is_environment,
    opening_cell, says_for_good,
};
use ld_value::Value;
use std::alloc::Global;
use std::marker::Brand;
use std::sync::ledger::{Blank, Ledger};
use std::test::Fail;

const FIRST: PersonNo = PersonNo(0);

const OWNER: Owner = Owner::Person(FIRST);

#[test]
fn rules_are_judged(rt: HostRuntime) -> Result<(), Fail> {
    let unit = full(rt.alloc())?;
    assert!(rt; has_its_parts(&unit));
    assert!(rt; is_reached(rt.alloc(), &unit));
    assert!(rt; speaks_of_acts(&unit));
    assert!(rt; speaks_of_activities(&unit));
    judge_all::<Brand>(&unit, Blank::new(1))
}

/// Whether the unit has its properties, names and rules.
fn has_its_parts(unit: &PreparedUnit) -> bool {
    unit.unit().properties.len() == 3
        && unit.uri(PropNo(0)).is_none()
        && matches!(unit.uri(PropNo(2)), Some(uri) if uri.as_str() == "urn:shared")
        && unit.names().id(Named::Unit).as_str() == "u"
        && unit.rules().len() == 7
        && unit.rules()[0] == Rule::CompletesActivity(0)
}

/// Whether the first role alone reaches the first activity.
fn is_reached(alloc: Global, unit: &PreparedUnit) -> bool {
    let Some(_activity) = unit.unit().activities.get(0) else {
        return false;
    };
    let Ok(reach) = Reach::of(alloc, unit.unit(), unit.names()) else {
        return false;
    };
    reach.roles(0) == [0].as_slice()
}

/// Whether the act and its play are found, and what they begin with.
fn speaks_of_acts(unit: &PreparedUnit) -> bool {
    let (course, names) = (unit.unit(), unit.names());
    let [play] = course.method.plays.as_slice() else {
        return false;
    };
    let Some(act) = act_at(course, 0, 0) else {
        return false;
    };
    let about = completing_play(play);
    about.start == Some(CellName::Started)
        && matches!(about.last_act, Some(id) if id.as_str() == "a")
        && opening_cell(course, names, act) == Some(CellName::ActOpened(ThingNo(4)))
        && says_for_good(Rule::OpensAct(0, 0))
        && !says_for_good(Rule::JudgesCondition(0))
}

/// Whether the cells of the activity are found, and the room is an environment.
fn speaks_of_activities(unit: &PreparedUnit) -> bool {
    let (course, names) = (unit.unit(), unit.names());
    let [activity] = course.activities.as_slice() else {
        return false;
    };
    let [room] = course.environments.as_slice() else {
        return false;
    };
    let about = completing_activity(course, names, activity, FIRST);
    about.chosen == Some(CellName::Chosen(ThingNo(1), OWNER))
        && about.start == Some(CellName::Opened(ThingNo(1), OWNER))
        && is_environment(course, names, &room.identifier)
        && !is_environment(course, names, &activity.identifier)
}

/// Judges rules, with steps that are counted from 0.
fn judge_all<L: Ledger>(unit: &PreparedUnit, blank: Blank) -> Result<(), Fail>
    requires name { blank.name ≡ L.name }
    requires parts { blank.parts ≡ L.parts }
    requires some { 0 < L.parts }
{
    let mut steps = Steps::<L>::new(blank);
    judge_with(unit, &mut steps)
}

/// Refuses the test where a rule is judged wrong.
fn judge_with<L: Ledger>(unit: &PreparedUnit, steps: &mut Steps<L>) -> Result<(), Fail> {
    check(
        judged(unit, 0, Value::Bool(true), steps),
        "an activity is done",
    )?;
    check(
        !judged(unit, 0, Value::Bool(false), steps),
        "an activity is open",
    )?;
    check(judged(unit, 4, Value::Int(7), steps), "the score is 7")?;
    check(!judged(unit, 4, Value::Int(8), steps), "the score is not 7")
}

/// What the rule of this number says for the person where each cell has this value.
fn judged<L: Ledger>(unit: &PreparedUnit, rule: u32, value: Value, steps: &mut Steps<L>) -> bool {
    let view = Alike { value: Some(value) };
    let site = Site {
        rule: RuleNo(rule),
        owner: OWNER,
    };
    judge(unit, site, &view, steps)
}
