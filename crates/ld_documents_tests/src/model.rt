//! The names, things and rules of a unit, written down by hand, and a view of one cell.
#![tactic(auto, using(ld_names::proofs::Rows::items_in_row))]

ghost use Rattle.std.specs.Prelude.{map};
ghost use Rattle.ld_names.specs.Rows.{StandsIn};

mod views;

use crate::documents::full_unit;
use ld_base::{Id, PropNo, RoleNo, RuleNo, ThingNo};
use ld_model::Item;
use ld_names::{Named, Names, Rule, RuleKind};
use ld_refs::Checked;
use ld_refs::check::check;
use ld_value::Value;
use ld_walk::Place;
use std::alloc::Global;
use std::test::Fail;

/// The identifiers of the roles in document order.
const ROLES: &str = "learner expert novice beginner tutor";

/// The identifiers of the things in document order.
const THINGS: &str =
    "room book page find mail hall read aim before i1 i2 well help some row o1 o2 p a rp rq f1 b rr f2 q c rs f3";

fn id(alloc: Global, text: &str) -> Result<Id, Fail> {
    let read = Id::read(alloc, text.as_bytes())?;
    Ok(read.ok_or("no identifier")?)
}

/// The unit that has each member, in which no check finds a fault, with its names.
fn checked_unit(alloc: Global) -> Result<Checked, Fail> {
    Ok(check(alloc, full_unit(alloc)?)?)
}

/// The number of the first of these items, which stand in a row.
fn first_of(names: &Names, items: &[Item]) -> Option<ThingNo>
    requires { StandsIn (map (λ item. item.identifier) items.now) names.now.things }
{
    let [first, ..] = items else {
        return None;
    };
    Some(names.first_of_row(&first.identifier))
}

/// The number of the first item of the unit's first activity, found by the row of its items.
fn first_item(checked: &Checked) -> Result<Option<ThingNo>, Fail> {
    let activity = checked.unit().activities.get(0).ok_or("no activity")?;
    Ok(first_of(checked.names(), activity.items.as_slice()))
}

/// Whether the identifier names just this, also where it remembers a wrong number, which it then
/// does no longer, and is told by this identifier.
fn is_named(names: &Names, id: &Id, named: Named) -> bool {
    id.remember(u32::MAX);
    match names.number(id) {
        Some(found) => found == named && names.id(found) == id && id.hint() < u32::MAX,
        None => false,
    }
}

#[test]
fn parts_are_named_and_numbered(rt: HostRuntime) -> Result<(), Fail> {
    let checked = checked_unit(rt.alloc())?;
    let names = checked.names();
    assert!(rt; are_the_roles(rt.alloc(), names)?);
    assert!(rt; are_the_things(rt.alloc(), names)?);
    assert!(rt; is_named(names, &id(rt.alloc(), "score")?, Named::Prop(PropNo(0))));
    assert!(rt; is_named(names, &checked.unit().identifier, Named::Unit));
    assert!(rt; names.number(&id(rt.alloc(), "nobody")?).is_none());
    assert!(rt; names.rule(Named::Unit) == Some(RuleNo(14)));
    assert!(rt; first_item(&checked)? == Some(ThingNo(9)));
    Ok(())
}

fn are_the_roles(alloc: Global, names: &Names) -> Result<bool, Fail> {
    for (number, word) in ROLES.split(' ').enumerate() {
        if !is_named(names, &id(alloc, word)?, Named::Role(RoleNo(number as u32))) {
            return Ok(false);
        }
    }
    Ok(true)
}

fn are_the_things(alloc: Global, names: &Names) -> Result<bool, Fail> {
    for (number, word) in THINGS.split(' ').enumerate() {
        if !is_named(
            names,
            &id(alloc, word)?,
            Named::Thing(ThingNo(number as u32)),
        ) {
            return Ok(false);
        }
    }
    Ok(true)
}

/// Where a thing stands in its unit, and the rule that completes it.
const PLACES: [(&str, Place, Option<u32>); 10] = [
    ("room", Place::Environment(0), None),
    ("book", Place::Object(0, 0), None),
    ("mail", Place::Service(0, 1), None),
    ("help", Place::Activity(1), Some(1)),
    ("row", Place::Structure(1), Some(3)),
    ("p", Place::Play(0), Some(11)),
    ("b", Place::Act(0, 1), Some(10)),
    ("c", Place::Act(1, 0), None),
    ("rq", Place::RolePart(0, 0, 1), Some(6)),
    ("f3", Place::Item, None),
];

#[test]
fn things_stand_in_their_places(rt: HostRuntime) -> Result<(), Fail> {
    let checked = checked_unit(rt.alloc())?;
    for (word, place, rule) in PLACES.iter() {
        assert!(rt;
            stands_at(checked.names(), &id(rt.alloc(), word)?, *place, *rule),
            "{word}"
        );
    }
    Ok(())
}

/// Whether the thing of this identifier stands at the place, and this rule completes it.
fn stands_at(names: &Names, id: &Id, place: Place, rule: Option<u32>) -> bool {
    match names.number(id) {
        Some(Named::Thing(found)) => {
            names.place(found) == place && names.rule(Named::Thing(found)) == rule.map(RuleNo)
        }
        _ => false,
    }
}

/// The rules of the unit in their order.
const RULES: [Rule; 16] = [
    Rule::CompletesActivity(0),
    Rule::CompletesActivity(1),
    Rule::CompletesStructure(0),
    Rule::CompletesStructure(1),
    Rule::OpensAct(0, 0),
    Rule::CompletesPart(0, 0, 0),
    Rule::CompletesPart(0, 0, 1),
    Rule::CompletesAct(0, 0),
    Rule::OpensAct(0, 1),
    Rule::CompletesPart(0, 1, 0),
    Rule::CompletesAct(0, 1),
    Rule::CompletesPlay(0),
    Rule::OpensAct(1, 0),
    Rule::CompletesPart(1, 0, 0),
    Rule::CompletesUnit,
    Rule::JudgesCondition(0),
];

#[test]
fn rules_stand_in_their_order(rt: HostRuntime) -> Result<(), Fail> {
    let checked = checked_unit(rt.alloc())?;
    assert!(rt; checked.names().rules() == RULES.as_slice());
    assert!(rt; matches!(Rule::CompletesStructure(0).kind(), RuleKind::Person));
    assert!(rt; matches!(Rule::OpensAct(0, 0).kind(), RuleKind::Run));
    Ok(())
}

#[test]
fn restrictions_and_initial_values_are_values(rt: HostRuntime) -> Result<(), Fail> {
    let checked = checked_unit(rt.alloc())?;
    let names = checked.names();
    let Some(Named::Prop(score)) = names.number(&id(rt.alloc(), "score")?) else {
        return Err("no property".into());
    };
    let limits = names.limits(score);
    assert!(rt; matches!(limits.most, Some(Value::Int(9))) && limits.one_of.len() == 2);
    assert!(rt; matches!(names.initial(score), Some(Value::Int(0))));
    let Some(Named::Prop(team)) = names.number(&id(rt.alloc(), "team")?) else {
        return Err("no property".into());
    };
    assert!(rt; names.initial(team).is_none());
    Ok(())
}
