//! A unit and its method.
use crate::documents::{
    SMALL_ROLES, SMALL_UNIT, are, first_fault, full_unit, is_feedback, is_item, is_text, outcome_of,
};
use ld_model::{
    Act, Action, Completion, Condition, Level, Method, Play, RolePart, Test, TestForm, Unit,
};
use std::test::Fail;

#[test]
fn a_unit_is_read(rt: HostRuntime) -> Result<(), Fail> {
    let unit = full_unit(rt.alloc())?;
    assert!(rt; is_the_unit(&unit));
    assert!(rt; is_the_method(&unit.method));
    Ok(())
}

fn is_the_unit(unit: &Unit) -> bool {
    unit.format == 1
        && unit.identifier.as_str() == "u"
        && matches!(unit.level, Level::C)
        && is_text(&unit.title, "First")
        && unit.turns == 8
        && is_text(&unit.metadata, "m")
        && is_item(&unit.learning_objectives, "o1")
        && is_item(&unit.prerequisites, "o2")
        && are_the_conditions(unit.conditions.as_slice())
}

fn are_the_conditions(conditions: &[Condition]) -> bool {
    let [condition] = conditions else {
        return false;
    };
    let (yes, no) = (condition.yes.as_slice(), condition.no.as_slice());
    is_all_of_three(&condition.test)
        && yes.len() == 2
        && matches!(&yes[0], Action::Show(_))
        && matches!(&yes[1], Action::Change(_))
        && no.len() == 2
        && matches!(&no[0], Action::Hide(_))
        && matches!(&no[1], Action::Notify(_))
}

fn is_all_of_three(test: &Test) -> bool {
    let TestForm::And(tests) = &*test.form else {
        return false;
    };
    tests.len() == 3
        && matches!(&*tests[0].form, TestForm::Is(_, _))
        && matches!(&*tests[1].form, TestForm::Not(_))
        && matches!(&*tests[2].form, TestForm::UsersInRole(_, _))
}

fn is_the_method(method: &Method) -> bool {
    let plays = method.plays.as_slice();
    plays.len() == 2
        && is_the_play(&plays[0])
        && is_the_other_play(&plays[1])
        && is_by_plays(&method.complete, "p", "q")
        && is_feedback(&method.on_completion, "f3")
}

fn is_by_plays(complete: &Option<Completion>, first: &str, second: &str) -> bool {
    match complete {
        Some(Completion::WhenPlayCompleted(plays)) => are(plays, first, second),
        _ => false,
    }
}

fn is_the_other_play(play: &Play) -> bool {
    play.identifier.as_str() == "q"
        && play.title.is_none()
        && play.visible
        && play.acts.len() == 1
        && play.complete.is_none()
        && play.on_completion.is_none()
}

fn is_the_play(play: &Play) -> bool {
    let acts = play.acts.as_slice();
    play.identifier.as_str() == "p"
        && is_text(&play.title, "Play")
        && !play.visible
        && matches!(&play.complete, Some(Completion::WhenLastActCompleted))
        && is_feedback(&play.on_completion, "f2")
        && acts.len() == 2
        && is_the_act(&acts[0])
        && acts[1].identifier.as_str() == "b"
        && matches!(&acts[1].complete, Some(Completion::TimeLimit(3_600)))
}

fn is_the_act(act: &Act) -> bool {
    let parts = act.role_parts.as_slice();
    act.identifier.as_str() == "a"
        && is_text(&act.title, "Act")
        && is_by_parts(&act.complete, "rp", "rq")
        && is_feedback(&act.on_completion, "f1")
        && parts.len() == 2
        && is_the_part(&parts[0])
        && parts[1].identifier.as_str() == "rq"
}

fn is_by_parts(complete: &Option<Completion>, first: &str, second: &str) -> bool {
    match complete {
        Some(Completion::WhenRolePartCompleted(parts)) => are(parts, first, second),
        _ => false,
    }
}

fn is_the_part(part: &RolePart) -> bool {
    part.identifier.as_str() == "rp"
        && is_text(&part.title, "Part")
        && part.role.as_str() == "learner"
        && part.target.as_str() == "read"
}

/// The least documents: the others are absent.
#[test]
fn what_is_absent_has_its_default(rt: HostRuntime) -> Result<(), Fail> {
    let unit = outcome_of(rt.alloc(), [SMALL_ROLES, "", "", "{}", SMALL_UNIT, ""])??;
    assert!(rt; has_defaults(&unit) && has_no_parts(&unit));
    Ok(())
}

fn has_defaults(unit: &Unit) -> bool {
    matches!(unit.level, Level::A)
        && unit.title.is_none()
        && unit.turns == 64
        && unit.metadata.is_none()
        && unit.learning_objectives.is_empty()
        && unit.prerequisites.is_empty()
        && unit.conditions.is_empty()
}

fn has_no_parts(unit: &Unit) -> bool {
    unit.roles.len() == 1
        && unit.properties.is_empty()
        && unit.environments.is_empty()
        && unit.activities.is_empty()
        && unit.structures.is_empty()
}

#[test]
fn the_unit_is_before_its_conditions(rt: HostRuntime) -> Result<(), Fail> {
    let both = first_fault(rt.alloc(), [SMALL_ROLES, "", "", "{}", "{}", "[]"])?;
    assert!(rt; both.as_str() == "unit.json /format missing");
    let one = first_fault(rt.alloc(), [SMALL_ROLES, "", "", "{}", SMALL_UNIT, "[]"])?;
    assert!(rt; one.as_str() == "conditions.json . wrong-shape");
    Ok(())
}
