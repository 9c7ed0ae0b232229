//! The roles, environments, activities and structures of documents, and single values.
use crate::documents::{SMALL_UNIT, are, first_fault, full_unit, is_feedback, is_item, is_text};
use json::Scratch;
use ld_json::{FileNo, document};
use ld_model::{
    Activity, ActivityKind, Completion, CreateNew, Environment, LearningObject, MatchPersons,
    Property, PropertyKind, Role, RoleKind, Service, ServiceKind, Structure, StructureKind,
    TermForm,
};
use ld_reader::{ActivityCompletion, read_on_completion, read_term};
use ld_shape::Reads;
use ld_value::Kind;
use std::test::Fail;

#[test]
fn parts_are_read(rt: HostRuntime) -> Result<(), Fail> {
    let unit = full_unit(rt.alloc())?;
    assert!(rt; are_the_roles(unit.roles.as_slice()));
    assert!(rt; are_the_properties(unit.properties.as_slice()));
    assert!(rt; are_the_environments(unit.environments.as_slice()));
    assert!(rt; are_the_activities(unit.activities.as_slice()));
    assert!(rt; are_the_structures(unit.structures.as_slice()));
    Ok(())
}

fn are_the_roles(roles: &[Role]) -> bool {
    let [learner, tutor] = roles else {
        return false;
    };
    is_the_learner(learner) && are_within(learner.roles.as_slice()) && is_the_tutor(tutor)
}

fn is_the_tutor(role: &Role) -> bool {
    role.identifier.as_str() == "tutor"
        && matches!(role.kind, RoleKind::Staff)
        && role.title.is_none()
        && role.roles.is_empty()
}

fn is_the_learner(role: &Role) -> bool {
    role.identifier.as_str() == "learner"
        && matches!(role.kind, RoleKind::Learner)
        && is_text(&role.title, "Learners")
        && matches!(role.create_new, CreateNew::NotAllowed)
        && matches!(role.match_persons, MatchPersons::ExclusivelyInRoles)
        && role.min_persons == 1
        && role.max_persons == Some(1_000_000)
}

fn are_within(roles: &[Role]) -> bool {
    let [expert, novice] = roles else {
        return false;
    };
    expert.identifier.as_str() == "expert"
        && is_the_novice(novice)
        && is_the_beginner(novice.roles.as_slice())
}

fn is_the_novice(role: &Role) -> bool {
    role.identifier.as_str() == "novice"
        && matches!(role.kind, RoleKind::Learner)
        && matches!(role.match_persons, MatchPersons::NotExclusively)
        && role.min_persons == 0
        && role.max_persons.is_none()
}

fn is_the_beginner(roles: &[Role]) -> bool {
    let [beginner] = roles else {
        return false;
    };
    beginner.identifier.as_str() == "beginner" && beginner.min_persons == 2
}

fn are_the_properties(properties: &[Property]) -> bool {
    let [score, team, shared] = properties else {
        return false;
    };
    is_the_score(score)
        && matches!(team.kind, PropertyKind::LocRole)
        && matches!(&team.role, Some(role) if role.as_str() == "tutor")
        && matches!(shared.kind, PropertyKind::Glob)
        && is_text(&shared.uri, "urn:shared")
}

fn is_the_score(score: &Property) -> bool {
    let Some(restrictions) = &score.restrictions else {
        return false;
    };
    matches!(score.kind, PropertyKind::LocPers)
        && score.datatype == Kind::Integer
        && is_text(&score.title, "Score")
        && is_text(&score.initial, "0")
        && is_text(&restrictions.min_inclusive, "0")
        && is_text(&restrictions.max_inclusive, "9")
        && restrictions.enumeration.len() == 2
}

fn are_the_environments(environments: &[Environment]) -> bool {
    environments.len() == 2
        && is_the_room(&environments[0])
        && environments[1].identifier.as_str() == "hall"
        && environments[1].visible
        && environments[1].learning_objects.is_empty()
        && environments[1].services.is_empty()
}

fn is_the_room(room: &Environment) -> bool {
    let (objects, inner) = (
        room.learning_objects.as_slice(),
        room.environments.as_slice(),
    );
    is_text(&room.title, "Room")
        && !room.visible
        && objects.len() == 1
        && is_the_book(&objects[0])
        && are_the_services(room.services.as_slice())
        && inner.len() == 1
        && inner[0].as_str() == "hall"
}

fn is_the_book(book: &LearningObject) -> bool {
    is_text(&book.title, "Book") && !book.visible && is_item(&book.items, "page")
}

fn are_the_services(services: &[Service]) -> bool {
    services.len() == 2
        && matches!(services[0].kind, ServiceKind::IndexSearch)
        && is_text(&services[0].title, "Find")
        && !services[0].visible
        && matches!(services[1].kind, ServiceKind::SendMail)
        && services[1].visible
}

fn are_the_activities(activities: &[Activity]) -> bool {
    activities.len() == 2 && is_the_reading(&activities[0]) && is_the_help(&activities[1])
}

fn is_the_reading(read: &Activity) -> bool {
    let items = read.items.as_slice();
    matches!(read.kind, ActivityKind::Learning)
        && is_text(&read.title, "Read")
        && !read.visible
        && is_item(&read.learning_objectives, "aim")
        && is_item(&read.prerequisites, "before")
        && read.supports.is_empty()
        && are(&read.environments, "room", "hall")
        && items.len() == 2
        && is_text(&items[0].title, "Text")
        && items[0].href.as_str() == "text.html"
        && !items[0].visible
        && items[1].visible
        && matches!(read.complete, Some(Completion::TimeLimit(3_600)))
        && is_feedback(&read.on_completion, "well")
}

fn is_the_help(help: &Activity) -> bool {
    let supports = help.supports.as_slice();
    matches!(help.kind, ActivityKind::Support)
        && help.visible
        && supports.len() == 1
        && supports[0].as_str() == "learner"
        && matches!(help.complete, Some(Completion::UserChoice))
        && help.on_completion.is_none()
}

fn are_the_structures(structures: &[Structure]) -> bool {
    structures.len() == 2
        && is_the_selection(&structures[0])
        && matches!(structures[1].kind, StructureKind::Sequence)
        && structures[1].number_to_select.is_none()
}

fn is_the_selection(some: &Structure) -> bool {
    let environments = some.environments.as_slice();
    matches!(some.kind, StructureKind::Selection)
        && is_text(&some.title, "Some")
        && !some.visible
        && some.number_to_select == Some(2)
        && environments.len() == 1
        && environments[0].as_str() == "hall"
        && are(&some.children, "read", "help")
}

#[test]
fn the_first_fault_is_told(rt: HostRuntime) -> Result<(), Fail> {
    let roles = "{\"roles\":[{\"identifier\":\"r\",\"kind\":\"x\"}]}";
    let fault = first_fault(rt.alloc(), [roles, "7", "7", "7", SMALL_UNIT, ""])?;
    assert!(rt; fault.as_str() == "roles.json /roles/0/kind wrong-shape");
    Ok(())
}

/// Completions by themselves, and what follows where nothing is said of it.
#[test]
fn completions_are_read(rt: HostRuntime) -> Result<(), Fail> {
    let mut scratch = Scratch::new(rt.alloc());
    let doc = document(rt.alloc(), b"{\"time-limit\":\"PT0S\"}", &mut scratch)?;
    let complete = ActivityCompletion::read(rt.alloc(), &doc.root(FileNo::Activities))?;
    assert!(rt; matches!(complete, Completion::TimeLimit(0)));
    let mut scratch = Scratch::new(rt.alloc());
    let doc = document(rt.alloc(), b"{}", &mut scratch)?;
    let follows = read_on_completion(rt.alloc(), &doc.root(FileNo::Unit))?;
    assert!(rt;
        follows.feedback.is_empty() && follows.change.is_empty() && follows.notify.is_empty()
    );
    Ok(())
}

/// A term by itself.
#[test]
fn a_term_is_read(rt: HostRuntime) -> Result<(), Fail> {
    let mut scratch = Scratch::new(rt.alloc());
    let doc = document(
        rt.alloc(),
        b"{\"sum\":[{\"property\":\"n\"},{\"integer\":\"1\"}]}",
        &mut scratch,
    )?;
    let term = read_term(rt.alloc(), &doc.root(FileNo::Conditions))?;
    let TermForm::Sum(terms) = &*term.form else {
        return Err("no sum".into());
    };
    assert!(rt; terms.len() == 2 && matches!(&*terms[0].form, TermForm::Property(_)));
    Ok(())
}
