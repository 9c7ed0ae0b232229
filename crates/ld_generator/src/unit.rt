//! The unit of the generator.
#![tactic(auto, unfolding(ld_base::specs::Identifier::begins_identifier, ld_base::specs::Identifier::continues_identifier))]

ghost use Rattle.std.specs.Prelude.{◌≡◌, ◌∷◌, [], map, IfOk};
ghost use Rattle.ld_base.specs.Numbers.{numbers_below};
ghost use Rattle.ld_generator.specs.GeneratedUnit.{activity_name, all_activities, generated_unit, learner, numbered_activity, score, the_act, the_method, the_part, the_play};

use crate::asks::ACTIVITIES;
use crate::conditions::conditions;
use crate::ids::{activity_id, id_of, one_reference};
use ld_base::{Items, NoMemory, PlainText};
use ld_model::{
    Act, Activity, ActivityKind, ActivityList, Completion, CreateNew, Level, MatchPersons, Method,
    Play, Property, PropertyKind, ReferenceList, Role, RoleKind, RolePart, Structure,
    StructureKind, Unit,
};
use ld_value::Kind;
use std::alloc::Global;

/// The unit `gen`: forty activities of which a learner does all, and conditions that count those
/// that were done. (docs/GENERATOR.md, "The unit")
pub fn generated_unit(alloc: Global) -> Result<Unit, NoMemory>
    ensures { IfOk result (λ unit. unit ≡ generated_unit) }
{
    let mut roles = Items::new(alloc);
    roles.push(learner(alloc)?)?;
    let mut properties = Items::new(alloc);
    properties.push(score(alloc)?)?;
    let mut structures = Items::new(alloc);
    structures.push(all_activities(alloc)?)?;
    let activities = activities(alloc)?;
    let method = method(alloc)?;
    let conditions = conditions(alloc)?;
    Ok(Unit {
        format: 1,
        identifier: id_of(alloc, "gen")?,
        level: Level::C,
        title: None,
        turns: 64,
        metadata: None,
        learning_objectives: Items::new(alloc),
        prerequisites: Items::new(alloc),
        roles,
        properties,
        environments: Items::new(alloc),
        activities,
        structures,
        method,
        conditions,
    })
}

/// The role `learner`.
fn learner(alloc: Global) -> Result<Role, NoMemory>
    ensures { IfOk result (λ role. role ≡ learner) }
{
    Ok(Role {
        identifier: id_of(alloc, "learner")?,
        kind: RoleKind::Learner,
        title: None,
        create_new: CreateNew::NotAllowed,
        match_persons: MatchPersons::NotExclusively,
        min_persons: 0,
        max_persons: None,
        roles: Vec::new(alloc),
    })
}

/// The property `score`.
fn score(alloc: Global) -> Result<Property, NoMemory>
    ensures { IfOk result (λ property. property ≡ score) }
{
    let identifier = id_of(alloc, "score")?;
    let initial = PlainText::of(alloc, "0")?;
    Ok(Property {
        identifier,
        kind: PropertyKind::LocPers,
        datatype: Kind::Integer,
        title: None,
        role: None,
        uri: None,
        initial: Some(initial),
        restrictions: None,
    })
}

/// The forty activities.
#[tactic(auto, using(crate::proofs::Counting::one_more))]
fn activities(alloc: Global) -> Result<ActivityList, NoMemory>
    ensures { IfOk result (λ activities. activities ≡ map numbered_activity (numbers_below 40)) }
{
    let mut activities = Items::new(alloc);
    for number in 0..ACTIVITIES {
        activities.push(activity(alloc, number)?)?;
    }
    Ok(activities)
}

/// The activity of this number.
fn activity(alloc: Global, number: u8) -> Result<Activity, NoMemory>
    ensures { IfOk result (λ activity. activity ≡ numbered_activity number) }
{
    Ok(Activity {
        identifier: activity_id(alloc, number)?,
        kind: ActivityKind::Learning,
        title: None,
        visible: true,
        learning_objectives: Items::new(alloc),
        prerequisites: Items::new(alloc),
        supports: Items::new(alloc),
        environments: Items::new(alloc),
        items: Items::new(alloc),
        complete: Some(Completion::UserChoice),
        on_completion: None,
    })
}

/// The selection `all`.
fn all_activities(alloc: Global) -> Result<Structure, NoMemory>
    ensures { IfOk result (λ structure. structure ≡ all_activities) }
{
    let identifier = id_of(alloc, "all")?;
    let children = activity_ids(alloc)?;
    Ok(Structure {
        identifier,
        kind: StructureKind::Selection,
        title: None,
        visible: true,
        number_to_select: None,
        environments: Items::new(alloc),
        children,
    })
}

/// The identifiers of the forty activities.
#[tactic(auto, using(crate::proofs::Counting::one_more))]
fn activity_ids(alloc: Global) -> Result<ReferenceList, NoMemory>
    ensures { IfOk result (λ references. references ≡ map activity_name (numbers_below 40)) }
{
    let mut references = Items::new(alloc);
    for number in 0..ACTIVITIES {
        references.push(activity_id(alloc, number)?)?;
    }
    Ok(references)
}

/// The method.
fn method(alloc: Global) -> Result<Method, NoMemory>
    ensures { IfOk result (λ method. method ≡ the_method) }
{
    let mut plays = Items::new(alloc);
    plays.push(play(alloc)?)?;
    let complete = Completion::WhenPlayCompleted(one_reference(alloc, "p")?);
    Ok(Method {
        plays,
        complete: Some(complete),
        on_completion: None,
    })
}

/// The play `p`.
fn play(alloc: Global) -> Result<Play, NoMemory>
    ensures { IfOk result (λ play. play ≡ the_play) }
{
    let mut acts = Items::new(alloc);
    acts.push(act(alloc)?)?;
    Ok(Play {
        identifier: id_of(alloc, "p")?,
        title: None,
        visible: true,
        acts,
        complete: Some(Completion::WhenLastActCompleted),
        on_completion: None,
    })
}

/// The act `t`.
fn act(alloc: Global) -> Result<Act, NoMemory>
    ensures { IfOk result (λ act. act ≡ the_act) }
{
    let mut role_parts = Items::new(alloc);
    role_parts.push(role_part(alloc)?)?;
    let identifier = id_of(alloc, "t")?;
    let complete = Completion::WhenRolePartCompleted(one_reference(alloc, "rp")?);
    Ok(Act {
        identifier,
        title: None,
        role_parts,
        complete: Some(complete),
        on_completion: None,
    })
}

/// The role-part `rp`.
fn role_part(alloc: Global) -> Result<RolePart, NoMemory>
    ensures { IfOk result (λ part. part ≡ the_part) }
{
    Ok(RolePart {
        identifier: id_of(alloc, "rp")?,
        title: None,
        role: id_of(alloc, "learner")?,
        target: id_of(alloc, "all")?,
    })
}
