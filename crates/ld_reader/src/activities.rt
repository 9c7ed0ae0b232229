//! Activities.
#![tactic(auto, unfolding(ld_formats::specs::Activities::activity, ld_formats::specs::Activities::activity_by, ld_formats::specs::Activities::content_by, ld_formats::specs::Activities::doing), using(ld_json::proofs::First::says_more))]

ghost use Rattle.std.specs.Prelude.{◌≡◌, OnOk, IfOk};
ghost use Rattle.ld_formats.specs.Activities.{activity_words, activity_kind, supports_by, doing, content_by, activity_members, activity_by, activity};
ghost use Rattle.ld_json.specs.Access.{IsObject};
ghost use Rattle.ld_shape.specs.Objects.{only_members};
ghost use Rattle.ld_shape.specs.Reading.{GivesOrSays};
ghost use Rattle.ld_shape.specs.Words.{one_of};

use crate::changes::Follows;
use crate::completions::ActivityCompletion;
use crate::items::ItemShape;
use ld_base::{Items, NoMemory};
use ld_json::{Code, Node, ReadFault};
use ld_model::{Activity, ActivityKind, Completion, ItemList, OnCompletion, ReferenceList};
use ld_shape::{
    Flag, Identifier, Reads, Title, default_at, known_or, list_at, needed_at, optional_at,
};
use std::alloc::Global;

/// The kind of an activity.
pub struct ActivityWord;

impl Reads for ActivityWord {
    type Value = ActivityKind;

    ghost shape = { one_of activity_words };

    fn read(alloc: Global, node: &Node<'_, '_>) -> Result<ActivityKind, ReadFault> {
        match node.text(alloc)? {
            "learning" => Ok(ActivityKind::Learning),
            "support" => Ok(ActivityKind::Support),
            _ => Err(node.fault(alloc, Code::WrongShape)),
        }
    }
}

/// An activity.
pub struct ActivityShape;

impl Reads for ActivityShape {
    type Value = Activity;

    ghost shape = { activity };

    fn read(alloc: Global, node: &Node<'_, '_>) -> Result<Activity, ReadFault> {
        let kind = kind_of(alloc, node)?;
        read_of_kind(alloc, node, kind)
    }
}

/// The kind of the activity at the node: learning where none is given, support where what is given
/// is none of the two.
fn kind_of(alloc: Global, node: &Node<'_, '_>) -> Result<ActivityKind, NoMemory>
    ensures { IfOk result (λ kind. kind ≡ activity_kind node.now) }
{
    if !node.is_object() {
        return Ok(ActivityKind::Learning);
    }
    let known = known_or::<ActivityWord>(alloc, node, "kind", ActivityKind::Learning)?;
    Ok(known.unwrap_or(ActivityKind::Support))
}

/// An activity of this kind.
fn read_of_kind(
    alloc: Global,
    node: &Node<'_, '_>,
    kind: ActivityKind,
) -> Result<Activity, ReadFault>
    ensures { GivesOrSays ((activity_by kind).reading node.now) result }
{
    only_of_kind(alloc, node, kind)?;
    let identifier = needed_at::<Identifier>(alloc, node, "identifier")?;
    let own_kind = default_at::<ActivityWord>(alloc, node, "kind", ActivityKind::Learning)?;
    let title = optional_at::<Title>(alloc, node, "title")?;
    let visible = default_at::<Flag>(alloc, node, "visible", true)?;
    let (objectives, (prerequisites, (supports, (environments, (items, (complete, follows)))))) =
        content_at(alloc, node, kind)?;
    Ok(Activity {
        identifier,
        kind: own_kind,
        title,
        visible,
        learning_objectives: objectives,
        prerequisites,
        supports,
        environments,
        items,
        complete,
        on_completion: follows,
    })
}

/// That the node is an object without members but those of an activity of this kind.
fn only_of_kind(alloc: Global, node: &Node<'_, '_>, kind: ActivityKind) -> Result<(), ReadFault>
    ensures object { OnOk result (IsObject node.now) }
    ensures only { GivesOrSays (only_members (activity_members kind) node.now) result }
{
    match kind {
        ActivityKind::Learning => only_learning(alloc, node),
        ActivityKind::Support => only_support(alloc, node),
    }
}

/// That the node is an object without members but those of a learning activity.
fn only_learning(alloc: Global, node: &Node<'_, '_>) -> Result<(), ReadFault>
    ensures object { OnOk result (IsObject node.now) }
    ensures only { GivesOrSays
        (only_members (activity_members ActivityKind.Learning) node.now) result }
{
    node.only(
        alloc,
        &[
            "identifier",
            "kind",
            "title",
            "visible",
            "learning-objectives",
            "prerequisites",
            "environments",
            "items",
            "complete",
            "on-completion",
        ],
    )?;
    Ok(())
}

/// That the node is an object without members but those of a support activity.
fn only_support(alloc: Global, node: &Node<'_, '_>) -> Result<(), ReadFault>
    ensures object { OnOk result (IsObject node.now) }
    ensures only { GivesOrSays
        (only_members (activity_members ActivityKind.Support) node.now) result }
{
    node.only(
        alloc,
        &[
            "identifier",
            "kind",
            "title",
            "visible",
            "learning-objectives",
            "prerequisites",
            "supports",
            "environments",
            "items",
            "complete",
            "on-completion",
        ],
    )?;
    Ok(())
}

/// What an activity has people do: its items, when it is completed, and what follows then.
type Doing = (ItemList, (Option<Completion>, Option<OnCompletion>));

/// What an activity holds: objectives, prerequisites, supported roles, environments, and what is
/// done.
type Content = (
    ItemList,
    (ItemList, (ReferenceList, (ReferenceList, Doing))),
);

/// The members of an activity of this kind that follow those which say how it is shown.
fn content_at(alloc: Global, node: &Node<'_, '_>, kind: ActivityKind) -> Result<Content, ReadFault>
    requires { IsObject node.now }
    ensures { GivesOrSays ((content_by kind).shape.reading node.now) result }
{
    let objectives = list_at::<ItemShape>(alloc, node, "learning-objectives")?;
    let prerequisites = list_at::<ItemShape>(alloc, node, "prerequisites")?;
    let supports = supports_at(alloc, node, kind)?;
    let environments = list_at::<Identifier>(alloc, node, "environments")?;
    let doing = doing_at(alloc, node)?;
    Ok((
        objectives,
        (prerequisites, (supports, (environments, doing))),
    ))
}

/// What is done in an activity, when it is completed, and what follows then.
fn doing_at(alloc: Global, node: &Node<'_, '_>) -> Result<Doing, ReadFault>
    requires { IsObject node.now }
    ensures { GivesOrSays (doing.shape.reading node.now) result }
{
    let items = list_at::<ItemShape>(alloc, node, "items")?;
    let complete = optional_at::<ActivityCompletion>(alloc, node, "complete")?;
    let follows = optional_at::<Follows>(alloc, node, "on-completion")?;
    Ok((items, (complete, follows)))
}

/// The roles that an activity of this kind supports; a learning activity supports nobody.
fn supports_at(
    alloc: Global,
    node: &Node<'_, '_>,
    kind: ActivityKind,
) -> Result<ReferenceList, ReadFault>
    requires { IsObject node.now }
    ensures { GivesOrSays ((supports_by kind).shape.reading node.now) result }
{
    match kind {
        ActivityKind::Learning => Ok(Items::new(alloc)),
        ActivityKind::Support => list_at::<Identifier>(alloc, node, "supports"),
    }
}
