//! Roles, and the roles within them.
#![tactic(auto, unfolding(ld_formats::specs::Roles::role, ld_formats::specs::Roles::role_of, ld_formats::specs::Roles::told_members), using(ld_formats::proofs::Unrolled::inner_role_is, ld_json::proofs::Elements::drop_at, ld_json::proofs::First::says_more, ld_shape::proofs::Passing::one_more))]

ghost use Rattle.std.specs.Prelude.{◌≡◌, codes, [], length, IfOk, IfErr};
ghost use Rattle.ld_formats.specs.Roles.{creation, inner_role, inner_step, kind_words, match_words, role, role_kind, role_of};
ghost use Rattle.ld_json.specs.Access.{IsArray, IsObject, item_nodes};
ghost use Rattle.ld_json.specs.Fault.{SaysFirst};
ghost use Rattle.ld_shape.specs.Lists.{each, list_of};
ghost use Rattle.ld_shape.specs.Objects.{read_or};
ghost use Rattle.ld_shape.specs.Reading.{GivesOrSays, Gives};
ghost use Rattle.ld_shape.specs.Recursion.{shape_of};
ghost use Rattle.ld_shape.specs.Words.{one_of};

use ld_base::NoMemory;
use ld_json::{Code, Node, ReadFault};
use ld_model::{CreateNew, MatchPersons, Role, RoleKind};
use ld_shape::{
    Identifier, Number, Reads, Title, count_from, default_at, known_at, needed_at, optional_at,
};
use std::alloc::Global;

/// The kind of a role.
pub struct KindWord;

impl Reads for KindWord {
    type Value = RoleKind;

    ghost shape = { one_of kind_words };

    fn read(alloc: Global, node: &Node<'_, '_>) -> Result<RoleKind, ReadFault> {
        match node.text(alloc)? {
            "learner" => Ok(RoleKind::Learner),
            "staff" => Ok(RoleKind::Staff),
            _ => Err(node.fault(alloc, Code::WrongShape)),
        }
    }
}

/// Whether members may hold other roles.
pub struct MatchWord;

impl Reads for MatchWord {
    type Value = MatchPersons;

    ghost shape = { one_of match_words };

    fn read(alloc: Global, node: &Node<'_, '_>) -> Result<MatchPersons, ReadFault> {
        match node.text(alloc)? {
            "exclusively-in-roles" => Ok(MatchPersons::ExclusivelyInRoles),
            "not-exclusively" => Ok(MatchPersons::NotExclusively),
            _ => Err(node.fault(alloc, Code::WrongShape)),
        }
    }
}

/// Whether occurrences may be made.
pub struct CreationWord;

impl Reads for CreationWord {
    type Value = CreateNew;

    ghost shape = { creation };

    fn read(alloc: Global, node: &Node<'_, '_>) -> Result<CreateNew, ReadFault> {
        match node.text(alloc)? {
            "not-allowed" => Ok(CreateNew::NotAllowed),
            "allowed" => Err(node.fault(alloc, Code::NotInProfile)),
            _ => Err(node.fault(alloc, Code::WrongShape)),
        }
    }
}

/// A number of persons.
pub type Persons = Number<0, 1_000_000>;

/// A role at the top, and the roles within it.
pub struct RoleShape;

impl Reads for RoleShape {
    type Value = Role;

    ghost shape = { role };

    fn read(alloc: Global, node: &Node<'_, '_>) -> Result<Role, ReadFault> {
        let kind = kind_of(alloc, node)?;
        read_role_of(alloc, node, kind)
    }
}

/// The kind of the role at the node; learner where the node tells none.
fn kind_of(alloc: Global, node: &Node<'_, '_>) -> Result<RoleKind, NoMemory>
    ensures { IfOk result (λ kind. kind ≡ role_kind node.now) }
{
    if !node.is_object() {
        return Ok(RoleKind::Learner);
    }
    let known = known_at::<KindWord>(alloc, node, "kind")?;
    Ok(known.unwrap_or(RoleKind::Learner))
}

/// A role at the top; the roles within it have this kind.
fn read_role_of(alloc: Global, node: &Node<'_, '_>, kind: RoleKind) -> Result<Role, ReadFault>
    ensures { GivesOrSays ((role_of kind).reading node.now) result }
{
    node.only(
        alloc,
        &[
            "identifier",
            "kind",
            "title",
            "create-new",
            "match-persons",
            "min-persons",
            "max-persons",
            "roles",
        ],
    )?;
    let identifier = needed_at::<Identifier>(alloc, node, "identifier")?;
    needed_at::<KindWord>(alloc, node, "kind")?;
    let title = optional_at::<Title>(alloc, node, "title")?;
    let create_new = default_at::<CreationWord>(alloc, node, "create-new", CreateNew::NotAllowed)?;
    let match_persons = default_at::<MatchWord>(
        alloc,
        node,
        "match-persons",
        MatchPersons::NotExclusively,
    )?;
    let min_persons = default_at::<Persons>(alloc, node, "min-persons", 0)?;
    let max_persons = optional_at::<Persons>(alloc, node, "max-persons")?;
    let roles = roles_at(alloc, node, kind)?;
    Ok(Role {
        identifier,
        kind,
        title,
        create_new,
        match_persons,
        min_persons,
        max_persons,
        roles,
    })
}

/// A role within one of this kind.
#[cycle(roles)]
fn read_inner(alloc: Global, node: &Node<'_, '_>, kind: RoleKind) -> Result<Role, ReadFault>
    ensures { GivesOrSays ((inner_role kind).reading node.now) result }
{
    read_one(alloc, &*node, kind)
}

/// A role within one of this kind, made of roles within it.
#[cycle(roles)]
fn read_one(alloc: Global, node: &Node<'_, '_>, kind: RoleKind) -> Result<Role, ReadFault>
    ensures { GivesOrSays ((inner_step kind (inner_role kind)).reading node.now) result }
{
    node.only(
        alloc,
        &[
            "identifier",
            "title",
            "create-new",
            "match-persons",
            "min-persons",
            "max-persons",
            "roles",
        ],
    )?;
    let identifier = needed_at::<Identifier>(alloc, node, "identifier")?;
    let title = optional_at::<Title>(alloc, node, "title")?;
    let create_new = default_at::<CreationWord>(alloc, node, "create-new", CreateNew::NotAllowed)?;
    let match_persons = default_at::<MatchWord>(
        alloc,
        node,
        "match-persons",
        MatchPersons::NotExclusively,
    )?;
    let min_persons = default_at::<Persons>(alloc, node, "min-persons", 0)?;
    let max_persons = optional_at::<Persons>(alloc, node, "max-persons")?;
    let roles = roles_at(alloc, node, kind)?;
    Ok(Role {
        identifier,
        kind,
        title,
        create_new,
        match_persons,
        min_persons,
        max_persons,
        roles,
    })
}

/// The roles of this kind at the member `roles`; none where it is absent.
#[cycle(roles)]
fn roles_at(alloc: Global, node: &Node<'_, '_>, kind: RoleKind) -> Result<Vec<Role>, ReadFault>
    requires { IsObject node.now }
    ensures value { IfOk result
        (λ roles. Gives
        (read_or (codes "roles") [] (list_of 0 (shape_of (inner_role kind))) node.now)
        roles.items) }
    ensures first { IfErr result
        (SaysFirst
        (read_or (codes "roles") [] (list_of 0 (shape_of (inner_role kind))) node.now).faults) }
{
    let Some(list) = node.optional("roles") else {
        return Ok(Vec::new(alloc));
    };
    read_roles(alloc, &list, kind)
}

/// The roles of this kind in an array.
#[cycle(roles)]
fn read_roles(alloc: Global, node: &Node<'_, '_>, kind: RoleKind) -> Result<Vec<Role>, ReadFault>
    ensures value { IfOk result
        (λ roles. Gives ((list_of 0 (shape_of (inner_role kind))).reading node.now) roles.items) }
    ensures first { IfErr result
        (SaysFirst ((list_of 0 (shape_of (inner_role kind))).reading node.now).faults) }
{
    let count = count_from(alloc, node, 0)?;
    read_each(alloc, node, count, kind)
}

/// The roles of this kind that are the `count` elements of an array.
#[cycle(roles)]
fn read_each(
    alloc: Global,
    node: &Node<'_, '_>,
    count: usize,
    kind: RoleKind,
) -> Result<Vec<Role>, ReadFault>
    requires array { IsArray node.now }
    requires whole { count ≡ length (item_nodes node.now) }
    ensures value { IfOk result
        (λ roles. Gives (each (shape_of (inner_role kind)) (item_nodes node.now)) roles.items) }
    ensures first { IfErr result
        (SaysFirst (each (shape_of (inner_role kind)) (item_nodes node.now)).faults) }
{
    let mut roles = Vec::new(alloc);
    for index in 0..count {
        let role = read_inner(alloc, &node.item(index), kind)?;
        roles.push(role)?;
    }
    Ok(roles)
}
