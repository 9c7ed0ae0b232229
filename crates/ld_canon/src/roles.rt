//! Roles.
ghost use Rattle.std.specs.Prelude.{◌≡◌, IfOk, OnOk, ◌∷◌, [], List, map, option_map};
ghost use Rattle.serde_json.specs.Data.{string};
ghost use Rattle.serde_json.specs.View.{view, members_view};
ghost use Rattle.ld_canon.specs.Roles.{IsRole, IsTreeOf, AreTreesOf, creation, creation_word, creation_word_of, EachIs, is_open, is_zero, kind_word, kind_word_of, match_persons as match_printed, match_word, match_word_of, persons as persons_printed, plain_rows, put_trees, role_kind_word, role_tree, roles_tree};
ghost use Rattle.ld_formats.specs.Roles.{makes_none};
ghost use Rattle.ld_prints.specs.Rows.{members_into, put_if};
ghost use Rattle.ld_prints.specs.Lists.{some_trees};

use ld_base::{NoMemory, PlainText};
use ld_model::{CreateNew, MatchPersons, Role, RoleKind, RoleList};
use ld_prints::members::{needed, object_tree, optional, unless};
use ld_prints::prints::Prints;
use ld_prints::values::{IdTree, NumberTree, TitleTree, text_tree};
use serde_json::{Map, Value, put};
use std::alloc::Global;

/// The kind of a role.
pub struct KindTree;

impl Prints for KindTree {
    type Of = RoleKind;

    ghost printed = { role_kind_word };

    fn tree(alloc: Global, value: &RoleKind) -> Result<Value, NoMemory> {
        let word = match value {
            RoleKind::Learner => "learner",
            RoleKind::Staff => "staff",
        };
        text_tree(alloc, word)
    }
}

/// Whether members may hold other roles.
pub struct MatchTree;

impl Prints for MatchTree {
    type Of = MatchPersons;

    ghost printed = { match_printed };

    fn tree(alloc: Global, value: &MatchPersons) -> Result<Value, NoMemory> {
        let word = match value {
            MatchPersons::ExclusivelyInRoles => "exclusively-in-roles",
            MatchPersons::NotExclusively => "not-exclusively",
        };
        text_tree(alloc, word)
    }
}

/// Whether occurrences may be made.
pub struct CreationTree;

impl Prints for CreationTree {
    type Of = CreateNew;

    ghost printed = { creation };

    fn tree(alloc: Global, value: &CreateNew) -> Result<Value, NoMemory> {
        let word = match value {
            CreateNew::NotAllowed => "not-allowed",
            CreateNew::Allowed => "allowed",
        };
        text_tree(alloc, word)
    }
}

/// A number of persons.
pub type PersonsTree = NumberTree<0, 1_000_000>;

/// Puts in what is told of a role besides its identifier, its kind and the roles within it.
fn put_told(
    alloc: Global,
    title: &Option<PlainText>,
    create_new: CreateNew,
    match_persons: MatchPersons,
    min_persons: u32,
    max_persons: &Option<u32>,
    members: &mut Map<String, Value>,
) -> Result<(), NoMemory>
    ensures { OnOk result (members_view members.new.entries
        ≡ members_into (members_view members.old.entries)
        (plain_rows title.now create_new match_persons min_persons max_persons.now)) }
{
    optional::<TitleTree>(alloc, "title", title, members)?;
    let makes_none = makes_none(create_new);
    unless::<CreationTree>(alloc, "create-new", makes_none, &create_new, members)?;
    let is_open = is_open(match_persons);
    unless::<MatchTree>(alloc, "match-persons", is_open, &match_persons, members)?;
    unless::<PersonsTree>(
        alloc,
        "min-persons",
        min_persons == 0,
        &min_persons,
        members,
    )?;
    optional::<PersonsTree>(alloc, "max-persons", max_persons, members)?;
    Ok(())
}

/// Whether no occurrences may be made.
fn makes_none(create_new: CreateNew) -> bool
    ensures { result ≡ makes_none create_new }
{
    match create_new {
        CreateNew::NotAllowed => true,
        CreateNew::Allowed => false,
    }
}

/// Whether members may hold other roles.
fn is_open(match_persons: MatchPersons) -> bool
    ensures { result ≡ is_open match_persons }
{
    match match_persons {
        MatchPersons::NotExclusively => true,
        MatchPersons::ExclusivelyInRoles => false,
    }
}

/// Puts in the roles of these trees; none where there are none.
fn put_roles(
    alloc: Global,
    trees: Vec<Value>,
    members: &mut Map<String, Value>,
) -> Result<(), NoMemory>
    ensures { OnOk result (members_view members.new.entries
        ≡ put_trees (map view trees.items) (members_view members.old.entries)) }
{
    if trees.is_empty() {
        return Ok(());
    }
    put(members, alloc, "roles", Value::from(trees))?;
    Ok(())
}

/// The tree of a role within another.
#[cycle(roles)]
fn inner_tree(alloc: Global, role: &Role) -> Result<Value, NoMemory>
    ensures { IfOk result (λ tree. IsTreeOf role.now (view tree)) }
{
    let mut members = Map::new(alloc);
    needed::<IdTree>(alloc, "identifier", &role.identifier, &mut members)?;
    put_told(
        alloc,
        &role.title,
        role.create_new,
        role.match_persons,
        role.min_persons,
        &role.max_persons,
        &mut members,
    )?;
    let trees = inner_trees(alloc, &role.roles)?;
    put_roles(alloc, trees, &mut members)?;
    Ok(object_tree(members))
}

/// The trees of roles within another.
#[cycle(roles)]
fn inner_trees(alloc: Global, roles: &[Role]) -> Result<Vec<Value>, NoMemory>
    ensures { IfOk result (λ trees. AreTreesOf roles.now (map view trees.items)) }
{
    let mut trees = Vec::new(alloc);
    for role in roles {
        let tree = inner_tree(alloc, role)?;
        trees.push(tree)?;
    }
    Ok(trees)
}

/// The tree of a role at the top.
fn role_tree(alloc: Global, role: &Role) -> Result<Value, NoMemory>
    ensures role { OnOk result (IsRole role.now) }
    ensures tree { IfOk result (λ tree. view tree ≡ role_tree role.now) }
{
    let mut members = Map::new(alloc);
    needed::<IdTree>(alloc, "identifier", &role.identifier, &mut members)?;
    needed::<KindTree>(alloc, "kind", &role.kind, &mut members)?;
    put_told(
        alloc,
        &role.title,
        role.create_new,
        role.match_persons,
        role.min_persons,
        &role.max_persons,
        &mut members,
    )?;
    let trees = inner_trees(alloc, &role.roles)?;
    put_roles(alloc, trees, &mut members)?;
    Ok(object_tree(members))
}

/// The tree of the document of roles.
pub fn roles_tree(alloc: Global, roles: &RoleList) -> Result<Value, NoMemory>
    ensures roles { OnOk result (EachIs IsRole roles.now) }
    ensures tree { IfOk result (λ tree. view tree ≡ roles_tree roles.now) }
{
    let trees = role_trees(alloc, roles.as_slice())?;
    let mut members = Map::new(alloc);
    put(&mut members, alloc, "roles", Value::from(trees))?;
    Ok(object_tree(members))
}

/// The trees of the roles at the top.
fn role_trees(alloc: Global, roles: &[Role]) -> Result<Vec<Value>, NoMemory>
    ensures roles { OnOk result (EachIs IsRole roles.now) }
    ensures trees { IfOk result (λ trees. map view trees.items ≡ map role_tree roles.now) }
{
    let mut trees = Vec::new(alloc);
    for role in roles {
        let tree = role_tree(alloc, role)?;
        trees.push(tree)?;
    }
    Ok(trees)
}
