//! The lines of a report that tell how many members each role has.
ghost use Rattle.std.specs.Prelude.{◌≡◌, ◌<◌, ◌++◌, fold, length, map, OnOk};
ghost use Rattle.ld_model.specs.Counting.{each_numbered};
ghost use Rattle.ld_model.specs.RoleRows.{rows_within};
ghost use Rattle.ld_roles.specs.Kept.{persons_of};
ghost use Rattle.ld_replies.specs.Printed.{printed_after};
ghost use Rattle.ld_replies.specs.RoleLines.{role_line};

use crate::printed::Lines;
use ld_base::{Id, NoMemory, RoleNo, number};
use ld_model::Role;
use ld_roles::Roster;
use std::alloc::Global;

/// Puts the line of each of the roles, which are those of the roster, and of the roles within them.
/// (docs/COMMANDS.md, "Replies")
pub(crate) fn put_roles(
    alloc: Global,
    roles: &[Role],
    roster: &Roster,
    lines: &mut Lines,
) -> Result<(), NoMemory>
    requires { length (rows_within roles.now) ≡ length roster.now.roles }
    ensures { OnOk result (lines.new ≡ fold printed_after lines.old
        (each_numbered (role_line roster.now.roles (persons_of roster.now.rows))
        (map (λ role. role.identifier) (rows_within roles.now)))) }
{
    let mut ids = Vec::new(alloc);
    collect_roles(roles, &mut ids)?;
    put_each(&ids, roster, lines)?;
    Ok(())
}

/// Puts the line of each of the roles of the roster, whose identifiers these are.
fn put_each(ids: &[&Id], roster: &Roster, lines: &mut Lines) -> Result<(), NoMemory>
    requires { length ids.now ≡ length roster.now.roles }
    ensures { OnOk result (lines.new ≡ fold printed_after lines.old
        (each_numbered (role_line roster.now.roles (persons_of roster.now.rows))
        (map (λ id. id.now) ids.now))) }
{
    for (index, id) in ids.iter().enumerate() {
        put_role(RoleNo(number(index)?), *id, roster, lines)?;
    }
    Ok(())
}

/// Puts the line of the role, whose identifier this is.
fn put_role(role: RoleNo, id: &Id, roster: &Roster, lines: &mut Lines) -> Result<(), NoMemory>
    requires { role.0 < length roster.now.roles }
    ensures { OnOk result (lines.new ≡ fold printed_after lines.old
        (role_line roster.now.roles (persons_of roster.now.rows) role.0 id.now)) }
{
    lines.begin("role")?;
    lines.add(id.as_str())?;
    lines.add_named("members=", u64::from(roster.members(role)))?;
    Ok(())
}

/// Collects the identifiers of the roles, each before those of the roles within it.
#[cycle(collect)]
fn collect_roles<'a>(roles: &'a [Role], ids: &mut Vec<&'a Id>) -> Result<(), NoMemory>
    ensures { OnOk result (map (λ id. id.now) ids.new.items
        ≡ map (λ id. id.now) ids.old.items
        ++ map (λ role. role.identifier) (rows_within roles.now)) }
{
    for role in roles {
        collect_role(role, ids)?;
    }
    Ok(())
}

/// Collects the identifier of a role, and those of the roles within it.
#[cycle(collect)]
fn collect_role<'a>(role: &'a Role, ids: &mut Vec<&'a Id>) -> Result<(), NoMemory>
    ensures { OnOk result (map (λ id. id.now) ids.new.items
        ≡ map (λ id. id.now) ids.old.items ++ map (λ role. role.identifier) role.now) }
{
    ids.push(&role.identifier)?;
    collect_roles(&role.roles, ids)?;
    Ok(())
}
