//! The roles of a unit and how they stand within one another.
ghost use Rattle.std.specs.Prelude.{◌≡◌, ◌<◌, ◌^◌, ◌++◌, length, map, IfOk, OnOk, slice_get, Some};
ghost use Rattle.ld_model.specs.RoleRows.{rows_within, rows_of_one};
ghost use Rattle.ld_roles.specs.Entries.{entry_bounds, bounds_below};
ghost use Rattle.ld_roles.specs.RoleBounds.{role_bounds};
ghost use Rattle.ld_roles.specs.RoleTree.{is_within, stand_so, is_directly_in, leads_over};

use ld_base::{NoMemory, number};
use ld_model::{MatchPersons, Role, Unit};
use std::alloc::Global;
use std::marker::Model;

/// What is kept of a role: which of the roles at the top it is in, which within that one, and so
/// on, and the bounds of its members.
#[derive(Drop)]
pub(crate) struct RoleEntry {
    pub(crate) path: Vec<u32>,
    pub(crate) match_persons: MatchPersons,
    pub(crate) min_persons: u32,
    pub(crate) max_persons: Option<u32>,
}

/// The roles of a unit in document order, which are the same in all its runs, seen by contracts as
/// their bounds.
#[derive(Drop)]
pub struct RoleTree {
    rows: Vec<RoleEntry>,
}

impl Model for RoleTree {
    ghost use Rattle.std.specs.Prelude.{List, map, length, ◌<◌, ◌^◌};
    ghost use Rattle.ld_roles.specs.RoleBounds.{RoleBounds};

    ghost Value = { List RoleBounds };

    ghost use Rattle.ld_roles.specs.Entries.{entry_bounds};

    ghost view = { λ s. map entry_bounds s.rows.items };

    ghost invariant = { λ s. length s.rows.items < 2 ^ 32 };
}

impl RoleTree {
    /// The roles of the unit. The only error is out of memory.
    pub fn of(alloc: Global, unit: &Unit) -> Result<RoleTree, NoMemory>
        ensures { IfOk result (λ tree. tree ≡ role_bounds unit.now) }
    {
        let mut path = Vec::new(alloc);
        let mut rows = Vec::new(alloc);
        collect_roles(unit.roles.as_slice(), &mut path, &mut rows)?;
        number(rows.len())?;
        Ok(RoleTree { rows })
    }

    /// The number of roles.
    pub(crate) fn len(&self) -> usize
        ensures count { result ≡ length self.now }
        ensures few { result < 2 ^ 32 }
    {
        self.rows.len()
    }

    /// What is kept of the role.
    pub(crate) fn row(&self, role: usize) -> &RoleEntry
        requires { role < length self.now }
        ensures row { slice_get self.now role ≡ Some (entry_bounds result.now) }
        ensures number { role < 2 ^ 32 }
    {
        &self.rows[role]
    }

    /// Whether the role is the outer one or stands within it.
    pub(crate) fn is_within(&self, outer: usize, role: usize) -> bool
        ensures { result ≡ is_within self.now outer role }
    {
        match (self.rows.get(outer), self.rows.get(role)) {
            (Some(outer), Some(inner)) => leads_over(outer, inner),
            _ => false,
        }
    }

    /// Whether the role stands directly within the outer one.
    pub(crate) fn is_directly_in(&self, outer: usize, role: usize) -> bool
        ensures { result ≡ stand_so self.now is_directly_in outer role }
    {
        match (self.rows.get(outer), self.rows.get(role)) {
            (Some(outer), Some(inner)) => {
                leads_over(outer, inner) && inner.path.len() == outer.path.len() + 1
            }
            _ => false,
        }
    }
}

/// Whether the way to the inner role leads over the outer one.
fn leads_over(outer: &RoleEntry, inner: &RoleEntry) -> bool
    ensures { result ≡ leads_over (entry_bounds outer.now) (entry_bounds inner.now) }
{
    inner.path.starts_with(&outer.path)
}

/// Collects the roles, each before those within it. The path is the way to them.
#[cycle(collect)]
fn collect_roles(
    roles: &[Role],
    path: &mut Vec<u32>,
    rows: &mut Vec<RoleEntry>,
) -> Result<(), NoMemory>
    ensures path { OnOk result (path.new.items ≡ path.old.items) }
    ensures rows { OnOk result (map entry_bounds rows.new.items
        ≡ map entry_bounds rows.old.items
        ++ map (bounds_below path.old.items) (rows_within roles.now)) }
{
    for (index, role) in roles.iter().enumerate() {
        collect_nth_role(number(index)?, role, path, rows)?;
    }
    Ok(())
}

/// Collects the role of this number, and those within it.
#[cycle(collect)]
fn collect_nth_role(
    index: u32,
    role: &Role,
    path: &mut Vec<u32>,
    rows: &mut Vec<RoleEntry>,
) -> Result<(), NoMemory>
    ensures path { OnOk result (path.new.items ≡ path.old.items) }
    ensures rows { OnOk result (map entry_bounds rows.new.items
        ≡ map entry_bounds rows.old.items
        ++ map (bounds_below path.old.items) (rows_of_one index role.now)) }
{
    path.push(index)?;
    collect_role(role, path, rows)?;
    path.pop();
    Ok(())
}

/// Collects a role, to which the path leads, and those within it.
#[cycle(collect)]
fn collect_role(role: &Role, path: &mut Vec<u32>, rows: &mut Vec<RoleEntry>) -> Result<(), NoMemory>
    ensures path { OnOk result (path.new.items ≡ path.old.items) }
    ensures rows { OnOk result (map entry_bounds rows.new.items
        ≡ map entry_bounds rows.old.items ++ map (bounds_below path.old.items) role.now) }
{
    rows.push(RoleEntry {
        path: Vec::from_slice(*path.allocator(), path)?,
        match_persons: role.match_persons,
        min_persons: role.min_persons,
        max_persons: role.max_persons,
    })?;
    collect_roles(&role.roles, path, rows)?;
    Ok(())
}
