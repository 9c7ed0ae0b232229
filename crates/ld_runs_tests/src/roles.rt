//! A roster of two persons for a role with one seat.
#![tactic(auto, using(crate::proofs::All::role_bounded))]

ghost use Rattle.std.specs.Prelude.{◌≡◌, ◌<◌, IfSome, None, length};
ghost use Rattle.ld_roles.specs.Kept.{IsAsSaved};
ghost use Rattle.ld_roles.specs.RoleBounds.{role_bounds};

use crate::units::{check, full, id};
use ld_base::{Id, PersonNo, RoleNo};
use ld_expr::role_number;
use ld_roles::{AssignFault, DropFault, EnrolFault, RoleTree, Roster, Short};
use ld_rules::PreparedUnit;
use std::alloc::Global;
use std::rc::Rc;
use std::test::Fail;

#[test]
fn a_role_is_given(rt: HostRuntime) -> Result<(), Fail> {
    let unit = full(rt.alloc())?;
    let roles = RoleTree::of(rt.alloc(), unit.unit())?;
    let roster = Roster::new(rt.alloc(), Rc::new(rt.alloc(), roles)?);
    give(rt.alloc(), &unit, roster)
}

/// Gives the role to one of two persons.
fn give(alloc: Global, unit: &PreparedUnit, mut roster: Roster) -> Result<(), Fail>
    requires roles { roster.roles ≡ role_bounds unit.now }
    requires no_savepoint { roster.kept ≡ None }
{
    let ann = id(alloc, "ann")?;
    let bob = id(alloc, "bob")?;
    give_first(unit, &mut roster, &ann, &bob)
}

/// Refuses the test where the roster says otherwise than told here.
fn give_first(unit: &PreparedUnit, roster: &mut Roster, first: &Id, second: &Id) -> Result<(), Fail>
    requires roles { roster.old.roles ≡ role_bounds unit.now }
    requires no_savepoint { roster.old.kept ≡ None }
{
    check(is_short(roster), "the role is short")?;
    check(enrols(roster, first, second), "two persons")?;
    let given = assigned(unit, roster, first);
    check(given == Ok(()), "the first is given the role")?;
    let refused = assigned(unit, roster, second);
    check(refused == Err(AssignFault::RoleFull), "the role is full")?;
    check(has(unit, roster, first, true, 1), "a member")?;
    check(has(unit, roster, second, false, 1), "no member")?;
    check(takes_back(unit, roster, first), "taken back")?;
    check(has(unit, roster, first, true, 1), "still a member")?;
    check(keeps(unit, roster, first), "kept")?;
    check(has(unit, roster, first, false, 0), "dropped")
}

/// Whether the first role has a member too few.
fn is_short(roster: &Roster) -> bool {
    let short = Short {
        role: RoleNo(0),
        count: 0,
        least: 1,
    };
    roster.short_role() == Some(short)
}

/// Enrols both, and then the first once more.
fn enrols(roster: &mut Roster, first: &Id, second: &Id) -> bool
    requires no_savepoint { roster.old.kept ≡ None }
    ensures no_savepoint { roster.new.kept ≡ None }
    ensures roles { roster.new.roles ≡ roster.old.roles }
{
    let numbers = (roster.enrol(first), roster.enrol(second));
    let again = roster.enrol(first);
    numbers == (Ok(PersonNo(0)), Ok(PersonNo(1)))
        && again == Err(EnrolFault::PersonExists)
        && roster.persons() == 2
}

/// The role of the unit.
pub(crate) fn role_of(unit: &PreparedUnit) -> Option<RoleNo>
    ensures { IfSome result (λ role. role.0 < length (role_bounds unit.now)) }
{
    let role = unit.unit().roles.get(0)?;
    role_number(unit.unit(), unit.names(), &role.identifier)
}

/// What comes of giving the role to the person of this name.
fn assigned(unit: &PreparedUnit, roster: &mut Roster, name: &Id) -> Result<(), AssignFault>
    requires roles { roster.old.roles ≡ role_bounds unit.now }
    requires saved { IsAsSaved roster.old }
    ensures kept { roster.new.kept ≡ roster.old.kept }
    ensures roles { roster.new.roles ≡ roster.old.roles }
{
    let Some(role) = role_of(unit) else {
        return Err(AssignFault::NoMemory);
    };
    let Some(person) = roster.person(name) else {
        return Err(AssignFault::NoMemory);
    };
    roster.assign(person, role)
}

/// What comes of taking the role from the person of this name.
fn dropped(unit: &PreparedUnit, roster: &mut Roster, name: &Id) -> Result<(), DropFault>
    requires roles { roster.old.roles ≡ role_bounds unit.now }
    requires saved { IsAsSaved roster.old }
    ensures kept { roster.new.kept ≡ roster.old.kept }
    ensures roles { roster.new.roles ≡ roster.old.roles }
{
    let Some(role) = role_of(unit) else {
        return Err(DropFault::NotHeld);
    };
    let Some(person) = roster.person(name) else {
        return Err(DropFault::NotHeld);
    };
    roster.drop_role(person, role, false)
}

/// Whether the person of this name is told to be a member, or not to be one, of this many.
fn has(unit: &PreparedUnit, roster: &Roster, name: &Id, member: bool, count: u32) -> bool
    requires roles { roster.now.roles ≡ role_bounds unit.now }
{
    let Some(role) = role_of(unit) else {
        return false;
    };
    let Some(person) = roster.person(name) else {
        return false;
    };
    roster.name(person) == name
        && roster.member(person, role) == member
        && roster.members(role) == count
}

/// Takes the role from the person, and takes that back.
fn takes_back(unit: &PreparedUnit, roster: &mut Roster, name: &Id) -> bool
    requires roles { roster.old.roles ≡ role_bounds unit.now }
    requires no_savepoint { roster.old.kept ≡ None }
    ensures no_savepoint { roster.new.kept ≡ None }
    ensures roles { roster.new.roles ≡ roster.old.roles }
{
    roster.mark();
    let done = dropped(unit, roster, name);
    roster.undo();
    done == Ok(())
}

/// Takes the role from the person, and keeps it so.
fn keeps(unit: &PreparedUnit, roster: &mut Roster, name: &Id) -> bool
    requires roles { roster.old.roles ≡ role_bounds unit.now }
    requires no_savepoint { roster.old.kept ≡ None }
    ensures no_savepoint { roster.new.kept ≡ None }
    ensures roles { roster.new.roles ≡ roster.old.roles }
{
    roster.mark();
    let done = dropped(unit, roster, name);
    roster.keep();
    done == Ok(())
}
