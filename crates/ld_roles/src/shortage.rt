//! Roles with too few members.
#![tactic(auto, using(crate::proofs::Shortages::first_more, crate::proofs::Shortages::first_none))]

ghost use Rattle.std.specs.Prelude.{◌≡◌, ◌<◌, length, option_map};
ghost use Rattle.ld_roles.specs.Kept.{persons_of};
ghost use Rattle.ld_roles.specs.Membership.{member_count, shortage_of, short_at_start_among, short_once_dropped_among};
ghost use Rattle.ld_roles.specs.Persons.{Persons};
ghost use Rattle.ld_roles.specs.Refusals.{short_of};

use crate::fault::Short;
use crate::members::{count_members, count_once_dropped};
use crate::role_tree::RoleTree;
use crate::seats::Seats;
use ld_base::RoleNo;

/// The first role that has too few members.
pub(crate) fn first_short(seats: &Seats) -> Option<Short>
    ensures { result ≡ option_map short_of
        (short_at_start_among seats.now.roles (persons_of seats.now.rows)) }
{
    let roles = seats.roles();
    for role in 0..roles.len() {
        if let Some(short) = shortage(roles, role, count_members(seats, role)) {
            return Some(short);
        }
    }
    None
}

/// The first role, from the dropped one outwards, that then has too few members.
pub(crate) fn short_once_dropped(seats: &Seats, person: usize, dropped: usize) -> Option<Short>
    requires { person < length seats.now.rows }
    ensures { result ≡ option_map short_of
        (short_once_dropped_among seats.now.roles (persons_of seats.now.rows) dropped person) }
{
    let roles = seats.roles();
    let mut role = roles.len();
    while role > 0 {
        role -= 1;
        if !roles.is_within(role, dropped) {
            continue;
        }
        let count = count_once_dropped(seats, person, dropped, role);
        if let Some(short) = shortage(roles, role, count) {
            return Some(short);
        }
    }
    None
}

/// The role with its number of members, if these are too few.
fn shortage(roles: &RoleTree, role: usize, count: u32) -> Option<Short>
    requires { role < length roles.now }
    ensures { (persons : Persons) → member_count roles.now persons role ≡ count
        → result ≡ option_map short_of (shortage_of roles.now persons role) }
{
    let least = roles.row(role).min_persons;
    if count < least {
        return Some(Short {
            role: RoleNo(role as u32),
            count,
            least,
        });
    }
    None
}
