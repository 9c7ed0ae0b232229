//! How many members a role has.
ghost use Rattle.std.specs.Prelude.{◌≡◌, ◌<◌, ◌≤◌, length};
ghost use Rattle.ld_roles.specs.Kept.{persons_of};
ghost use Rattle.ld_roles.specs.Membership.{dropped as once_dropped, member_count};

use crate::limit::SEATS;
use crate::seat::is_member_without;
use crate::seats::Seats;

/// The number of members of the role.
pub(crate) fn count_members(seats: &Seats, role: usize) -> u32
    requires { role < length seats.now.roles }
    ensures count { result ≡ member_count seats.now.roles (persons_of seats.now.rows) role }
    ensures few { result ≤ SEATS }
{
    let mut count = 0;
    for person in 0..seats.len() {
        count += u32::from(seats.is_member(person, role));
    }
    count
}

/// The number of members of the role once the person has dropped one.
pub(crate) fn count_once_dropped(seats: &Seats, person: usize, dropped: usize, role: usize) -> u32
    requires person { person < length seats.now.rows }
    requires role { role < length seats.now.roles }
    ensures { result ≡ member_count seats.now.roles
        (once_dropped (persons_of seats.now.rows) dropped person) role }
{
    let is_member = u32::from(seats.is_member(person, role));
    let stays_member = is_member_without(seats.roles(), seats.held(person), dropped, role);
    count_members(seats, role) - is_member + u32::from(stays_member)
}
