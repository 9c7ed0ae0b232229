//! Whether a role has room for a person.
#![tactic(auto, using(crate::proofs::Numbers::any_more, crate::proofs::Numbers::any_none, crate::proofs::Numbers::any_reverse))]

ghost use Rattle.std.specs.Prelude.{◌≡◌, ◌<◌, length};
ghost use Rattle.ld_roles.specs.Kept.{persons_of};
ghost use Rattle.ld_roles.specs.Membership.{has_no_room_among, is_full};

use crate::members::count_members;
use crate::seats::Seats;

/// Whether the role, or one that it stands within, is full without the person.
pub(crate) fn has_no_room(seats: &Seats, person: usize, role: usize) -> bool
    requires { person < length seats.now.rows }
    ensures { result
        ≡ has_no_room_among seats.now.roles (persons_of seats.now.rows) role person }
{
    let roles = seats.roles();
    for outer in 0..roles.len() {
        if roles.is_within(outer, role)
            && !seats.is_member(person, outer)
            && is_full(seats, outer)
        {
            return true;
        }
    }
    false
}

/// Whether the role has its greatest number of members.
fn is_full(seats: &Seats, role: usize) -> bool
    requires { role < length seats.now.roles }
    ensures { result ≡ is_full seats.now.roles (persons_of seats.now.rows) role }
{
    match seats.roles().row(role).max_persons {
        Some(most) => most <= count_members(seats, role),
        None => false,
    }
}
