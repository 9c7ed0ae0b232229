//! Whether a person would be a member of two roles of which a person may be in one alone.
#![tactic(auto, using(crate::proofs::Numbers::any_more, crate::proofs::Numbers::any_none, crate::proofs::Numbers::each_more, crate::proofs::Numbers::each_none))]

ghost use Rattle.std.specs.Prelude.{◌≡◌, ◌<◌, ◌&&◌, length, not, nat_eq};
ghost use Rattle.std.specs.List.{list_any};
ghost use Rattle.ld_roles.specs.Kept.{persons_of};
ghost use Rattle.ld_roles.specs.Membership.{is_excluded_among, is_member_among, is_split, keeps_in_one};
ghost use Rattle.ld_roles.specs.RoleTree.{child_roles};

use crate::role_tree::RoleTree;
use crate::seats::Seats;
use ld_model::MatchPersons;

/// Whether some role keeps its members in one child, and the person would be in two.
pub(crate) fn is_excluded(seats: &Seats, person: usize, role: usize) -> bool
    requires { person < length seats.now.rows }
    ensures { result
        ≡ is_excluded_among seats.now.roles (persons_of seats.now.rows) role person }
{
    let roles = seats.roles();
    for outer in 0..roles.len() {
        if keeps_in_one(roles, outer) && is_split(seats, person, role, outer) {
            return true;
        }
    }
    false
}

/// Whether the role keeps its members in one child.
fn keeps_in_one(roles: &RoleTree, role: usize) -> bool
    requires { role < length roles.now }
    ensures { result ≡ keeps_in_one roles.now role }
{
    match roles.row(role).match_persons {
        MatchPersons::ExclusivelyInRoles => true,
        MatchPersons::NotExclusively => false,
    }
}

/// Whether the role is in one of the outer one's children, and the person in another.
fn is_split(seats: &Seats, person: usize, role: usize, outer: usize) -> bool
    requires { person < length seats.now.rows }
    ensures { result ≡ is_split seats.now.roles (persons_of seats.now.rows) role person
        (child_roles seats.now.roles outer) }
{
    let roles = seats.roles();
    for child in 0..roles.len() {
        if roles.is_directly_in(outer, child)
            && roles.is_within(child, role)
            && is_in_other(seats, person, outer, child)
        {
            return true;
        }
    }
    false
}

/// Whether the person is a member of another child of the outer role.
fn is_in_other(seats: &Seats, person: usize, outer: usize, child: usize) -> bool
    requires { person < length seats.now.rows }
    ensures { result ≡ list_any (λ other. not (nat_eq other child)
        && is_member_among seats.now.roles (persons_of seats.now.rows) other person)
        (child_roles seats.now.roles outer) }
{
    let roles = seats.roles();
    for other in 0..roles.len() {
        if roles.is_directly_in(outer, other) && other != child && seats.is_member(person, other) {
            return true;
        }
    }
    false
}
