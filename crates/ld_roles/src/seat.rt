//! Which roles a person holds, and which the person is thereby a member of.
#![tactic(auto, using(crate::proofs::Numbers::any_more, crate::proofs::Numbers::any_none))]

ghost use Rattle.std.specs.Prelude.{◌≡◌, ◌<◌, length, map, replicate, IfOk, false, slice_set};
ghost use Rattle.std.specs.List.{list_any};
ghost use Rattle.ld_roles.specs.RoleTree.{with_inner, role_numbers};
ghost use Rattle.ld_roles.specs.Kept.{held_in};
ghost use Rattle.ld_roles.specs.Seats.{IsSeated, is_member_with, without};

use crate::role_tree::RoleTree;
use ld_base::NoMemory;
use std::alloc::Global;

/// Of each role by its number, whether a person holds it, and whether the person is a member.
#[derive(Drop)]
pub(crate) struct Seat {
    pub(crate) holds: Vec<bool>,
    pub(crate) member: Vec<bool>,
}

impl Seat {
    /// A person who holds no role.
    pub(crate) fn new(alloc: Global, roles: &RoleTree) -> Result<Seat, NoMemory>
        ensures holds { IfOk result (λ seat.
            seat.holds.items ≡ replicate (length roles.now) false) }
        ensures seated { IfOk result (IsSeated roles.now) }
    {
        let mut seat = Seat {
            holds: all_false(alloc, roles.len())?,
            member: all_false(alloc, roles.len())?,
        };
        note_members(roles, &seat.holds, &mut seat.member);
        Ok(seat)
    }

    /// Gives the person the role, or takes it away.
    pub(crate) fn set(&mut self, roles: &RoleTree, role: usize, held: bool)
        requires seated { IsSeated roles.now self.old }
        requires role { role < length roles.now }
        ensures holds { self.new.holds.items ≡ slice_set self.old.holds.items role held }
        ensures seated { IsSeated roles.now self.new }
    {
        self.holds[role] = held;
        note_members(roles, &self.holds, &mut self.member);
    }
}

/// So many times false.
fn all_false(alloc: Global, count: usize) -> Result<Vec<bool>, NoMemory>
    ensures { IfOk result (λ all. all.items ≡ replicate count false) }
{
    let mut all = Vec::new(alloc);
    all.resize(count, false)?;
    Ok(all)
}

/// Notes of each role whether one who holds these is a member.
fn note_members(roles: &RoleTree, holds: &[bool], member: &mut Vec<bool>)
    requires holds { length holds.now ≡ length roles.now }
    requires member { length member.old.items ≡ length roles.now }
    ensures { member.new.items ≡ map (is_member_with roles.now holds.now) (role_numbers roles.now) }
{
    for role in 0..roles.len() {
        member[role] = is_member(roles, holds, role);
    }
}

/// Whether one who holds these is a member of the role.
fn is_member(roles: &RoleTree, holds: &[bool], role: usize) -> bool
    requires { length holds.now ≡ length roles.now }
    ensures { result ≡ is_member_with roles.now holds.now role }
{
    for inner in 0..roles.len() {
        if holds[inner] && roles.is_within(role, inner) {
            return true;
        }
    }
    false
}

/// Whether one who holds these is a member of the role without holding this one.
pub(crate) fn is_member_without(
    roles: &RoleTree,
    holds: &[bool],
    dropped: usize,
    role: usize,
) -> bool
    requires { length holds.now ≡ length roles.now }
    ensures { result ≡ list_any (without dropped (held_in holds.now)) (with_inner roles.now role) }
{
    for inner in 0..roles.len() {
        if inner != dropped && holds[inner] && roles.is_within(role, inner) {
            return true;
        }
    }
    false
}
