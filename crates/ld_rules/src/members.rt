//! What the members of a role have done.
ghost use Rattle.std.specs.Prelude.{◌≡◌, ◌+◌, ◌++◌, ◌≤◌, flat_map, length, map};
ghost use Rattle.ld_expr.specs.Looks.{members_looks};
ghost use Rattle.ld_expr.specs.Membership.{members, members_of, some_and_each};
ghost use Rattle.ld_expr.specs.Seen.{everyone, member_cell};
ghost use Rattle.ld_rules.specs.MembersDoing.{did, did_looks, some_of};

use ld_base::{Id, PersonNo, RoleNo, Steps};
use ld_expr::{Scope, role_number, says_yes};
use ld_model::{CellName, Owner, View};
use std::sync::ledger::Ledger;

/// Whether the role has a member.
pub(crate) fn has_member<V: View, L: Ledger>(
    scope: &Scope<'_, V>,
    role: &Id,
    steps: &mut Steps<L>,
) -> bool
    ensures value { result ≡ some_of (members_of scope.now.unit.now
        (V.seen scope.now.view.now) role.now) }
    ensures cost { steps.new ≤ steps.old + length (members_looks scope.now.unit.now
        (V.seen scope.now.view.now) role.now) }
{
    match role_number(scope.unit, scope.names, role) {
        Some(role) => has_member_by_number(role, scope.view, steps),
        None => false,
    }
}

/// Whether the role of this number has a member.
fn has_member_by_number<V: View, L: Ledger>(role: RoleNo, view: &V, steps: &mut Steps<L>) -> bool
    ensures value { result ≡ some_of (members (V.seen view.now) role.0) }
    ensures cost { steps.new ≤ steps.old + length (map (member_cell role.0)
        (everyone (V.seen view.now))) }
{
    for number in 0..view.persons() {
        if says_yes(view, CellName::Member(role, PersonNo(number)), steps) {
            return true;
        }
    }
    false
}

/// Whether the role has a member, and what the identifier names is done for each of its members.
pub(crate) fn did_all<V: View, L: Ledger>(
    scope: &Scope<'_, V>,
    role: &Id,
    target: &Id,
    steps: &mut Steps<L>,
) -> bool
    ensures value { result ≡ some_and_each
        (did scope.now.unit.now (V.seen scope.now.view.now) target.now)
        (members_of scope.now.unit.now (V.seen scope.now.view.now) role.now) }
    ensures cost { steps.new ≤ steps.old + length (members_looks scope.now.unit.now
        (V.seen scope.now.view.now) role.now
        ++ flat_map (did_looks scope.now.unit.now (V.seen scope.now.view.now) target.now)
        (members_of scope.now.unit.now (V.seen scope.now.view.now) role.now)) }
{
    match role_number(scope.unit, scope.names, role) {
        Some(role) => did_all_by_number(scope, role, target, steps),
        None => false,
    }
}

/// Whether the role of this number has a member, and what the identifier names is done for each of
/// its members.
fn did_all_by_number<V: View, L: Ledger>(
    scope: &Scope<'_, V>,
    role: RoleNo,
    target: &Id,
    steps: &mut Steps<L>,
) -> bool
    ensures value { result ≡ some_and_each
        (did scope.now.unit.now (V.seen scope.now.view.now) target.now)
        (members (V.seen scope.now.view.now) role.0) }
    ensures cost { steps.new ≤ steps.old + length (map (member_cell role.0)
        (everyone (V.seen scope.now.view.now))
        ++ flat_map (did_looks scope.now.unit.now (V.seen scope.now.view.now) target.now)
        (members (V.seen scope.now.view.now) role.0)) }
{
    let mut has_member = false;
    for number in 0..scope.view.persons() {
        let person = PersonNo(number);
        if !says_yes(scope.view, CellName::Member(role, person), steps) {
            continue;
        }
        if !scope.is_done(Owner::Person(person), target, steps) {
            return false;
        }
        has_member = true;
    }
    has_member
}
