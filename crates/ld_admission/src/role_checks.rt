//! The checks of roles.
#![tactic(auto, using(crate::proofs::FaultChecks::held_by_dropper, crate::proofs::FaultChecks::identifier_is, crate::proofs::FaultChecks::none_short_at_all, crate::proofs::FaultChecks::none_short_by, crate::proofs::FaultChecks::same_assigning, crate::proofs::FaultChecks::same_dropping, crate::proofs::FaultChecks::short_role_at_start, crate::proofs::FaultChecks::short_role_once_dropped, ld_rules::proofs::RoleNumbers::role_below))]

ghost use Rattle.std.specs.Prelude.{◌≡◌, ◌+◌, ◌<◌, ◌≤◌, length, true, None, Err, IfOk, IfErr, OnOk};
ghost use Rattle.ld_model.specs.Roles.{roles_of};
ghost use Rattle.ld_roles.specs.Persons.{holds_role};
ghost use Rattle.ld_roles.specs.Refusals.{assign_fault};
ghost use Rattle.ld_roles.specs.RoleBounds.{role_bounds};
ghost use Rattle.ld_roles.specs.Roster.{short_at_start};
ghost use Rattle.ld_admission.specs.CheckStages.{Rest, assigning, dropping};
ghost use Rattle.ld_admission.specs.Checks.{none_short, role_identifier, the_role};
ghost use Rattle.ld_admission.specs.RefusalView.{answer_of, refusal_of};
ghost use Rattle.ld_admission.specs.Refusals.{RoleShort};
ghost use Rattle.ld_state.specs.StateView.{run_of};

use crate::checker::Checker;
use crate::refusal::Refusal;
use ld_base::{Id, PersonNo, RoleNo, Steps};
use ld_expr::role_number;
use ld_names::Named;
use ld_roles::{AssignFault, DropFault, Short};
use std::sync::ledger::Ledger;

impl<'a, 's> Checker<'a, 's> {
    /// The role of this identifier.
    pub(crate) fn the_role(&self, id: &Id) -> Result<RoleNo, Refusal<'a>>
        ensures role { answer_of (λ role. role.0) result ≡ the_role self.now.unit.now id.now }
        ensures within { IfOk result (λ role. role.0 < length (roles_of self.now.unit.now)) }
    {
        match role_number(self.unit.unit(), self.unit.names(), id) {
            Some(role) => Ok(role),
            None => Err(Refusal::UnknownRole),
        }
    }

    /// Passes where nothing stands against giving the person the role.
    pub(crate) fn may_assign(&self, person: PersonNo, role: RoleNo) -> Result<(), Refusal<'a>>
        requires person { person.0 < length self.now.state.now.rows }
        requires role { role.0 < length (roles_of self.now.unit.now) }
        ensures passes { OnOk result ((next : Rest)
            → assigning self.now.unit.now (run_of self.now.state.now) role.0 person.0 next ≡ next) }
        ensures refused { IfErr result (λ refusal. (next : Rest)
            → assigning self.now.unit.now (run_of self.now.state.now) role.0 person.0 next
            ≡ Err (refusal_of refusal)) }
        ensures possible { OnOk result (assign_fault (role_bounds self.now.unit.now)
            (run_of self.now.state.now).persons role.0 person.0 ≡ None) }
    {
        match self.state.roster().may_assign(person, role) {
            Ok(()) => Ok(()),
            Err(AssignFault::HoldsAlready) => Err(Refusal::HoldsAlready),
            Err(AssignFault::RoleFull) => Err(Refusal::RoleFull),
            Err(AssignFault::RoleExclusive) => Err(Refusal::RoleExclusive),
            Err(AssignFault::NoMemory) => unreachable!(),
        }
    }

    /// Passes where nothing stands against taking the role from the person.
    pub(crate) fn may_drop<L: Ledger>(
        &self,
        person: PersonNo,
        role: RoleNo,
        steps: &mut Steps<L>,
    ) -> Result<(), Refusal<'a>>
        requires person { person.0 < length self.now.state.now.rows }
        requires role { role.0 < length (roles_of self.now.unit.now) }
        ensures passes { OnOk result ((next : Rest)
            → dropping self.now.unit.now (run_of self.now.state.now) role.0 person.0 next ≡ next) }
        ensures refused { IfErr result (λ refusal. (next : Rest)
            → dropping self.now.unit.now (run_of self.now.state.now) role.0 person.0 next
            ≡ Err (refusal_of refusal)) }
        ensures possible { OnOk result
            (holds_role (run_of self.now.state.now).persons role.0 person.0 ≡ true) }
        ensures cost { steps.new ≡ steps.old + 1 }
    {
        let started = self.is_started(steps);
        match self.state.roster().may_drop(person, role, started) {
            Ok(()) => Ok(()),
            Err(DropFault::NotHeld) => Err(Refusal::NotHeld),
            Err(DropFault::RoleShort(short)) => Err(self.role_short(short)),
        }
    }

    /// Passes where no role is short of members.
    pub(crate) fn none_short(&self) -> Result<(), Refusal<'a>>
        ensures { answer_of (λ _. tt) result ≡ none_short self.now.unit.now
            (short_at_start self.now.unit.now (run_of self.now.state.now).persons) }
    {
        match self.state.roster().short_role() {
            Some(short) => Err(self.role_short(short)),
            None => Ok(()),
        }
    }

    /// The refusal that tells of the shortage.
    fn role_short(&self, short: Short) -> Refusal<'a>
        requires { short.role.0 < length (roles_of self.now.unit.now) }
        ensures { refusal_of result
            ≡ RoleShort (role_identifier self.now.unit.now short.role.0) short.count short.least }
    {
        Refusal::RoleShort {
            role: self.unit.names().id(Named::Role(short.role)),
            count: short.count,
            least: short.least,
        }
    }
}
