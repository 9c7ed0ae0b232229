//! The roster of a run: its persons, and the roles that they hold.
ghost use Rattle.std.specs.Prelude.{◌≡◌, ◌≢◌, ◌<◌, ◌≤◌, ◌++◌, ◌∷◌, [], length, true, false, IfOk, IfErr, IfSome, OnOk, OnErr, IsSome, Some, None, unwrap_or, slice_get, option_map};
ghost use Rattle.std.specs.Result.{result_err};
ghost use Rattle.ld_roles.specs.Kept.{IsAsSaved, persons_of};
ghost use Rattle.ld_roles.specs.Membership.{is_member_among, member_count, short_at_start_among};
ghost use Rattle.ld_roles.specs.Persons.{changed_at, newcomer, person_number, with_role};
ghost use Rattle.ld_roles.specs.Refusals.{assign_fault, drop_fault, enrol_fault, short_of};

use crate::change::Change;
use crate::exclusion::is_excluded;
use crate::fault::{AssignFault, DropFault, EnrolFault, Short};
use crate::limit::SEATS;
use crate::members::count_members;
use crate::role_tree::RoleTree;
use crate::room::has_no_room;
use crate::seats::Seats;
use crate::shortage::{first_short, short_once_dropped};
use ld_base::{Id, PersonNo, RoleNo};
use std::alloc::Global;
use std::marker::Model;
use std::rc::Rc;

/// The persons of a run in the order of enrolment, and the roles that they hold, seen by contracts
/// as the bounds of the unit's roles, the persons, and the persons at the savepoint, if there is
/// one. (docs/COMMANDS.md, "Refusals")
pub struct Roster {
    /// Where there is a savepoint, what was done since.
    since: Option<Change>,
    seats: Seats,
}

// By hand, so that a function which lets one go calls this and is not proved over each field again.
impl Drop for Roster {
    fn drop(self) {
        let Self { since: _, seats: _ } = self;
    }
}

impl Model for Roster {
    ghost use Rattle.std.specs.Prelude.{IfSome};
    ghost use Rattle.ld_roles.specs.Kept.{RosterView};

    ghost Value = { RosterView };

    ghost use Rattle.ld_roles.specs.Changes.{IsUndoable, roster_of};

    ghost view = { λ s. roster_of s.seats s.since };

    ghost invariant = { λ s. IfSome s.since (IsUndoable s.seats) };
}

impl Roster {
    /// A roster for these roles, without persons and without a savepoint. It takes no memory.
    pub fn new(alloc: Global, roles: Rc<RoleTree>) -> Roster
        ensures { result ≡ record { roles = roles.value; rows = []; kept = None } }
    {
        Roster {
            since: None,
            seats: Seats::new(alloc, roles),
        }
    }

    /// Adds the person last and gives the next number. A refusal changes nothing.
    pub fn enrol(&mut self, person: &Id) -> Result<PersonNo, EnrolFault>
        requires { IsAsSaved self.old }
        ensures number { IfOk result (λ number. number.0 ≡ length self.old.rows) }
        ensures persons { OnOk result (persons_of self.new.rows
            ≡ persons_of self.old.rows ++ newcomer person.now ∷ []) }
        ensures ok { OnOk result (
            enrol_fault SEATS (persons_of self.old.rows) person.now ≡ None) }
        ensures refused { IfErr result (λ fault. fault
            ≡ unwrap_or (enrol_fault SEATS (persons_of self.old.rows) person.now)
            EnrolFault.NoMemory) }
        ensures err { OnErr result (self.new ≡ self.old) }
        ensures roles { self.new.roles ≡ self.old.roles }
        ensures kept { self.new.kept ≡ self.old.kept }
    {
        if let Some(_) = self.seats.number(person) {
            return Err(EnrolFault::PersonExists);
        }
        let number = self.seats.len();
        if SEATS <= number {
            return Err(EnrolFault::RunFull);
        }
        self.seats.add(person.copy()?)?;
        self.since = self.since.and(Some(Change::Enrolled));
        Ok(PersonNo(number as u32))
    }

    /// Gives the person the role. A refusal changes nothing. It takes no memory: what it needs was
    /// reserved when the person was enrolled.
    pub fn assign(&mut self, person: PersonNo, role: RoleNo) -> Result<(), AssignFault>
        requires person { person.0 < length self.old.rows }
        requires role { role.0 < length self.old.roles }
        requires saved { IsAsSaved self.old }
        ensures refused { result_err result
            ≡ assign_fault self.old.roles (persons_of self.old.rows) role.0 person.0 }
        ensures persons { OnOk result (persons_of self.new.rows
            ≡ changed_at (with_role role.0 true) person.0 (persons_of self.old.rows)) }
        ensures err { OnErr result (self.new ≡ self.old) }
        ensures roles { self.new.roles ≡ self.old.roles }
        ensures kept { self.new.kept ≡ self.old.kept }
    {
        self.may_assign(person, role)?;
        let (person, role) = (person.0 as usize, role.0 as usize);
        self.seats.set(person, role, true);
        self.since = self.since.and(Some(Change::Gave(person, role)));
        Ok(())
    }

    /// Takes the role from the person. A refusal changes nothing. It takes no memory.
    pub fn drop_role(
        &mut self,
        person: PersonNo,
        role: RoleNo,
        started: bool,
    ) -> Result<(), DropFault>
        requires person { person.0 < length self.old.rows }
        requires role { role.0 < length self.old.roles }
        requires saved { IsAsSaved self.old }
        ensures refused { result_err result
            ≡ drop_fault self.old.roles (persons_of self.old.rows) role.0 person.0 started }
        ensures persons { OnOk result (persons_of self.new.rows
            ≡ changed_at (with_role role.0 false) person.0 (persons_of self.old.rows)) }
        ensures err { OnErr result (self.new ≡ self.old) }
        ensures roles { self.new.roles ≡ self.old.roles }
        ensures kept { self.new.kept ≡ self.old.kept }
    {
        self.may_drop(person, role, started)?;
        let (person, role) = (person.0 as usize, role.0 as usize);
        self.seats.set(person, role, false);
        self.since = self.since.and(Some(Change::Took(person, role)));
        Ok(())
    }

    /// What `assign` is refused for, but for running out of memory. It takes no memory.
    pub fn may_assign(&self, person: PersonNo, role: RoleNo) -> Result<(), AssignFault>
        requires person { person.0 < length self.now.rows }
        requires role { role.0 < length self.now.roles }
        ensures refused { result_err result
            ≡ assign_fault self.now.roles (persons_of self.now.rows) role.0 person.0 }
        ensures memory { result ≢ Err AssignFault.NoMemory }
    {
        let (person, role) = (person.0 as usize, role.0 as usize);
        if self.seats.holds(person, role) {
            return Err(AssignFault::HoldsAlready);
        }
        if has_no_room(&self.seats, person, role) {
            return Err(AssignFault::RoleFull);
        }
        if is_excluded(&self.seats, person, role) {
            return Err(AssignFault::RoleExclusive);
        }
        Ok(())
    }

    /// What `drop_role` is refused for. It takes no memory.
    pub fn may_drop(&self, person: PersonNo, role: RoleNo, started: bool) -> Result<(), DropFault>
        requires person { person.0 < length self.now.rows }
        requires role { role.0 < length self.now.roles }
        ensures refused { result_err result
            ≡ drop_fault self.now.roles (persons_of self.now.rows) role.0 person.0 started }
    {
        let (person, role) = (person.0 as usize, role.0 as usize);
        if !self.seats.holds(person, role) {
            return Err(DropFault::NotHeld);
        }
        if !started {
            return Ok(());
        }
        match short_once_dropped(&self.seats, person, role) {
            Some(short) => Err(DropFault::RoleShort(short)),
            None => Ok(()),
        }
    }

    /// Whether the person is a member of the role: holds it, or a role within it.
    pub fn member(&self, person: PersonNo, role: RoleNo) -> bool
        requires person { person.0 < length self.now.rows }
        requires role { role.0 < length self.now.roles }
        ensures { result
            ≡ is_member_among self.now.roles (persons_of self.now.rows) role.0 person.0 }
    {
        self.seats.is_member(person.0 as usize, role.0 as usize)
    }

    /// The number of members of the role. Its time grows with the persons.
    pub fn members(&self, role: RoleNo) -> u32
        requires { role.0 < length self.now.roles }
        ensures count { result
            ≡ member_count self.now.roles (persons_of self.now.rows) role.0 }
        ensures few { result ≤ SEATS }
    {
        count_members(&self.seats, role.0 as usize)
    }

    /// The number of the person of this name; None exactly where no such person is enrolled.
    pub fn person(&self, name: &Id) -> Option<PersonNo>
        ensures number { option_map (λ person. person.0) result
            ≡ person_number (persons_of self.now.rows) name.now }
        ensures within { IfSome result (λ person. person.0 < length self.now.rows) }
    {
        let number = self.seats.number(name)?;
        Some(PersonNo(number as u32))
    }

    /// The person's name.
    pub fn name(&self, person: PersonNo) -> &Id
        requires { person.0 < length self.now.rows }
        ensures { Some result.now
            ≡ option_map (λ row. row.name) (slice_get self.now.rows person.0) }
    {
        self.seats.name(person.0 as usize)
    }

    /// The first role in document order with fewer members than its least number; None exactly
    /// where there is no such role.
    pub fn short_role(&self) -> Option<Short>
        ensures { result ≡ option_map short_of
            (short_at_start_among self.now.roles (persons_of self.now.rows)) }
    {
        first_short(&self.seats)
    }

    /// The number of persons.
    pub fn persons(&self) -> u32
        ensures count { result ≡ length self.now.rows }
        ensures few { result ≤ SEATS }
    {
        self.seats.len() as u32
    }

    /// Keeps the present persons and what they hold, to which `undo` goes back. Until then, or
    /// until `keep`, at most one of `enrol`, `assign` and `drop_role` may succeed.
    pub fn mark(&mut self)
        requires { self.old.kept ≡ None }
        ensures { self.new ≡ record {
          roles = self.old.roles;
          rows = self.old.rows;
          kept = Some self.old.rows;
        } }
    {
        self.since = Some(Change::Nothing);
    }

    /// Gives back what was kept at the savepoint. It takes no memory.
    pub fn undo(&mut self)
        requires { IsSome self.old.kept }
        ensures rows { Some self.new.rows ≡ self.old.kept }
        ensures roles { self.new.roles ≡ self.old.roles }
        ensures no_savepoint { self.new.kept ≡ None }
    {
        match self.since.take() {
            Some(Change::Enrolled) => self.seats.remove_last(),
            Some(Change::Gave(person, role)) => self.seats.set(person, role, false),
            Some(Change::Took(person, role)) => self.seats.set(person, role, true),
            Some(Change::Nothing) | None => {}
        }
    }

    /// Gives up what was kept at the savepoint; what is there now stays.
    pub fn keep(&mut self)
        requires { IsSome self.old.kept }
        ensures { self.new
            ≡ record { roles = self.old.roles; rows = self.old.rows; kept = None } }
    {
        self.since = None;
    }
}
