//! The persons of a run with the roles that they hold.
ghost use Rattle.std.specs.Prelude.{◌≡◌, ◌<◌, ◌≤◌, ◌++◌, ◌∷◌, [], length, map, IfOk, OnOk, OnErr, Some, None, IfSome, ◌-◌, take, slice_get, option_map};
ghost use Rattle.ld_roles.specs.Kept.{persons_of};
ghost use Rattle.ld_roles.specs.Membership.{is_member_among};
ghost use Rattle.ld_roles.specs.Persons.{changed_at, holds_role, newcomer, person_number, with_role};
ghost use Rattle.ld_roles.specs.Seats.{IsSeated, new_row, row_of, with_held};

use crate::limit::SEATS;
use crate::role_tree::RoleTree;
use crate::seat::Seat;
use indexmap::IndexMap;
use ld_base::{Id, NoMemory};
use std::alloc::Global;
use std::marker::Model;
use std::rc::Rc;

/// The roles of a unit, which its runs share, and the persons of a run in the order of enrolment.
#[derive(Drop)]
pub(crate) struct Seats {
    alloc: Global,
    /// The first person, beside the others: a map makes room for nine at once.
    first: Option<(Id, Seat)>,
    others: IndexMap<Id, Seat>,
    roles: Rc<RoleTree>,
}

impl Model for Seats {
    ghost use Rattle.std.specs.Prelude.{map};
    ghost use Rattle.ld_roles.specs.Seats.{Seated, IsSeating, row_of, seated_in};

    ghost Value = { Seated };

    ghost view = { λ s. record {
      roles = s.roles.value;
      rows = map row_of (seated_in s.first s.others.entries);
    } };

    ghost invariant = { λ s. IsSeating s.roles.value s.first s.others.entries };
}

impl Seats {
    /// These roles, and no persons.
    pub(crate) fn new(alloc: Global, roles: Rc<RoleTree>) -> Seats
        ensures { result ≡ record { roles = roles.value; rows = [] } }
    {
        Seats {
            alloc,
            first: None,
            others: IndexMap::new(alloc),
            roles,
        }
    }

    /// The roles.
    pub(crate) fn roles(&self) -> &RoleTree
        ensures { result.now ≡ self.now.roles }
    {
        &self.roles
    }

    /// The number of persons.
    pub(crate) fn len(&self) -> usize
        ensures count { result ≡ length self.now.rows }
        ensures few { result ≤ SEATS }
    {
        match &self.first {
            Some(_) => self.others.len() + 1,
            None => 0,
        }
    }

    /// The number of the person of this name. The first one is looked at, and only the others are
    /// searched for.
    pub(crate) fn number(&self, name: &Id) -> Option<usize>
        ensures number { result ≡ person_number (persons_of self.now.rows) name.now }
        ensures within { IfSome result (λ number. number < length self.now.rows) }
        ensures few { IfSome result (λ number. number < SEATS) }
    {
        let Some((first, _)) = &self.first else {
            return None;
        };
        if name == first {
            return Some(0);
        }
        if self.others.is_empty() {
            return None;
        }
        let place = self.others.get_index_of(name)?;
        Some(place + 1)
    }

    /// The name of the person.
    pub(crate) fn name(&self, person: usize) -> &Id
        requires { person < length self.now.rows }
        ensures { Some result.now ≡ option_map (λ row. row.name) (slice_get self.now.rows person) }
    {
        let (name, _) = self.entry(person);
        name
    }

    /// Whether the person holds this very role.
    pub(crate) fn holds(&self, person: usize, role: usize) -> bool
        requires person { person < length self.now.rows }
        requires role { role < length self.now.roles }
        ensures { result ≡ holds_role (persons_of self.now.rows) role person }
    {
        self.held(person)[role]
    }

    /// Of each role, whether the person holds it.
    pub(crate) fn held(&self, person: usize) -> &[bool]
        requires { person < length self.now.rows }
        ensures row { Some result.now
            ≡ option_map (λ row. row.held) (slice_get self.now.rows person) }
        ensures count { length result.now ≡ length self.now.roles }
    {
        let (_, seat) = self.entry(person);
        &seat.holds
    }

    /// Whether the person is a member of the role.
    pub(crate) fn is_member(&self, person: usize, role: usize) -> bool
        requires person { person < length self.now.rows }
        requires role { role < length self.now.roles }
        ensures { result ≡ is_member_among self.now.roles (persons_of self.now.rows) role person }
    {
        let (_, seat) = self.entry(person);
        seat.member[role]
    }

    /// Adds the person last. Where memory runs out nothing changes.
    pub(crate) fn add(&mut self, name: Id) -> Result<(), NoMemory>
        requires new { person_number (persons_of self.old.rows) name ≡ None }
        requires room { length self.old.rows < SEATS }
        ensures rows { OnOk result (self.new.rows
            ≡ self.old.rows ++ new_row self.old.roles name ∷ []) }
        ensures persons { OnOk result (persons_of self.new.rows
            ≡ persons_of self.old.rows ++ newcomer name ∷ []) }
        ensures roles { OnOk result (self.new.roles ≡ self.old.roles) }
        ensures err { OnErr result (self.new ≡ self.old) }
    {
        let seat = Seat::new(self.alloc, &self.roles)?;
        if let None = &self.first {
            self.first = Some((name, seat));
            return Ok(());
        }
        self.others.insert(name, seat)?;
        Ok(())
    }

    /// Takes the last person away, if there is one.
    pub(crate) fn remove_last(&mut self)
        ensures rows { self.new.rows ≡ take (length self.old.rows - 1) self.old.rows }
        ensures roles { self.new.roles ≡ self.old.roles }
    {
        if let None = self.others.pop() {
            self.first = None;
        }
    }

    /// Gives the person the role, or takes it away.
    pub(crate) fn set(&mut self, person: usize, role: usize, held: bool)
        requires person { person < length self.old.rows }
        requires role { role < length self.old.roles }
        ensures rows { self.new.rows ≡ changed_at (with_held role held) person self.old.rows }
        ensures persons { persons_of self.new.rows
            ≡ changed_at (with_role role held) person (persons_of self.old.rows) }
        ensures roles { self.new.roles ≡ self.old.roles }
    {
        if person == 0 {
            let Some((_, seat)) = &mut self.first else {
                unreachable!();
            };
            seat.set(&self.roles, role, held);
            return;
        }
        let Some(seat) = self.others.get_index_mut(person - 1) else {
            unreachable!();
        };
        seat.set(&self.roles, role, held);
    }

    /// The name and the seat of the person of this number.
    fn entry(&self, person: usize) -> (&Id, &Seat)
        requires { person < length self.now.rows }
        ensures row { slice_get self.now.rows person ≡ Some (row_of (result.0.now, result.1.now)) }
        ensures seated { IsSeated self.now.roles result.1.now }
    {
        if person == 0 {
            let Some((name, seat)) = &self.first else {
                unreachable!();
            };
            return (name, seat);
        }
        let Some(entry) = self.others.get_index(person - 1) else {
            unreachable!();
        };
        entry
    }
}
