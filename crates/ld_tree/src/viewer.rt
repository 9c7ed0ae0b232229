//! What a person sees of a run.
ghost use Rattle.std.specs.Prelude.{◌≡◌, ◌+◌, ◌≤◌, length, option_copied, true, false, Some, IfSome, IfNone};
ghost use Rattle.ld_expr.specs.Done.{is_done};
ghost use Rattle.ld_expr.specs.Lookup.{activity_at, environment_at, place_named, structure_at};
ghost use Rattle.ld_expr.specs.Looks.{member_looks};
ghost use Rattle.ld_expr.specs.Membership.{is_member_of};
ghost use Rattle.ld_expr.specs.Owners.{of_person};
ghost use Rattle.ld_tree.specs.Tree.{is_visible};
ghost use Rattle.ld_tree.specs.TreeLooks.{visible_looks, own_done_looks};

use ld_base::{Id, PersonNo, Steps};
use ld_expr::{Scope, says_yes, thing_number};
use ld_model::{Activity, CellName, Environment, Owner, Structure, View};
use ld_names::Named;
use ld_walk::Place;
use std::sync::ledger::Ledger;

/// A person who looks at a run of a unit.
#[derive(Drop)]
pub(crate) struct Viewer<'a, V: View> {
    pub(crate) scope: Scope<'a, V>,
    pub(crate) person: PersonNo,
}

impl<'a, V: View> Viewer<'a, V> {
    /// Whether the thing of this identifier is visible for the person.
    pub(crate) fn is_visible<L: Ledger>(&self, id: &Id, steps: &mut Steps<L>) -> bool
        ensures value { result ≡ is_visible self.now.scope.unit.now (V.seen self.now.scope.view.now)
            self.now.person.0 id.now }
        ensures cost { steps.new ≤ steps.old + length (visible_looks self.now.scope.unit.now
            (V.seen self.now.scope.view.now) self.now.person.0 id.now) }
    {
        match thing_number(self.scope.unit, self.scope.names, id) {
            Some(thing) => says_yes(self.scope.view, CellName::Vis(thing, self.person), steps),
            None => false,
        }
    }

    /// Whether the thing of this identifier is done for the person.
    pub(crate) fn is_done<L: Ledger>(&self, id: &Id, steps: &mut Steps<L>) -> bool
        ensures value { result
            ≡ is_done self.now.scope.unit.now (V.seen self.now.scope.view.now)
            (of_person self.now.person.0) id.now }
        ensures cost { steps.new ≤ steps.old + length (own_done_looks self.now.scope.unit.now
            (V.seen self.now.scope.view.now) self.now.person.0 id.now) }
    {
        self.scope.is_done(Owner::Person(self.person), id, steps)
    }

    /// Whether the person is a member of the role.
    pub(crate) fn is_member_of<L: Ledger>(&self, role: &Id, steps: &mut Steps<L>) -> bool
        ensures value { result
            ≡ is_member_of self.now.scope.unit.now (V.seen self.now.scope.view.now)
            role.now self.now.person.0 }
        ensures cost { steps.new ≤ steps.old + length (member_looks self.now.scope.unit.now
            (V.seen self.now.scope.view.now) (of_person self.now.person.0) role.now) }
    {
        self.scope.is_member_of(self.person, role, steps)
    }

    /// Where the thing of this identifier stands in the unit, if it is visible for the person.
    pub(crate) fn visible_place<L: Ledger>(&self, id: &Id, steps: &mut Steps<L>) -> Option<Place>
        ensures shown { IfSome result (λ place. is_visible self.now.scope.unit.now
            (V.seen self.now.scope.view.now) self.now.person.0 id.now ≡ true) }
        ensures place { IfSome result (λ place. place_named self.now.scope.unit.now id.now ≡ Some
            place) }
        ensures hidden { IfNone result (is_visible self.now.scope.unit.now
            (V.seen self.now.scope.view.now) self.now.person.0 id.now ≡ false) }
        ensures cost { steps.new ≤ steps.old + length (visible_looks self.now.scope.unit.now
            (V.seen self.now.scope.view.now) self.now.person.0 id.now) }
    {
        let Named::Thing(thing) = self.scope.names.number(id)? else {
            return None;
        };
        if !says_yes(self.scope.view, CellName::Vis(thing, self.person), steps) {
            return None;
        }
        Some(self.scope.names.place(thing))
    }

    /// The activity at the place; None exactly where there is none.
    pub(crate) fn activity_at(&self, place: Place) -> Option<&'a Activity>
        ensures { option_copied result ≡ activity_at self.now.scope.unit.now place }
    {
        match place {
            Place::Activity(a) => self.scope.unit.activities.get(a as usize),
            _ => None,
        }
    }

    /// The structure at the place; None exactly where there is none.
    pub(crate) fn structure_at(&self, place: Place) -> Option<&'a Structure>
        ensures { option_copied result ≡ structure_at self.now.scope.unit.now place }
    {
        match place {
            Place::Structure(s) => self.scope.unit.structures.get(s as usize),
            _ => None,
        }
    }

    /// The environment at the place; None exactly where there is none.
    pub(crate) fn environment_at(&self, place: Place) -> Option<&'a Environment>
        ensures { option_copied result ≡ environment_at self.now.scope.unit.now place }
    {
        match place {
            Place::Environment(e) => self.scope.unit.environments.get(e as usize),
            _ => None,
        }
    }
}
