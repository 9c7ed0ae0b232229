//! A unit with what is made of it once, for all its runs.
ghost use Rattle.std.specs.Prelude.{◌≡◌, ◌<◌, ◌≤◌, length, option_map, IfOk};
ghost use Rattle.ld_names.specs.Identifiers.{HasDistinctIdentifiers};
ghost use Rattle.ld_names.specs.Names.{names_of};
ghost use Rattle.ld_names.specs.Rules.{rules_of};
ghost use Rattle.ld_refs.specs.Checks.{IsValid};
ghost use Rattle.ld_roles.specs.RoleBounds.{role_bounds};
ghost use Rattle.ld_state.specs.Layout.{layout_of};
ghost use Rattle.ld_rules.specs.PreparedParts.{IsMadeOf};
ghost use Rattle.ld_rules.specs.PreparedView.{AreUrisOf, uri_at};
ghost use Rattle.ld_rules.specs.ReachTable.{reach_of};

use crate::reach::Reach;
use ld_base::{NoMemory, PropNo, Text};
use ld_expr::Scope;
use ld_model::{Property, Unit, View};
use ld_names::{Names, Rule};
use ld_refs::Checked;
use ld_roles::RoleTree;
use ld_state::{Beginnings, Slots};
use std::alloc::Global;
use std::marker::Model;
use std::rc::Rc;

/// A valid unit with its names and roles, the slots of its runs' cells, and the roles that reach
/// each activity. It is made once, and contracts see it as the unit.
pub struct PreparedUnit {
    unit: Unit,
    made: Made,
}

/// What is made of a unit once.
struct Made {
    names: Names,
    reach: Reach,
    slots: Rc<Slots>,
    roles: Rc<RoleTree>,
    /// Of each property its uri, as the store of global values takes it.
    uris: Vec<Option<Text>>,
}

// By hand, so that a function which lets one go calls this and is not proved over each field again.
impl Drop for Made {
    fn drop(self) {
        let Self {
            names: _,
            reach: _,
            slots: _,
            roles: _,
            uris: _,
        } = self;
    }
}

// By hand, for the same reason.
impl Drop for PreparedUnit {
    fn drop(self) {
        let Self { unit: _, made: _ } = self;
    }
}

impl Model for PreparedUnit {
    ghost use Rattle.std.specs.Coded.{codes};
    ghost use Rattle.ld_model.specs.ExpressionCodes.{coded_term, coded_test};
    ghost use Rattle.ld_model.specs.declared.unit.Unit.{Unit};
    ghost use Rattle.ld_rules.specs.PreparedParts.{IsMadeOf};

    ghost Value = { Unit };

    ghost coded = { Prim.hlevel (codes, coded_term, coded_test) };

    ghost view = { λ s. s.unit };

    ghost invariant = { λ s. IsMadeOf s.unit s.made };
}

impl PreparedUnit {
    /// The checked unit, with what is made of it. The only error is out of memory. It takes time
    /// and memory as the size of the unit, and as what `Reach::of` takes.
    pub fn new(alloc: Global, checked: Checked) -> Result<PreparedUnit, NoMemory>
        ensures { IfOk result (λ prepared. prepared ≡ checked.unit) }
    {
        let (unit, names) = checked.into_parts();
        match make(alloc, &unit, names) {
            Ok(made) => Ok(PreparedUnit { unit, made }),
            Err(_) => Err(NoMemory),
        }
    }

    /// The valid unit. It takes no memory.
    pub fn unit(&self) -> &Unit
        ensures unit { result.now ≡ self.now }
        ensures valid { IsValid self.now }
        ensures distinct { HasDistinctIdentifiers self.now }
    {
        &self.unit
    }

    /// The names of the unit. It takes no memory.
    pub fn names(&self) -> &Names
        ensures { result.now ≡ names_of self.now }
    {
        &self.made.names
    }

    /// The view of a run of the unit, with the unit and its names beside it. It takes no memory.
    pub fn scope<'a, V: View>(&'a self, view: &'a V) -> Scope<'a, V>
        ensures unit { result.unit.now ≡ self.now }
        ensures view { result.view.now ≡ view.now }
        ensures distinct { HasDistinctIdentifiers self.now }
    {
        Scope {
            unit: &self.unit,
            names: &self.made.names,
            view,
        }
    }

    /// The rules of the unit, in their order. It takes no memory.
    pub fn rules(&self) -> &[Rule]
        ensures rules { result.now ≡ rules_of self.now }
        ensures few { length result.now ≤ 600 }
    {
        self.made.names.rules()
    }

    /// The roles that reach each activity. It takes no memory.
    pub fn reach(&self) -> &Reach
        ensures { result.now ≡ reach_of self.now }
    {
        &self.made.reach
    }

    /// The slots of the cells of the unit's runs. It takes no memory.
    pub fn slots(&self) -> &Rc<Slots>
        ensures { result.now.value ≡ layout_of self.now }
    {
        &self.made.slots
    }

    /// The unit's roles, which its runs share. It takes no memory.
    pub fn roles(&self) -> &Rc<RoleTree>
        ensures { result.now.value ≡ role_bounds self.now }
    {
        &self.made.roles
    }

    /// What the beginnings of the cells of the unit's runs are made from. It takes no memory.
    pub fn beginnings(&self) -> Beginnings<'_>
        ensures unit { result.unit.now ≡ self.now }
    {
        Beginnings {
            unit: &self.unit,
            names: &self.made.names,
        }
    }

    /// The uri of the property; None exactly where it has none. It takes no memory.
    pub fn uri(&self, property: PropNo) -> Option<&Text>
        requires { property.0 < length self.now.properties }
        ensures { option_map (λ uri. uri.now.bytes) result
            ≡ uri_at self.now.properties property.0 }
    {
        self.made.uris[property.0 as usize].as_ref()
    }
}

/// What is made of the unit, whose names these are.
fn make(alloc: Global, unit: &Unit, names: Names) -> Result<Made, NoMemory>
    requires valid { IsValid unit.now }
    requires distinct { HasDistinctIdentifiers unit.now }
    requires names { names ≡ names_of unit.now }
    requires few { length (rules_of unit.now) ≤ 600 }
    ensures { IfOk result (IsMadeOf unit.now) }
{
    let reach = Reach::of(alloc, unit, &names)?;
    let slots = Slots::of(alloc, unit, &names)?;
    let uris = uris_of(alloc, unit.properties.as_slice())?;
    let roles = RoleTree::of(alloc, unit)?;
    Ok(Made {
        names,
        reach,
        slots: Rc::new(alloc, slots)?,
        roles: Rc::new(alloc, roles)?,
        uris,
    })
}

/// The uri of each property, if it has one.
fn uris_of(alloc: Global, properties: &[Property]) -> Result<Vec<Option<Text>>, NoMemory>
    ensures { IfOk result (λ uris. AreUrisOf uris.items properties.now) }
{
    let mut uris = Vec::with_capacity(alloc, properties.len())?;
    for property in properties {
        uris.push(uri_of(alloc, property)?)?;
    }
    Ok(uris)
}

/// The property's uri, if it has one.
fn uri_of(alloc: Global, property: &Property) -> Result<Option<Text>, NoMemory>
    ensures { IfOk result (λ uri. option_map (λ text. text.bytes) uri ≡ property.now.uri) }
{
    match &property.uri {
        Some(uri) => Ok(Some(Text::of(alloc, uri.as_str())?)),
        None => Ok(None),
    }
}
