//! A store that declares what a unit shares, and a run that is made with it.
ghost use Rattle.std.specs.Prelude.{◌≡◌, ◌<◌, ◌∷◌, [], IfOk, None, OnOk};
ghost use Rattle.ld_firing.specs.RunSystem.{IsSoundRun};
ghost use Rattle.ld_globals.specs.Kept.{pairs_of};
ghost use Rattle.ld_model.specs.declared.property.Property.{Property as Shared};
ghost use Rattle.ld_sharing.specs.Fitting.{HasFittingGlobals};
ghost use Rattle.ld_sharing.specs.StoreView.{Serves};
ghost use Rattle.ld_state.specs.StateView.{IsStateOf, run_of};
ghost use Rattle.ld_world.specs.Declaring.{pairs_by};

use crate::replies::reply;
use crate::runs::do_commands;
use crate::sharing::share;
use crate::sites::go;
use crate::units::small;
use ld_base::{Items, NoMemory, Steps, Text};
use ld_globals::{Declared, DeclaredList, GlobalKind, Globals};
use ld_model::{Property, PropertyKind};
use ld_rules::PreparedUnit;
use ld_sharing::stored_values;
use ld_state::State;
use ld_value::{Limits, Moment};
use std::alloc::Global;
use std::marker::Brand;
use std::rc::Rc;
use std::sync::ledger::{Blank, Ledger};
use std::test::Fail;

/// What is tested of a run that begins.
#[derive(Clone, Copy)]
pub(crate) enum Subject {
    Commands,
    Replies,
    Sharing,
    Sites,
}

/// Tests the subject with the small unit, and a store that declares what it shares.
pub(crate) fn test(alloc: Global, subject: Subject) -> Result<(), Fail> {
    let unit = Rc::new(alloc, small(alloc)?)?;
    test_unit::<Brand>(alloc, &unit, subject, Blank::new(1))
}

/// Tests the subject, with steps that are counted from 0.
fn test_unit<L: Ledger>(
    alloc: Global,
    unit: &Rc<PreparedUnit>,
    subject: Subject,
    blank: Blank,
) -> Result<(), Fail>
    requires name { blank.name ≡ L.name }
    requires parts { blank.parts ≡ L.parts }
    requires some { 0 < L.parts }
{
    let mut steps = Steps::<L>::new(blank);
    let mut globals = Globals::new(alloc);
    test_with(alloc, unit, subject, &mut globals, &mut steps)
}

/// Tests the subject with a store that declares nothing yet.
fn test_with<L: Ledger>(
    alloc: Global,
    unit: &Rc<PreparedUnit>,
    subject: Subject,
    globals: &mut Globals,
    steps: &mut Steps<L>,
) -> Result<(), Fail>
    requires empty { globals.old.declared ≡ [] }
{
    declare(alloc, unit, globals)?;
    match subject {
        Subject::Commands => do_commands(alloc, unit.clone()?, globals, steps),
        Subject::Replies => reply(alloc, unit, globals, steps),
        Subject::Sharing => share(alloc, unit, globals, steps),
        Subject::Sites => go(alloc, unit, globals, steps),
    }
}

/// Declares the uri of the unit's only property.
fn declare(alloc: Global, unit: &PreparedUnit, globals: &mut Globals) -> Result<(), Fail>
    requires empty { globals.old.declared ≡ [] }
    ensures serves { OnOk result (Serves globals.new unit.now) }
{
    let list = declarations(alloc, unit)?;
    Ok(globals.declare(list)?)
}

/// How the uri of the unit's only property is declared, which begins without a value.
fn declarations(alloc: Global, unit: &PreparedUnit) -> Result<DeclaredList, Fail>
    ensures one { OnOk result ((property : Shared) × (unit.now.properties ≡ property ∷ [])
        × (property.initial ≡ None)) }
    ensures pairs { IfOk result (λ list. pairs_of list ≡ pairs_by unit.now.properties) }
{
    let [property] = unit.unit().properties.as_slice() else {
        return Err("not one property")?;
    };
    declaration(alloc, property)
}

/// How the property's uri is declared, if it is one for all that begins with no value and has no
/// restrictions.
fn declaration(alloc: Global, property: &Property) -> Result<DeclaredList, Fail>
    ensures empty { OnOk result (property.now.initial ≡ None) }
    ensures pairs { IfOk result (λ list. pairs_of list ≡ pairs_by (property.now ∷ [])) }
{
    let (PropertyKind::Glob, Some(uri)) = (property.kind, &property.uri) else {
        return Err("not one for all")?;
    };
    let (None, None) = (&property.initial, &property.restrictions) else {
        return Err("a beginning or restrictions")?;
    };
    let declared = Declared {
        kind: GlobalKind::Glob,
        datatype: property.datatype,
        limits: Limits {
            least: None,
            most: None,
            min_length: None,
            max_length: None,
            one_of: Items::new(alloc),
        },
        initial: None,
    };
    let mut list = DeclaredList::new(alloc);
    list.push((Text::of(alloc, uri.as_str())?, declared))?;
    Ok(list)
}

/// The state of a run of the unit that is made at moment 5.
pub(crate) fn begin<L: Ledger>(
    alloc: Global,
    unit: &PreparedUnit,
    globals: &Globals,
    steps: &mut Steps<L>,
) -> Result<State, NoMemory>
    requires serves { Serves globals.now unit.now }
    ensures own { IfOk result (IsStateOf unit.now) }
    ensures sound { IfOk result (λ state. IsSoundRun unit.now (run_of state)) }
    ensures fitting { IfOk result (λ state. HasFittingGlobals unit.now (run_of state)) }
    ensures silent { IfOk result (λ state. state.outbox ≡ []) }
{
    // The unit is valid, as the call of `unit` says.
    let _unit = unit.unit();
    let stored = stored_values(alloc, unit, globals, None, steps)?;
    State::new(
        alloc,
        unit.slots().clone()?,
        unit.roles().clone()?,
        &unit.beginnings(),
        &stored,
        Moment(5),
    )
}
