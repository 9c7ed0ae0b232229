//! Declaring the uris of a unit's properties in the store.
ghost use Rattle.std.specs.Prelude.{◌≡◌, List, [], None, IfErr, IfOk, OnErr, OnOk};
ghost use Rattle.ld_globals.specs.Store.{Key, KeepsWrites, declare_in, declared_at, last_write};
ghost use Rattle.ld_json.specs.Fault.{Says, SaysFirst};
ghost use Rattle.ld_model.specs.declared.unit.Unit.{Unit};
ghost use Rattle.ld_sharing.specs.StoreView.{Serves};
ghost use Rattle.ld_world.specs.Declaring.{uri_property_number, pairs_by};
ghost use Rattle.ld_world.specs.Published.{differing, differs_at};
ghost use Rattle.ld_world.specs.WorldView.{IsStoreOf};

use crate::declarations::declarations_of;
use ld_base::{NoMemory, Text};
use ld_globals::{DeclareFault, Globals};
use ld_json::{Code, Fault, FileNo, ReadFault, push_item};
use ld_model::Property;
use ld_rules::PreparedUnit;
use std::alloc::Global;

/// Declares the uris of the unit's properties. It is refused at the first property whose uri is
/// declared with other contents. Every error leaves the store as it was.
pub(crate) fn declare_uris(
    alloc: Global,
    unit: &PreparedUnit,
    globals: &mut Globals,
) -> Result<(), ReadFault>
    ensures ok { OnOk result (globals.new ≡ declare_in globals.old (pairs_by unit.now.properties)) }
    ensures serves { OnOk result (Serves globals.new unit.now) }
    ensures kept { OnOk result (KeepsWrites globals.old globals.new) }
    ensures unwritten { OnOk result ((key : Key) → declared_at globals.old key.uri ≡ None
        → last_write globals.old key ≡ None) }
    ensures faultless { (units : List Unit) → IsStoreOf units globals.old
        → OnOk result (differing units 0 unit.now.properties ≡ []) }
    ensures first { (units : List Unit) → IsStoreOf units globals.old
        → IfErr result (SaysFirst (differing units 0 unit.now.properties)) }
    ensures err { OnErr result (globals.new ≡ globals.old) }
{
    let properties = unit.unit().properties.as_slice();
    let list = declarations_of(alloc, unit)?;
    match globals.declare(list) {
        Ok(()) => Ok(()),
        Err(DeclareFault::Differs(place)) => {
            let number = find_number(properties, place);
            Err(differs(alloc, number))
        }
        Err(DeclareFault::NoMemory) => Err(ReadFault::NoMemory),
    }
}

/// The number of the property that has the uri of this place among all uris.
fn find_number(properties: &[Property], place: u32) -> usize
    ensures { result ≡ uri_property_number 0 place properties.now }
{
    let mut left = place;
    let mut n = 0;
    while n < properties.len() {
        if properties[n].uri.is_some() {
            if left == 0 {
                return n;
            }
            left -= 1;
        }
        n += 1;
    }
    n
}

/// The refusal that the uri of the property of this number is declared with other contents, or
/// `NoMemory`.
fn differs(alloc: Global, number: usize) -> ReadFault
    ensures { Says (differs_at number) result }
{
    match place_of(alloc, number) {
        Ok(place) => ReadFault::Refused(Fault {
            file: FileNo::Properties,
            place,
            code: Code::GlobalDiffers,
        }),
        Err(_) => ReadFault::NoMemory,
    }
}

/// The place of the property of this number.
fn place_of(alloc: Global, number: usize) -> Result<Text, NoMemory>
    ensures { IfOk result (λ place. place.bytes ≡ (differs_at number).place) }
{
    let mut place = Text::of(alloc, "/properties")?;
    push_item(alloc, number, &mut place)?;
    Ok(place)
}
