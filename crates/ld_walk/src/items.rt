//! Items and references.
ghost use Rattle.std.specs.Prelude.{◌≡◌, ◌∷◌, [], OnOk, None, Some};
ghost use Rattle.ld_walk.specs.CommonParts.{items_parts, item_parts, shown_part, unshown_part, reference_part, optional_reference_parts, references_parts};
ghost use Rattle.ld_walk.specs.Walks.{added};

use crate::kind::{Kind, Wanted};
use crate::part::What;
use crate::place::Place;
use crate::walk::Walk;
use ld_base::{Id, NoMemory, number};
use ld_model::{Item, Level};

/// Lists a thing that is shown and hidden, at the place where the walk stands.
pub fn list_shown<'a>(
    walk: &mut Walk<'a>,
    place: Place,
    identifier: &'a Id,
    visible: bool,
) -> Result<(), NoMemory>
    ensures { OnOk result
        (walk.new ≡ added walk.old (shown_part walk.old.at place identifier.now visible ∷ [])) }
{
    walk.put(
        Level::A,
        What::Declares(Kind::Thing(place), identifier, Some(visible)),
    )
}

/// Lists a thing that is not hidden.
pub fn list_unshown<'a>(
    walk: &mut Walk<'a>,
    place: Place,
    identifier: &'a Id,
) -> Result<(), NoMemory>
    ensures { OnOk result
        (walk.new ≡ added walk.old (unshown_part walk.old.at place identifier.now ∷ [])) }
{
    walk.put(
        Level::A,
        What::Declares(Kind::Thing(place), identifier, None),
    )
}

/// Lists the items at the member of this name.
pub fn list_items<'a>(
    walk: &mut Walk<'a>,
    name: &'static str,
    items: &'a [Item],
) -> Result<(), NoMemory>
    ensures { OnOk result (walk.new ≡ added walk.old (items_parts walk.old.at name.now items.now)) }
{
    for (i, item) in items.iter().enumerate() {
        list_item(walk, name, number(i)?, item)?;
    }
    Ok(())
}

/// Lists an item, which is the one of this number.
fn list_item<'a>(
    walk: &mut Walk<'a>,
    name: &'static str,
    i: u32,
    item: &'a Item,
) -> Result<(), NoMemory>
    ensures { OnOk result (walk.new ≡ added walk.old (item_parts walk.old.at name.now i item.now)) }
{
    walk.enter_nth(name, i)?;
    list_shown(walk, Place::Item, &item.identifier, item.visible)?;
    walk.leave();
    Ok(())
}

/// Lists the reference at the member of this name.
pub fn list_reference<'a>(
    walk: &mut Walk<'a>,
    name: &'static str,
    wanted: Wanted,
    target: &'a Id,
) -> Result<(), NoMemory>
    ensures { OnOk result
        (walk.new ≡ added walk.old (reference_part walk.old.at name.now wanted target.now ∷ [])) }
{
    walk.put_member(name, Level::A, What::Refers(wanted, target))
}

/// Lists the reference at the member of this name, if there is one.
pub fn list_optional_reference<'a>(
    walk: &mut Walk<'a>,
    name: &'static str,
    wanted: Wanted,
    target: &'a Option<Id>,
) -> Result<(), NoMemory>
    ensures { OnOk result
        (walk.new
        ≡ added walk.old (optional_reference_parts walk.old.at name.now wanted target.now)) }
{
    match target {
        Some(target) => list_reference(walk, name, wanted, target),
        None => Ok(()),
    }
}

/// Lists the references at the member of this name, where there are any.
pub fn list_references<'a>(
    walk: &mut Walk<'a>,
    name: &'static str,
    wanted: Wanted,
    targets: &'a [Id],
) -> Result<(), NoMemory>
    ensures { OnOk result
        (walk.new ≡ added walk.old (references_parts walk.old.at name.now wanted targets.now)) }
{
    if targets.is_empty() {
        return Ok(());
    }
    walk.put_member(name, Level::A, What::Lists(wanted, targets))
}
