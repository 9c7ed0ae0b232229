//! Changes of properties, and notices.
#![tactic(auto, unfolding(crate::specs::CommonParts::change_parts, crate::specs::CommonParts::notice_parts))]

ghost use Rattle.std.specs.Prelude.{◌≡◌, ◌∷◌, ◌++◌, [], OnOk};
ghost use Rattle.ld_model.specs.Counting.{each_numbered};
ghost use Rattle.ld_walk.specs.CommonParts.{change_parts, notice_parts, nth_change_parts, nth_notice_parts};
ghost use Rattle.ld_walk.specs.Walks.{added};

use crate::items::{list_optional_reference, list_reference, list_references};
use crate::kind::Wanted;
use crate::part::{Typed, What};
use crate::terms::list_term;
use crate::walk::Walk;
use ld_base::{NoMemory, number};
use ld_model::{Change, Level, Notice};

/// Lists changes, for the run as a whole or for one person.
pub fn list_changes<'a>(
    walk: &mut Walk<'a>,
    by_run: bool,
    changes: &'a [Change],
) -> Result<(), NoMemory>
    ensures { OnOk result
        (walk.new
        ≡ added walk.old (each_numbered (nth_change_parts walk.old.at by_run) changes.now)) }
{
    for (i, change) in changes.iter().enumerate() {
        walk.enter_nth("change", number(i)?)?;
        list_change(walk, by_run, change)?;
        walk.leave();
    }
    Ok(())
}

/// Lists a change, for the run as a whole or for one person.
pub fn list_change<'a>(
    walk: &mut Walk<'a>,
    by_run: bool,
    change: &'a Change,
) -> Result<(), NoMemory>
    ensures { OnOk result (walk.new ≡ added walk.old (change_parts walk.old.at by_run change.now)) }
{
    let typed = Typed::Changed(by_run, &change.property, &change.value);
    walk.put(Level::A, What::Types(typed))?;
    list_reference(walk, "property", Wanted::Property, &change.property)?;
    walk.enter("value")?;
    list_term(walk, false, false, &change.value)?;
    walk.leave();
    Ok(())
}

/// Lists notices.
pub fn list_notices<'a>(walk: &mut Walk<'a>, notices: &'a [Notice]) -> Result<(), NoMemory>
    ensures { OnOk result
        (walk.new ≡ added walk.old (each_numbered (nth_notice_parts walk.old.at) notices.now)) }
{
    for (i, notice) in notices.iter().enumerate() {
        walk.enter_nth("notify", number(i)?)?;
        list_notice(walk, notice)?;
        walk.leave();
    }
    Ok(())
}

/// Lists a notice.
pub fn list_notice<'a>(walk: &mut Walk<'a>, notice: &'a Notice) -> Result<(), NoMemory>
    ensures { OnOk result (walk.new ≡ added walk.old (notice_parts walk.old.at notice.now)) }
{
    list_references(walk, "roles", Wanted::Role, notice.roles.as_slice())?;
    list_optional_reference(walk, "activity", Wanted::Activity, &notice.activity)
}
