//! The check that references name what they should.
ghost use Rattle.std.specs.Prelude.{◌≡◌, [], IfErr, OnOk};
ghost use Rattle.ld_json.specs.Fault.{SaysFirst};
ghost use Rattle.ld_model.specs.Counting.{each_numbered};
ghost use Rattle.ld_walk.specs.Kinds.{allows};
ghost use Rattle.ld_refs.specs.Targets.{kind_by, nth_target_fault, target_code, target_fault};

use crate::checks::each::PartCheck;
use ld_base::Id;
use ld_json::{Code, ReadFault};
use ld_model::Level;
use ld_names::{Named, Names};
use ld_walk::{Kind, Place, Spot, Wanted, What};
use std::alloc::Global;

/// That references name what they should, where the unit has these names.
#[derive(Clone, Copy)]
pub(crate) struct Targets<'a> {
    pub(crate) names: &'a Names,
}

impl<'a> PartCheck for Targets<'a> {
    ghost use Rattle.ld_refs.specs.Targets.{target_faults_of};

    ghost faults = { λ s. target_faults_of s.names.now };

    fn check(
        &self,
        alloc: Global,
        at: &Spot<'_>,
        _level: Level,
        what: What<'_>,
    ) -> Result<(), ReadFault> {
        match what {
            What::Refers(wanted, id) => check_target(alloc, self.names, wanted, at, id),
            What::Lists(wanted, ids) => check_list(alloc, self.names, wanted, at, ids),
            _ => Ok(()),
        }
    }
}

/// That the references of a list name what they should.
fn check_list(
    alloc: Global,
    names: &Names,
    wanted: Wanted,
    at: &Spot<'_>,
    ids: &[Id],
) -> Result<(), ReadFault>
    ensures faultless { OnOk result
        (each_numbered (nth_target_fault names.now wanted at.now) ids.now ≡ []) }
    ensures first { IfErr result
        (SaysFirst (each_numbered (nth_target_fault names.now wanted at.now) ids.now)) }
{
    for (i, id) in ids.iter().enumerate() {
        if let Some(code) = target_code(wanted, kind_of(names, id)) {
            return Err(at.item(i).fault(alloc, code));
        }
    }
    Ok(())
}

/// That the reference at the place names what it should.
fn check_target(
    alloc: Global,
    names: &Names,
    wanted: Wanted,
    at: &Spot<'_>,
    id: &Id,
) -> Result<(), ReadFault>
    ensures faultless { OnOk result (target_fault names.now wanted at.now id.now ≡ []) }
    ensures first { IfErr result (SaysFirst (target_fault names.now wanted at.now id.now)) }
{
    match target_code(wanted, kind_of(names, id)) {
        Some(code) => Err(at.fault(alloc, code)),
        None => Ok(()),
    }
}

/// What is wrong with a reference to something of this kind, if anything is.
fn target_code(wanted: Wanted, found: Option<Kind>) -> Option<Code>
    ensures { result ≡ target_code wanted found }
{
    let Some(kind) = found else {
        return Some(Code::UnknownRef);
    };
    if allows(wanted, kind) {
        return None;
    }
    Some(Code::WrongKindOfRef)
}

/// The kind of what the identifier names.
pub(crate) fn kind_of(names: &Names, id: &Id) -> Option<Kind>
    ensures { result ≡ kind_by names.now id.now }
{
    match names.number(id)? {
        Named::Unit => Some(Kind::Unit),
        Named::Role(_) => Some(Kind::Role),
        Named::Prop(_) => Some(Kind::Property),
        Named::Thing(thing) => Some(Kind::Thing(names.place(thing))),
    }
}

/// Whether a reference of which this is wanted may name something of the kind.
fn allows(wanted: Wanted, kind: Kind) -> bool
    ensures { result ≡ allows wanted kind }
{
    match kind {
        Kind::Unit => wanted == Wanted::Completable,
        Kind::Role => wanted == Wanted::Role,
        Kind::Property => wanted == Wanted::Property,
        Kind::Thing(place) => allows_thing(wanted, place),
    }
}

/// Whether such a reference may name the thing at the place.
fn allows_thing(wanted: Wanted, place: Place) -> bool
    ensures { result ≡ allows wanted (Kind.Thing place) }
{
    match (wanted, place) {
        (Wanted::Environment | Wanted::Target | Wanted::Shown, Place::Environment(_))
        | (Wanted::Activity | Wanted::Child | Wanted::Target, Place::Activity(_))
        | (Wanted::Shown | Wanted::Completable, Place::Activity(_))
        | (Wanted::Child | Wanted::Target, Place::Structure(_))
        | (Wanted::Shown | Wanted::Completable, Place::Structure(_))
        | (Wanted::Play | Wanted::Shown | Wanted::Completable, Place::Play(_))
        | (Wanted::Completable, Place::Act(_, _) | Place::RolePart(_, _, _))
        | (Wanted::Shown, Place::Object(_, _) | Place::Service(_, _) | Place::Item) => true,
        (Wanted::PartOf(play, act), Place::RolePart(p, a, _)) => p == play && a == act,
        _ => false,
    }
}
