//! The unit that documents describe.
#![tactic(auto, unfolding(crate::specs::Folder::shape_faults, crate::specs::Folder::unit_of, ld_formats::specs::Units::unit), using(ld_json::proofs::First::first_of_both, ld_json::proofs::First::says_more))]

ghost use Rattle.std.specs.Prelude.{◌≡◌, [], true, Some, IfOk, OnOk, IfErr};
ghost use Rattle.ld_json.specs.Fault.{SaysFirst};
ghost use Rattle.ld_formats.specs.Units.{is_well_formed};
ghost use Rattle.ld_top.specs.Folder.{shape_faults, unit_of};

use ld_json::{Docs, ReadFault};
use ld_method::read_method;
use ld_model::Unit;
use ld_reader::read_parts;
use std::alloc::Global;

/// The unit for which the documents stand.
pub(super) fn unit_of_documents(alloc: Global, docs: &Docs<'_>) -> Result<Unit, ReadFault>
    ensures unit { IfOk result (λ unit. unit_of docs.now ≡ Some unit) }
    ensures formed { IfOk result (λ unit. is_well_formed unit ≡ true) }
    ensures faultless { OnOk result (shape_faults docs.now ≡ []) }
    ensures first { IfErr result (SaysFirst (shape_faults docs.now)) }
{
    let parts = read_parts(alloc, docs)?;
    read_method(alloc, docs, parts)
}
