//! The checked unit that the bytes of the six files stand for.
#![tactic(auto, using(crate::proofs::Behind::none_in_content, crate::proofs::Behind::none_in_form, crate::proofs::Behind::says_form, crate::proofs::Behind::says_json, crate::proofs::Behind::says_shapes, crate::proofs::Behind::says_unit))]

ghost use Rattle.std.specs.Prelude.{◌≡◌, [], true, Some, IfOk, OnOk, IfErr};
ghost use Rattle.ld_json.specs.Fault.{SaysFirst};
ghost use Rattle.ld_formats.specs.Units.{is_well_formed};
ghost use Rattle.ld_top.specs.Folder.{docs_in, unit_of};
ghost use Rattle.ld_top.specs.Reading.{content_faults, form_faults, held_by};

use crate::reader::documents::read_documents;
use crate::reader::shapes::unit_of_documents;
use ld_base::Bytes;
use ld_json::{ReadFault, Scratches};
use ld_model::Unit;
use ld_refs::Checked;
use ld_refs::check::check;
use std::alloc::Global;

/// The checked unit of these files, in their order, or the first fault of what they hold. Files and
/// documents are let go of as soon as they are read.
pub(super) fn read_unit(alloc: Global, files: [Option<Bytes>; 6]) -> Result<Checked, ReadFault>
    ensures unit { IfOk result (λ checked. unit_of (docs_in (held_by files)) ≡ Some checked.unit) }
    ensures faultless { OnOk result (content_faults (held_by files) ≡ []) }
    ensures first { IfErr result (SaysFirst (content_faults (held_by files))) }
{
    let unit = unit_in(alloc, &files)?;
    drop(files);
    check(alloc, unit)
}

/// The unit for which the documents in these files stand.
fn unit_in(alloc: Global, files: &[Option<Bytes>; 6]) -> Result<Unit, ReadFault>
    ensures unit { IfOk result (λ unit. unit_of (docs_in (held_by files.now)) ≡ Some unit) }
    ensures formed { IfOk result (λ unit. is_well_formed unit ≡ true) }
    ensures faultless { OnOk result (form_faults (held_by files.now) ≡ []) }
    ensures first { IfErr result (SaysFirst (form_faults (held_by files.now))) }
{
    let mut scratches = Scratches::new(alloc);
    let docs = read_documents(alloc, files, &mut scratches)?;
    let unit = unit_of_documents(alloc, &docs);
    drop(docs);
    unit
}
