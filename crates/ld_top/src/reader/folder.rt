//! The checked unit that a folder of a shelf holds.
#![tactic(auto, unfolding(crate::specs::Folder::folder_faults, crate::specs::Folder::unit_of_folder, crate::specs::Reading::content_faults), using(crate::proofs::FolderFiles::docs_of_folder, crate::proofs::FolderFiles::json_of_folder, ld_json::proofs::First::first_of_both))]

ghost use Rattle.std.specs.Prelude.{◌≡◌, ◌≤◌, [], Some, IfOk, OnOk, IfErr};
ghost use Rattle.ld_base.specs.Outside.{Rose};
ghost use Rattle.ld_top.specs.Folder.{folder_faults, unit_of_folder};
ghost use Rattle.ld_top.specs.InFolder.{WhereTold};
ghost use Rattle.ld_top.specs.Reading.{StopsAtFirst};

use crate::reader::files::read_files;
use crate::reader::stop::FolderStop;
use crate::reader::unit::read_unit;
use ld_base::Shelf;
use ld_json::ReadFault;
use ld_refs::Checked;
use std::alloc::Global;

/// The unit of the folder, in which nothing is wrong. All six files are read first, in their order;
/// then they are taken as JSON, then read for their shapes, and then checked together.
///
/// # Errors
/// `Refused` with the folder's first fault, `ShelfFault` only where the shelf's count of faults
/// rose, and `NoMemory`.
pub fn read_folder<H: Shelf>(
    alloc: Global,
    shelf: &mut H,
    folder: &str,
) -> Result<Checked, FolderStop>
    ensures unit { IfOk result (λ checked. WhereTold (H.files shelf.old) (λ files.
        unit_of_folder files folder.now ≡ Some checked.unit)) }
    ensures faultless { OnOk result (WhereTold (H.files shelf.old) (λ files.
        folder_faults files folder.now ≡ [])) }
    ensures first { IfErr result (λ stop. WhereTold (H.files shelf.old) (λ files.
        StopsAtFirst (folder_faults files folder.now) stop)) }
    ensures fault { result ≡ Err FolderStop.ShelfFault
        → Rose (H.faults shelf.old) (H.faults shelf.new) }
    ensures counts { H.faults shelf.old ≤ H.faults shelf.new }
    ensures same { H.files shelf.new ≡ H.files shelf.old }
{
    let files = read_files(alloc, shelf, folder)?;
    match read_unit(alloc, files) {
        Ok(checked) => Ok(checked),
        Err(ReadFault::Refused(fault)) => Err(FolderStop::Refused(fault)),
        Err(ReadFault::NoMemory) => Err(FolderStop::NoMemory),
    }
}
