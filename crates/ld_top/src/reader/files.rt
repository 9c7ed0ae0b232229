//! The files of a folder.
#![tactic(auto, unfolding(crate::specs::Folder::presence_faults), using(ld_json::proofs::First::first_of_both))]

ghost use Rattle.std.specs.Prelude.{◌≡◌, ◌≤◌, [], IfOk, OnOk, IfErr, map};
ghost use Rattle.ld_base.specs.Outside.{Rose};
ghost use Rattle.ld_top.specs.Folder.{all_files, held_by_folder, is_required, presence_fault, presence_faults};
ghost use Rattle.ld_top.specs.InFolder.{WhereTold};
ghost use Rattle.ld_top.specs.Reading.{StopsAtFirst};

use crate::reader::stop::{FolderStop, fault_of_file};
use ld_base::{Bytes, Items, Shelf, ShelfRefusal};
use ld_json::{Code, FileNo};
use std::alloc::Global;

/// The bytes of the six files of the folder, in their order; None where one is not there.
///
/// # Errors
/// The first file that is too big or is missing, `ShelfFault` only where the shelf's count of
/// faults rose, and `NoMemory`. The files behind that are not asked for.
pub(super) fn read_files<H: Shelf>(
    alloc: Global,
    shelf: &mut H,
    folder: &str,
) -> Result<[Option<Bytes>; 6], FolderStop>
    ensures read { IfOk result (λ read. WhereTold (H.files shelf.old) (λ files.
        read ≡ map (held_by_folder files folder.now) all_files)) }
    ensures faultless { OnOk result (WhereTold (H.files shelf.old) (λ files.
        presence_faults (held_by_folder files folder.now) ≡ [])) }
    ensures first { IfErr result (λ stop. WhereTold (H.files shelf.old) (λ files.
        StopsAtFirst (presence_faults (held_by_folder files folder.now)) stop)) }
    ensures fault { result ≡ Err FolderStop.ShelfFault
        → Rose (H.faults shelf.old) (H.faults shelf.new) }
    ensures counts { H.faults shelf.old ≤ H.faults shelf.new }
    ensures same { H.files shelf.new ≡ H.files shelf.old }
{
    let roles = file_in(alloc, shelf, folder, FileNo::Roles)?;
    let properties = file_in(alloc, shelf, folder, FileNo::Properties)?;
    let environments = file_in(alloc, shelf, folder, FileNo::Environments)?;
    let activities = file_in(alloc, shelf, folder, FileNo::Activities)?;
    let unit = file_in(alloc, shelf, folder, FileNo::Unit)?;
    let conditions = file_in(alloc, shelf, folder, FileNo::Conditions)?;
    Ok([
        roles,
        properties,
        environments,
        activities,
        unit,
        conditions,
    ])
}

/// The bytes of the file; None where it is not there and need not be.
fn file_in<H: Shelf>(
    alloc: Global,
    shelf: &mut H,
    folder: &str,
    file: FileNo,
) -> Result<Option<Bytes>, FolderStop>
    ensures read { IfOk result (λ read. WhereTold (H.files shelf.old) (λ files.
        read ≡ held_by_folder files folder.now file)) }
    ensures faultless { OnOk result (WhereTold (H.files shelf.old) (λ files.
        presence_fault file (held_by_folder files folder.now file) ≡ [])) }
    ensures first { IfErr result (λ stop. WhereTold (H.files shelf.old) (λ files.
        StopsAtFirst (presence_fault file (held_by_folder files folder.now file)) stop)) }
    ensures fault { result ≡ Err FolderStop.ShelfFault
        → Rose (H.faults shelf.old) (H.faults shelf.new) }
    ensures counts { H.faults shelf.old ≤ H.faults shelf.new }
    ensures same { H.files shelf.new ≡ H.files shelf.old }
{
    match shelf.read(alloc, folder, file.name()) {
        Ok(Some(bytes)) => return Ok(Some(Items::from_vec(bytes))),
        Ok(None) => {}
        Err(ShelfRefusal::TooBig) => {
            return Err(FolderStop::Refused(fault_of_file(alloc, file, Code::TooBig)));
        }
        Err(ShelfRefusal::Failed) => return Err(FolderStop::ShelfFault),
        Err(ShelfRefusal::NoMemory) => return Err(FolderStop::NoMemory),
    }
    if is_required(file) {
        return Err(FolderStop::Refused(fault_of_file(alloc, file, Code::Absent)));
    }
    Ok(None)
}

/// Whether each unit has this file.
fn is_required(file: FileNo) -> bool
    ensures { result ≡ is_required file }
{
    match file {
        FileNo::Roles | FileNo::Activities | FileNo::Unit => true,
        FileNo::Properties | FileNo::Environments | FileNo::Conditions => false,
    }
}
