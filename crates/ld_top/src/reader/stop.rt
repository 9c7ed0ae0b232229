//! Why a folder was not read to its end.
ghost use Rattle.std.specs.Prelude.{◌≡◌};
ghost use Rattle.ld_json.specs.Fault.{told_by};
ghost use Rattle.ld_top.specs.Folder.{file_fault};

use ld_base::Text;
use ld_json::{Code, Fault, FileNo};
use std::alloc::Global;

/// Why a folder has given no unit.
#[derive(Drop)]
pub enum FolderStop {
    /// The shelf failed.
    ShelfFault,
    /// This is the folder's first fault.
    Refused(Fault),
    /// Memory ran out.
    NoMemory,
}

/// The fault of this code of a whole file. It takes no memory.
pub(super) fn fault_of_file(alloc: Global, file: FileNo, code: Code) -> Fault
    ensures { told_by result ≡ file_fault code file }
{
    Fault {
        file,
        place: Text::new(alloc),
        code,
    }
}
