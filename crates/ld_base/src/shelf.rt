//! Files, named by a folder and a file name.
ghost use Rattle.std.specs.Prelude.{◌≡◌, ◌≤◌, ℕ, Option, IfOk, IfSome, IfNone, length};
ghost use Rattle.ld_base.specs.Outside.{Files, Rose, HasThere, HasOver};

use std::alloc::Global;
use thiserror::Error;

/// The most bytes of a file that a shelf hands out.
pub const FILE_LIMIT: usize = 4_194_304;

/// Why a shelf hands out nothing.
#[derive(Clone, Copy, Debug, PartialEq, Eq, Error)]
pub enum ShelfRefusal {
    /// The outside failed.
    #[error("the file cannot be read")]
    Failed,
    /// The file has more than `FILE_LIMIT` bytes.
    #[error("the file has more than 4194304 bytes")]
    TooBig,
    /// Memory ran out.
    #[error("out of memory")]
    NoMemory,
}

/// Files that are read and that no call changes. Contracts see them where they are told, and a
/// count of faults that never falls.
pub trait Shelf {
    ghost files: { Self → Option Files };

    ghost faults: { Self → ℕ };

    /// The bytes of the file of this name in this folder, or `None` where there is no such file.
    ///
    /// # Errors
    /// `Failed` only where the count of faults rose, `TooBig` where the file has more than
    /// `FILE_LIMIT` bytes, and `NoMemory`. A call that answers neither `Failed` nor `NoMemory`
    /// answers `None` exactly where there is no such file, and `TooBig` exactly where the file has
    /// more than `FILE_LIMIT` bytes.
    fn read(
        &mut self,
        alloc: Global,
        folder: &str,
        file: &str,
    ) -> Result<Option<Vec<u8>>, ShelfRefusal>
        ensures some { IfOk result
            (λ found. IfSome found
            (λ bytes. HasThere (files self.old) folder.now file.now (Some bytes.items))) }
        ensures within { IfOk result
            (λ found. IfSome found (λ bytes. length bytes.items ≤ FILE_LIMIT)) }
        ensures none { IfOk result
            (λ found. IfNone found (HasThere (files self.old) folder.now file.now None)) }
        ensures over { result ≡ Err ShelfRefusal.TooBig → HasOver (files self.old)
            folder.now file.now FILE_LIMIT }
        ensures cause { result ≡ Err ShelfRefusal.Failed
            → Rose (faults self.old) (faults self.new) }
        ensures counts { faults self.old ≤ faults self.new }
        ensures same { files self.new ≡ files self.old };
}
