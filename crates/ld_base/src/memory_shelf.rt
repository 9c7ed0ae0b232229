//! Files in memory as a shelf.
ghost use Rattle.std.specs.Prelude.{◌≡◌, ◌≤◌, List, Option, Some, IfOk, IfSome, IfNone, IsTrue, IsSome, ◌≢◌, ◌<◌, ◌↔◌, length, option_copied};
ghost use Rattle.std.specs.List.{find};
ghost use Rattle.ld_base.specs.Calls.{CallState, next_is_listed, after_call};
ghost use Rattle.ld_base.specs.Outside.{Rose, HasThere, HasOver};
ghost use Rattle.ld_base.specs.Files.{ShelfState, map_of_files, is_named};

use crate::bytes::CallList;
use crate::calls::Calls;
use crate::file::{File, FileList};
use crate::shelf::{FILE_LIMIT, Shelf, ShelfRefusal};
use std::alloc::Global;
use std::marker::Model;

/// A shelf of files in memory. Of two files with one folder and one name the first counts.
#[derive(Drop)]
pub struct MemoryShelf {
    files: FileList,
    calls: Calls,
}

impl Model for MemoryShelf {
    ghost Value = { ShelfState };

    ghost view = { λ s. record { files = s.files; calls = s.calls } };
}

impl MemoryShelf {
    /// A shelf of these files. The calls of these numbers, counted from 1, fail.
    pub fn new(files: FileList, failing: CallList) -> MemoryShelf
        ensures { result
            ≡ record { files = files; calls = record { failing = failing; made = 0; faults = 0 } } }
    {
        MemoryShelf {
            files,
            calls: Calls::new(failing),
        }
    }
}

impl Shelf for MemoryShelf {
    ghost files = { λ s. Some (map_of_files s.files) };

    ghost faults = { λ s. s.calls.faults };

    /// A copy of the bytes of the first file of that folder and name.
    ///
    /// # Errors
    /// `Failed` exactly where the number of this call is listed, `TooBig` where the file has more
    /// than `FILE_LIMIT` bytes, and `NoMemory`.
    fn read(
        &mut self,
        alloc: Global,
        folder: &str,
        file: &str,
    ) -> Result<Option<Vec<u8>>, ShelfRefusal>
        ensures some { IfOk result
            (λ found. IfSome found (λ bytes. HasThere (Some (map_of_files self.old.files)) folder.now
            file.now (Some bytes.items))) }
        ensures within { IfOk result
            (λ found. IfSome found (λ bytes. length bytes.items ≤ FILE_LIMIT)) }
        ensures none { IfOk result
            (λ found. IfNone found
            (HasThere (Some (map_of_files self.old.files)) folder.now file.now None)) }
        ensures over { result ≡ Err ShelfRefusal.TooBig
            → HasOver (Some (map_of_files self.old.files)) folder.now file.now FILE_LIMIT }
        ensures cause { result ≡ Err ShelfRefusal.Failed
            → Rose self.old.calls.faults self.new.calls.faults }
        ensures counts { self.old.calls.faults ≤ self.new.calls.faults }
        ensures same { Some (map_of_files self.new.files) ≡ Some (map_of_files self.old.files) }

        ensures fails { (result ≡ Err ShelfRefusal.Failed)
            ↔ IsTrue (next_is_listed self.old.calls) }
        ensures counted { self.new.calls
            ≡ after_call (next_is_listed self.old.calls) self.old.calls }
        ensures files { self.new.files ≡ self.old.files }
    {
        if self.calls.fails(false) {
            return Err(ShelfRefusal::Failed);
        }
        let Some(found) = first_named(self.files.as_slice(), folder, file) else {
            return Ok(None);
        };
        copy_within(alloc, found.bytes.as_slice())
    }
}

/// The first file in that folder and of that name.
fn first_named<'a>(files: &'a [File], folder: &str, name: &str) -> Option<&'a File>
    ensures { option_copied result ≡ find (is_named folder.now name.now) files.now }
{
    files.iter().find(|file| has_name(file, folder, name))
}

/// Whether the file stands in that folder and has that name.
fn has_name(file: &File, folder: &str, name: &str) -> bool
    ensures { result ≡ is_named folder.now name.now file.now }
{
    file.folder.as_str() == folder && file.file.as_str() == name
}

/// A copy of the bytes of a file, if they are within the limit.
fn copy_within(alloc: Global, bytes: &[u8]) -> Result<Option<Vec<u8>>, ShelfRefusal>
    ensures some { IfOk result (λ found. IfSome found (λ copy. copy.items ≡ bytes.now)) }
    ensures within { IfOk result (λ _. length bytes.now ≤ FILE_LIMIT) }
    ensures none { IfOk result IsSome }
    ensures over { result ≡ Err ShelfRefusal.TooBig → FILE_LIMIT < length bytes.now }
    ensures no_fault { result ≢ Err ShelfRefusal.Failed }
{
    if bytes.len() > FILE_LIMIT {
        return Err(ShelfRefusal::TooBig);
    }
    match Vec::from_slice(alloc, bytes) {
        Ok(copy) => Ok(Some(copy)),
        Err(_) => Err(ShelfRefusal::NoMemory),
    }
}
