//! Real folders as a shelf.
ghost use Rattle.std.specs.Prelude.{◌≡◌, ℕ, ◌≤◌, None, IfOk, IfSome, length};
ghost use Rattle.ld_base.specs.Outside.{Rose};

use crate::shelf::{FILE_LIMIT, Shelf, ShelfRefusal};
use std::alloc::Global;
use std::fs;
use std::io::{ErrorKind, Read};
use std::marker::Model;
use std::rt::Files;

/// The folders of the machine, named by paths. It tells nothing of what they hold; contracts see
/// the count of faults.
#[derive(Drop)]
pub struct FolderShelf<'a, R: Files> {
    rt: &'a R,
    faults: u64,
}

impl<'a, R: Files> Model for FolderShelf<'a, R> {
    ghost Value = { ℕ };

    ghost view = { λ s. s.faults };
}

impl<'a, R: Files> FolderShelf<'a, R> {
    /// A shelf over the files that `rt` reaches.
    pub fn new(rt: &'a R) -> FolderShelf<'a, R>
        ensures { result ≡ 0 }
    {
        FolderShelf { rt, faults: 0 }
    }
}

impl<R: Files> Shelf for FolderShelf<'_, R> {
    ghost files = { λ _. None };

    ghost faults = { λ count. count };

    /// Reads the file at the path `folder/file`. A file or a folder that is not there is no such
    /// file; every other error of the system is a failure and raises the count of faults.
    fn read(
        &mut self,
        alloc: Global,
        folder: &str,
        file: &str,
    ) -> Result<Option<Vec<u8>>, ShelfRefusal> {
        let answer = read_file(self.rt, alloc, folder, file);
        if let Err(ShelfRefusal::Failed) = answer {
            self.faults = self.faults.saturating_add(1);
        }
        answer
    }
}

/// The bytes of the file at `folder/file`, if there is one.
fn read_file<R: Files>(
    rt: &R,
    alloc: Global,
    folder: &str,
    file: &str,
) -> Result<Option<Vec<u8>>, ShelfRefusal>
    ensures within { IfOk result
        (λ found. IfSome found (λ bytes. length bytes.items ≤ FILE_LIMIT)) }
{
    let Ok(path) = format!(in alloc; "{folder}/{file}") else {
        return Err(ShelfRefusal::NoMemory);
    };
    match fs::open(rt, path.as_str()) {
        Ok(opened) => Ok(Some(read_within(alloc, opened)?)),
        Err(error) if error.kind() == ErrorKind::NotFound => Ok(None),
        Err(_) => Err(ShelfRefusal::Failed),
    }
}

/// All the bytes of the reader, of which it reads at most one more than the limit.
fn read_within<R: Read + Drop>(alloc: Global, reader: R) -> Result<Vec<u8>, ShelfRefusal>
    ensures within { IfOk result (λ bytes. length bytes.items ≤ FILE_LIMIT) }
{
    let mut bytes = Vec::new(alloc);
    match reader.take(FILE_LIMIT as u64 + 1).read_to_end(&mut bytes) {
        Ok(count) if count > FILE_LIMIT => Err(ShelfRefusal::TooBig),
        Ok(_) => Ok(bytes),
        Err(error) if error.kind() == ErrorKind::OutOfMemory => Err(ShelfRefusal::NoMemory),
        Err(_) => Err(ShelfRefusal::Failed),
    }
}
