//! A file of the machine as a disk, which one holder has at a time.
ghost use Rattle.std.specs.Prelude.{◌≡◌, ℕ, ◌≤◌, OnErr, OnOk};
ghost use Rattle.ld_base.specs.Outside.{Rose};
ghost use Rattle.ld_keep.specs.Disk.{tells_nothing, IsLawful, nothing_is_lawful};

use crate::disk::{Disk, DiskFailed};
use std::fs::{self, File, OpenOptions};
use std::io;
use std::marker::Model;
use std::os::unix::fs::FileExt;

/// A file of a folder, which the first call opens, and makes where it is not there. From then on it
/// is locked: while this disk lives, the calls of another one of the same file fail, also in
/// another process. The system takes the lock away with the process, however that ends.
///
/// It tells nothing of its bytes; contracts see the count of faults.
#[derive(Drop)]
pub struct FileDisk<'a> {
    rt: &'a HostRuntime,
    folder: &'a str,
    path: &'a str,
    file: Option<File>,
    faults: u64,
}

impl<'a> Model for FileDisk<'a> {
    ghost Value = { ℕ };

    ghost view = { λ s. s.faults };
}

impl<'a> FileDisk<'a> {
    /// The file at this path, which is in this folder. Opens and makes nothing yet.
    pub fn new(rt: &'a HostRuntime, folder: &'a str, path: &'a str) -> FileDisk<'a>
        ensures { result ≡ 0 }
    {
        FileDisk {
            rt,
            folder,
            path,
            file: None,
            faults: 0,
        }
    }

    /// Counts a failure.
    fn told<T: Drop>(&mut self, answer: io::Result<T>) -> Result<T, DiskFailed>
        ensures cause { OnErr result (Rose self.old self.new) }
        ensures counts { self.old ≤ self.new }
    {
        match answer {
            Ok(value) => Ok(value),
            Err(_) => {
                self.faults = self.faults.saturating_add(1);
                Err(DiskFailed)
            }
        }
    }
}

impl Disk for FileDisk<'_> {
    ghost model = { tells_nothing };

    ghost faults = { λ count. count };

    ghost lawful = { nothing_is_lawful };

    fn size(&mut self) -> Result<u64, DiskFailed> {
        let answer = size_of(self.rt, self.folder, self.path, &mut self.file);
        self.told(answer)
    }

    fn read(&mut self, at: u64, into: &mut [u8]) -> Result<(), DiskFailed> {
        let answer = match opened(self.rt, self.folder, self.path, &mut self.file) {
            Ok(file) => file.read_exact_at(into, at),
            Err(error) => Err(error),
        };
        self.told(answer)
    }

    fn write(&mut self, at: u64, piece: &[u8]) -> Result<(), DiskFailed> {
        let answer = match opened(self.rt, self.folder, self.path, &mut self.file) {
            Ok(file) => file.write_all_at(piece, at),
            Err(error) => Err(error),
        };
        self.told(answer)
    }

    fn sync(&mut self) -> Result<(), DiskFailed> {
        let answer = match opened(self.rt, self.folder, self.path, &mut self.file) {
            Ok(file) => file.sync_all(),
            Err(error) => Err(error),
        };
        self.told(answer)
    }
}

/// The size of the file.
fn size_of(rt: &HostRuntime, folder: &str, path: &str, file: &mut Option<File>) -> io::Result<u64> {
    Ok(opened(rt, folder, path, file)?.metadata()?.len())
}

/// The file, opened where it is not yet.
fn opened<'f>(
    rt: &HostRuntime,
    folder: &str,
    path: &str,
    file: &'f mut Option<File>,
) -> io::Result<&'f mut File> {
    if file.is_none() {
        *file = Some(open_alone(rt, folder, path)?);
    }
    match file {
        Some(file) => Ok(file),
        None => Err(io::Error::from(io::ErrorKind::Other)),
    }
}

/// Opens the file for this holder alone, and fails where another one has it. Then syncs the folder,
/// so that a file that was made is there after a crash.
fn open_alone(rt: &HostRuntime, folder: &str, path: &str) -> io::Result<File> {
    let mut how = OpenOptions::new();
    how.read(true).write(true).create(true);
    let file = how.open(rt, path)?;
    file.try_lock()?;
    fs::open(rt, folder)?.sync_all()?;
    Ok(file)
}
