//! Journals in a file of the machine.
use crate::whole::{keep_all, open};
use ld_keep::{FileDisk, OpenFault};
use std::alloc::Global;
use std::test::Fail;
use std::{env, fs};

/// A new empty folder of this name.
fn new_folder(rt: &HostRuntime, name: &str) -> Result<String, Fail> {
    let folder = format!(in rt.alloc(); "{}/{name}", env::temp_dir(rt)?.display())?;
    let _ = fs::remove_dir_all(rt, folder.as_str());
    fs::create_dir_all(rt, folder.as_str())?;
    Ok(folder)
}

/// The number of lines of the journal at the path, to which one more is then added.
fn count_and_add(rt: &HostRuntime, folder: &str, path: &str) -> usize {
    let mut disk = FileDisk::new(rt, folder, path);
    match open(rt.alloc(), &mut disk) {
        Ok((journal, lines)) => {
            keep_all(&mut disk, journal, &["line"]);
            lines.len()
        }
        Err(_) => 9,
    }
}

#[test]
fn a_file_keeps_lines(rt: HostRuntime) -> Result<(), Fail> {
    let folder = new_folder(&rt, "ld_keep_file")?;
    let path = format!(in rt.alloc(); "{folder}/ld.journal")?;
    assert!(rt; count_and_add(&rt, &folder, &path) == 0);
    assert!(rt; count_and_add(&rt, &folder, &path) == 1);
    assert!(rt; fs::read(&rt, path.as_str())?.as_slice().len() == 19);
    fs::remove_dir_all(&rt, folder.as_str())?;
    Ok(())
}

/// Whether the journal at the path is refused while the disk has it.
fn is_held(rt: &HostRuntime, alloc: Global, folder: &str, path: &str) -> bool {
    let mut first = FileDisk::new(rt, folder, path);
    let Ok(_) = open(alloc, &mut first) else {
        return false;
    };
    let mut second = FileDisk::new(rt, folder, path);
    matches!(open(alloc, &mut second), Err(OpenFault::DiskFault))
}

#[test]
fn a_file_has_one_holder(rt: HostRuntime) -> Result<(), Fail> {
    let folder = new_folder(&rt, "ld_keep_holder")?;
    let path = format!(in rt.alloc(); "{folder}/ld.journal")?;
    assert!(rt; is_held(&rt, rt.alloc(), &folder, &path));
    assert!(rt; count_and_add(&rt, &folder, &path) == 0);
    fs::remove_dir_all(&rt, folder.as_str())?;
    Ok(())
}
