//! Shelves that fail, and which files are asked for.
use crate::calls::{FIRST_FILES, file, first, ran_over};
use ld_base::{Items, NoMemory};
use std::alloc::Global;
use std::test::Fail;

/// The status of a call without lines, and what it wrote, where the file of this name has these
/// bytes or, with none, is not there. The call of this number to the shelf fails.
fn read_with(
    alloc: Global,
    changed: &str,
    content: Option<&[u8]>,
    failing: u64,
) -> Result<(u8, usize), NoMemory> {
    let mut files = Items::new(alloc);
    for (name, bytes) in FIRST_FILES {
        if name != changed {
            files.push(file(alloc, name, bytes)?)?;
        }
    }
    if let Some(content) = content {
        files.push(file(alloc, changed, content)?)?;
    }
    let mut case = first(b"");
    case.shelf_fails = failing;
    let (status, written) = ran_over(alloc, files, &case)?;
    Ok((status, written.len()))
}

#[test]
fn a_shelf_that_fails_ends_the_call(rt: HostRuntime) -> Result<(), Fail> {
    let (_, roles) = FIRST_FILES[0];
    for number in 1..7 {
        for content in [roles, b"["] {
            let ended = read_with(rt.alloc(), "roles.json", Some(content), number)?;
            assert_eq!(rt; ended, (3, 0), "at call {number}");
        }
    }
    // Six documents are asked for, so there is no seventh call.
    let ended = read_with(rt.alloc(), "roles.json", Some(roles), 7)?;
    assert_eq!(rt; ended, (0, 0));
    Ok(())
}

#[test]
fn no_file_is_asked_for_behind_an_absent_one(rt: HostRuntime) -> Result<(), Fail> {
    for (name, failing) in [("roles.json", 2), ("activities.json", 5), ("unit.json", 6)] {
        let (status, _) = read_with(rt.alloc(), name, None, failing)?;
        assert_eq!(rt; status, 4, "without {name}");
        let (status, _) = read_with(rt.alloc(), name, None, failing - 1)?;
        assert_eq!(rt; status, 3, "without {name}");
    }
    Ok(())
}
