//! How many calls of the disk open a journal.
use crate::whole::{keep_all, open};
use ld_base::{Bytes, CallList};
use ld_keep::MemoryDisk;
use std::test::Fail;

/// The room for all writes and syncs.
const ROOM: usize = 300_000;

/// A disk of these bytes, of which this call fails, and none where it is 0.
fn failing_at(rt: &HostRuntime, bytes: &[u8], call: u64) -> Result<MemoryDisk, Fail> {
    let alloc = rt.alloc();
    let mut failing = CallList::new(alloc);
    failing.push(call)?;
    let bytes = Bytes::from_vec(bytes.to_vec(alloc)?);
    Ok(MemoryDisk::new(alloc, bytes, ROOM, failing)?)
}

/// Whether the disk is opened and gives these lines.
fn gives(rt: &HostRuntime, disk: &mut MemoryDisk, wanted: &[&str]) -> bool {
    let Ok((_, lines)) = open(rt.alloc(), disk) else {
        return false;
    };
    for (line, text) in lines.iter().zip(wanted) {
        if line.as_slice() != text.as_bytes() {
            return false;
        }
    }
    lines.len() == wanted.len()
}

/// Whether a journal of these lines gives them again, and is opened in just so many calls.
fn opens_in(rt: &HostRuntime, lines: &[&str], calls: u64) -> Result<bool, Fail> {
    let mut disk = failing_at(rt, &[], 0)?;
    if let Ok((journal, _)) = open(rt.alloc(), &mut disk) {
        keep_all(&mut disk, journal, lines);
    }
    let mut stopped = failing_at(rt, disk.bytes(), calls)?;
    let mut whole = failing_at(rt, disk.bytes(), calls.saturating_add(1))?;
    Ok(!gives(rt, &mut stopped, lines) && gives(rt, &mut whole, lines))
}

#[test]
fn one_read_is_for_many_lines(rt: HostRuntime) -> Result<(), Fail> {
    assert!(rt; opens_in(&rt, &["one", "two", "three", "four", "five", "six"], 4)?);
    Ok(())
}

/// The second line begins in the first window and ends behind it, and so does the third in the second
/// window.
#[test]
fn a_line_across_the_end_of_a_window_is_read_again(rt: HostRuntime) -> Result<(), Fail> {
    let long = "0123456789abcdef".repeat(rt.alloc(), 4_096)?;
    let lines = [long.as_str(), long.as_str(), long.as_str(), "short"];
    assert!(rt; opens_in(&rt, &lines, 6)?);
    Ok(())
}
