//! Journals on a disk in memory that is stopped at each of its calls, crashes, and is opened again.
use crate::whole::{keep_all, open};
use ld_base::{Bytes, CallList};
use ld_keep::MemoryDisk;
use std::test::Fail;

const LINES: [&str; 3] = ["one", "second line", "3"];

/// A record, and after it a torn gate before what is left of another record.
const TORN: [u8; 13] = [1, 0, 0, 0, 1, b'0', 7, 0, 0, 0, 1, b'x', 0];

/// The line of that record.
const OLD: [&str; 1] = ["0"];

/// How many calls an empty disk gets until all lines are kept: four for each, and four before them.
const CALLS: u64 = 16;

/// The same of the torn file, of which more is read and written first.
const TORN_CALLS: u64 = 20;

/// One more than the most bytes that are written between two syncs.
const BYTES: usize = 17;

/// The room for all writes and syncs: 4 for the opening, and for each line 10 and its length.
const ROOM: usize = 49;

/// How many lines are kept before the disk fails.
fn acknowledged(rt: &HostRuntime, disk: &mut MemoryDisk) -> usize {
    match open(rt.alloc(), disk) {
        Ok((journal, _)) => keep_all(disk, journal, &LINES),
        Err(_) => 0,
    }
}

/// Whether the line is the one that has to stand at this place, after the old ones.
fn is_in_place(line: &[u8], old: &[&str], index: usize) -> bool {
    if index < old.len() {
        return line == old[index].as_bytes();
    }
    match LINES.get(index - old.len()) {
        Some(text) => line == text.as_bytes(),
        None => false,
    }
}

/// Whether these are the old lines, then `least` lines of those that were to be kept, and then
/// perhaps more of these.
fn are_kept(lines: &[Vec<u8>], old: &[&str], least: usize) -> bool {
    for (index, line) in lines.iter().enumerate() {
        if !is_in_place(line.as_slice(), old, index) {
            return false;
        }
    }
    lines.len() >= old.len() && lines.len() - old.len() >= least
}

/// Whether the lines of the disk are those that have to be there.
fn keeps_well(rt: &HostRuntime, disk: &mut MemoryDisk, old: &[&str], least: usize) -> bool {
    match open(rt.alloc(), disk) {
        Ok((_, lines)) => are_kept(lines.as_slice(), old, least),
        Err(_) => false,
    }
}

/// Stops a disk of these bytes at this call, lets it crash with `kept` bytes, and opens it again.
fn crashes_well(
    rt: &HostRuntime,
    bytes: &[u8],
    old: &[&str],
    stop: u64,
    kept: usize,
) -> Result<bool, Fail> {
    let alloc = rt.alloc();
    let mut failing = CallList::new(alloc);
    failing.push(stop)?;
    let bytes = Bytes::from_vec(bytes.to_vec(alloc)?);
    let mut disk = MemoryDisk::new(alloc, bytes, 200, failing)?;
    let count = acknowledged(rt, &mut disk);
    disk.crash(kept);
    Ok(keeps_well(rt, &mut disk, old, count))
}

/// Fills a disk that has this room, lets it crash with `kept` bytes, and opens what is left.
fn fills_well(rt: &HostRuntime, room: usize, kept: usize) -> Result<bool, Fail> {
    let alloc = rt.alloc();
    let mut disk = MemoryDisk::new(alloc, Bytes::new(alloc), room, CallList::new(alloc))?;
    let count = acknowledged(rt, &mut disk);
    disk.crash(kept);
    let left = Bytes::from_vec(disk.bytes().to_vec(alloc)?);
    let mut disk = MemoryDisk::new(alloc, left, 200, CallList::new(alloc))?;
    Ok(keeps_well(rt, &mut disk, &[], count) && (count == 3) == (room >= ROOM))
}

/// The same at each of the first calls, and with each number of bytes.
fn always_crashes_well(
    rt: &HostRuntime,
    bytes: &[u8],
    old: &[&str],
    calls: u64,
) -> Result<bool, Fail> {
    for stop in 1..=calls {
        for kept in 0..=BYTES {
            if !crashes_well(rt, bytes, old, stop, kept)? {
                return Ok(false);
            }
        }
    }
    Ok(true)
}

#[test]
fn each_stop_and_each_crash_keeps_what_was_acknowledged(rt: HostRuntime) -> Result<(), Fail> {
    assert!(rt; always_crashes_well(&rt, &[], &[], CALLS)?);
    assert!(rt; always_crashes_well(&rt, &TORN, &OLD, TORN_CALLS)?);
    Ok(())
}

#[test]
fn a_full_disk_keeps_what_was_acknowledged(rt: HostRuntime) -> Result<(), Fail> {
    for room in 0..=ROOM {
        for kept in 0..=BYTES {
            assert!(rt; fills_well(&rt, room, kept)?);
        }
    }
    Ok(())
}

#[test]
fn all_lines_are_kept(rt: HostRuntime) -> Result<(), Fail> {
    let alloc = rt.alloc();
    let bytes = Bytes::from_vec(TORN.to_vec(alloc)?);
    let mut disk = MemoryDisk::new(alloc, bytes, 200, CallList::new(alloc))?;
    assert!(rt; acknowledged(&rt, &mut disk) == 3);
    disk.crash(0);
    assert!(rt; keeps_well(&rt, &mut disk, &OLD, 3));
    Ok(())
}
