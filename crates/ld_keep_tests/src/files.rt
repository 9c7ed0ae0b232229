//! The bytes of files.
use crate::whole::{keep_all, open};
use ld_base::{Bytes, CallList};
use ld_keep::MemoryDisk;
use std::test::Fail;

const LINE: &str = "[\"2024-01-01T08:00:00Z\",\"create\",\"r\",\"u1\"]";

/// The disk of these bytes once its journal was opened and the lines were kept.
fn kept(rt: &HostRuntime, bytes: &[u8], lines: &[&str]) -> Result<MemoryDisk, Fail> {
    let alloc = rt.alloc();
    let bytes = Bytes::from_vec(bytes.to_vec(alloc)?);
    let mut disk = MemoryDisk::new(alloc, bytes, 300, CallList::new(alloc))?;
    if let Ok((journal, _)) = open(alloc, &mut disk) {
        keep_all(&mut disk, journal, lines);
    }
    Ok(disk)
}

/// Whether the opening leaves these bytes of a file.
fn leaves(rt: &HostRuntime, bytes: &[u8], wanted: &[u8]) -> Result<bool, Fail> {
    let disk = kept(rt, bytes, &[])?;
    Ok(disk.bytes() == wanted)
}

#[test]
fn a_record_has_a_gate_a_length_and_a_line(rt: HostRuntime) -> Result<(), Fail> {
    let disk = kept(&rt, &[], &[LINE])?;
    let bytes = disk.bytes();
    assert!(rt; bytes.len() == 48);
    assert!(rt; bytes.starts_with(&[1, 0, 0, 0, 42]));
    assert!(rt; bytes.ends_with(&[b']', 0]));
    Ok(())
}

#[test]
fn the_end_of_a_file_is_made_ready(rt: HostRuntime) -> Result<(), Fail> {
    assert!(rt; leaves(&rt, &[], &[0])?);
    assert!(rt; leaves(&rt, &[1], &[0])?);
    assert!(rt; leaves(&rt, &[0, 5, 6], &[0, 5, 6])?);
    assert!(rt; leaves(&rt, &[7, 0, 0, 0, 1, 65, 0], &[0, 0, 0, 0, 0, 65, 0])?);
    assert!(rt; leaves(&rt, &[7, 0, 0, 0], &[0, 0, 0, 0])?);
    assert!(rt; leaves(&rt, &[1, 0, 0, 0, 1, 65, 9], &[1, 0, 0, 0, 1, 65, 0])?);
    Ok(())
}
