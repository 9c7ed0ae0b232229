//! The words of a call.
use crate::calls::{both_files, case_of, ran_over};
use ld_base::NoMemory;
use std::alloc::Global;
use std::test::Fail;

/// The status of a call of these words without lines.
fn status<'a>(alloc: Global, words: &'a [&'static str]) -> Result<u8, NoMemory> {
    let (status, _) = ran_over(alloc, both_files(alloc)?, &case_of(words, b""))?;
    Ok(status)
}

#[test]
fn words_of_no_form_are_refused(rt: HostRuntime) -> Result<(), Fail> {
    let table: [(&[&str], u8); 19] = [
        (&[], 2),
        (&["replay"], 2),
        (&["play", "u1"], 2),
        (&["Replay", "u1"], 2),
        (&["replay", ""], 2),
        (&["replay", "-u1"], 2),
        (&["replay", "u1", "-"], 2),
        (&["check"], 2),
        (&["check", "u1", "u2"], 2),
        (&["check", "-u1"], 2),
        (&["check", "--help"], 2),
        (&["keep", "u1"], 2),
        (&["canon"], 2),
        (&["canon", "u1", "u2"], 2),
        (&["gen", "7", "0"], 2),
        (&["gen", "7", "1"], 0),
        (&["check", "u1"], 0),
        (&["replay", "u1", "u2"], 0),
        (&["replay", "replay"], 4),
    ];
    for (words, expected) in table {
        assert_eq!(rt; status(rt.alloc(), words)?, expected, "{words:?}");
    }
    Ok(())
}

#[test]
fn at_most_64_folders_are_named(rt: HostRuntime) -> Result<(), Fail> {
    let mut words = Vec::new(rt.alloc());
    words.push("replay")?;
    for _ in 0..64 {
        words.push("none")?;
    }
    assert_eq!(rt; status(rt.alloc(), &words)?, 4);
    words.push("none")?;
    assert_eq!(rt; status(rt.alloc(), &words)?, 2);
    Ok(())
}
