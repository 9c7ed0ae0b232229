//! Calls for several folders.
use crate::calls::{both_files, case_of, ran_over};
use ld_base::NoMemory;
use std::alloc::Global;
use std::test::Fail;

/// The status of a call for these folders and these lines, and what it wrote, where the call of
/// this number to the shelf fails.
fn replayed<'a>(
    alloc: Global,
    words: &'a [&'static str],
    lines: &'a [u8],
    failing: u64,
) -> Result<(u8, Vec<u8>), NoMemory> {
    let mut case = case_of(words, lines);
    case.shelf_fails = failing;
    ran_over(alloc, both_files(alloc)?, &case)
}

#[test]
fn runs_of_each_unit_are_made(rt: HostRuntime) -> Result<(), Fail> {
    let lines = br#"["2024-01-01T08:00:00Z","create","r","u2"]
["2024-01-01T08:00:00Z","create","s","u1"]
["2024-01-01T08:00:00Z","create","s","u2"]
["2024-01-01T08:00:00Z","enrol","r","ann"]
["2024-01-01T08:00:00Z","create","t","u3"]
"#;
    let replies = r#"ok create
ok create
no 3 run-exists
ok enrol turns=0 fired=0 rejected=0 sent=0
no 2 unknown-unit
"#;
    for words in [["replay", "u1", "u2"], ["replay", "u2", "u1"]] {
        let (status, written) = replayed(rt.alloc(), &words, lines, 0)?;
        assert_eq!(rt; status, 0, "{words:?}");
        assert_eq!(rt; written.as_slice(), replies.as_bytes(), "{words:?}");
    }
    Ok(())
}

#[test]
fn the_first_folder_that_is_refused_is_told(rt: HostRuntime) -> Result<(), Fail> {
    let table: [(&[&str], &str); 5] = [
        (
            &["replay", "u1", "u1"],
            "refused 2 unit.json /identifier repeated-unit\n",
        ),
        (&["replay", "u1", "none"], "refused 2 roles.json . absent\n"),
        (&["replay", "none", "u1"], "refused 1 roles.json . absent\n"),
        (
            &["replay", "u2", "none", "u2"],
            "refused 2 roles.json . absent\n",
        ),
        (
            &["replay", "u1", "u2", "u1"],
            "refused 3 unit.json /identifier repeated-unit\n",
        ),
    ];
    for (words, line) in table {
        let (status, written) = replayed(rt.alloc(), words, b"", 0)?;
        assert_eq!(rt; status, 4, "{words:?}");
        assert_eq!(rt; written.as_slice(), line.as_bytes(), "{words:?}");
    }
    Ok(())
}

#[test]
fn no_folder_is_read_behind_a_refused_one(rt: HostRuntime) -> Result<(), Fail> {
    // The call of the shelf that fails, and the status.
    let table: [(&[&str], u64, u8); 5] = [
        (&["replay", "none", "u1"], 1, 3),
        (&["replay", "none", "u1"], 2, 4),
        (&["replay", "u1", "none"], 7, 3),
        (&["replay", "u1", "none", "u2"], 8, 4),
        (&["replay", "u1", "u1", "u2"], 13, 4),
    ];
    for (words, failing, expected) in table {
        let (status, _) = replayed(rt.alloc(), words, b"", failing)?;
        assert_eq!(rt; status, expected, "{words:?} at call {failing}");
    }
    Ok(())
}
