//! Reports on the unit of one folder.
use crate::calls::{FIRST_FILES, Named, both_files, case_of, file, first_files, ran_over};
use ld_base::{FileList, Items, NoMemory};
use std::alloc::Global;
use std::test::Fail;

/// The documents of a third unit beside the activities and roles of the first: one condition, in
/// whose test and change there are three leaves.
const THIRD_FILES: [Named; 3] = [
    (
        "properties.json",
        br#"{"properties":[{"identifier":"n","kind":"loc","datatype":"integer"}]}"#,
    ),
    (
        "conditions.json",
        br#"{"conditions":[{"if":{"is":[{"property":"n"},{"integer":"1"}]},"then":[{"change":{"property":"n","value":{"integer":"2"}}}]}]}"#,
    ),
    (
        "unit.json",
        br#"{"format":1,"identifier":"u3","level":"B","method":{"plays":[{"identifier":"p","acts":[{"identifier":"a","role-parts":[{"identifier":"rp","role":"learner","ref":"read"}]}]}]}}"#,
    ),
];

/// What `check` prints of the first unit.
const FIRST_LINE: &[u8] = b"ok u1 rules=3 leaves=0\n";

/// The line that refuses a folder whose file of roles is not there.
const REFUSAL: &[u8] = b"refused 1 roles.json . absent\n";

/// The documents of the third unit, in the folder `u1`.
fn third_files(alloc: Global) -> Result<FileList, NoMemory> {
    let mut files = Items::new(alloc);
    for (name, content) in THIRD_FILES {
        files.push(file(alloc, name, content)?)?;
    }
    for (name, content) in FIRST_FILES {
        if name != "unit.json" {
            files.push(file(alloc, name, content)?)?;
        }
    }
    Ok(files)
}

#[test]
fn check_tells_how_many_rules_and_leaves(rt: HostRuntime) -> Result<(), Fail> {
    let case = case_of(&["check", "u1"], b"");
    let (status, written) = ran_over(rt.alloc(), first_files(rt.alloc())?, &case)?;
    assert_eq!(rt; (status, written.as_slice()), (0, FIRST_LINE));
    let (status, written) = ran_over(rt.alloc(), third_files(rt.alloc())?, &case)?;
    let line: &[u8] = b"ok u3 rules=4 leaves=3\n";
    assert_eq!(rt; (status, written.as_slice()), (0, line));
    Ok(())
}

#[test]
fn check_reads_one_folder_and_no_line(rt: HostRuntime) -> Result<(), Fail> {
    let mut case = case_of(&["check", "u1"], b"[]\n");
    case.source_fails = 1;
    let (status, written) = ran_over(rt.alloc(), both_files(rt.alloc())?, &case)?;
    assert_eq!(rt; (status, written.as_slice()), (0, FIRST_LINE));
    // There are six files in a folder.
    for (number, expected) in [(1, 3), (6, 3), (7, 0)] {
        case.shelf_fails = number;
        let (status, _) = ran_over(rt.alloc(), both_files(rt.alloc())?, &case)?;
        assert_eq!(rt; status, expected, "at call {number}");
    }
    Ok(())
}

#[test]
fn check_tells_the_first_fault(rt: HostRuntime) -> Result<(), Fail> {
    let mut case = case_of(&["check", "none"], b"");
    let (status, written) = ran_over(rt.alloc(), first_files(rt.alloc())?, &case)?;
    assert_eq!(rt; (status, written.as_slice()), (4, REFUSAL));
    case.room = REFUSAL.len() - 1;
    let (status, written) = ran_over(rt.alloc(), first_files(rt.alloc())?, &case)?;
    assert_eq!(rt; (status, written.len()), (6, 0));
    Ok(())
}

#[test]
fn check_ends_where_the_sink_fails(rt: HostRuntime) -> Result<(), Fail> {
    let mut case = case_of(&["check", "u1"], b"");
    case.sink_fails = 1;
    let (status, written) = ran_over(rt.alloc(), first_files(rt.alloc())?, &case)?;
    assert_eq!(rt; (status, written.len()), (6, 0));
    case.sink_fails = 0;
    for (room, expected) in [(FIRST_LINE.len() - 1, 6), (FIRST_LINE.len(), 0)] {
        case.room = room;
        let (status, _) = ran_over(rt.alloc(), first_files(rt.alloc())?, &case)?;
        assert_eq!(rt; status, expected, "with room {room}");
    }
    Ok(())
}

/// What `canon` prints of the first unit.
const FIRST_CANON: &[u8] = br##"# roles.json
{"roles":[{"identifier":"learner","kind":"learner"}]}
# activities.json
{"activities":[{"complete":{"user-choice":true},"identifier":"read","items":[{"href":"text.html","identifier":"i1","title":"Text"}],"title":"Read"}]}
# unit.json
{"format":1,"identifier":"u1","level":"A","method":{"plays":[{"acts":[{"identifier":"a","role-parts":[{"identifier":"rp","ref":"read","role":"learner"}]}],"identifier":"p"}]},"title":"First"}
"##;

#[test]
fn canon_prints_the_canonical_documents(rt: HostRuntime) -> Result<(), Fail> {
    let mut case = case_of(&["canon", "u1"], b"[]\n");
    case.source_fails = 1;
    let (status, written) = ran_over(rt.alloc(), first_files(rt.alloc())?, &case)?;
    assert_eq!(rt; (status, written.as_slice()), (0, FIRST_CANON));
    for (room, expected) in [(FIRST_CANON.len() - 1, 6), (FIRST_CANON.len(), 0)] {
        case.room = room;
        let (status, _) = ran_over(rt.alloc(), first_files(rt.alloc())?, &case)?;
        assert_eq!(rt; status, expected, "with room {room}");
    }
    Ok(())
}

#[test]
fn canon_tells_the_first_fault(rt: HostRuntime) -> Result<(), Fail> {
    let case = case_of(&["canon", "none"], b"");
    let (status, written) = ran_over(rt.alloc(), first_files(rt.alloc())?, &case)?;
    assert_eq!(rt; (status, written.as_slice()), (4, REFUSAL));
    Ok(())
}
