//! The units of the tests.
use json::Scratch;
use ld_json::{Doc, Docs, Scratches, document};
use ld_method::read_method;
use ld_reader::read_parts;
use ld_refs::Checked;
use ld_refs::check::check;
use ld_rules::PreparedUnit;
use std::alloc::Global;
use std::test::Fail;

const ROLES: &str = r#"{"roles":[{"identifier":"learner","kind":"learner"}]}"#;

const ACTIVITIES: &str =
    r#"{"activities":[{"identifier":"read","complete":{"user-choice":true}}]}"#;

/// A structure of one activity.
const STRUCTURE: &str = r#"{"activities":[{"identifier":"read","complete":{"user-choice":true}}],
"structures":[{"identifier":"s","kind":"sequence","children":["read"]}]}"#;

/// One play of one act with one role-part.
const UNIT: &str =
    r#"{"format":1,"identifier":"u1","level":"A","method":{"plays":[{"identifier":"p","acts":[
{"identifier":"a","role-parts":[{"identifier":"rp","role":"learner","ref":"read"}]}]}]}}"#;

/// The same at level B, with three turns.
const THREE_TURNS: &str =
    r#"{"format":1,"identifier":"u","level":"B","turns":3,"method":{"plays":[{"identifier":"p","acts":[
{"identifier":"a","role-parts":[{"identifier":"rp","role":"learner","ref":"read"}]}]}]}}"#;

/// A unit that is complete once its play is, that once its last act is, and that once its role-part
/// is, which refers to the structure.
const WHOLE: &str =
    r#"{"format":1,"identifier":"w","level":"B","method":{"plays":[{"identifier":"p","acts":[
{"identifier":"a","complete":{"when-role-part-completed":["rp"]},
"role-parts":[{"identifier":"rp","role":"learner","ref":"s"}]}],
"complete":{"when-last-act-completed":true}}],"complete":{"when-play-completed":["p"]}}}"#;

/// The condition looks at whether the unit is complete.
const AT_THE_END: &str = r#"{"conditions":[{"if":{"complete":"w"},"then":[{"show":["read"]}]}]}"#;

const SWITCHES: &str = r#"{"properties":[
{"identifier":"go","kind":"loc","datatype":"boolean","initial":"false"},
{"identifier":"b","kind":"loc","datatype":"boolean","initial":"false"},
{"identifier":"d","kind":"loc","datatype":"boolean","initial":"false"}]}"#;

/// The first condition looks at what the second changes, and the second at what the first does.
const IN_A_CIRCLE: &str = r#"{"conditions":[
{"if":{"and":[{"is":[{"property":"go"},{"boolean":"true"}]},{"is":[{"property":"b"},{"boolean":"false"}]}]},
"then":[{"change":{"property":"d","value":{"boolean":"true"}}}],
"else":[{"change":{"property":"d","value":{"boolean":"false"}}}]},
{"if":{"is":[{"property":"d"},{"boolean":"true"}]},
"then":[{"change":{"property":"b","value":{"boolean":"true"}}}],
"else":[{"change":{"property":"b","value":{"boolean":"false"}}}]}]}"#;

const NUMBERS: &str = r#"{"properties":[{"identifier":"p0","kind":"loc","datatype":"integer"},
{"identifier":"p1","kind":"loc","datatype":"integer"},
{"identifier":"p2","kind":"loc","datatype":"integer"},
{"identifier":"p3","kind":"loc","datatype":"integer"},
{"identifier":"p4","kind":"loc","datatype":"integer"}]}"#;

/// Each condition looks at what the next one changes.
const IN_A_ROW: &str = r#"{"conditions":[
{"if":{"is":[{"property":"p3"},{"integer":"1"}]},"then":[{"change":{"property":"p4","value":{"integer":"1"}}}]},
{"if":{"is":[{"property":"p2"},{"integer":"1"}]},"then":[{"change":{"property":"p3","value":{"integer":"1"}}}]},
{"if":{"is":[{"property":"p1"},{"integer":"1"}]},"then":[{"change":{"property":"p2","value":{"integer":"1"}}}]},
{"if":{"is":[{"property":"p0"},{"integer":"1"}]},"then":[{"change":{"property":"p1","value":{"integer":"1"}}}]}]}"#;

/// The document of this text; the empty text stands for a file that is not there.
fn doc_of<'a>(
    alloc: Global,
    text: &'a str,
    scratch: &'a mut Scratch,
) -> Result<Option<Doc<'a>>, Fail> {
    if text.is_empty() {
        return Ok(None);
    }
    Ok(Some(document(alloc, text.as_bytes(), scratch)?))
}

/// The documents of these texts, which are the properties, the activities, the method and the
/// conditions; the rest is the same of all.
fn docs_of<'a>(
    alloc: Global,
    texts: [&'static str; 4],
    scratches: &'a mut Scratches,
) -> Result<Docs<'a>, Fail> {
    let [properties, activities, unit, conditions] = texts;
    let roles = doc_of(alloc, ROLES, &mut scratches.roles)?;
    let properties = doc_of(alloc, properties, &mut scratches.properties)?;
    let environments = doc_of(alloc, "", &mut scratches.environments)?;
    let activities = doc_of(alloc, activities, &mut scratches.activities)?;
    let unit = doc_of(alloc, unit, &mut scratches.unit)?;
    let conditions = doc_of(alloc, conditions, &mut scratches.conditions)?;
    Ok(Docs {
        roles,
        properties,
        environments,
        activities,
        unit,
        conditions,
    })
}

/// The checked unit of these texts.
fn checked(alloc: Global, texts: [&'static str; 4]) -> Result<Checked, Fail> {
    let mut scratches = Scratches::new(alloc);
    let docs = docs_of(alloc, texts, &mut scratches)?;
    let unit = match read_parts(alloc, &docs) {
        Ok(parts) => read_method(alloc, &docs, parts),
        Err(fault) => Err(fault),
    };
    drop(docs);
    Ok(check(alloc, unit?)?)
}

/// The prepared unit of these texts.
fn prepared(alloc: Global, texts: [&'static str; 4]) -> Result<PreparedUnit, Fail> {
    Ok(PreparedUnit::new(alloc, checked(alloc, texts)?)?)
}

/// An act of one role-part, without properties.
pub(crate) fn first(alloc: Global) -> Result<PreparedUnit, Fail> {
    prepared(alloc, ["", ACTIVITIES, UNIT, ""])
}

/// Two conditions that undo each other.
pub(crate) fn looped(alloc: Global) -> Result<PreparedUnit, Fail> {
    prepared(alloc, [SWITCHES, ACTIVITIES, THREE_TURNS, IN_A_CIRCLE])
}

/// Four conditions each of which waits for the next one, and three turns.
pub(crate) fn deep(alloc: Global) -> Result<PreparedUnit, Fail> {
    prepared(alloc, [NUMBERS, ACTIVITIES, THREE_TURNS, IN_A_ROW])
}

/// A rule of each kind, each of which waits for the one before.
pub(crate) fn whole(alloc: Global) -> Result<PreparedUnit, Fail> {
    prepared(alloc, ["", STRUCTURE, WHOLE, AT_THE_END])
}
