//! The units of the tests.
use json::Scratch;
use ld_base::Id;
use ld_json::{Doc, Docs, Scratches, document};
use ld_method::read_method;
use ld_reader::read_parts;
use ld_refs::Checked;
use ld_refs::check::check as check_unit;
use ld_rules::PreparedUnit;
use std::alloc::Global;
use std::test::Fail;

const ROLES: &str =
    r#"{"roles":[{"identifier":"learner","kind":"learner","min-persons":1,"max-persons":1}]}"#;

const PROPERTIES: &str = r#"{"properties":[
{"identifier":"score","kind":"locpers","datatype":"integer","initial":"4"},
{"identifier":"word","kind":"loc","datatype":"string","initial":"six"},
{"identifier":"shared","kind":"glob","datatype":"boolean","uri":"urn:shared"}]}"#;

const ENVIRONMENTS: &str = r#"{"environments":[{"identifier":"room"}]}"#;

const ACTIVITIES: &str = r#"{"activities":[{"identifier":"read","complete":{"user-choice":true}}],
"structures":[{"identifier":"row","kind":"sequence","children":["read"]}]}"#;

const UNIT: &str =
    r#"{"format":1,"identifier":"u","level":"B","method":{"plays":[{"identifier":"p","acts":[
{"identifier":"a","role-parts":[{"identifier":"rp","role":"learner","ref":"row"}]}]}]}}"#;

const CONDITIONS: &str = r#"{"conditions":[
{"if":{"is":[{"property":"score"},{"sum":[{"integer":"3"},{"integer":"4"}]}]},"then":[{"show":["read"]}]},
{"if":{"users-in-role":{"role":"learner","expression":{"complete":"read"}}},"then":[{"show":["read"]}]},
{"if":{"is":[{"property":"word"},{"text":"seven"}]},"then":[{"show":["read"]}]}]}"#;

/// The document of this text; the empty text stands for a file that is not there.
fn doc_of<'a>(
    alloc: Global,
    text: &'a str,
    scratch: &'a mut Scratch,
) -> Result<Option<Doc<'a>>, Fail> {
    if text.is_empty() {
        return Ok(None);
    }
    Ok(Some(document(alloc, text.as_bytes(), scratch)?))
}

/// The documents of these texts, in the order of the files.
fn docs_of<'a>(
    alloc: Global,
    texts: [&'static str; 6],
    scratches: &'a mut Scratches,
) -> Result<Docs<'a>, Fail> {
    let [
        roles,
        properties,
        environments,
        activities,
        unit,
        conditions,
    ] = texts;
    let roles = doc_of(alloc, roles, &mut scratches.roles)?;
    let properties = doc_of(alloc, properties, &mut scratches.properties)?;
    let environments = doc_of(alloc, environments, &mut scratches.environments)?;
    let activities = doc_of(alloc, activities, &mut scratches.activities)?;
    let unit = doc_of(alloc, unit, &mut scratches.unit)?;
    let conditions = doc_of(alloc, conditions, &mut scratches.conditions)?;
    Ok(Docs {
        roles,
        properties,
        environments,
        activities,
        unit,
        conditions,
    })
}

/// The checked unit of the documents of these texts.
fn checked(alloc: Global, texts: [&'static str; 6]) -> Result<Checked, Fail> {
    let mut scratches = Scratches::new(alloc);
    let docs = docs_of(alloc, texts, &mut scratches)?;
    let unit = match read_parts(alloc, &docs) {
        Ok(parts) => read_method(alloc, &docs, parts),
        Err(fault) => Err(fault),
    };
    drop(docs);
    Ok(check_unit(alloc, unit?)?)
}

/// The prepared unit of the documents of these texts.
fn prepared(alloc: Global, texts: [&'static str; 6]) -> Result<PreparedUnit, Fail> {
    Ok(PreparedUnit::new(alloc, checked(alloc, texts)?)?)
}

/// A unit with parts of each sort that the tests ask for.
pub(crate) fn full(alloc: Global) -> Result<PreparedUnit, Fail> {
    prepared(
        alloc,
        [
            ROLES,
            PROPERTIES,
            ENVIRONMENTS,
            ACTIVITIES,
            UNIT,
            CONDITIONS,
        ],
    )
}

/// The same roles and activities, with neither properties nor conditions.
pub(crate) fn plain(alloc: Global) -> Result<PreparedUnit, Fail> {
    prepared(alloc, [ROLES, "", "", ACTIVITIES, UNIT, ""])
}

/// Refuses the test where this does not hold.
pub(crate) fn check(good: bool, what: &'static str) -> Result<(), Fail> {
    if good {
        return Ok(());
    }
    Err(what)?
}

/// The identifier of this text.
pub(crate) fn id(alloc: Global, text: &str) -> Result<Id, Fail> {
    let read = Id::read(alloc, text.as_bytes())?;
    Ok(read.ok_or("no identifier")?)
}
