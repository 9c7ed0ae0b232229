//! The units of the tests.
use json::Scratch;
use ld_base::Id;
use ld_json::{Doc, Docs, Scratches, document};
use ld_method::read_method;
use ld_reader::read_parts;
use ld_refs::Checked;
use ld_refs::check::check as check_unit;
use ld_rules::PreparedUnit;
use std::alloc::Global;
use std::test::Fail;

/// The documents of a course with two activities, a part of its tutor, and values of each kind.
pub(crate) const COURSE: [&str; 6] = [
    r#"{"roles":[{"identifier":"learner","kind":"learner","max-persons":2},
{"identifier":"tutor","kind":"staff","min-persons":1}]}"#,
    r#"{"properties":[
{"identifier":"gate","kind":"glob","datatype":"boolean","uri":"urn:gate","initial":"false"},
{"identifier":"nick","kind":"globpers","datatype":"string","uri":"urn:nick"},
{"identifier":"score","kind":"locpers","datatype":"integer","restrictions":{"maxInclusive":"10"}},
{"identifier":"note","kind":"locrole","role":"tutor","datatype":"string"},
{"identifier":"rounds","kind":"loc","datatype":"integer","initial":"4"}]}"#,
    r#"{"environments":[{"identifier":"room","learning-objects":[
{"identifier":"book","title":"A book","items":[{"identifier":"page","href":"p.html"}]}]}]}"#,
    r#"{"activities":[
{"identifier":"read","title":"Read","environments":["room"],"complete":{"user-choice":true},
"items":[{"identifier":"text","href":"t.html","title":"Text"}]},
{"identifier":"write","visible":false,"complete":{"user-choice":true}},
{"identifier":"watch","kind":"support","complete":{"time-limit":"PT1H"}}]}"#,
    r#"{"format":1,"identifier":"course","level":"C","title":"A course","method":{"plays":[
{"identifier":"p","acts":[{"identifier":"a","role-parts":[
{"identifier":"rp1","role":"learner","ref":"read"},
{"identifier":"rp2","role":"learner","ref":"write"},
{"identifier":"rp3","role":"tutor","ref":"watch"}],
"complete":{"when-role-part-completed":["rp1","rp2"]},
"on-completion":{"change":[
{"property":"rounds","value":{"sum":[{"property":"rounds"},{"integer":"1"}]}}],
"notify":[{"roles":["tutor"],"subject":"Done"}]}}],
"complete":{"when-last-act-completed":true}}],
"complete":{"when-play-completed":["p"]},
"on-completion":{"feedback":[{"identifier":"bye","href":"bye.html"}]}}}"#,
    r#"{"conditions":[{"if":{"is":[{"property":"gate"},{"boolean":"true"}]},
"then":[{"show":["write"]},{"notify":{"roles":["tutor"],"subject":"Open","activity":"write"}}],
"else":[{"hide":["write"]}]}]}"#,
];

/// The documents of a unit whose condition undoes what it did, for ever.
pub(crate) const SWING: [&str; 6] = [
    r#"{"roles":[{"identifier":"one","kind":"learner"}]}"#,
    r#"{"properties":[{"identifier":"n","kind":"loc","datatype":"integer","initial":"0"}]}"#,
    "",
    r#"{"activities":[{"identifier":"do","complete":{"user-choice":true}}]}"#,
    r#"{"format":1,"identifier":"swing","level":"B","turns":3,"method":{"plays":[
{"identifier":"p","acts":[{"identifier":"a","role-parts":[
{"identifier":"rp","role":"one","ref":"do"}]}]}]}}"#,
    r#"{"conditions":[{"if":{"is":[{"property":"n"},{"integer":"0"}]},
"then":[{"change":{"property":"n","value":{"integer":"1"}}}],
"else":[{"change":{"property":"n","value":{"integer":"0"}}}]}]}"#,
];

/// The documents of a unit with one activity, and one value that all runs share.
pub(crate) const SMALL: [&str; 6] = [
    r#"{"roles":[{"identifier":"one","kind":"learner"}]}"#,
    r#"{"properties":[{"identifier":"gate","kind":"glob","datatype":"boolean","uri":"urn:gate"}]}"#,
    "",
    r#"{"activities":[{"identifier":"do","complete":{"user-choice":true}}]}"#,
    r#"{"format":1,"identifier":"small","level":"B","method":{"plays":[
{"identifier":"p","acts":[{"identifier":"a","role-parts":[
{"identifier":"rp","role":"one","ref":"do"}]}]}]}}"#,
    "",
];

/// The document of this text; the empty text stands for a file that is not there.
fn doc_of<'a>(
    alloc: Global,
    text: &'a str,
    scratch: &'a mut Scratch,
) -> Result<Option<Doc<'a>>, Fail> {
    if text.is_empty() {
        return Ok(None);
    }
    Ok(Some(document(alloc, text.as_bytes(), scratch)?))
}

/// The documents of these texts, in the order of the files.
fn docs_of<'a>(
    alloc: Global,
    texts: [&'static str; 6],
    scratches: &'a mut Scratches,
) -> Result<Docs<'a>, Fail> {
    let [
        roles,
        properties,
        environments,
        activities,
        unit,
        conditions,
    ] = texts;
    let roles = doc_of(alloc, roles, &mut scratches.roles)?;
    let properties = doc_of(alloc, properties, &mut scratches.properties)?;
    let environments = doc_of(alloc, environments, &mut scratches.environments)?;
    let activities = doc_of(alloc, activities, &mut scratches.activities)?;
    let unit = doc_of(alloc, unit, &mut scratches.unit)?;
    let conditions = doc_of(alloc, conditions, &mut scratches.conditions)?;
    Ok(Docs {
        roles,
        properties,
        environments,
        activities,
        unit,
        conditions,
    })
}

/// The checked unit of the documents of these texts.
pub(crate) fn checked(alloc: Global, texts: [&'static str; 6]) -> Result<Checked, Fail> {
    let mut scratches = Scratches::new(alloc);
    let docs = docs_of(alloc, texts, &mut scratches)?;
    let unit = match read_parts(alloc, &docs) {
        Ok(parts) => read_method(alloc, &docs, parts),
        Err(fault) => Err(fault),
    };
    drop(docs);
    Ok(check_unit(alloc, unit?)?)
}

/// The prepared unit of the last documents.
pub(crate) fn small(alloc: Global) -> Result<PreparedUnit, Fail> {
    Ok(PreparedUnit::new(alloc, checked(alloc, SMALL)?)?)
}

/// The identifier of this text.
pub(crate) fn id(alloc: Global, text: &str) -> Result<Id, Fail> {
    let read = Id::read(alloc, text.as_bytes())?;
    Ok(read.ok_or("no identifier")?)
}

/// Refuses the test where this does not hold.
pub(crate) fn check(good: bool, what: &'static str) -> Result<(), Fail> {
    if good {
        return Ok(());
    }
    Err(what)?
}
