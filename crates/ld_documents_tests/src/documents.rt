//! The documents of the tests. Together they have each member of each object that may be there.
ghost use Rattle.std.specs.Prelude.{◌≡◌, true, IfOk};
ghost use Rattle.ld_formats.specs.Units.{is_well_formed};

use json::Scratch;
use ld_base::PlainText;
use ld_json::{Doc, Docs, ReadFault, Scratches, document};
use ld_method::read_method;
use ld_model::{ItemList, OnCompletion, ReferenceList, Unit};
use ld_reader::read_parts;
use std::alloc::Global;
use std::test::Fail;

pub(crate) const ROLES: &str = r#"{"roles":[
{"identifier":"learner","kind":"learner","title":"Learners","create-new":"not-allowed",
"match-persons":"exclusively-in-roles","min-persons":1,"max-persons":1000000,"roles":[
{"identifier":"expert"},
{"identifier":"novice","roles":[{"identifier":"beginner","min-persons":2}]}]},
{"identifier":"tutor","kind":"staff"}]}"#;

pub(crate) const PROPERTIES: &str = r#"{"properties":[
{"identifier":"score","kind":"locpers","datatype":"integer","title":"Score","initial":"0",
"restrictions":{"minInclusive":"0","maxInclusive":"9","enumeration":["0","7"]}},
{"identifier":"team","kind":"locrole","datatype":"string","role":"tutor","restrictions":{"minLength":1,"maxLength":20}},
{"identifier":"shared","kind":"glob","datatype":"boolean","uri":"urn:shared"}]}"#;

pub(crate) const CONDITIONS: &str = r#"{"conditions":[
{"if":{"and":[{"is":[{"property":"score"},{"sum":[{"integer":"1"},{"integer":"2"}]}]},{"not":{"no-value":"team"}},
{"users-in-role":{"role":"learner","expression":{"complete":"read"}}}]},
"then":[{"show":["read"]},{"change":{"property":"score","value":{"integer":"7"}}}],
"else":[{"hide":["read"]},{"notify":{"roles":["tutor"],"subject":"Go","activity":"help"}}]}]}"#;

pub(crate) const ENVIRONMENTS: &str = r#"{"environments":[
{"identifier":"room","title":"Room","visible":false,
"learning-objects":[{"identifier":"book","title":"Book","visible":false,"items":[{"identifier":"page","href":"page.html"}]}],
"services":[{"identifier":"find","kind":"index-search","title":"Find","visible":false},{"identifier":"mail","kind":"send-mail"}],
"environments":["hall"]},
{"identifier":"hall"}]}"#;

pub(crate) const ACTIVITIES: &str = r#"{"activities":[
{"identifier":"read","title":"Read","visible":false,
"learning-objectives":[{"identifier":"aim","href":"aim.html"}],
"prerequisites":[{"identifier":"before","href":"before.html"}],
"environments":["room","hall"],
"items":[{"identifier":"i1","href":"text.html","title":"Text","visible":false},{"identifier":"i2","href":"more.html"}],
"complete":{"time-limit":"PT1H"},
"on-completion":{"feedback":[{"identifier":"well","href":"well.html"}],"change":[{"property":"score","value":{"integer":"7"}}],"notify":[{"roles":["tutor"]}]}},
{"identifier":"help","kind":"support","supports":["learner"],"complete":{"user-choice":true}}],
"structures":[
{"identifier":"some","kind":"selection","title":"Some","visible":false,"number-to-select":2,"environments":["hall"],"children":["read","help"]},
{"identifier":"row","kind":"sequence","children":["some"]}]}"#;

pub(crate) const UNIT: &str =
    r#"{"format":1,"identifier":"u","level":"C","title":"First","turns":8,"metadata":"m",
"learning-objectives":[{"identifier":"o1","href":"o.html"}],
"prerequisites":[{"identifier":"o2","href":"o.html","title":"Before","visible":false}],
"method":{"plays":[
{"identifier":"p","title":"Play","visible":false,"acts":[
{"identifier":"a","title":"Act","role-parts":[
{"identifier":"rp","title":"Part","role":"learner","ref":"read"},
{"identifier":"rq","role":"tutor","ref":"help"}],
"complete":{"when-role-part-completed":["rp","rq"]},"on-completion":{"feedback":[{"identifier":"f1","href":"f.html"}]}},
{"identifier":"b","role-parts":[{"identifier":"rr","role":"tutor","ref":"some"}],"complete":{"time-limit":"PT1H"}}],
"complete":{"when-last-act-completed":true},"on-completion":{"feedback":[{"identifier":"f2","href":"f.html"}]}},
{"identifier":"q","acts":[{"identifier":"c","role-parts":[{"identifier":"rs","role":"learner","ref":"row"}]}]}],
"complete":{"when-play-completed":["p","q"]},"on-completion":{"feedback":[{"identifier":"f3","href":"f.html"}]}}}"#;

/// A unit that has no member which may be absent.
pub(crate) const SMALL_UNIT: &str =
    r#"{"format":1,"identifier":"u","level":"A","method":{"plays":[{"identifier":"p","acts":[{"identifier":"a","role-parts":[{"identifier":"rp","role":"learner","ref":"read"}]}]}]}}"#;

pub(crate) const SMALL_ROLES: &str = r#"{"roles":[{"kind":"staff","identifier":"r"}]}"#;

/// The document of this text; the empty text stands for a file that is not there.
fn doc_of<'a>(
    alloc: Global,
    text: &'a str,
    scratch: &'a mut Scratch,
) -> Result<Option<Doc<'a>>, Fail> {
    if text.is_empty() {
        return Ok(None);
    }
    Ok(Some(document(alloc, text.as_bytes(), scratch)?))
}

/// The documents of these texts, in the order of the files.
fn docs_of<'a>(
    alloc: Global,
    texts: [&'static str; 6],
    scratches: &'a mut Scratches,
) -> Result<Docs<'a>, Fail> {
    let [
        roles,
        properties,
        environments,
        activities,
        unit,
        conditions,
    ] = texts;
    let roles = doc_of(alloc, roles, &mut scratches.roles)?;
    let properties = doc_of(alloc, properties, &mut scratches.properties)?;
    let environments = doc_of(alloc, environments, &mut scratches.environments)?;
    let activities = doc_of(alloc, activities, &mut scratches.activities)?;
    let unit = doc_of(alloc, unit, &mut scratches.unit)?;
    let conditions = doc_of(alloc, conditions, &mut scratches.conditions)?;
    Ok(Docs {
        roles,
        properties,
        environments,
        activities,
        unit,
        conditions,
    })
}

/// The unit of the documents, or its first fault.
fn unit_of(alloc: Global, docs: &Docs<'_>) -> Result<Unit, ReadFault>
    ensures { IfOk result (λ unit. is_well_formed unit ≡ true) }
{
    let parts = read_parts(alloc, docs)?;
    read_method(alloc, docs, parts)
}

/// The unit of the documents of these texts, or its first fault.
pub(crate) fn outcome_of(
    alloc: Global,
    texts: [&'static str; 6],
) -> Result<Result<Unit, ReadFault>, Fail>
    ensures { IfOk result (λ outcome. IfOk outcome (λ unit. is_well_formed unit ≡ true)) }
{
    let mut scratches = Scratches::new(alloc);
    let docs = docs_of(alloc, texts, &mut scratches)?;
    let outcome = unit_of(alloc, &docs);
    drop(docs);
    Ok(outcome)
}

/// The unit that has each member.
pub(crate) fn full_unit(alloc: Global) -> Result<Unit, Fail>
    ensures { IfOk result (λ unit. is_well_formed unit ≡ true) }
{
    let texts = [
        ROLES,
        PROPERTIES,
        ENVIRONMENTS,
        ACTIVITIES,
        UNIT,
        CONDITIONS,
    ];
    Ok(outcome_of(alloc, texts)??)
}

/// The first fault of the documents of these texts: its file, place and code, or a dash.
pub(crate) fn first_fault(alloc: Global, texts: [&'static str; 6]) -> Result<String, Fail> {
    match outcome_of(alloc, texts)?.err() {
        None => Ok(String::from_str(alloc, "-")?),
        Some(ReadFault::NoMemory) => Err(Fail::from("no memory")),
        Some(ReadFault::Refused(fault)) => {
            let (file, place, code) = (fault.file.name(), fault.place_text(), fault.code.word());
            Ok(format!(in alloc; "{file} {place} {code}")?)
        }
    }
}

/// Whether the text is there and is this one.
pub(crate) fn is_text(text: &Option<PlainText>, wanted: &str) -> bool {
    match text {
        Some(text) => text.as_str() == wanted,
        None => false,
    }
}

/// Whether this is the only item.
pub(crate) fn is_item(items: &ItemList, identifier: &str) -> bool {
    let items = items.as_slice();
    items.len() == 1 && items[0].identifier.as_str() == identifier
}

/// Whether these are the two references.
pub(crate) fn are(references: &ReferenceList, first: &str, second: &str) -> bool {
    let named = references.as_slice();
    named.len() == 2 && named[0].as_str() == first && named[1].as_str() == second
}

/// Whether what follows is just this item of feedback.
pub(crate) fn is_feedback(follows: &Option<OnCompletion>, identifier: &str) -> bool {
    match follows {
        Some(follows) => is_item(&follows.feedback, identifier),
        None => false,
    }
}
