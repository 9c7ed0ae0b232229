//! The canonical documents of two units, as texts told by hand: one whose documents have each member that may be there,
//! and the same with defaults, empty lists and values spelled in other ways.
ghost use Rattle.std.specs.Prelude.{◌≡◌, true, IfOk};
ghost use Rattle.ld_formats.specs.Units.{is_well_formed};

use json::Scratch;
use ld_base::Text;
use ld_canon::canonical_text;
use ld_json::{Doc, Docs, Scratches, document};
use ld_method::read_method;
use ld_model::Unit;
use ld_reader::read_parts;
use std::alloc::Global;
use std::test::Fail;

#[test]
fn each_member_is_printed(rt: HostRuntime) -> Result<(), Fail> {
    let text = printed(rt.alloc(), FULL)?;
    assert_eq!(rt; text.as_str(), FULL_CANON);
    Ok(())
}

#[test]
fn spellings_are_not_kept(rt: HostRuntime) -> Result<(), Fail> {
    let text = printed(rt.alloc(), ODD)?;
    assert_eq!(rt; text.as_str(), ODD_CANON);
    Ok(())
}

/// What is printed of the unit of these texts.
fn printed(alloc: Global, texts: [&'static str; 6]) -> Result<Text, Fail> {
    let unit = unit_of(alloc, texts)?;
    Ok(canonical_text(alloc, &unit)?)
}

/// The document of this text.
fn doc_of<'a>(
    alloc: Global,
    text: &'a str,
    scratch: &'a mut Scratch,
) -> Result<Option<Doc<'a>>, Fail> {
    Ok(Some(document(alloc, text.as_bytes(), scratch)?))
}

/// The documents of these texts, in the order of the files.
fn docs_of<'a>(
    alloc: Global,
    texts: [&'static str; 6],
    scratches: &'a mut Scratches,
) -> Result<Docs<'a>, Fail> {
    let [
        roles,
        properties,
        environments,
        activities,
        unit,
        conditions,
    ] = texts;
    let roles = doc_of(alloc, roles, &mut scratches.roles)?;
    let properties = doc_of(alloc, properties, &mut scratches.properties)?;
    let environments = doc_of(alloc, environments, &mut scratches.environments)?;
    let activities = doc_of(alloc, activities, &mut scratches.activities)?;
    let unit = doc_of(alloc, unit, &mut scratches.unit)?;
    let conditions = doc_of(alloc, conditions, &mut scratches.conditions)?;
    Ok(Docs {
        roles,
        properties,
        environments,
        activities,
        unit,
        conditions,
    })
}

/// The unit of the documents of these texts.
fn unit_of(alloc: Global, texts: [&'static str; 6]) -> Result<Unit, Fail>
    ensures { IfOk result (λ unit. is_well_formed unit ≡ true) }
{
    let mut scratches = Scratches::new(alloc);
    let docs = docs_of(alloc, texts, &mut scratches)?;
    let unit = read(alloc, &docs);
    drop(docs);
    unit
}

/// The unit of these documents.
fn read(alloc: Global, docs: &Docs<'_>) -> Result<Unit, Fail>
    ensures { IfOk result (λ unit. is_well_formed unit ≡ true) }
{
    let Ok(parts) = read_parts(alloc, docs) else {
        return Err(Fail::from("the parts are refused"));
    };
    match read_method(alloc, docs, parts) {
        Ok(unit) => Ok(unit),
        Err(_) => Err(Fail::from("the unit is refused")),
    }
}

const FULL: [&str; 6] = [
    r#"{"roles":[
{"identifier":"learner","kind":"learner","title":"Learners","create-new":"not-allowed",
"match-persons":"exclusively-in-roles","min-persons":1,"max-persons":1000000,"roles":[
{"identifier":"expert"},
{"identifier":"novice","roles":[{"identifier":"beginner","min-persons":2}]}]},
{"identifier":"tutor","kind":"staff"}]}"#,
    r#"{"properties":[
{"identifier":"score","kind":"locpers","datatype":"integer","title":"Score","initial":"0",
"restrictions":{"minInclusive":"0","maxInclusive":"9","enumeration":["0","7"]}},
{"identifier":"team","kind":"locrole","datatype":"string","role":"tutor","restrictions":{"minLength":1,"maxLength":20}},
{"identifier":"shared","kind":"glob","datatype":"boolean","uri":"urn:shared"}]}"#,
    r#"{"environments":[
{"identifier":"room","title":"Room","visible":false,
"learning-objects":[{"identifier":"book","title":"Book","visible":false,"items":[{"identifier":"page","href":"page.html"}]}],
"services":[{"identifier":"find","kind":"index-search","title":"Find","visible":false},{"identifier":"mail","kind":"send-mail"}],
"environments":["hall"]},
{"identifier":"hall"}]}"#,
    r#"{"activities":[
{"identifier":"read","title":"Read","visible":false,
"learning-objectives":[{"identifier":"aim","href":"aim.html"}],
"prerequisites":[{"identifier":"before","href":"before.html"}],
"environments":["room","hall"],
"items":[{"identifier":"i1","href":"text.html","title":"Text","visible":false},{"identifier":"i2","href":"more.html"}],
"complete":{"time-limit":"PT1H"},
"on-completion":{"feedback":[{"identifier":"well","href":"well.html"}],"change":[{"property":"score","value":{"integer":"7"}}],"notify":[{"roles":["tutor"]}]}},
{"identifier":"help","kind":"support","supports":["learner"],"complete":{"user-choice":true}}],
"structures":[
{"identifier":"some","kind":"selection","title":"Some","visible":false,"number-to-select":2,"environments":["hall"],"children":["read","help"]},
{"identifier":"row","kind":"sequence","children":["some"]}]}"#,
    r#"{"format":1,"identifier":"u","level":"C","title":"First","turns":8,"metadata":"m",
"learning-objectives":[{"identifier":"o1","href":"o.html"}],
"prerequisites":[{"identifier":"o2","href":"o.html","title":"Before","visible":false}],
"method":{"plays":[
{"identifier":"p","title":"Play","visible":false,"acts":[
{"identifier":"a","title":"Act","role-parts":[
{"identifier":"rp","title":"Part","role":"learner","ref":"read"},
{"identifier":"rq","role":"tutor","ref":"help"}],
"complete":{"when-role-part-completed":["rp","rq"]},"on-completion":{"feedback":[{"identifier":"f1","href":"f.html"}]}},
{"identifier":"b","role-parts":[{"identifier":"rr","role":"tutor","ref":"some"}],"complete":{"time-limit":"PT1H"}}],
"complete":{"when-last-act-completed":true},"on-completion":{"feedback":[{"identifier":"f2","href":"f.html"}]}},
{"identifier":"q","acts":[{"identifier":"c","role-parts":[{"identifier":"rs","role":"learner","ref":"row"}]}]}],
"complete":{"when-play-completed":["p","q"]},"on-completion":{"feedback":[{"identifier":"f3","href":"f.html"}]}}}"#,
    r#"{"conditions":[
{"if":{"and":[{"is":[{"property":"score"},{"sum":[{"integer":"1"},{"integer":"2"}]}]},{"not":{"no-value":"team"}},
{"users-in-role":{"role":"learner","expression":{"complete":"read"}}}]},
"then":[{"show":["read"]},{"change":{"property":"score","value":{"integer":"7"}}}],
"else":[{"hide":["read"]},{"notify":{"roles":["tutor"],"subject":"Go","activity":"help"}}]}]}"#,
];

const FULL_CANON: &str = r##"# roles.json
{"roles":[{"identifier":"learner","kind":"learner","match-persons":"exclusively-in-roles","max-persons":1000000,"min-persons":1,"roles":[{"identifier":"expert"},{"identifier":"novice","roles":[{"identifier":"beginner","min-persons":2}]}],"title":"Learners"},{"identifier":"tutor","kind":"staff"}]}
# properties.json
{"properties":[{"datatype":"integer","identifier":"score","initial":"0","kind":"locpers","restrictions":{"enumeration":["0","7"],"maxInclusive":"9","minInclusive":"0"},"title":"Score"},{"datatype":"string","identifier":"team","kind":"locrole","restrictions":{"maxLength":20,"minLength":1},"role":"tutor"},{"datatype":"boolean","identifier":"shared","kind":"glob","uri":"urn:shared"}]}
# environments.json
{"environments":[{"environments":["hall"],"identifier":"room","learning-objects":[{"identifier":"book","items":[{"href":"page.html","identifier":"page"}],"title":"Book","visible":false}],"services":[{"identifier":"find","kind":"index-search","title":"Find","visible":false},{"identifier":"mail","kind":"send-mail"}],"title":"Room","visible":false},{"identifier":"hall"}]}
# activities.json
{"activities":[{"complete":{"time-limit":"PT1H"},"environments":["room","hall"],"identifier":"read","items":[{"href":"text.html","identifier":"i1","title":"Text","visible":false},{"href":"more.html","identifier":"i2"}],"learning-objectives":[{"href":"aim.html","identifier":"aim"}],"on-completion":{"change":[{"property":"score","value":{"integer":"7"}}],"feedback":[{"href":"well.html","identifier":"well"}],"notify":[{"roles":["tutor"]}]},"prerequisites":[{"href":"before.html","identifier":"before"}],"title":"Read","visible":false},{"complete":{"user-choice":true},"identifier":"help","kind":"support","supports":["learner"]}],"structures":[{"children":["read","help"],"environments":["hall"],"identifier":"some","kind":"selection","number-to-select":2,"title":"Some","visible":false},{"children":["some"],"identifier":"row","kind":"sequence"}]}
# unit.json
{"format":1,"identifier":"u","learning-objectives":[{"href":"o.html","identifier":"o1"}],"level":"C","metadata":"m","method":{"complete":{"when-play-completed":["p","q"]},"on-completion":{"feedback":[{"href":"f.html","identifier":"f3"}]},"plays":[{"acts":[{"complete":{"when-role-part-completed":["rp","rq"]},"identifier":"a","on-completion":{"feedback":[{"href":"f.html","identifier":"f1"}]},"role-parts":[{"identifier":"rp","ref":"read","role":"learner","title":"Part"},{"identifier":"rq","ref":"help","role":"tutor"}],"title":"Act"},{"complete":{"time-limit":"PT1H"},"identifier":"b","role-parts":[{"identifier":"rr","ref":"some","role":"tutor"}]}],"complete":{"when-last-act-completed":true},"identifier":"p","on-completion":{"feedback":[{"href":"f.html","identifier":"f2"}]},"title":"Play","visible":false},{"acts":[{"identifier":"c","role-parts":[{"identifier":"rs","ref":"row","role":"learner"}]}],"identifier":"q"}]},"prerequisites":[{"href":"o.html","identifier":"o2","title":"Before","visible":false}],"title":"First","turns":8}
# conditions.json
{"conditions":[{"else":[{"hide":["read"]},{"notify":{"activity":"help","roles":["tutor"],"subject":"Go"}}],"if":{"and":[{"is":[{"property":"score"},{"sum":[{"integer":"1"},{"integer":"2"}]}]},{"not":{"no-value":"team"}},{"users-in-role":{"expression":{"complete":"read"},"role":"learner"}}]},"then":[{"show":["read"]},{"change":{"property":"score","value":{"integer":"7"}}}]}]}
"##;

const ODD: [&str; 6] = [
    r#"{"roles":[
{"identifier":"learner","kind":"learner","title":"Learners","create-new":"not-allowed",
"match-persons":"exclusively-in-roles","min-persons":1,"max-persons":1000000,"roles":[
{"min-persons":0,"create-new":"not-allowed","identifier":"expert"},
{"identifier":"novice","roles":[{"identifier":"beginner","min-persons":2,"roles":[],"match-persons":"not-exclusively"}]}]},
{"identifier":"tutor","kind":"staff"}]}"#,
    r#"{"properties":[
{"identifier":"score","kind":"locpers","datatype":"integer","title":"Score","initial":"-00",
"restrictions":{"minInclusive":"0","maxInclusive":"0009","enumeration":["000","07"]}},
{"identifier":"team","kind":"locrole","datatype":"string","role":"tutor","restrictions":{"minLength":1,"maxLength":20}},
{"identifier":"shared","kind":"glob","datatype":"boolean","uri":"urn:shared","initial":"true"}]}"#,
    r#"{"environments":[
{"identifier":"room","title":"Room","visible":false,
"learning-objects":[{"identifier":"book","title":"Book","visible":false,"items":[{"identifier":"page","href":"page.html"}]}],
"services":[{"identifier":"find","kind":"index-search","title":"Find","visible":false},{"identifier":"mail","kind":"send-mail"}],
"environments":["hall"]},
{"identifier":"hall","visible":true,"services":[],"learning-objects":[]}]}"#,
    r#"{"activities":[
{"identifier":"read","title":"Read","visible":false,
"learning-objectives":[{"identifier":"aim","href":"aim.html"}],
"prerequisites":[{"identifier":"before","href":"before.html"}],
"environments":["room","hall"],
"items":[{"identifier":"i1","href":"text.html","title":"Text","visible":false},{"identifier":"i2","href":"more.html"}],
"complete":{"time-limit":"PT60M"},
"on-completion":{"feedback":[{"identifier":"well","href":"well.html"}],"change":[{"property":"score","value":{"integer":"007"}}],"notify":[{"roles":["tutor"]}]}},
{"identifier":"help","on-completion":{},"kind":"support","supports":["learner"],"complete":{"when-property-value-is-set":{"property":"score","value":"-0"}}}],
"structures":[
{"identifier":"some","kind":"selection","title":"Some","visible":false,"number-to-select":2,"environments":["hall"],"children":["read","help"]},
{"identifier":"row","kind":"sequence","children":["some"]}]}"#,
    r#"{"format":1,"identifier":"u","level":"C","title":"First","turns":64,"metadata":"m",
"learning-objectives":[{"identifier":"o1","href":"o.html"}],
"prerequisites":[{"identifier":"o2","href":"o.html","title":"Before","visible":false}],
"method":{"plays":[
{"identifier":"p","title":"Play","visible":false,"acts":[
{"identifier":"a","title":"Act","role-parts":[
{"identifier":"rp","title":"Part","role":"learner","ref":"read"},
{"identifier":"rq","role":"tutor","ref":"help"}],
"complete":{"when-role-part-completed":["rp","rq"]},"on-completion":{"feedback":[{"identifier":"f1","href":"f.html"}]}},
{"identifier":"b","role-parts":[{"identifier":"rr","role":"tutor","ref":"some"}],"complete":{"time-limit":"PT3600S"}}],
"complete":{"when-last-act-completed":true},"on-completion":{"feedback":[{"identifier":"f2","href":"f.html"}]}},
{"identifier":"q","acts":[{"identifier":"c","role-parts":[{"identifier":"rs","role":"learner","ref":"row"}]}]}],
"complete":{"when-play-completed":["p","q"]},"on-completion":{"feedback":[{"identifier":"f3","href":"f.html"}]}}}"#,
    r#"{"conditions":[
{"if":{"and":[{"is":[{"property":"score"},{"sum":[{"integer":"-01"},{"integer":"02"}]}]},{"not":{"no-value":"team"}},
{"users-in-role":{"role":"learner","expression":{"complete":"read"}}}]},
"then":[{"show":["read"]},{"change":{"property":"score","value":{"integer":"7"}}}],
"else":[{"hide":["read"]},{"notify":{"roles":["tutor"],"subject":"Go","activity":"help"}}]}]}"#,
];

const ODD_CANON: &str = r##"# roles.json
{"roles":[{"identifier":"learner","kind":"learner","match-persons":"exclusively-in-roles","max-persons":1000000,"min-persons":1,"roles":[{"identifier":"expert"},{"identifier":"novice","roles":[{"identifier":"beginner","min-persons":2}]}],"title":"Learners"},{"identifier":"tutor","kind":"staff"}]}
# properties.json
{"properties":[{"datatype":"integer","identifier":"score","initial":"0","kind":"locpers","restrictions":{"enumeration":["0","7"],"maxInclusive":"9","minInclusive":"0"},"title":"Score"},{"datatype":"string","identifier":"team","kind":"locrole","restrictions":{"maxLength":20,"minLength":1},"role":"tutor"},{"datatype":"boolean","identifier":"shared","initial":"true","kind":"glob","uri":"urn:shared"}]}
# environments.json
{"environments":[{"environments":["hall"],"identifier":"room","learning-objects":[{"identifier":"book","items":[{"href":"page.html","identifier":"page"}],"title":"Book","visible":false}],"services":[{"identifier":"find","kind":"index-search","title":"Find","visible":false},{"identifier":"mail","kind":"send-mail"}],"title":"Room","visible":false},{"identifier":"hall"}]}
# activities.json
{"activities":[{"complete":{"time-limit":"PT1H"},"environments":["room","hall"],"identifier":"read","items":[{"href":"text.html","identifier":"i1","title":"Text","visible":false},{"href":"more.html","identifier":"i2"}],"learning-objectives":[{"href":"aim.html","identifier":"aim"}],"on-completion":{"change":[{"property":"score","value":{"integer":"7"}}],"feedback":[{"href":"well.html","identifier":"well"}],"notify":[{"roles":["tutor"]}]},"prerequisites":[{"href":"before.html","identifier":"before"}],"title":"Read","visible":false},{"complete":{"when-property-value-is-set":{"property":"score","value":"0"}},"identifier":"help","kind":"support","on-completion":{},"supports":["learner"]}],"structures":[{"children":["read","help"],"environments":["hall"],"identifier":"some","kind":"selection","number-to-select":2,"title":"Some","visible":false},{"children":["some"],"identifier":"row","kind":"sequence"}]}
# unit.json
{"format":1,"identifier":"u","learning-objectives":[{"href":"o.html","identifier":"o1"}],"level":"C","metadata":"m","method":{"complete":{"when-play-completed":["p","q"]},"on-completion":{"feedback":[{"href":"f.html","identifier":"f3"}]},"plays":[{"acts":[{"complete":{"when-role-part-completed":["rp","rq"]},"identifier":"a","on-completion":{"feedback":[{"href":"f.html","identifier":"f1"}]},"role-parts":[{"identifier":"rp","ref":"read","role":"learner","title":"Part"},{"identifier":"rq","ref":"help","role":"tutor"}],"title":"Act"},{"complete":{"time-limit":"PT1H"},"identifier":"b","role-parts":[{"identifier":"rr","ref":"some","role":"tutor"}]}],"complete":{"when-last-act-completed":true},"identifier":"p","on-completion":{"feedback":[{"href":"f.html","identifier":"f2"}]},"title":"Play","visible":false},{"acts":[{"identifier":"c","role-parts":[{"identifier":"rs","ref":"row","role":"learner"}]}],"identifier":"q"}]},"prerequisites":[{"href":"o.html","identifier":"o2","title":"Before","visible":false}],"title":"First"}
# conditions.json
{"conditions":[{"else":[{"hide":["read"]},{"notify":{"activity":"help","roles":["tutor"],"subject":"Go"}}],"if":{"and":[{"is":[{"property":"score"},{"sum":[{"integer":"-1"},{"integer":"2"}]}]},{"not":{"no-value":"team"}},{"users-in-role":{"expression":{"complete":"read"},"role":"learner"}}]},"then":[{"show":["read"]},{"change":{"property":"score","value":{"integer":"7"}}}]}]}
"##;
