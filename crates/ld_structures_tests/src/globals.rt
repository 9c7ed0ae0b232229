//! The store with ample memory: each call once, a history worked out by hand, and many calls
//! against a plain list.
ghost use Rattle.std.specs.Prelude.{◌≡◌, ◌<◌};

use ld_base::{Id, Items, NoMemory, Steps, Text};
use ld_globals::{DeclareFault, Declared, GlobalFault, GlobalKind, Globals, SetFault};
use ld_value::fits::fits;
use ld_value::{Kind, Limits, Value, read_value};
use std::alloc::Global;
use std::marker::Brand;
use std::sync::ledger::{Blank, Ledger};
use std::test::Fail;

fn check(good: bool, what: &'static str) -> Result<(), Fail> {
    if good {
        return Ok(());
    }
    Err(what)?
}

fn person_of(alloc: Global, text: &str) -> Result<Option<Id>, Fail> {
    Ok(Id::read(alloc, text.as_bytes())?)
}

/// Declares one uri of whole numbers or of texts, whose keys begin with the text's value.
fn declare(
    alloc: Global,
    store: &mut Globals,
    uri: &str,
    kind: GlobalKind,
    datatype: Kind,
    initial: &str,
) -> Result<Result<(), DeclareFault>, Fail> {
    let limits = Limits {
        least: None,
        most: None,
        min_length: None,
        max_length: None,
        one_of: Items::new(alloc),
    };
    let Ok(value) = read_value(alloc, datatype, initial) else {
        return Err("no value")?;
    };
    if !fits(datatype, &limits, &value) {
        return Err("a value that does not fit")?;
    }
    let declared = Declared {
        kind,
        datatype,
        limits,
        initial: Some(value),
    };
    let mut list = Items::new(alloc);
    list.push((Text::of(alloc, uri)?, declared))?;
    Ok(store.declare(list))
}

/// The number at the key, or why there is none.
fn number<L: Ledger>(
    store: &Globals,
    uri: &Text,
    person: Option<&Id>,
    steps: &mut Steps<L>,
) -> Result<Option<i64>, GlobalFault> {
    match store.get(uri, person, steps)? {
        Some(Value::Int(number)) => Ok(Some(*number)),
        _ => Ok(None),
    }
}

/// How many keys were written since the stamp.
fn changed<L: Ledger>(store: &Globals, stamp: u64, steps: &mut Steps<L>) -> usize {
    store.changed_since(stamp, steps).count()
}

/// The texts and identifiers of the history worked out by hand.
#[derive(Drop)]
struct Names {
    g: Text,
    h: Text,
    ann: Option<Id>,
}

#[test]
fn one_value_for_all(rt: HostRuntime) -> Result<(), Fail> {
    row::<Brand>(rt.alloc(), Blank::new(1))
}

fn row<L: Ledger>(alloc: Global, blank: Blank) -> Result<(), Fail>
    requires name { blank.name ≡ L.name }
    requires parts { blank.parts ≡ L.parts }
    requires some { 0 < L.parts }
{
    let names = Names {
        g: Text::of(alloc, "urn:g")?,
        h: Text::of(alloc, "urn:h")?,
        ann: person_of(alloc, "ann")?,
    };
    let mut steps = Steps::<L>::new(blank);
    let mut store = Globals::new(alloc);
    declarations(alloc, &mut store)?;
    settings(&mut store, &names, &mut steps)?;
    changes(&mut store, &names, &mut steps)
}

fn declarations(alloc: Global, store: &mut Globals) -> Result<(), Fail> {
    let first = declare(alloc, store, "urn:g", GlobalKind::Glob, Kind::Integer, "0")?;
    check(first == Ok(()), "a first declaration")?;
    let again = declare(alloc, store, "urn:g", GlobalKind::Glob, Kind::Integer, "0")?;
    check(again == Ok(()), "the same declaration")?;
    let other = declare(alloc, store, "urn:g", GlobalKind::Glob, Kind::String, "0")?;
    check(other == Err(DeclareFault::Differs(0)), "another datatype")?;
    let other = declare(alloc, store, "urn:g", GlobalKind::Glob, Kind::Integer, "1")?;
    check(
        other == Err(DeclareFault::Differs(0)),
        "another initial value",
    )
}

fn settings<L: Ledger>(
    store: &mut Globals,
    names: &Names,
    steps: &mut Steps<L>,
) -> Result<(), Fail> {
    let ann = names.ann.as_ref();
    check(
        number(store, &names.g, None, steps) == Ok(Some(0)),
        "the initial value",
    )?;
    check(store.set(&names.g, None, "5") == Ok(()), "setting 5")?;
    check(
        number(store, &names.g, None, steps) == Ok(Some(5)),
        "the value 5",
    )?;
    check(
        store.set(&names.g, None, "x") == Err(SetFault::BadValue),
        "no number",
    )?;
    check(
        store.set(&names.g, ann, "x") == Err(SetFault::BadValue),
        "no number first",
    )?;
    check(
        store.set(&names.g, ann, "6") == Err(SetFault::NotAllowed),
        "a person",
    )?;
    check(
        store.set(&names.h, None, "1") == Err(SetFault::UnknownGlobal),
        "no such uri",
    )?;
    let unknown = number(store, &names.h, None, steps);
    check(unknown == Err(GlobalFault::UnknownGlobal), "unknown")?;
    let refused = number(store, &names.g, ann, steps);
    check(refused == Err(GlobalFault::NotAllowed), "not allowed")
}

fn changes<L: Ledger>(
    store: &mut Globals,
    names: &Names,
    steps: &mut Steps<L>,
) -> Result<(), Fail> {
    check(store.stamp() == 1, "one write")?;
    check(store.set(&names.g, None, "0") == Ok(()), "setting 0")?;
    check(store.set(&names.g, None, "0") == Ok(()), "setting 0 again")?;
    check(store.stamp() == 2, "an equal value is no write")?;
    check(changed(store, 1, steps) == 1, "written since 1")?;
    check(changed(store, 2, steps) == 0, "written since 2")?;
    check(store.reserve(3).is_ok(), "room")
}

#[test]
fn values_for_persons(rt: HostRuntime) -> Result<(), Fail> {
    many::<Brand>(rt.alloc(), Blank::new(1))
}

fn many<L: Ledger>(alloc: Global, blank: Blank) -> Result<(), Fail>
    requires name { blank.name ≡ L.name }
    requires parts { blank.parts ≡ L.parts }
    requires some { 0 < L.parts }
{
    let mut steps = Steps::<L>::new(blank);
    let mut store = Globals::new(alloc);
    run(alloc, &mut store, &mut steps)
}

fn run<L: Ledger>(alloc: Global, store: &mut Globals, steps: &mut Steps<L>) -> Result<(), Fail> {
    for uri in ["urn:p", "urn:q"] {
        let done = declare(alloc, store, uri, GlobalKind::GlobPers, Kind::Integer, "0")?;
        check(done == Ok(()), "a declaration")?;
    }
    let mut plain = Plain {
        values: [0; 6],
        writes: [0; 6],
        stamp: 0,
    };
    let mut seed = 7u64;
    for _ in 0..400 {
        seed = seed
            .wrapping_mul(6364136223846793005)
            .wrapping_add(1442695040888963407);
        one(alloc, store, &mut plain, seed >> 33, steps)?;
    }
    check(
        changed(store, u64::MAX, steps) == 6,
        "all that were written",
    )
}

/// A plain list of what the store should hold: the value of each key, and its last write.
#[derive(Drop)]
struct Plain {
    values: [u8; 6],
    writes: [u64; 6],
    stamp: u64,
}

/// One call of `set`, and what the store then holds.
fn one<L: Ledger>(
    alloc: Global,
    store: &mut Globals,
    plain: &mut Plain,
    choice: u64,
    steps: &mut Steps<L>,
) -> Result<(), Fail> {
    let key = (choice % 6) as usize;
    let value = (choice / 6 % 3) as u8;
    let uri = Text::of(alloc, if key < 3 { "urn:p" } else { "urn:q" })?;
    let person = person_of(alloc, PERSONS[key % 3])?;
    check(
        store.set(&uri, person.as_ref(), TEXTS[value as usize]) == Ok(()),
        "setting",
    )?;
    let found = number(store, &uri, person.as_ref(), steps);
    check(found == Ok(Some(value as i64)), "the value")?;
    if plain.values[key] != value {
        plain.stamp = plain.stamp.saturating_add(1);
        plain.values[key] = value;
        plain.writes[key] = plain.stamp;
        check(
            keeps_number(store, &uri, person.as_ref(), value as i64, steps),
            "the number of the person",
        )?;
    }
    compare(store, plain, choice / 18 % 400, steps)
}

/// Whether the value, which was written for the person, is found also where the identifier keeps a
/// wrong number, which it then does no longer.
fn keeps_number<L: Ledger>(
    store: &Globals,
    uri: &Text,
    person: Option<&Id>,
    value: i64,
    steps: &mut Steps<L>,
) -> bool {
    let Some(id) = person else {
        return false;
    };
    id.remember(u32::MAX);
    let first = number(store, uri, person, steps);
    let hint = id.hint();
    id.remember(hint.wrapping_add(1));
    let second = number(store, uri, person, steps);
    first == Ok(Some(value)) && second == first && hint < 3 && id.hint() == hint
}

#[test]
fn uris_in_any_order(rt: HostRuntime) -> Result<(), Fail> {
    in_any_order::<Brand>(rt.alloc(), Blank::new(1))
}

fn in_any_order<L: Ledger>(alloc: Global, blank: Blank) -> Result<(), Fail>
    requires name { blank.name ≡ L.name }
    requires parts { blank.parts ≡ L.parts }
    requires some { 0 < L.parts }
{
    let mut steps = Steps::<L>::new(blank);
    let mut store = Globals::new(alloc);
    declare_three(alloc, &mut store)?;
    find_any(alloc, &mut store, &mut steps)
}

/// Declares three uris of one value each.
fn declare_three(alloc: Global, store: &mut Globals) -> Result<(), Fail> {
    for (uri, initial) in [("urn:a", "0"), ("urn:b", "1"), ("urn:long", "2")] {
        let done = declare(alloc, store, uri, GlobalKind::Glob, Kind::Integer, initial)?;
        check(done == Ok(()), "a declaration")?;
    }
    Ok(())
}

/// Asks for each of the three uris, and for one that is not declared, before and after they are
/// set.
fn find_any<L: Ledger>(
    alloc: Global,
    store: &mut Globals,
    steps: &mut Steps<L>,
) -> Result<(), Fail> {
    let uris = four_uris(alloc)?;
    check(
        find_in_turn(store, uris.as_slice(), None, steps)
            && set_all(store, uris.as_slice())
            && find_in_turn(store, uris.as_slice(), Some(5), steps),
        "the values before and after",
    )
}

/// The three uris and one more.
fn four_uris(alloc: Global) -> Result<Vec<Text>, NoMemory> {
    let mut uris = Vec::new(alloc);
    for uri in ["urn:long", "urn:b", "urn:x", "urn:a"] {
        uris.push(Text::of(alloc, uri)?)?;
    }
    Ok(uris)
}

/// Whether 5 is taken for each uri that is declared, and for no other.
fn set_all(store: &mut Globals, uris: &[Text]) -> bool {
    for uri in uris {
        if store.set(uri, None, "5").is_ok() != wanted(uri, None).is_ok() {
            return false;
        }
    }
    true
}

/// Whether each uri has its value, whichever uri was asked for before it.
fn find_in_turn<L: Ledger>(
    store: &Globals,
    uris: &[Text],
    written: Option<i64>,
    steps: &mut Steps<L>,
) -> bool {
    for first in uris {
        for second in uris {
            for uri in [first, second] {
                if number(store, uri, None, steps) != wanted(uri, written) {
                    return false;
                }
            }
        }
    }
    true
}

/// What the store should answer at the uri: what was written to all of them, or its initial value.
fn wanted(uri: &Text, written: Option<i64>) -> Result<Option<i64>, GlobalFault> {
    let initial = match uri.as_str() {
        "urn:a" => 0,
        "urn:b" => 1,
        "urn:long" => 2,
        _ => return Err(GlobalFault::UnknownGlobal),
    };
    match written {
        Some(value) => Ok(Some(value)),
        None => Ok(Some(initial)),
    }
}

const PERSONS: [&str; 3] = ["ann", "bob", "cay"];

const TEXTS: [&str; 3] = ["0", "1", "2"];

/// Whether the store says the same of what was written since.
fn compare<L: Ledger>(
    store: &Globals,
    plain: &Plain,
    since: u64,
    steps: &mut Steps<L>,
) -> Result<(), Fail> {
    check(store.stamp() == plain.stamp, "the stamp")?;
    let mut later = 0usize;
    for write in plain.writes {
        if write > since {
            later = later.saturating_add(1);
        }
    }
    check(changed(store, since, steps) == later, "written since")?;
    check(
        are_latest_first(store, plain, since, steps),
        "the keys that were written since",
    )
}

/// Whether each key that the store gives was written since, and before the one that it gave last:
/// so none is given twice.
fn are_latest_first<L: Ledger>(
    store: &Globals,
    plain: &Plain,
    since: u64,
    steps: &mut Steps<L>,
) -> bool {
    let mut last = u64::MAX;
    for (uri, person) in store.changed_since(since, steps) {
        let write = match plain.writes.get(place_of(uri, person)) {
            Some(write) => *write,
            None => 0,
        };
        if write <= since || write >= last {
            return false;
        }
        last = write;
    }
    true
}

/// The place of a key in the plain list, or one past its end.
fn place_of(uri: &Text, person: Option<&Id>) -> usize {
    let Some(person) = person else {
        return 6;
    };
    let first = match uri.as_str() {
        "urn:p" => 0,
        "urn:q" => 3,
        _ => return 6,
    };
    match person.as_str() {
        "ann" => first,
        "bob" => first + 1,
        "cay" => first + 2,
        _ => 6,
    }
}
