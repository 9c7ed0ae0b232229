//! Values that were worked out outside this program, by Python's `datetime`, `re` and whole
//! numbers. More of them are in tests/moments.py and tests/first_faults/texts.py, which the program
//! reads.
mod tables;

use ld_base::Text;
use ld_value::fits::fits;
use ld_value::{
    FIRST_MOMENT, Kind, LAST_MOMENT, Limits, Moment, Value, ValueFault, ValueList, print_moment,
    print_value, read_duration, read_moment, read_scalar, read_value, same_value,
};
use std::alloc::Global;
use std::test::Fail;
use tables::{DURATIONS, MOMENTS, NO_VALUES, OTHERS, RESTRICTED, VALUES};

/// The two parts of a line, around its first bar.
fn cut(line: &str) -> Result<(&str, &str), &'static str> {
    line.split_once('|').ok_or("a line without a bar")
}

/// The two parts of a pair, around its blank.
fn pair(words: &str) -> Result<(&str, &str), &'static str> {
    words.split_once(' ').ok_or("a pair without a blank")
}

fn kind_of(word: &str) -> Result<Kind, &'static str> {
    match word {
        "string" => Ok(Kind::String),
        "text" => Ok(Kind::Text),
        "uri" => Ok(Kind::Uri),
        "boolean" => Ok(Kind::Boolean),
        "integer" => Ok(Kind::Integer),
        "datetime" => Ok(Kind::Datetime),
        "duration" => Ok(Kind::Duration),
        _ => Err("no datatype"),
    }
}

/// Whether the text has a value of the datatype, and that is printed so.
fn is_printed(alloc: Global, kind: Kind, text: &str, printed: &str) -> Result<bool, ValueFault> {
    let value = read_value(alloc, kind, text)?;
    let mut out = Text::new(alloc);
    print_value(&value, &mut out)?;
    Ok(out.as_str() == printed && same_value(&value, &value.copy(alloc)?))
}

/// Whether the text has no value of the datatype.
fn has_no_value(alloc: Global, kind: Kind, text: &str) -> bool {
    matches!(&read_value(alloc, kind, text), Err(ValueFault::BadValue))
}

/// Whether the text names the moment of these seconds, which is printed as the text.
fn is_moment(text: &str, seconds: i64) -> bool {
    match read_moment(text) {
        Some(moment) => moment.0 == seconds && print_moment(moment).as_slice() == text.as_bytes(),
        None => false,
    }
}

/// The value of the text, unless that is a dot.
fn given(alloc: Global, kind: Kind, text: &str) -> Result<Option<Value>, ValueFault> {
    if text == "." {
        return Ok(None);
    }
    Ok(Some(read_value(alloc, kind, text)?))
}

/// No restrictions at all.
fn unlimited(alloc: Global) -> Limits {
    Limits {
        least: None,
        most: None,
        min_length: None,
        max_length: None,
        one_of: ValueList::new(alloc),
    }
}

/// The restrictions of the words of a line.
fn limits_of(alloc: Global, kind: Kind, words: &str) -> Result<Limits, Fail> {
    let (bounds, words) = cut(words)?;
    let (lengths, list) = cut(words)?;
    let (least, most) = pair(bounds)?;
    let (min_length, max_length) = pair(lengths)?;
    let (one, other) = pair(list)?;
    let mut limits = unlimited(alloc);
    limits.least = given(alloc, kind, least)?;
    limits.most = given(alloc, kind, most)?;
    limits.min_length = min_length.parse().ok();
    limits.max_length = max_length.parse().ok();
    for text in [one, other] {
        if let Some(value) = given(alloc, kind, text)? {
            limits.one_of.push(value)?;
        }
    }
    Ok(limits)
}

#[test]
fn moments_and_durations(rt: HostRuntime) -> Result<(), Fail> {
    for line in MOMENTS.lines() {
        let (text, seconds) = cut(line)?;
        assert!(rt; is_moment(text, seconds.parse()?), "{line}");
    }
    for line in DURATIONS.lines() {
        let (text, seconds) = cut(line)?;
        assert!(rt; read_duration(text) == Some(seconds.parse()?), "{line}");
    }
    Ok(())
}

#[test]
fn values(rt: HostRuntime) -> Result<(), Fail> {
    for line in VALUES.lines() {
        let (kind, rest) = cut(line)?;
        let (text, printed) = cut(rest)?;
        assert!(rt;
            is_printed(rt.alloc(), kind_of(kind)?, text, printed)?,
            "{line}"
        );
    }
    for line in NO_VALUES.lines() {
        let (kind, text) = cut(line)?;
        assert!(rt; has_no_value(rt.alloc(), kind_of(kind)?, text), "{line}");
    }
    assert!(rt; matches!(read_scalar(Kind::Boolean, "true"), Some(Value::Bool(true))));
    let bytes = [b'x'; 4_097];
    let (long, longer) = (str::from_utf8(&bytes[..4_096])?, str::from_utf8(&bytes)?);
    for kind in [Kind::String, Kind::Text, Kind::Uri] {
        assert!(rt;
            is_printed(rt.alloc(), kind, long, long)? && has_no_value(rt.alloc(), kind, longer)
        );
    }
    Ok(())
}

#[test]
fn restrictions(rt: HostRuntime) -> Result<(), Fail> {
    for line in RESTRICTED.lines() {
        let (kind, words) = cut(line)?;
        let kind = kind_of(kind)?;
        let (words, wanted) = words.rsplit_once('|').ok_or("no answer")?;
        let (words, text) = words.rsplit_once('|').ok_or("no text")?;
        let limits = limits_of(rt.alloc(), kind, words)?;
        let value = read_value(rt.alloc(), kind, text)?;
        assert!(rt; fits(kind, &limits, &value) == (wanted == "yes"), "{line}");
    }
    let limits = unlimited(rt.alloc());
    for line in OTHERS.lines() {
        let (kind, rest) = cut(line)?;
        let (text, rest) = cut(rest)?;
        let (other, wanted) = cut(rest)?;
        let value = read_value(rt.alloc(), kind_of(kind)?, text)?;
        assert!(rt;
            fits(kind_of(other)?, &limits, &value) == (wanted == "yes"),
            "{line}"
        );
        assert!(rt; !same_value(&value, &Value::Int(2)), "{line}");
    }
    for seconds in [FIRST_MOMENT.0 - 1, LAST_MOMENT.0 + 1] {
        assert!(rt; !fits(Kind::Datetime, &limits, &Value::Moment(Moment(seconds))));
    }
    assert!(rt; !fits(Kind::Duration, &limits, &Value::Span(1_000_000_000_000)));
    Ok(())
}
