//! Durations in texts.
#![tactic(auto, unfolding(crate::specs::Duration::duration_of, crate::specs::Duration::front_part, crate::specs::Duration::is_duration, crate::specs::Duration::seconds_if, crate::specs::Duration::seconds_of, crate::specs::Duration::span_text, crate::specs::Duration::time_in, crate::specs::Numeral::numeral))]

ghost use Rattle.std.specs.Prelude.{◌≡◌, ◌↔◌, ℕ, ◌+◌, ◌++◌, ◌≤◌, ◌<◌, ◌^◌, length, Some, None, IfSome, option_copied, if◌then◌else◌};
ghost use Rattle.std.specs.Option.{option_and_then};
ghost use Rattle.ld_value.specs.Duration.{duration_of, IsDuration, seconds_if, time_in, front_part as spec_front_part, digit_count as spec_digit_count, is_part, part_number as spec_part_number, part_text, shown, span_parts, time_text, span_text};

use crate::digits::numeral;
use crate::draft::Draft;

/// The longest span, in seconds.
pub const LONGEST_SPAN: u64 = 999_999_999_999;

/// The seconds of the duration that the text writes by `P[nD][T[nH][nM][nS]]`; None where it is no
/// such text, or longer than `LONGEST_SPAN`.
pub fn read_duration(text: &str) -> Option<u64>
    ensures value { result ≡ duration_of text.now }
    ensures form { (n : ℕ) → (result ≡ Some n) ↔ IsDuration text.now n }
    ensures bound { IfSome result (λ n. n ≤ 999999999999) }
{
    seconds_in(text.as_bytes())
}

/// The seconds of the duration that the text writes.
fn seconds_in(text: &[u8]) -> Option<u64>
    ensures { result ≡ duration_of text.now }
{
    let [b'P', rest @ ..] = text else {
        return None;
    };
    let (days, rest) = front_part(rest, b'D');
    match rest {
        [] => total(days, None, None, None),
        [b'T', rest @ ..] => read_time(days, rest),
        _ => None,
    }
}

/// The seconds of these days and of the parts below them, of which the text has one or more and
/// nothing else.
fn read_time(days: Option<&[u8]>, text: &[u8]) -> Option<u64>
    ensures { result ≡ option_and_then seconds_if (time_in (option_copied days.entry) text.now) }
{
    let (hours, rest) = front_part(text, b'H');
    let (minutes, rest) = front_part(rest, b'M');
    let (seconds, rest) = front_part(rest, b'S');
    if !rest.is_empty() {
        return None;
    }
    if hours.is_none() && minutes.is_none() && seconds.is_none() {
        return None;
    }
    total(days, hours, minutes, seconds)
}

/// The part with this letter at the text's front, as its digits, and the text after it.
fn front_part(text: &[u8], letter: u8) -> (Option<&[u8]>, &[u8])
    ensures part { option_copied result.0 ≡ (spec_front_part letter text.now).0 }
    ensures rest { result.1.now ≡ (spec_front_part letter text.now).1 }
{
    let count = digit_count(text);
    match &text[count..] {
        [first, rest @ ..] if *first == letter => (Some(&text[..count]), rest),
        _ => (None, text),
    }
}

/// How many digits stand at the text's front.
fn digit_count(text: &[u8]) -> usize
    ensures value { result ≡ spec_digit_count text.now }
    ensures within { result ≤ length text.now }
{
    text.iter().take_while(|byte| byte.is_ascii_digit()).count()
}

/// The seconds of all parts together; None where none is there, one is not of 1 to 12 digits, or
/// the sum is too large.
fn total(
    days: Option<&[u8]>,
    hours: Option<&[u8]>,
    minutes: Option<&[u8]>,
    seconds: Option<&[u8]>,
) -> Option<u64>
    ensures { result
        ≡ seconds_if
        (record {
          days = option_copied days.entry;
          hours = option_copied hours.entry;
          minutes = option_copied minutes.entry;
          seconds = option_copied seconds.entry;
        }) }
{
    if days.is_none() && hours.is_none() && minutes.is_none() && seconds.is_none() {
        return None;
    }
    let (days, hours) = (part_number(days)?, part_number(hours)?);
    let (minutes, seconds) = (part_number(minutes)?, part_number(seconds)?);
    let sum = 86_400 * days + 3_600 * hours + 60 * minutes + seconds;
    if sum > LONGEST_SPAN {
        return None;
    }
    Some(sum)
}

/// The number of a part, 0 where it is absent; None where it is not of 1 to 12 digits.
fn part_number(part: Option<&[u8]>) -> Option<u64>
    ensures value { result
        ≡ (if is_part (option_copied part.entry) then Some
        (spec_part_number (option_copied part.entry)) else None) }
    ensures bound { IfSome result (λ n. n < 10 ^ 12) }
{
    match part {
        None => Some(0),
        Some(digits) => numeral(digits, 12),
    }
}

/// The text of a span of that many seconds: days, hours below 24, minutes below 60 and seconds
/// below 60, zero parts left out; `PT0S` for none.
pub(crate) fn print_span(seconds: u64) -> Draft
    ensures { result ≡ span_text seconds }
{
    let mut draft = Draft::new();
    if seconds == 0 {
        draft.put(b'S');
        draft.put(b'0');
        draft.put(b'T');
        draft.put(b'P');
        return draft;
    }
    put_time(&mut draft, seconds);
    put_part(&mut draft, seconds / 86_400, b'D');
    draft.put(b'P');
    draft
}

/// Puts `T` and the parts below the days before the text, where they are not all zero.
fn put_time(draft: &mut Draft, seconds: u64)
    requires { length draft.old ≤ 6 }
    ensures text { draft.new ≡ time_text (span_parts seconds) ++ draft.old }
    ensures short { length draft.new ≤ length draft.old + 10 }
{
    if seconds % 86_400 == 0 {
        return;
    }
    put_part(draft, seconds % 60, b'S');
    put_part(draft, seconds / 60 % 60, b'M');
    put_part(draft, seconds / 3_600 % 24, b'H');
    draft.put(b'T');
}

/// Puts the number and the letter before the text, unless the number is zero.
fn put_part(draft: &mut Draft, number: u64, letter: u8)
    requires number { number < 10 ^ 15 }
    requires room { length draft.old ≤ 16 }
    ensures text { draft.new ≡ part_text letter (shown number) ++ draft.old }
    ensures long { length draft.new ≤ length draft.old + 16 }
    ensures short { number < 100 → length draft.new ≤ length draft.old + 3 }
{
    if number == 0 {
        return;
    }
    draft.put(letter);
    draft.put_decimal(number);
}
