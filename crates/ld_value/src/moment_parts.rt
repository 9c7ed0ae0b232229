//! The parts of a moment's text.
#![tactic(auto, unfolding(crate::specs::Calendar::has_moment_form, crate::specs::Calendar::named_day, crate::specs::Calendar::named_second, crate::specs::Calendar::second_of))]

ghost use Rattle.std.specs.Prelude.{◌≡◌, ◌+◌, ◌<◌, ◌≤◌, ◌^◌, IsTrue, IfSome, take, drop, replicate};
ghost use Rattle.jiff_core.specs.Calendar.{IsEpochDay};
ghost use Rattle.ld_value.specs.Calendar.{has_moment_form, moment_pattern, part as spec_part, follows as spec_follows, stands_for as spec_stands_for, day_of, second_of, named_day, named_second};

use crate::digits::number;
use jiff::civil::Date;

/// Whether the bytes have the form of a moment's text.
pub(crate) fn has_form(bytes: &[u8]) -> bool
    ensures { result ≡ has_moment_form bytes.now }
{
    follows(b"0000-00-00T00:00:00Z", bytes)
}

/// Whether the bytes follow the pattern, in which `0` stands for any digit. Every byte is looked
/// at: without a way out of the loop it becomes a few comparisons of many bytes at once.
fn follows(pattern: &[u8], bytes: &[u8]) -> bool
    ensures { result ≡ spec_follows pattern.now bytes.now }
{
    if bytes.len() != pattern.len() {
        return false;
    }
    let mut follows = true;
    for i in 0..pattern.len() {
        follows &= stands_for(pattern[i], bytes[i]);
    }
    follows
}

/// Whether the byte of a pattern stands for this byte.
fn stands_for(pattern: u8, byte: u8) -> bool
    ensures { result ≡ spec_stands_for pattern byte }
{
    if pattern == b'0' {
        return byte.is_ascii_digit();
    }
    byte == pattern
}

/// The number of the day that a moment's text names, counted from 1970-01-01.
pub(crate) fn read_day(bytes: &[u8]) -> Option<i64>
    requires { IsTrue (has_moment_form bytes.now) }
    ensures value { result ≡ named_day bytes.now }
    ensures bound { IfSome result IsEpochDay }
{
    let year = part(bytes, 0, 4);
    let month = part(bytes, 5, 2);
    let day = part(bytes, 8, 2);
    day_number(year, month, day)
}

/// The second of the day that a moment's text names.
pub(crate) fn read_second(bytes: &[u8]) -> Option<u32>
    requires { IsTrue (has_moment_form bytes.now) }
    ensures value { result ≡ named_second bytes.now }
    ensures bound { IfSome result (λ s. s < 86400) }
{
    let hour = part(bytes, 11, 2);
    let minute = part(bytes, 14, 2);
    let second = part(bytes, 17, 2);
    second_number(hour, minute, second)
}

/// The number that a moment's text writes in `count` digits from the place `from` on.
fn part(bytes: &[u8], from: usize, count: usize) -> u64
    requires form { IsTrue (has_moment_form bytes.now) }
    requires digits { take count (drop from moment_pattern) ≡ replicate count 48 }
    requires within { from + count ≤ 20 }
    requires short { count ≤ 19 }
    ensures value { result ≡ spec_part from count bytes.now }
    ensures bound { result < 10 ^ count }
{
    number(&bytes[from..from + count])
}

/// The second of the day; None where there is no such time of day.
fn second_number(hour: u64, minute: u64, second: u64) -> Option<u32>
    ensures value { result ≡ second_of hour minute second }
    ensures bound { IfSome result (λ s. s < 86400) }
{
    if hour > 23 || minute > 59 || second > 59 {
        return None;
    }
    Some((3_600 * hour + 60 * minute + second) as u32)
}

/// The number of the day, counted from 1970-01-01; None where there is no such day in the years
/// from 1 to 9999.
fn day_number(year: u64, month: u64, day: u64) -> Option<i64>
    requires year { year < 10000 }
    requires month { month < 100 }
    requires day { day < 100 }
    ensures value { result ≡ day_of year month day }
    ensures bound { IfSome result IsEpochDay }
{
    if year == 0 {
        return None;
    }
    let Ok(date) = Date::new(year as i16, month as i8, day as i8) else {
        return None;
    };
    Some(i64::from(date.to_plain().to_unix_epoch_day()))
}
