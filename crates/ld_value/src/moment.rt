//! Moments of the calendar, in UTC.
#![tactic(auto, unfolding(crate::specs::Calendar::moment_of))]

ghost use Rattle.std.specs.Prelude.{◌≡◌, ◌/◌, ◌%◌, IsTrue, Some, IfSome, option_map};
ghost use Rattle.std.specs.Str.{IsAscii};
ghost use Rattle.ld_value.specs.Calendar.{moment_of, text_of_moment, moment_text, IsMoment, IsDay, year_of, month_of, day_of_month, has_moment_form};

use crate::digits::{four_digits, two_digits};
use crate::moment_parts::{has_form, read_day, read_second};
use jiff_core::civil;

/// A moment: seconds since 1970-01-01T00:00:00Z, negative before it.
#[derive(Clone, Copy, Debug, PartialEq, Eq)]
pub struct Moment(pub i64);

/// 0001-01-01T00:00:00Z, the first moment that has a text.
pub const FIRST_MOMENT: Moment = Moment(-62_135_596_800);

/// 9999-12-31T23:59:59Z, the last moment that has a text.
pub const LAST_MOMENT: Moment = Moment(253_402_300_799);

/// The moment that the text names by `YYYY-MM-DDTHH:MM:SSZ`; None exactly where the text has
/// another form, or no such day or time of day exists.
pub fn read_moment(text: &str) -> Option<Moment>
    ensures value { option_map (λ m. m.0) result ≡ moment_of text.now }
    ensures years { IfSome result (λ m. IsMoment m.0) }
    ensures back { IfSome result (λ m. text_of_moment m.0 ≡ text.now) }
{
    let bytes = text.as_bytes();
    if !has_form(bytes) {
        return None;
    }
    named_moment(bytes)
}

/// The moment that a text of the form names; None where no such day or time of day exists.
fn named_moment(bytes: &[u8]) -> Option<Moment>
    requires { IsTrue (has_moment_form bytes.now) }
    ensures { option_map (λ m. m.0) result ≡ moment_of bytes.now }
{
    let day = read_day(bytes)?;
    let second = read_second(bytes)?;
    Some(Moment(86_400 * day + i64::from(second)))
}

/// The moment's text, `YYYY-MM-DDTHH:MM:SSZ`.
pub fn print_moment(moment: Moment) -> [u8; 20]
    requires { IsMoment moment.0 }
    ensures text { result ≡ text_of_moment moment.0 }
    ensures back { moment_of result ≡ Some moment.0 }
    ensures ascii { IsAscii result }
{
    let day = moment.0.div_euclid(86_400);
    let second = moment.0.rem_euclid(86_400) as u64;
    let (year, month, day) = year_month_day(day);
    written(year, month, day, second)
}

/// The text of a moment with these parts: a date, and a second of that day.
fn written(year: u64, month: u64, day: u64, second: u64) -> [u8; 20]
    ensures { result ≡ moment_text year month day (second / 3600) (second / 60 % 60) (second % 60) }
{
    let [y1, y2, y3, y4] = four_digits(year);
    let [m1, m2] = two_digits(month);
    let [d1, d2] = two_digits(day);
    let [h1, h2] = two_digits(second / 3_600);
    let [n1, n2] = two_digits(second / 60 % 60);
    let [s1, s2] = two_digits(second % 60);
    [
        y1, y2, y3, y4, b'-', m1, m2, b'-', d1, d2, b'T', h1, h2, b':', n1, n2, b':', s1, s2, b'Z',
    ]
}

/// The year, the month and the day of the month on which a day number falls.
fn year_month_day(day: i64) -> (u64, u64, u64)
    requires { IsDay day }
    ensures year { result.0 ≡ year_of day }
    ensures month { result.1 ≡ month_of day }
    ensures day { result.2 ≡ day_of_month day }
{
    let Ok(date) = civil::Date::from_unix_epoch_day(day) else {
        unreachable!()
    };
    (
        u64::from(date.year.unsigned_abs()),
        u64::from(date.month),
        u64::from(date.day),
    )
}
