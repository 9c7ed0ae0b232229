//! Decimal digits.
#![tactic(auto, unfolding(crate::specs::Numeral::numeral))]

ghost use Rattle.std.specs.Prelude.{◌≡◌, ◌≤◌, ◌<◌, ◌^◌, ◌+◌, ◌%◌, length, IsTrue, IfSome};
ghost use Rattle.ld_value.specs.Calendar.{in_digits};
ghost use Rattle.ld_value.specs.Numeral.{numeral as spec_numeral};
ghost use Rattle.std.specs.Str.{all_ascii_digits};
ghost use Rattle.std.specs.Str.Parse.{digits_value};

/// The number that the digits write.
pub(crate) fn number(digits: &[u8]) -> u64
    requires digits { IsTrue (all_ascii_digits digits.now) }
    requires short { length digits.now ≤ 19 }
    ensures value { result ≡ digits_value 10 digits.now }
    ensures bound { result < 10 ^ length digits.now }
{
    let mut number = 0;
    for digit in digits {
        number = 10 * number + u64::from(*digit - b'0');
    }
    number
}

/// The last two decimal digits of the number, the higher one first.
pub(crate) fn two_digits(number: u64) -> [u8; 2]
    ensures { result ≡ in_digits 2 number }
{
    [digit(number / 10), digit(number)]
}

/// The last four decimal digits of the number, the highest one first.
pub(crate) fn four_digits(number: u64) -> [u8; 4]
    ensures { result ≡ in_digits 4 number }
{
    let [a, b] = two_digits(number / 100);
    let [c, d] = two_digits(number);
    [a, b, c, d]
}

/// The last decimal digit of the number.
fn digit(number: u64) -> u8
    ensures { result ≡ 48 + number % 10 }
{
    b'0' + (number % 10) as u8
}

/// The number that 1 to `most` decimal digits write; None where the text is something else.
pub(crate) fn numeral(text: &[u8], most: usize) -> Option<u64>
    requires { most ≤ 19 }
    ensures value { result ≡ spec_numeral most text.now }
    ensures bound { IfSome result (λ n. n < 10 ^ most) }
{
    if text.is_empty() || text.len() > most || !are_digits(text) {
        return None;
    }
    Some(number(text))
}

/// Whether each byte is a decimal digit.
fn are_digits(text: &[u8]) -> bool
    ensures { result ≡ all_ascii_digits text.now }
{
    for byte in text {
        if !byte.is_ascii_digit() {
            return false;
        }
    }
    true
}
