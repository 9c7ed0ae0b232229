//! Whole numbers in texts.
#![tactic(auto, unfolding(crate::specs::Values::integer_of, crate::specs::Values::signed_numeral))]

ghost use Rattle.std.specs.Prelude.{◌≡◌};
ghost use Rattle.std.specs.Fmt.{signed_decimal};
ghost use Rattle.ld_value.specs.Values.{integer_of};

use crate::digits::numeral;
use crate::draft::Draft;

/// The whole number that an optional `-` and 1 to 19 digits write; None where the text is something
/// else, or the number is none of 64 bits.
pub(crate) fn read_integer(text: &[u8]) -> Option<i64>
    ensures { result ≡ integer_of text.now }
{
    if let [b'-', digits @ ..] = text {
        let number = numeral(digits, 19)?;
        return 0_i64.checked_sub_unsigned(number);
    }
    let number = numeral(text, 19)?;
    0_i64.checked_add_unsigned(number)
}

/// The decimal text of the number.
pub(crate) fn print_integer(number: i64) -> Draft
    ensures { result ≡ signed_decimal number }
{
    let mut draft = Draft::new();
    draft.put_decimal(number.unsigned_abs());
    if number < 0 {
        draft.put(b'-');
    }
    draft
}
