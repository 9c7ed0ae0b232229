//! The words of a refusal's text.
ghost use Rattle.std.specs.Prelude.{◌≡◌, ◌≤◌, ◌+◌, ◌++◌, ◌∷◌, [], codes, decimal, length, unwrap_or, IsOk, OnOk};
ghost use Rattle.std.specs.Str.{IsAscii};
ghost use Rattle.ld_base.specs.Roomy.{KeepsRoom};
ghost use Rattle.ld_lines.specs.Refusals.{HasRefusal, word_of_refusal};
ghost use Rattle.ld_replies.specs.Printed.{words_behind};
ghost use Rattle.ld_replies.specs.Printing.{IsPrintable};
ghost use Rattle.ld_admission.specs.RefusalView.{refusal_of};
ghost use Rattle.ld_admission.specs.Refusals.{details_of};

use itoa::Buffer;
use ld_admission::Refusal;
use ld_base::{NoMemory, Text};
use ld_lines::refusal_word;
use ld_value::print_moment;

/// Appends `no`, the number and the word of the refusal of this number.
pub(crate) fn push_number_and_word(number: u8, out: &mut Text) -> Result<(), NoMemory>
    requires known { HasRefusal number }
    requires short { length (unwrap_or (word_of_refusal number) []) ≤ 16 }
    ensures text { OnOk result (out.new.bytes ≡ out.old.bytes ++ (codes "no"
        ++ words_behind (decimal number ∷ unwrap_or (word_of_refusal number) [] ∷ []))) }
    ensures within { 23 ≤ out.old.spare → IsOk result }
    ensures left { OnOk result (out.old.spare ≤ out.new.spare + 23) }
    ensures room { KeepsRoom out.old out.new }
{
    out.push("no")?;
    push_word(Buffer::new().format(number), out)?;
    push_word(refusal_word(number), out)
}

/// Appends what is told behind the word of the refusal.
pub(crate) fn push_details(refusal: Refusal<'_>, out: &mut Text) -> Result<(), NoMemory>
    requires printable { IsPrintable (refusal_of refusal) }
    ensures text { OnOk result (out.new.bytes
        ≡ out.old.bytes ++ words_behind (details_of (refusal_of refusal.entry))) }
    ensures within { 87 ≤ out.old.spare → IsOk result }
    ensures left { OnOk result (out.old.spare ≤ out.new.spare + 87) }
    ensures room { KeepsRoom out.old out.new }
{
    match refusal {
        Refusal::MomentBack(last) => push_ascii_word(&print_moment(last), out),
        Refusal::RoleShort { role, count, least } => {
            push_word(role.as_str(), out)?;
            push_word(Buffer::new().format(count), out)?;
            push_word(Buffer::new().format(least), out)
        }
        _ => Ok(()),
    }
}

/// Appends the word behind a space.
fn push_word(word: &str, out: &mut Text) -> Result<(), NoMemory>
    ensures text { OnOk result (out.new.bytes ≡ out.old.bytes ++ 32 ∷ word.now) }
    ensures within { length word.now + 1 ≤ out.old.spare → IsOk result }
    ensures left { OnOk result (out.old.spare ≤ out.new.spare + (length word.now + 1)) }
    ensures room { KeepsRoom out.old out.new }
{
    out.push(" ")?;
    out.push(word)
}

/// Appends the word, of ASCII, behind a space.
fn push_ascii_word(word: &[u8], out: &mut Text) -> Result<(), NoMemory>
    requires { IsAscii word.now }
    ensures text { OnOk result (out.new.bytes ≡ out.old.bytes ++ 32 ∷ word.now) }
    ensures within { length word.now + 1 ≤ out.old.spare → IsOk result }
    ensures left { OnOk result (out.old.spare ≤ out.new.spare + (length word.now + 1)) }
    ensures room { KeepsRoom out.old out.new }
{
    out.push(" ")?;
    out.push_ascii(word)
}
