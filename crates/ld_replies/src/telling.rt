//! Reply blocks to lines that are refused.
ghost use Rattle.std.specs.Prelude.{◌≡◌, ◌≤◌, ◌++◌, ◌∷◌, [], length, IsOk, OnOk};
ghost use Rattle.ld_base.specs.Roomy.{KeepsRoom, room_of};
ghost use Rattle.ld_replies.specs.Printing.{IsPrintable};
ghost use Rattle.ld_admission.specs.RefusalView.{refusal_of};
ghost use Rattle.ld_admission.specs.Refusals as why;
ghost use Rattle.ld_replies.specs.Replies.{refusal_text};

use crate::replies::push_refusal;
use ld_admission::Refusal;
use ld_base::{NoMemory, Text};
use ld_lines::refusal_word;

/// Empties the text and says that the line was refused. It takes no memory.
pub fn tell_refusal(refusal: Refusal<'_>, out: &mut Text)
    requires printable { IsPrintable (refusal_of refusal) }
    requires room { 128 ≤ room_of out.old }
    ensures text { out.new.bytes ≡ refusal_text (refusal_of refusal.entry) ++ 10 ∷ [] }
    ensures room { 128 ≤ room_of out.new }
{
    let Ok(()) = refuse(refusal, out) else {
        unreachable!();
    };
}

/// Empties the text and says that the line was refused. The only error is out of memory, which
/// does not come where there is room for 128 bytes.
pub fn refuse(refusal: Refusal<'_>, out: &mut Text) -> Result<(), NoMemory>
    requires { IsPrintable (refusal_of refusal) }
    ensures text { OnOk result (out.new.bytes
        ≡ refusal_text (refusal_of refusal.entry) ++ 10 ∷ []) }
    ensures within { 128 ≤ room_of out.old → IsOk result }
    ensures room { KeepsRoom out.old out.new }
{
    out.clear();
    push_refusal(refusal, out)?;
    out.push("\n")
}

/// Empties the text and says that memory ran out. It takes none.
pub fn say_no_memory(out: &mut Text)
    requires { 128 ≤ room_of out.old }
    ensures text { out.new.bytes ≡ refusal_text why.NoMemory ++ 10 ∷ [] }
    ensures room { 128 ≤ room_of out.new }
{
    out.clear();
    push_within("no 99 ", out);
    push_within(refusal_word(99), out);
    push_within("\n", out);
}

/// Appends a text for which there is room.
fn push_within(text: &str, out: &mut Text)
    requires { length text.now ≤ out.old.spare }
    ensures text { out.new.bytes ≡ out.old.bytes ++ text.now }
    ensures room { KeepsRoom out.old out.new }
{
    let _ = out.push(text);
}
