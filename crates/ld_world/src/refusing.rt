//! Replies to lines that are refused.
ghost use Rattle.std.specs.Prelude.{◌≡◌, ◌≤◌, ◌++◌, ◌∷◌, [], IfOk, IsOk};
ghost use Rattle.ld_base.specs.Roomy.{KeepsRoom, room_of};
ghost use Rattle.ld_replies.specs.Printing.{IsPrintable};
ghost use Rattle.ld_replies.specs.Replies.{refusal_text};
ghost use Rattle.ld_admission.specs.RefusalView.{refusal_of};
ghost use Rattle.ld_run.specs.Reply.{reply_to_refusal};

use ld_admission::Refusal;
use ld_base::{NoMemory, Text};
use ld_replies::refuse;
use ld_run::Reply;

/// Empties the text, says that the line is refused, and gives the reply that says so. The only
/// error is out of memory, which does not come where there is room for 128 bytes.
pub(crate) fn refuse_line(refusal: Refusal<'_>, out: &mut Text) -> Result<Reply, NoMemory>
    requires { IsPrintable (refusal_of refusal) }
    ensures refused { IfOk result (λ reply. (reply ≡ reply_to_refusal (refusal_of refusal.entry))
        × (out.new.bytes ≡ refusal_text (refusal_of refusal.entry) ++ 10 ∷ [])) }
    ensures within { 128 ≤ room_of out.old → IsOk result }
    ensures room { KeepsRoom out.old out.new }
{
    refuse(refusal, out)?;
    Ok(Reply::refused(refusal))
}
