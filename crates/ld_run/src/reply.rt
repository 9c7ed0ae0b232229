//! What is answered to a command, as a value.
ghost use Rattle.std.specs.Prelude.{◌≡◌};
ghost use Rattle.ld_admission.specs.RefusalView.{refusal_of};
ghost use Rattle.ld_cascade.specs.declared.settled.Settled.{Settled as SettledAs};
ghost use Rattle.ld_run.specs.Reply.{done_alone, reply_to_refusal};

use ld_admission::Refusal;
use ld_cascade::Settled;

/// What is answered to a command or to another line. The reply block says the same in text.
/// (docs/COMMANDS.md, "Replies")
#[derive(Clone, Copy)]
pub enum Reply {
    /// It was done, and its settlings had these numbers together. They are 0 where no run settled.
    Done(Settled),
    /// It was refused, for the reason of this number (docs/COMMANDS.md, "Refusals").
    Refused(u8),
    /// Memory ran out, and the line counts as not given.
    NoMemory,
}

impl Reply {
    /// The reply to a line that was done and for which no run settled.
    pub fn done_alone() -> Reply
        ensures { result ≡ done_alone }
    {
        Reply::Done(Settled {
            turns: 0,
            fired: 0,
            rejected: 0,
            sent: 0,
        })
    }

    /// The reply where this refuses the line.
    pub fn refused(refusal: Refusal<'_>) -> Reply
        ensures value { result ≡ reply_to_refusal (refusal_of refusal.entry) }
        ensures not_done { (totals : SettledAs) → result ≡ Reply.Done totals → ⊥ }
    {
        match refusal {
            Refusal::NoMemory => Reply::NoMemory,
            _ => Reply::Refused(refusal.number()),
        }
    }
}
