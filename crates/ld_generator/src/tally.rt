//! What the replies to lines come to.
#![tactic(auto)]

ghost use Rattle.std.specs.Prelude.{◌≡◌, ◌≢◌, ◌<◌, ◌+◌, ◌^◌, ◌∷◌, [], IfOk};
ghost use Rattle.std.specs.Option.{option_or};
ghost use Rattle.ld_generator.specs.Tallies.{IsOfSoMany, activity_in, tally_of, together};
ghost use Rattle.ld_run.specs.declared.reply.Reply.TheVariants as reply_form;

use crate::ask::Ask;
use ld_base::NoMemory;
use ld_world::Reply;

/// What the replies to lines come to.
#[derive(Clone, Copy)]
pub struct Tally {
    /// How many lines there were.
    pub lines: u32,
    /// How many of them were done.
    pub done: u32,
    /// How many were refused.
    pub refused: u32,
    /// The turns of all replies together.
    pub turns: u64,
    /// Their firings together.
    pub fired: u128,
    /// The changes that were rejected, together.
    pub rejected: u128,
    /// The notices that were sent, together.
    pub sent: u128,
    /// The activity that was completed last, counted from 0.
    pub last: Option<u8>,
}

impl Tally {
    /// The tally of no lines.
    pub(crate) fn new() -> Tally
        ensures value { result ≡ tally_of [] [] }
        ensures few { IsOfSoMany 0 result }
    {
        Tally {
            lines: 0,
            done: 0,
            refused: 0,
            turns: 0,
            fired: 0,
            rejected: 0,
            sent: 0,
            last: None,
        }
    }

    /// The tally with one more line and its reply. Where memory ran out in the line there is none.
    pub(crate) fn with_reply(self, ask: Ask, reply: Reply) -> Result<Tally, NoMemory>
        requires few { IsOfSoMany self.lines self }
        requires lines { self.lines < 2 ^ 16 }
        ensures value { IfOk result (λ tally.
            tally ≡ together (tally_of (ask ∷ []) (reply ∷ [])) self) }
        ensures few { IfOk result (λ tally. IsOfSoMany (self.lines + 1) tally) }
        ensures memory { IfOk result (λ _. reply ≢ reply_form.NoMemory) }
    {
        match reply {
            Reply::Done(numbers) => Ok(Tally {
                lines: self.lines + 1,
                done: self.done + 1,
                refused: self.refused,
                turns: self.turns + u64::from(numbers.turns),
                fired: self.fired + u128::from(numbers.fired),
                rejected: self.rejected + u128::from(numbers.rejected),
                sent: self.sent + u128::from(numbers.sent),
                last: later(ask, self.last),
            }),
            Reply::Refused(_) => Ok(Tally {
                lines: self.lines + 1,
                refused: self.refused + 1,
                ..self
            }),
            Reply::NoMemory => Err(NoMemory),
        }
    }
}

/// The activity that the line completed, if it asked for that, else the earlier one.
fn later(ask: Ask, earlier: Option<u8>) -> Option<u8>
    ensures { result ≡ option_or (activity_in ask) earlier }
{
    match ask {
        Ask::Complete(_, activity) => Some(activity),
        Ask::Create | Ask::Enrol(_) | Ask::Assign(_) | Ask::Start => earlier,
    }
}
