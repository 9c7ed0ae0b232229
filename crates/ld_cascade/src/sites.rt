//! What a settling asks of the sites that it settles.
ghost use Rattle.std.specs.Prelude.{◌≡◌, ℕ, ◌+◌, ◌<◌, ◌≤◌, ◌++◌, length, IfOk, IsOk, Contains, ⊤};
ghost use Rattle.std.specs.Borrow.{sem};
ghost use mathlib.Core.Option.{none};
ghost use denote.Follow.{follows_so};
ghost use Rattle.ld_cascade.specs.System.{System, Lawful, MayFire};
ghost use Rattle.ld_cascade.specs.Work.{weight};
ghost use Rattle.ld_cascade.specs.Rooms.{read_count};

use crate::judged::Judged;
use ld_base::{Fired, NoMemory, Steps};
use ld_graph::SlotList;
use std::sync::ledger::Ledger;

/// A state with sites. It means a system, a situation of that system, whose setting no call
/// changes, and a room, which never falls: how many slots the list that `reads` lends can hold
/// without new memory. The sites are some of the numbers below the system's count, in their order.
///
/// Each call needs a sound situation, and a firing leaves one. After running out of memory in a
/// firing the situation may be unsound: ask nothing of the sites until it was rolled back.
pub trait Sites {
    ghost system: { System };

    ghost now: { Self → system.Situation };

    ghost room: { Self → ℕ };

    /// The site's test and its mark. It takes as many steps as the site's size, and one, at most,
    /// and none for a number that is no site.
    fn judge<L: Ledger>(&self, site: u32, steps: &mut Steps<L>) -> Judged
        requires sound { system.IsSound (now self.now) }
        ensures test { result.test ≡ system.test (now self.now) site }
        ensures mark { result.mark ≡ system.mark (now self.now) site }
        ensures ticks { steps.new ≤ steps.old + weight system (now self.now) site };

    /// The slots that the site reads, each once. The state stays as it is, whatever is answered; no
    /// memory is wanted where the room is at least the number of these slots.
    fn reads<L: Ledger>(&mut self, site: u32, steps: &mut Steps<L>) -> Result<&SlotList, NoMemory>
        requires sound { system.IsSound (now self.old) }
        ensures named { IfOk result (λ r.
            (k : ℕ) → Contains r.now.items k → Contains (system.reads (now self.old) site) k) }
        ensures all { IfOk result (λ r.
            (k : ℕ) → Contains (system.reads (now self.old) site) k → Contains r.now.items k) }
        ensures within { read_count system (now self.old) site ≤ room self.old → IsOk result }
        ensures ticks { steps.new ≤ steps.old + weight system (now self.old) site }
        ensures* after { sem 𝓛 (follows_so Self.row Self.row self.entry.ghost_name none (λ _ _. ⊤)
            (λ v. (now v ≡ now self.old) × (room self.old ≤ room v)
            × IfOk result (λ r. length r.now.items ≤ room v))) };

    /// Fires the site: its mark becomes the verdict, and its effect is applied. The slots that it
    /// changes are appended to `changed`. After running out of memory the state may be any of the
    /// same setting, sound or not.
    fn fire<L: Ledger>(
        &mut self,
        site: u32,
        verdict: bool,
        changed: &mut Vec<u32>,
        steps: &mut Steps<L>,
    ) -> Result<Fired, NoMemory>
        requires may { MayFire system (now self.old) site }
        requires verdict { verdict ≡ system.test (now self.old) site }
        ensures state { IfOk result (λ _. now self.new ≡ system.after (now self.old) site) }
        ensures changed { IfOk result (λ _.
            changed.new.items ≡ changed.old.items ++ system.changed (now self.old) site) }
        ensures rejected { IfOk result (λ f. f.rejected ≡ system.rejected (now self.old) site) }
        ensures sent { IfOk result (λ f. f.sent ≡ system.sent (now self.old) site) }
        ensures setting { system.setting (now self.new) ≡ system.setting (now self.old) }
        ensures room { room self.old ≤ room self.new }
        ensures ticks { steps.new ≤ steps.old + system.cost (now self.old) site };

    ghost lawful: { Lawful system };
}
