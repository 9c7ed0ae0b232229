//! Switches that come later than a moment.
#![tactic(auto, using(crate::proofs::NextAfter::next_about, crate::proofs::NextAfter::earlier_none))]

ghost use Rattle.std.specs.Prelude.{◌≡◌, ◌+ℤ◌, ◌∷◌, [], pos, option_map};
ghost use Rattle.ld_alarm.specs.Later.{earlier, next_after};
ghost use Rattle.ld_alarm.specs.Switches.{switches_about};

use ld_value::{LAST_MOMENT, Moment};

/// The earlier of two moments that there may be. It takes no memory.
pub fn earlier(a: Option<Moment>, b: Option<Moment>) -> Option<Moment>
    ensures { option_map (λ moment. moment.0) result
        ≡ earlier (option_map (λ moment. moment.0) a) (option_map (λ moment. moment.0) b) }
{
    let Some(first) = a else {
        return b;
    };
    let Some(second) = b else {
        return a;
    };
    if second.0 < first.0 {
        return b;
    }
    a
}

/// The second moment, where it comes after the first and is not after the last that there is.
pub(crate) fn switch_after(after: Moment, switch: Moment) -> Option<Moment>
    ensures { option_map (λ moment. moment.0) result ≡ next_after after.0 (switch.0 ∷ []) }
{
    if LAST_MOMENT.0 < switch.0 {
        return None;
    }
    if switch.0 <= after.0 {
        return None;
    }
    Some(switch)
}

/// The first of this moment and the second after it that comes after the other moment.
pub(crate) fn switch_about(after: Moment, at: Moment) -> Option<Moment>
    ensures { option_map (λ moment. moment.0) result ≡ next_after after.0 (switches_about at.0) }
{
    let first = switch_after(after, at);
    let second = limit_after(after, at, 1);
    earlier(first, second)
}

/// The moment this many seconds after the start, where it comes after the other moment.
pub(crate) fn limit_after(after: Moment, start: Moment, seconds: u64) -> Option<Moment>
    ensures { option_map (λ moment. moment.0) result
        ≡ next_after after.0 ((start.0 +ℤ pos seconds) ∷ []) }
{
    match start.0.checked_add_unsigned(seconds) {
        Some(end) => switch_after(after, Moment(end)),
        None => None,
    }
}
