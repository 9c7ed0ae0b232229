//! The calls that were made on an object in memory, and those that are to fail.
ghost use Rattle.std.specs.Prelude.{◌≡◌, ◌≤◌, ◌||◌, ◌==◌, ◌+◌, IsTrue};
ghost use Rattle.std.specs.List.{list_any};
ghost use Rattle.ld_base.specs.Calls.{CallState, next_is_listed, after_call};
ghost use Rattle.ld_base.specs.Outside.{Rose};

use crate::bytes::CallList;
use std::marker::Model;

/// Counts calls and faults, both up to the last value of a `u64`.
#[derive(Drop)]
pub struct Calls {
    failing: CallList,
    made: u64,
    faults: u64,
}

impl Model for Calls {
    ghost Value = { CallState };

    ghost view = { λ s. record { failing = s.failing; made = s.made; faults = s.faults } };
}

impl Calls {
    /// No calls yet; those of these numbers, counted from 1, are to fail.
    pub fn new(failing: CallList) -> Calls
        ensures { result ≡ record { failing = failing; made = 0; faults = 0 } }
    {
        Calls {
            failing,
            made: 0,
            faults: 0,
        }
    }

    /// Counts one more call and answers whether it fails: its number is listed, or the object
    /// refuses it.
    pub fn fails(&mut self, refused: bool) -> bool
        ensures answer { result ≡ (next_is_listed self.old || refused) }
        ensures counted { self.new ≡ after_call result self.old }
        ensures cause { IsTrue result → Rose self.old.faults self.new.faults }
        ensures counts { self.old.faults ≤ self.new.faults }
    {
        let fails = is_listed(self.failing.as_slice(), self.made) || refused;
        self.made = self.made.saturating_add(1);
        if fails {
            self.faults = self.faults.saturating_add(1);
        }
        fails
    }
}

/// Whether the number of the call that comes after this many calls is listed.
fn is_listed(failing: &[u64], made: u64) -> bool
    ensures { result ≡ list_any (λ number. number == made + 1) failing.now }
{
    failing.iter().any(|number| follows(*number, made))
}

/// Whether the number is the next one after this many calls.
fn follows(number: u64, made: u64) -> bool
    ensures { result ≡ (number == made + 1) }
{
    number > made && number - made == 1
}
