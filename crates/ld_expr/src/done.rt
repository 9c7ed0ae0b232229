//! What is done, for whom.
ghost use Rattle.std.specs.Prelude.{◌≡◌, ◌+◌, ◌≤◌, length};
ghost use Rattle.ld_expr.specs.Done.{is_done};
ghost use Rattle.ld_expr.specs.Looks.{done_looks};

use crate::cells::{cell_of_mark, says_yes};
use crate::scope::Scope;
use ld_base::{Id, Steps};
use ld_model::{Owner, View};
use std::sync::ledger::Ledger;

impl<'a, V: View> Scope<'a, V> {
    /// Whether what the identifier names is done: an activity or a structure for the owner, all
    /// else for the run. What no rule completes is never done. It takes no memory, and at most one
    /// step. (docs/MEANING.md, "Terms and tests")
    pub fn is_done<L: Ledger>(&self, owner: Owner, id: &Id, steps: &mut Steps<L>) -> bool
        ensures value { result ≡ is_done self.now.unit.now (V.seen self.now.view.now) owner id.now }
        ensures cost { steps.new ≤ steps.old + length (done_looks self.now.unit.now
            (V.seen self.now.view.now) owner id.now) }
    {
        match cell_of_mark(self.unit, self.names, owner, id) {
            Some(cell) => says_yes(self.view, cell, steps),
            None => false,
        }
    }
}
