//! Room for the writes that can be rolled back.
ghost use Rattle.std.specs.Prelude.{◌≡◌};

use crate::change::Change;
use std::alloc::Global;
use std::marker::Model;

/// Room for recording writes to cells, seen by contracts as the number of writes that have room.
/// `Cells` without a savepoint record nothing, so one log is enough for many of which one at a time
/// has a savepoint.
#[derive(Drop)]
pub struct UndoLog {
    pub(crate) changes: Vec<Change>,
}

impl Model for UndoLog {
    ghost use Rattle.std.specs.Prelude.{◌≡◌, ℕ, [], vec_capacity};

    ghost Value = { ℕ };

    ghost view = { λ s. vec_capacity s.changes };

    ghost invariant = { λ s. s.changes.items ≡ [] };
}

impl UndoLog {
    /// Room for no write, which takes no memory.
    pub fn new(alloc: Global) -> UndoLog
        ensures { result ≡ 0 }
    {
        UndoLog {
            changes: Vec::new(alloc),
        }
    }
}
