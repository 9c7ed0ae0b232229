//! The cells of a run's state by slot, and what takes their writes back to a savepoint.
#![tactic(auto)]

pub mod cells;
mod change;
mod recorded;
pub mod refused;
mod savepoint;
pub mod undo_log;

pub use cells::Cells;
pub use undo_log::UndoLog;
