//! What a disk in memory notes of a call.

/// A call that did something: a write of `count` bytes at a place, or a sync.
#[derive(Clone, Copy)]
pub enum Step {
    Write { at: usize, count: usize },
    Sync,
}
