//! A savepoint to which the cells can be rolled back.

/// How many cells there were at the savepoint, and how many writes had room to be recorded.
#[derive(Clone, Copy)]
pub struct Savepoint {
    pub cells: usize,
    pub spare: usize,
}
