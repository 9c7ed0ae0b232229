//! Want of memory, the one refusal that no contract ties to a cause.
use std::alloc::{AllocError, AllocFailed};

/// The allocator gave no memory. Whoever answers it has changed nothing that its contract speaks
/// of.
#[derive(Clone, Copy, Debug, PartialEq, Eq)]
pub struct NoMemory;

impl From<AllocError> for NoMemory {
    fn from(_error: AllocError) -> NoMemory {
        NoMemory
    }
}

impl<T: Drop> From<AllocFailed<T>> for NoMemory {
    fn from(_error: AllocFailed<T>) -> NoMemory {
        NoMemory
    }
}
