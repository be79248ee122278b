//! The one answer where memory runs out.
use std::alloc::{AllocError, AllocFailed};

/// Out of memory. Any call that allocates may answer so, and no contract ties this answer to a
/// cause.
#[derive(Clone, Copy, Debug, PartialEq, Eq)]
pub struct Memory;

impl From<AllocError> for Memory {
    fn from(_: AllocError) -> Memory {
        Memory
    }
}

impl<T: Drop> From<AllocFailed<T>> for Memory {
    fn from(_: AllocFailed<T>) -> Memory {
        Memory
    }
}
