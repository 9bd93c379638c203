//! Allocation failure, which any call that allocates may return.

use std::alloc::{AllocError, AllocFailed};

/// An allocation failed. Unless its documentation says otherwise, the call then changed nothing.
#[derive(Clone, Copy, PartialEq, Eq)]
pub struct NoMemory;

impl From<AllocError> for NoMemory {
    fn from(_error: AllocError) -> NoMemory {
        NoMemory
    }
}

impl<T: Drop> From<AllocFailed<T>> for NoMemory {
    fn from(_error: AllocFailed<T>) -> NoMemory {
        NoMemory
    }
}
