//! Why the opening of a file fails.

use std::fs::TryLockError;
use std::io;

/// Why a file couldn't be opened.
#[derive(Clone, Copy, PartialEq, Eq)]
pub enum ShelfEnd {
    /// A system call failed, or the name isn't that of a regular file, or the file has a second name.
    Failed,
    /// Another process has it open.
    InUse,
    /// There is no file of this name, and none was to be made.
    Missing,
    /// There is one, and a new one was to be made.
    Present,
}

impl From<io::Error> for ShelfEnd {
    fn from(_error: io::Error) -> ShelfEnd {
        ShelfEnd::Failed
    }
}

impl From<TryLockError> for ShelfEnd {
    fn from(error: TryLockError) -> ShelfEnd {
        match error {
            TryLockError::WouldBlock => ShelfEnd::InUse,
            TryLockError::Error(_) => ShelfEnd::Failed,
        }
    }
}
