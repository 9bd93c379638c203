//! A call on a spawner in memory, as it is recorded.

use crate::Words;

/// One recorded call on a spawner.
#[derive(Drop)]
pub enum SpawnCall {
    /// A program was started by these words.
    Started(Words),
    /// The child with this number ended with this exit status.
    Ended(u32, i32),
}
