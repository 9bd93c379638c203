//! Recorded calls on a file, and recorded calls on a network and a file in one order.

use ft_io::{LinkCall, Octets};

/// A recorded call that changes a file. The flag is true if the call failed: then it may have been done in part.
#[derive(Drop)]
pub enum DiskCall {
    /// These bytes are appended at the end.
    Appended(Octets, bool),
    /// This byte replaces the one at this place, counted from 0.
    Put(u64, u8, bool),
    /// The bytes from this place on are cut off.
    Cut(u64, bool),
    /// All that was done before is written to the disk, and so is the file's name.
    Synced(bool),
    /// A new file with these bytes, which are on the disk, takes the place of the file and its name.
    Replaced(Octets, bool),
}

/// A call on a network or a file.
#[derive(Drop)]
pub enum DeskCall {
    OnLink(LinkCall),
    OnDisk(DiskCall),
}
