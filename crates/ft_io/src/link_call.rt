//! A call on a link in memory, as it is recorded.

use crate::{Addr, Octets};

/// One recorded call on a link.
#[derive(Drop)]
pub enum LinkCall {
    /// A bind to this address succeeded.
    Bound(Addr),
    /// A receive gave these bytes from this address.
    Came(Addr, Octets),
    /// A receive gave nothing.
    Silent,
    /// A receive failed.
    Missed,
    /// These bytes were handed to a send to this address. The flag is true where the send failed.
    Handed(Addr, Octets, bool),
}
