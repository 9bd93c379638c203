//! What never changes in one incarnation.

use ft_io::Addr;
use tcp_rules::Profile;

/// One incarnation of a server.
#[derive(Clone, Copy)]
pub(crate) struct Incarnation {
    /// The kind of its service.
    pub(crate) kind: u8,
    /// Its address and port.
    pub(crate) server: Addr,
    /// Its profile.
    pub(crate) profile: Profile,
    /// Its boot number.
    pub(crate) boot: u64,
    /// The first initial sequence number that it chooses.
    pub(crate) isn: u32,
}
