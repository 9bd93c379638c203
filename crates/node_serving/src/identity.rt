//! The constants of an incarnation.

use ft_io::Addr;
use tcp_rules::Profile;

/// What never changes in an incarnation of the server.
#[derive(Clone, Copy)]
pub struct Identity {
    /// The boot number, at least 1.
    pub boot: u64,
    /// The number from which its initial sequence numbers are counted.
    pub isn: u32,
    /// The kind of the service.
    pub kind: u8,
    pub local: Addr,
    /// The profile, which stays as long as the log.
    pub profile: Profile,
}
