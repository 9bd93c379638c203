//! The sender and the receiver of a packet.

use ft_io::Key;

/// The sender and the receiver of a packet. A client is named by its address and port.
#[derive(Clone, Copy)]
pub enum Path {
    /// From this client to the server.
    ToServer(Key),
    /// From the server to this client.
    ToClient(Key),
    /// From the server to the logger.
    ToLogger,
    /// From the logger to the server.
    FromLogger,
}
