//! The direction of a packet, as its line names it.

/// The sender and the receiver of a packet. Clients are numbered from 1.
#[derive(Clone, Copy)]
pub(crate) enum Direction {
    FromClient(u64),
    ToClient(u64),
    WithLogger,
}
