//! How long a server waits.

/// How long a server waits, in ticks.
#[derive(Clone, Copy)]
pub struct Patience {
    /// How long a connection that is done is in quarantine, at least 1.
    pub wait: u32,
    /// After how long a silence a client is sent a keep-alive; after twice that the server lets go of it. 0: never.
    pub silence: u32,
}
