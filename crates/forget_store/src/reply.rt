//! What the log answers to a message about forgetting.

use forget_wire::Named;

/// The log's answer to a message about forgetting.
#[derive(Clone, Copy)]
pub enum Reply {
    /// The log has no entry of this connection any more.
    Forgotten { boot: u64, named: Named },
    /// A server with the larger boot number `newer` has started. It answers a message of boot `boot`.
    Stale { boot: u64, newer: u64 },
}
