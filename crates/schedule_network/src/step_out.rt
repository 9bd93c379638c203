//! What a step of the world returns.

/// The packets that an event sent: `count` packets from number `first` on.
#[derive(Clone, Copy)]
pub struct StepOut {
    /// The number of the first of them, counted from 1 over the whole run.
    pub first: u32,
    /// How many there are.
    pub count: u32,
}
