//! What was lost because an allocation failed.

/// A step of the restart.
#[derive(Clone, Copy, PartialEq, Eq)]
pub enum Stage {
    /// The logger was asked how many entries it has.
    Asked,
    /// An entry was replayed.
    Replayed,
}

/// An allocation failed, and the state of this step was dropped.
#[derive(Clone, Copy)]
pub struct LostIn {
    /// The step whose state was dropped.
    pub stage: Stage,
}
