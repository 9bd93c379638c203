//! How a process ends.

ghost use Rattle.std.specs.Prelude.{◌≡◌};
ghost use Rattle.link_parts.specs.declared.status.NodeEnd.TheVariants as ends;

use ft_io::NoMemory;

/// The exit status of the program.
#[derive(Clone, Copy, PartialEq, Eq)]
pub struct Status {
    /// 0 if everything was done, otherwise the number of the end.
    pub code: u8,
}

/// How a process ends early.
#[derive(Clone, Copy)]
pub enum NodeEnd {
    /// The words aren't allowed.
    Usage,
    NoMemory,
    /// The bind failed.
    LinkFault,
    /// A write failed.
    WriteFault,
    /// A Stale of the logger named this larger boot number: a newer server fenced this one.
    Fenced { newer: u64 },
    /// The client's connection was reset.
    Reset,
    /// The client's turns ended before its connection did.
    Spent,
    /// A read of the input failed.
    ReadFault,
    /// A start of a pair's child, or a wait for one, failed.
    ChildFault,
}

impl From<NoMemory> for NodeEnd {
    ghost from_gives = { λ _ e. e ≡ ends.NoMemory };

    fn from(_error: NoMemory) -> NodeEnd {
        NodeEnd::NoMemory
    }
}
