//! What a connection sends in one turn.

ghost use Rattle.std.specs.Prelude.{◌≡◌, ◌<◌, [], Some, length, slice_get, IfOk};

use ft_io::NoMemory;
use north_wrap::ReadRecords;
use std::alloc::Global;
use tcp_endpoint::Outbox;

/// The segments and the messages that a connection sends in one turn, each list in order, in buffers that are allocated once. A turn has at most 79
/// messages.
#[derive(Drop)]
pub struct TurnOut {
    /// To the client, in order.
    pub(crate) segments: Outbox,
    /// To the logger, in order.
    pub(crate) messages: Outbox,
    /// Where segments are written anew that get longer.
    pub(crate) spare: Outbox,
    /// Room for the reads that a turn makes. What it holds between turns has no meaning.
    pub(crate) reads: ReadRecords,
}

impl TurnOut {
    /// Allocates the buffers of a turn, which are empty.
    pub fn new(alloc: Global) -> Result<TurnOut, NoMemory>
        ensures segments { IfOk result (λ out. out.segments ≡ []) }
        ensures messages { IfOk result (λ out. out.messages ≡ []) }
    {
        Ok(TurnOut {
            segments: Outbox::new(alloc)?,
            messages: Outbox::new(alloc)?,
            spare: Outbox::new(alloc)?,
            reads: ReadRecords::new(),
        })
    }

    /// The segments to the client, in order, as packets.
    pub fn segments(&self) -> &Outbox
        ensures { result.now ≡ self.now.segments }
    {
        &self.segments
    }

    /// How many messages there are.
    pub fn messages(&self) -> usize
        ensures { result ≡ length self.now.messages }
    {
        self.messages.len()
    }

    /// The bytes of message `i`, counted from 0.
    pub fn message(&self, i: usize) -> &[u8]
        requires { i < length self.now.messages }
        ensures { slice_get self.now.messages i ≡ Some result.now }
    {
        self.messages.packet(i)
    }

    /// Removes everything.
    pub fn clear(&mut self)
        ensures segments { self.new.segments ≡ [] }
        ensures messages { self.new.messages ≡ [] }
    {
        self.segments.clear();
        self.messages.clear();
    }
}
