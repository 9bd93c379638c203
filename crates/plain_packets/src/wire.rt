//! One packet.

ghost use Rattle.std.specs.Prelude.{◌≡◌};
ghost use Rattle.plain_packets.specs.Parties.{from_of, to_of};

use crate::path::Path;
use std::marker::Model;

/// A packet as bytes, with its sender and its receiver.
#[derive(Drop)]
pub struct PlainWire {
    path: Path,
    bytes: Vec<u8>,
}

impl Model for PlainWire {
    ghost use Rattle.ft_model.specs.Wire.{Wire};
    ghost use Rattle.plain_packets.specs.Parties.{from_of, to_of};

    ghost Value = { Wire };

    ghost view = { λ w. record { from = from_of w.path; to = to_of w.path; bytes = w.bytes.items } };
}

impl PlainWire {
    /// Creates a packet of these bytes. Allocates nothing.
    pub(crate) fn new(path: Path, bytes: Vec<u8>) -> PlainWire
        ensures { result ≡ record { from = from_of path; to = to_of path; bytes = bytes.items } }
    {
        PlainWire { path, bytes }
    }

    /// Returns its sender and its receiver.
    pub fn path(&self) -> Path
        ensures from { from_of result ≡ self.now.from }
        ensures to { to_of result ≡ self.now.to }
    {
        self.path
    }

    /// Returns its bytes.
    pub fn bytes(&self) -> &[u8]
        ensures { result.now ≡ self.now.bytes }
    {
        self.bytes.as_slice()
    }
}
