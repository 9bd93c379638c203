//! Room for one datagram that is sent.

ghost use Rattle.std.specs.Prelude.{[], ◌≡◌, ◌≤◌, ◌+◌, true, length};
ghost use Rattle.seq_arith.specs.TwinGrammar.{spelling, has_length, kind_of, behind_of};
ghost use Rattle.twin_laws.specs.declared.part.Side.TheVariants as sides;
ghost use Rattle.logger_wire.specs.TwinValue.{said_by};

use logger_wire::{TwinMsg, write_twin};
use std::marker::Model;
use twin_laws::Side;

/// A datagram's bytes and their addressee, in room for 2,048 bytes.
#[derive(Drop)]
pub(crate) struct Datagram {
    to: Side,
    /// The datagram, and room after it.
    bytes: [u8; 2_048],
    /// How many of these bytes are the datagram's.
    len: usize,
}

impl Model for Datagram {
    ghost use Rattle.std.specs.Prelude.{ℕ, ◌≤◌, List, take};
    ghost use Rattle.twin_laws.specs.declared.part.Side.{Side};

    ghost Value = { Side × List ℕ };

    ghost view = { λ d. (d.to, take d.len d.bytes) };

    ghost invariant = { λ d. d.len ≤ 2048 };
}

impl Datagram {
    /// No bytes, to the server.
    pub(crate) fn blank() -> Datagram
        ensures { result ≡ (sides.Server, []) }
    {
        Datagram {
            to: Side::Server,
            bytes: [0; 2_048],
            len: 0,
        }
    }

    /// Its addressee.
    pub(crate) fn to(&self) -> Side
        ensures { result ≡ self.now.0 }
    {
        self.to
    }

    pub(crate) fn bytes(&self) -> &[u8]
        ensures { result.now ≡ self.now.1 }
    {
        &self.bytes[..self.len]
    }

    /// Replaces the content by bytes for the server.
    #[tactic(auto, using(crate::proofs::Fronts::seams))]
    pub(crate) fn answer(&mut self, bytes: &[u8])
        requires { length bytes.now ≤ 2048 }
        ensures { self.new ≡ (sides.Server, bytes.now) }
    {
        self.to = Side::Server;
        self.bytes[..bytes.len()].copy_from_slice(bytes);
        self.len = bytes.len();
    }

    /// Replaces the content by a datagram for the other logger.
    #[tactic(auto, using(logger_wire::proofs::TwinSpelled::datagram_whole, logger_wire::proofs::TwinSpelled::datagram_fits))]
    pub(crate) fn put(&mut self, m: &TwinMsg<'_>)
        requires { has_length (kind_of (said_by m.now)) (16 + length (behind_of (said_by m.now))) ≡ true }
        ensures { self.new ≡ (sides.Other, spelling (said_by m.now)) }
    {
        self.to = Side::Other;
        self.len = write_twin(m, &mut self.bytes);
    }
}
