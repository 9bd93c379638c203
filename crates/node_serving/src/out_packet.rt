//! A packet that the node sends.

ghost use Rattle.std.specs.Prelude.{◌≡◌, OnOk};
ghost use Rattle.seq_arith.specs.MessageGrammar.{reading_by};
ghost use Rattle.node_serving.specs.SentBytes.{sent_to, party_of};
ghost use Rattle.conn_marks.specs.MarkSends.{is_done_wire, says_done_in};

use ft_io::{Key, NoMemory};
use logger_wire::{Body, Grammar, read_msg_by};
use std::alloc::Global;
use std::marker::Model;

/// The addressee of a packet.
#[derive(Clone, Copy)]
pub enum To {
    /// The client at this address and port.
    Client(Key),
    Logger,
}

/// A packet's bytes, with its addressee.
#[derive(Drop)]
pub struct OutPacket {
    to: To,
    text: Vec<u8>,
}

impl Model for OutPacket {
    ghost use Rattle.ft_model.specs.Wire.{Wire};
    ghost use Rattle.node_serving.specs.SentBytes.{sent_to};

    ghost Value = { Wire };

    ghost view = { λ p. sent_to p.to p.text.items };
}

impl OutPacket {
    ghost use Rattle.ft_model.specs.Wire.Party.{The_server};

    pub(crate) fn new(alloc: Global, to: To, bytes: &[u8]) -> Result<OutPacket, NoMemory>
        ensures { OnOk result (result ≡ Rattle.std.specs.Prelude.Ok (sent_to to bytes.now)) }
    {
        let text = Vec::from_slice(alloc, bytes)?;
        Ok(OutPacket { to, text })
    }

    /// Replaces the packet by another, in the same buffer if that is long enough.
    pub(crate) fn refill(&mut self, to: To, bytes: &[u8]) -> Result<(), NoMemory>
        ensures { OnOk result (self.new ≡ sent_to to bytes.now) }
    {
        self.text.clear();
        self.text.extend_from_slice(bytes)?;
        self.to = to;
        Ok(())
    }

    /// Whether it is a message to the logger, in this grammar, that says that a connection is done.
    pub(crate) fn is_done(&self, grammar: Grammar) -> bool
        ensures { result ≡ is_done_wire grammar self.now }
    {
        match self.to {
            To::Client(_) => false,
            To::Logger => is_done_message(grammar, &self.text),
        }
    }

    /// A fact for proofs: the server sends it.
    pub fn sent_by_server(&self)
        ensures { self.now.from ≡ The_server }
    {
        let _to = self.to;
    }

    /// The addressee.
    pub fn to(&self) -> To
        ensures { party_of result ≡ self.now.to }
    {
        self.to
    }

    /// The bytes: a packet to a client, or a message to the logger.
    pub fn bytes(&self) -> &[u8]
        ensures { result.now ≡ self.now.bytes }
    {
        self.text.as_slice()
    }
}

/// Whether bytes are the message of this grammar that a connection is done.
fn is_done_message(grammar: Grammar, bytes: &[u8]) -> bool
    ensures { result ≡ says_done_in (reading_by grammar bytes.now) }
{
    match read_msg_by(grammar, bytes) {
        Ok(m) => matches!(m.body, Body::Done { .. }),
        Err(_) => false,
    }
}
