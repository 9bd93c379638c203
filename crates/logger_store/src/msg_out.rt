//! Room for one answer: a message of the log, or one about marks.

ghost use Rattle.std.specs.Prelude.{[], ◌≡◌, ◌≤◌, IsOk, Ok, length};
ghost use Rattle.seq_arith.specs.MessageGrammar.{reading, spelling, spelling_by};
ghost use Rattle.seq_arith.specs.MarkGrammar.{reading as mark_reading};
ghost use Rattle.logger_store.specs.StoreState.{IsReply};
ghost use Rattle.logger_wire.specs.Value.{message_of, IsSendable, IsSendableBy};

use logger_wire::{Grammar, Msg, write_msg_by};
use std::marker::Model;

/// The bytes of a message, or none, in room for 2,048 bytes.
#[derive(Drop)]
pub struct MsgOut {
    /// The message, and room after it.
    bytes: [u8; 2_048],
    /// How many of these bytes are the message's.
    len: usize,
}

impl Model for MsgOut {
    ghost use Rattle.std.specs.Prelude.{ℕ, ◌≤◌, List, take};
    ghost use Rattle.logger_store.specs.StoreState.{IsReply};

    ghost Value = { List ℕ };

    ghost view = { λ out. take out.len out.bytes };

    ghost invariant = { λ out. (out.len ≤ 2048) × IsReply (take out.len out.bytes) };
}

impl MsgOut {
    /// No bytes.
    pub fn new() -> MsgOut
        ensures { result ≡ [] }
    {
        MsgOut {
            bytes: [0; 2_048],
            len: 0,
        }
    }

    /// The message's bytes, or none.
    pub fn bytes(&self) -> &[u8]
        ensures value { result.now ≡ self.now }
        ensures within { length result.now ≤ 2048 }
        // The bytes of a message can be read back.
        ensures readable { IsReply result.now }
    {
        &self.bytes[..self.len]
    }

    /// Removes the message.
    pub fn clear(&mut self)
        ensures { self.new ≡ [] }
    {
        self.len = 0;
    }

    /// Replaces the content by a message of the plain grammar.
    pub fn put(&mut self, m: &Msg<'_>)
        requires { IsSendable m.now }
        ensures spells { self.new ≡ spelling (message_of m.now) }
        ensures read { reading self.new ≡ Ok (message_of m.now) }
    {
        self.put_by(Grammar::Plain, m);
    }

    /// Replaces the content by a message of a grammar.
    #[tactic(auto, using(crate::proofs::Answers::message_written))]
    pub fn put_by(&mut self, grammar: Grammar, m: &Msg<'_>)
        requires { IsSendableBy grammar m.now }
        ensures { self.new ≡ spelling_by grammar (message_of m.now) }
    {
        self.len = write_msg_by(grammar, m, &mut self.bytes);
    }

    /// Replaces the content by the bytes of a message about marks.
    #[tactic(auto, using(crate::proofs::Answers::marked_replies))]
    pub fn put_mark(&mut self, bytes: &[u8])
        requires within { length bytes.now ≤ 2048 }
        requires readable { IsOk (mark_reading bytes.now) }
        ensures { self.new ≡ bytes.now }
    {
        self.bytes[..bytes.len()].copy_from_slice(bytes);
        self.len = bytes.len();
    }
}
