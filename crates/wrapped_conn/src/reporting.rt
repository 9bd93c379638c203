//! The messages of a connection to the logger.

ghost use Rattle.limits.specs.Limits.{largest_segment, longest_stream, most_units};
ghost use Rattle.std.specs.Prelude.{◌≡◌, ◌≤◌, ◌<◌, ◌+◌, ◌*◌, ◌^◌, ◌∷◌, ◌++◌, [], true, false, length};
ghost use Rattle.seq_arith.specs.MessageGrammar.{spelling_by, message_length};
ghost use Rattle.seq_arith.specs.Message.Body.{DataMsg};
ghost use Rattle.logger_wire.specs.Value.{body_of, message_of, IsSendableBy};
ghost use Rattle.north_wrap.specs.Refinement.{messages_of};
ghost use Rattle.tcp_endpoint.specs.Packets.{byte_count};
ghost use Rattle.wrapped_conn.specs.LoggerMessages.{spelled, grammar_by as grammar_lem, dones, text_length, most_text, AreShort, AreWritable};
ghost use Rattle.wrapped_conn.specs.LoggerMessages.{with_done, most_state, AreShortWithMark};

use crate::conn::Conn;
use crate::stage::ConnStage;
use ft_io::Key;
use logger_wire::{Body, Grammar, Msg, Part, put_msg_by};
use north_wrap::ReadRecords;
use server_trait::Service;
use tcp_endpoint::Outbox;

/// A Data with at most this many bytes of text is written into a short buffer, which takes less time to clear.
const SHORT_TEXT: usize = 97;

impl<S: Service> Conn<S> {
    /// The grammar of its messages.
    fn grammar(&self) -> Grammar
        ensures { result ≡ grammar_lem self.now.batches }
    {
        grammar_by(self.batches)
    }

    /// Sends a part of the client's stream to the logger, in one Data. `more` says that another Data of the same turn follows.
    pub(crate) fn send_data(
        &self,
        offset: u32,
        acked: u32,
        fin: bool,
        more: bool,
        bytes: &[u8],
        out: &mut Outbox,
    )
        requires boot { 1 ≤ self.now.boot }
        requires one { fin ≡ true → more ≡ false }
        requires wide { more ≡ true → self.now.batches ≡ true }
        requires within { offset + length bytes.now ≤ longest_stream }
        requires acked { acked ≤ most_units }
        requires most { length bytes.now ≤ largest_segment }
        requires few { length out.old ≤ 80 }
        requires short { byte_count out.old + length bytes.now ≤ 64 * length out.old + most_text }
        ensures reported { out.new ≡ out.old ++ spelled self.now.batches self.now.boot (DataMsg (record {
          key = self.now.key;
          offset = offset;
          acked = acked;
          fin = fin;
          more = more;
          bytes = bytes.now;
        }) ∷ []) }
        ensures few { length out.new ≡ length out.old + 1 }
        ensures short { byte_count out.new ≤ byte_count out.old + 64 + length bytes.now }
    {
        fit(self.key, self.boot);
        let body = Body::Data(Part {
            key: self.key,
            offset,
            acked,
            fin,
            more,
            bytes,
        });
        if bytes.len() <= SHORT_TEXT {
            send_message(self.grammar(), self.boot, body, &mut [0; 128], out)
        } else {
            send_message(
                self.grammar(),
                self.boot,
                body,
                &mut [0; limits::MESSAGE],
                out,
            )
        }
    }

    /// Reports these reads to the logger.
    pub(crate) fn send_reads(&self, reads: &ReadRecords, out: &mut Outbox)
        requires boot { 1 ≤ self.now.boot }
        requires writable { AreWritable reads.now }
        requires few { length out.old ≤ 46 }
        requires short { AreShort out.old }
        ensures reported { out.new ≡ out.old ++ spelled self.now.batches self.now.boot (messages_of self.now.key reads.now) }
        ensures few { length out.new ≤ length out.old + 32 }
        ensures short { AreShort out.new }
    {
        send_reads(self.batches, self.boot, self.key, reads, out);
    }

    /// Reports that the connection has ended, unless Ended has arrived.
    pub(crate) fn send_done(&mut self, out: &mut Outbox)
        requires boot { 1 ≤ self.old.boot }
        requires few { length out.old ≤ 79 }
        requires short { AreShortWithMark out.old }
        ensures state { self.new ≡ with_done self.old }
        ensures reported { out.new ≡ out.old ++ spelled self.old.batches self.old.boot (dones self.old) }
    {
        if self.stage == ConnStage::Done {
            return;
        }
        self.stage = ConnStage::Ending;
        fit(self.key, self.boot);
        send_message(
            self.grammar(),
            self.boot,
            Body::Done { key: self.key },
            &mut [0; 22],
            out,
        );
    }
}

/// Writes one message into this buffer, and sends it.
fn send_message(grammar: Grammar, boot: u64, body: Body<'_>, room: &mut [u8], out: &mut Outbox)
    requires sendable { IsSendableBy grammar (record { boot = boot; body = body }) }
    requires room { message_length (body_of body) ≤ length room.old }
    requires few { length out.old ≤ 80 }
    requires short { byte_count out.old + text_length body ≤ 64 * length out.old + most_text + most_state }
    ensures reported { out.new ≡ out.old ++ spelling_by grammar (message_of (record { boot = boot; body = body.entry })) ∷ [] }
    ensures few { length out.new ≡ length out.old + 1 }
    ensures short { byte_count out.new ≤ byte_count out.old + 64 + text_length body.entry }
{
    let len = put_msg_by(grammar, &Msg { boot, body }, room);
    out.push(&room[..len]);
}

/// Sends a Read for each of these reads, in order.
fn send_reads(wide: bool, boot: u64, key: Key, reads: &ReadRecords, out: &mut Outbox)
    requires boot { 1 ≤ boot }
    requires writable { AreWritable reads.now }
    requires few { length out.old ≤ 46 }
    requires short { AreShort out.old }
    ensures reported { out.new ≡ out.old ++ spelled wide boot (messages_of key reads.now) }
    ensures few { length out.new ≤ length out.old + 32 }
    ensures short { AreShort out.new }
{
    fit(key, boot);
    for i in 0..reads.len() {
        let (index, length) = reads.get(i);
        send_message(
            grammar_by(wide),
            boot,
            Body::Read { key, index, length },
            &mut [0; 28],
            out,
        );
    }
}

/// The grammar of a connection's messages.
fn grammar_by(wide: bool) -> Grammar
    ensures { result ≡ grammar_lem wide }
{
    if wide { Grammar::Wide } else { Grammar::Plain }
}

/// Facts for proofs: a key and a boot number fit their types.
fn fit(key: Key, boot: u64)
    ensures ip { key.ip < 2 ^ 32 }
    ensures port { key.port < 2 ^ 16 }
    ensures boot { boot < 2 ^ 64 }
{
    let (_ip, _port) = (key.ip, key.port);
    let _boot = boot;
}
