//! The line of a packet, with its fields by name. The packet is a segment, a message, which may be about marks, or a datagram between two loggers.

ghost use Rattle.std.specs.Prelude.{◌≡◌, ◌++◌, ◌∷◌, ◌↔◌, codes, decimal, [], None, IsTrue, OnOk, OnErr, IsSome, IfSome};
ghost use Rattle.seq_arith.specs.MarkGrammar.{reading as mark_reading};
ghost use Rattle.seq_arith.specs.MessageGrammar.{reading_by as message_reading_by};
ghost use Rattle.seq_arith.specs.TwinGrammar.{reading_by};
ghost use Rattle.seq_arith.specs.Value.{said};
ghost use Rattle.ft_model.specs.Texts.{spaced, way_text};
ghost use Rattle.ft_model.specs.Report.{segment_words, line_of_packet};
ghost use Rattle.schedule_text.specs.Bytes.{content_by, content_in, logged_words, reported_words};

use crate::line_out::LineOut;
use crate::line_text::{
    put_field, put_flags, put_hex, put_mss, put_number, put_timestamps, put_way,
};
use crate::mark_text::put_mark_message;
use crate::message_text::put_message;
use ft_io::NoMemory;
use ft_model::Way;
use logger_wire::{Grammar, TwinMsg, read_mark, read_msg_by, read_twin_by};
use segment_codec::{read_accepted, read_packet};
use seq_arith::Head;
use std::alloc::Global;

/// Returns whether bytes are a packet of this direction: whether the codec of its kind accepts them, that of messages by the plain grammar.
pub fn is_packet(way: Way, bytes: &[u8]) -> bool
    ensures { IsTrue result ↔ IsSome (content_in way bytes.now) }
{
    is_packet_by(Grammar::Plain, way, bytes)
}

/// Returns whether bytes are a packet of this direction, where messages have this grammar.
fn is_packet_by(grammar: Grammar, way: Way, bytes: &[u8]) -> bool
    ensures { IsTrue result ↔ IsSome (content_by grammar way bytes.now) }
{
    match way {
        Way::ClientToServer(_) | Way::ServerToClient(_) => read_packet(bytes).is_ok(),
        Way::ServerToLogger | Way::LoggerToServer => is_logged(grammar, bytes),
        Way::HeadToTail | Way::TailToHead => is_reported(grammar, bytes),
    }
}

/// Returns whether bytes are a message between a server and its logger, or one about marks.
fn is_logged(grammar: Grammar, bytes: &[u8]) -> bool
    ensures { IsTrue result ↔ IsSome (logged_words (message_reading_by grammar bytes.now) (mark_reading bytes.now)) }
{
    read_msg_by(grammar, bytes).is_ok() || read_mark(bytes).is_ok()
}

/// Returns whether bytes are a datagram that one of two loggers sends the other.
fn is_reported(grammar: Grammar, bytes: &[u8]) -> bool
    ensures { IsTrue result ↔ IsSome (reported_words grammar (reading_by grammar bytes.now)) }
{
    match read_twin_by(grammar, bytes) {
        Ok(TwinMsg::Forward { message, .. }) => read_msg_by(grammar, message).is_ok(),
        Ok(TwinMsg::Got { .. }) => true,
        _ => false,
    }
}

/// Writes the line of packet `n` of a run of the plain grammar: its number, its direction and its content. The bytes are a packet of that direction. After
/// `NoMemory` `out` is unchanged.
pub fn write_packet_line(
    alloc: Global,
    n: u32,
    way: Way,
    bytes: &[u8],
    out: &mut Vec<u8>,
) -> Result<(), NoMemory>
    requires { IsSome (content_in way bytes.now) }
    ensures ok { OnOk result (IfSome (content_in way bytes.now) (λ words. out.new.items ≡ out.old.items ++ line_of_packet n way words)) }
    ensures err { OnErr result (out.new.items ≡ out.old.items) }
{
    write_packet_line_by(alloc, Grammar::Plain, n, way, bytes, out)
}

/// Writes the line of packet `n` of a run whose messages have this grammar. After `NoMemory` `out` is unchanged.
pub fn write_packet_line_by(
    alloc: Global,
    grammar: Grammar,
    n: u32,
    way: Way,
    bytes: &[u8],
    out: &mut Vec<u8>,
) -> Result<(), NoMemory>
    requires { IsSome (content_by grammar way bytes.now) }
    ensures ok { OnOk result (IfSome (content_by grammar way bytes.now) (λ words. out.new.items ≡ out.old.items ++ line_of_packet n way words)) }
    ensures err { OnErr result (out.new.items ≡ out.old.items) }
{
    let mut line = LineOut::open(alloc, out);
    let written = put_packet_line(grammar, n, way, bytes, &mut line);
    line.close(out, written)
}

#[tactic(auto, using(std::proofs::Common::append_assoc))]
fn put_packet_line(
    grammar: Grammar,
    n: u32,
    way: Way,
    bytes: &[u8],
    line: &mut LineOut,
) -> Result<(), NoMemory>
    requires { IsSome (content_by grammar way bytes.now) }
    ensures ok { OnOk result (IfSome (content_by grammar way bytes.now) (λ words. line.new.words ≡ line.old.words ++ line_of_packet n way words)) }
    ensures before { line.new.before ≡ line.old.before }
{
    put_start(n, way, line)?;
    put_bytes(grammar, way, bytes, line)?;
    line.push(b'\n')
}

/// Appends the part of the line before the packet's content.
#[tactic(auto, using(crate::proofs::LineLemmas::line_rules))]
pub(crate) fn put_start(n: u32, way: Way, line: &mut LineOut) -> Result<(), NoMemory>
    ensures ok { OnOk result (line.new.words ≡ line.old.words ++ (codes "packet" ++ spaced (decimal n ∷ way_text way ∷ []))) }
    ensures before { line.new.before ≡ line.old.before }
{
    line.append_text("packet")?;
    put_number(u64::from(n), line)?;
    put_way(way, line)
}

/// Appends the words of the packet that bytes spell, each after a space.
#[tactic(auto, unfolding(ft_model::specs::Report::content_words))]
fn put_bytes(grammar: Grammar, way: Way, bytes: &[u8], line: &mut LineOut) -> Result<(), NoMemory>
    requires { IsSome (content_by grammar way bytes.now) }
    ensures ok { OnOk result (IfSome (content_by grammar way bytes.now) (λ words. line.new.words ≡ line.old.words ++ spaced words)) }
    ensures before { line.new.before ≡ line.old.before }
{
    match way {
        Way::ClientToServer(_) | Way::ServerToClient(_) => {
            let packet = read_accepted(bytes);
            put_segment(&packet.head, packet.payload, line)
        }
        Way::ServerToLogger | Way::LoggerToServer => put_logged(grammar, bytes, line),
        Way::HeadToTail | Way::TailToHead => put_reported(grammar, bytes, line),
    }
}

/// Appends the words of a message between server and logger, or of one about marks.
fn put_logged(grammar: Grammar, bytes: &[u8], line: &mut LineOut) -> Result<(), NoMemory>
    requires { IsSome (logged_words (message_reading_by grammar bytes.now) (mark_reading bytes.now)) }
    ensures ok { OnOk result (IfSome (logged_words (message_reading_by grammar bytes.now) (mark_reading bytes.now)) (λ words. line.new.words
        ≡ line.old.words ++ spaced words)) }
    ensures before { line.new.before ≡ line.old.before }
{
    if let Ok(msg) = read_msg_by(grammar, bytes) {
        return put_message(&msg, line);
    }
    let Ok(msg) = read_mark(bytes) else {
        unreachable!()
    };
    put_mark_message(&msg, line)
}

/// Appends the words of a datagram between two loggers: a message with its number, or the number alone.
#[tactic(auto, using(crate::proofs::LineLemmas::line_rules), unfolding(ft_model::specs::Report::forward_words, ft_model::specs::Report::got_words))]
fn put_reported(grammar: Grammar, bytes: &[u8], line: &mut LineOut) -> Result<(), NoMemory>
    requires { IsSome (reported_words grammar (reading_by grammar bytes.now)) }
    ensures ok { OnOk result (IfSome (reported_words grammar (reading_by grammar bytes.now)) (λ words. line.new.words ≡ line.old.words ++ spaced words)) }
    ensures before { line.new.before ≡ line.old.before }
{
    match read_twin_by(grammar, bytes) {
        Ok(TwinMsg::Forward { number, message }) => {
            let Ok(msg) = read_msg_by(grammar, message) else {
                unreachable!()
            };
            put_field(" Forward number ", number, line)?;
            put_message(&msg, line)
        }
        Ok(TwinMsg::Got { number }) => put_field(" Got number ", number, line),
        _ => unreachable!(),
    }
}

/// Appends a segment: its fields, and its timestamps at the end.
#[tactic(auto, using(crate::proofs::LineLemmas::line_rules))]
fn put_segment(head: &Head, payload: &[u8], line: &mut LineOut) -> Result<(), NoMemory>
    ensures ok { OnOk result (line.new.words ≡ line.old.words ++ spaced (segment_words (record { head = said head.now; payload = payload.now }))) }
    ensures before { line.new.before ≡ line.old.before }
{
    put_bare_segment(head, payload, line)?;
    put_timestamps(head.timestamps, line)
}

/// Appends a segment's flags, then its other fields, without its timestamps.
#[tactic(auto, using(crate::proofs::LineLemmas::line_rules))]
fn put_bare_segment(head: &Head, payload: &[u8], line: &mut LineOut) -> Result<(), NoMemory>
    ensures ok { OnOk result (line.new.words ≡ line.old.words
        ++ spaced (segment_words (record { head = record (said head.now) { timestamps = None }; payload = payload.now }))) }
    ensures before { line.new.before ≡ line.old.before }
{
    put_flags(head.flags, line)?;
    put_field(" seq ", u64::from(head.seq.0), line)?;
    put_field(" ack ", u64::from(head.ack.0), line)?;
    put_field(" window ", u64::from(head.window), line)?;
    put_mss(head.mss, line)?;
    line.append_text(" data")?;
    put_hex(payload, line)
}
