//! The line of a message about forgetting: its name, its boot number, and the connection that it names.

ghost use Rattle.std.specs.Prelude.{◌≡◌, ◌++◌, OnOk, OnErr};
ghost use Rattle.forget_wire.specs.Value.{body_of, message_of, named_said};
ghost use Rattle.ft_model.specs.Report.{line_of_packet};
ghost use Rattle.ft_model.specs.Texts.{spaced};
ghost use Rattle.lasting_laws.specs.LastingReport.{forget_words, name_of_forget, named_words};

use crate::line_out::LineOut;
use crate::line_text::{put_field, put_word};
use crate::message_text::put_key;
use crate::packet_text::put_start;
use forget_wire::{ForgetBody, ForgetMsg, Named};
use ft_io::NoMemory;
use ft_model::Way;
use std::alloc::Global;

/// Writes the line of packet `n` of a run, which is a message about forgetting. After `NoMemory` `out` is unchanged.
pub fn write_forget_line(
    alloc: Global,
    n: u32,
    way: Way,
    msg: &ForgetMsg,
    out: &mut Vec<u8>,
) -> Result<(), NoMemory>
    ensures ok { OnOk result (out.new.items ≡ out.old.items ++ line_of_packet n way (forget_words (message_of msg.now))) }
    ensures err { OnErr result (out.new.items ≡ out.old.items) }
{
    let mut line = LineOut::open(alloc, out);
    let written = put_forget_line(n, way, msg, &mut line);
    line.close(out, written)
}

#[tactic(auto, using(std::proofs::Common::append_assoc))]
fn put_forget_line(n: u32, way: Way, msg: &ForgetMsg, line: &mut LineOut) -> Result<(), NoMemory>
    ensures ok { OnOk result (line.new.words ≡ line.old.words ++ line_of_packet n way (forget_words (message_of msg.now))) }
    ensures before { line.new.before ≡ line.old.before }
{
    put_start(n, way, line)?;
    put_forget(msg, line)?;
    line.push(b'\n')
}

/// Appends a message about forgetting: its name, its boot number, and the connection that it names.
#[tactic(auto, using(crate::proofs::LineLemmas::line_rules), unfolding(lasting_laws::specs::LastingReport::forget_words))]
fn put_forget(msg: &ForgetMsg, line: &mut LineOut) -> Result<(), NoMemory>
    ensures ok { OnOk result (line.new.words ≡ line.old.words ++ spaced (forget_words (message_of msg.now))) }
    ensures before { line.new.before ≡ line.old.before }
{
    put_word(name(&msg.body), line)?;
    put_field(" boot ", msg.boot, line)?;
    put_named(&msg.body.named(), line)
}

/// Returns the name of a kind of message.
fn name(body: &ForgetBody) -> &'static str
    ensures { result.now ≡ name_of_forget (body_of body.now) }
{
    match body {
        ForgetBody::Forget(_) => "Forget",
        ForgetBody::Forgotten(_) => "Forgotten",
    }
}

/// Appends a connection: its key, and both initial sequence numbers.
#[tactic(auto, using(crate::proofs::LineLemmas::line_rules))]
fn put_named(named: &Named, line: &mut LineOut) -> Result<(), NoMemory>
    ensures ok { OnOk result (line.new.words ≡ line.old.words ++ spaced (named_words (named_said named.now))) }
    ensures before { line.new.before ≡ line.old.before }
{
    put_key(named.key, line)?;
    put_field(" cisn ", u64::from(named.cisn), line)?;
    put_field(" sisn ", u64::from(named.sisn), line)
}
