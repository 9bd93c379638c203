//! The line of an event.

ghost use Rattle.std.specs.Prelude.{◌≡◌, ◌++◌, ◌∷◌, codes, decimal, OnOk, OnErr};
ghost use Rattle.ft_model.specs.Texts.{spaced};
ghost use Rattle.ft_model.specs.Report.{event_words, event_line};

use crate::line_out::LineOut;
use crate::line_text::{put_field, put_number, put_word};
use ft_io::NoMemory;
use ft_model::Event;
use std::alloc::Global;

/// Writes the line of event `n`: its number, and the event as a schedule spells it. After `NoMemory` `out` is unchanged.
pub fn write_event(alloc: Global, n: u32, e: &Event, out: &mut Vec<u8>) -> Result<(), NoMemory>
    ensures ok { OnOk result (out.new.items ≡ out.old.items ++ event_line n e.now) }
    ensures err { OnErr result (out.new.items ≡ out.old.items) }
{
    let mut line = LineOut::open(alloc, out);
    let written = put_event_line(n, e, &mut line);
    line.close(out, written)
}

#[tactic(auto, using(crate::proofs::LineLemmas::line_rules), unfolding(ft_model::specs::Report::event_line))]
pub(crate) fn put_event_line(n: u32, e: &Event, line: &mut LineOut) -> Result<(), NoMemory>
    ensures ok { OnOk result (line.new.words ≡ line.old.words ++ event_line n e.now) }
    ensures before { line.new.before ≡ line.old.before }
{
    line.append_text("event")?;
    put_number(u64::from(n), line)?;
    put_event(e, line)?;
    line.push(b'\n')
}

/// Appends the words of an event, each after a space.
#[tactic(auto, using(crate::proofs::LineLemmas::line_rules))]
fn put_event(e: &Event, line: &mut LineOut) -> Result<(), NoMemory>
    ensures ok { OnOk result (line.new.words ≡ line.old.words ++ spaced (event_words e.now)) }
    ensures before { line.new.before ≡ line.old.before }
{
    match *e {
        Event::Boot { boot, isn } => put_two(" boot ", boot, u64::from(isn), line),
        Event::Crash => put_word("crash", line),
        Event::Tick => put_word("tick", line),
        Event::Deliver { packet } => put_field(" deliver ", u64::from(packet), line),
        Event::Flip { packet, bit } => put_two(" flip ", u64::from(packet), u64::from(bit), line),
        Event::Begin { client, window } => put_two(
            " open ",
            u64::from(client),
            u64::from(window),
            line,
        ),
        Event::Send { client, from, len } => {
            put_two(" send ", u64::from(client), u64::from(from), line)?;
            put_number(u64::from(len), line)
        }
        Event::Fin { client } => put_field(" fin ", u64::from(client), line),
        Event::Ack { client, window } => put_two(
            " ack ",
            u64::from(client),
            u64::from(window),
            line,
        ),
        Event::Reset { client } => put_field(" reset ", u64::from(client), line),
        Event::Stop { part } => put_field(" stop ", u64::from(part), line),
    }
}

/// Appends an event's word with its spaces, and its two numbers.
#[tactic(auto, using(std::proofs::Common::append_assoc))]
fn put_two(word: &str, first: u64, second: u64, line: &mut LineOut) -> Result<(), NoMemory>
    ensures ok { OnOk result (line.new.words ≡ line.old.words ++ (word.now ++ (decimal first ++ 32 ∷ decimal second))) }
    ensures before { line.new.before ≡ line.old.before }
{
    put_field(word, first, line)?;
    put_number(second, line)
}
