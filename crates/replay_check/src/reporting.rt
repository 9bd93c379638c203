//! The text that a run or a check writes to the error sink when it ends early.

ghost use Rattle.std.specs.Prelude.{◌≡◌, ◌⊎◌, ◌++◌, ◌∷◌, [], OnOk, OnErr};
ghost use Rattle.std.specs.Io.KnownBytes.{Appends};
ghost use Rattle.ft_io.specs.Faults.{Rose};
ghost use Rattle.replay_check.specs.PartialWrite.{WroteFront, CountsFailed};
ghost use Rattle.replay_check.specs.Ends.{code_of};
ghost use Rattle.replay_check.specs.ErrText.{line_word as line_lem, event_word as event_lem, limit_word as limit_lem, law_word as law_lem, numbered};
ghost use Rattle.replay_check.specs.ErrText.{error_line, cause_text, text_of};

use crate::status::{RunEnd, Status, TooMuch};
use ft_io::{Failed, Sink, write_all};
use ft_model::{EventWhy, LineWhy};
use itoa::Buffer;
use report_laws::Law;

fn line_word(why: LineWhy) -> &'static str
    ensures { result.now ≡ line_lem why }
{
    match why {
        LineWhy::Character => "character",
        LineWhy::Word => "word",
        LineWhy::Place => "place",
        LineWhy::Count => "count",
        LineWhy::Number => "number",
        LineWhy::Address => "address",
        LineWhy::Script => "script",
        LineWhy::Built => "built",
    }
}

fn event_word(why: EventWhy) -> &'static str
    ensures { result.now ≡ event_lem why }
{
    match why {
        EventWhy::Up => "up",
        EventWhy::Boot => "boot",
        EventWhy::Down => "down",
        EventWhy::Packet => "packet",
        EventWhy::Bit => "bit",
        EventWhy::Stop => "stop",
        EventWhy::Client => "client",
        EventWhy::State => "state",
        EventWhy::Range => "range",
    }
}

fn limit_word(what: TooMuch) -> &'static str
    ensures { result.now ≡ limit_lem what }
{
    match what {
        TooMuch::Text => "text",
        TooMuch::Events => "events",
        TooMuch::Packets => "packets",
    }
}

fn law_word(law: Law) -> &'static str
    ensures { result.now ≡ law_lem law }
{
    match law {
        Law::Client => "client",
        Law::Log => "log",
        Law::Server => "server",
        Law::Packet => "packet",
        Law::Text => "text",
        Law::Event => "event",
        Law::End => "end",
    }
}

/// Writes a text.
#[tactic(auto, using(crate::proofs::Fronts::front_taken))]
pub(crate) fn write_text<E: Sink>(err: &mut E, text: &str) -> Result<(), Failed>
    ensures whole { OnOk result (Appends (E.taken err.old) (E.taken err.new) text.now) }
    ensures front { OnErr result (WroteFront (E.taken err.old) (E.taken err.new) text.now) }
    ensures fault { CountsFailed (E.fault_count err.old) (E.fault_count err.new) result }
{
    write_all(err, text.as_bytes())?;
    Ok(())
}

/// Writes two texts, one after the other.
#[tactic(auto, using(crate::proofs::Fronts::then_whole, crate::proofs::Fronts::then_front, crate::proofs::Fronts::front_then))]
pub(crate) fn write_both<E: Sink>(err: &mut E, first: &str, second: &str) -> Result<(), Failed>
    ensures whole { OnOk result (Appends (E.taken err.old) (E.taken err.new) (first.now ++ second.now)) }
    ensures front { OnErr result (WroteFront (E.taken err.old) (E.taken err.new) (first.now ++ second.now)) }
    ensures fault { CountsFailed (E.fault_count err.old) (E.fault_count err.new) result }
{
    write_text(err, first)?;
    write_text(err, second)?;
    Ok(())
}

/// Writes a name followed by its number, and a word.
#[tactic(auto, using(crate::proofs::Cited::write_legal_lemmas), unfolding(crate::specs::ErrText::numbered))]
fn write_numbered<E: Sink>(err: &mut E, name: &str, n: u32, word: &str) -> Result<(), Failed>
    ensures whole { OnOk result (Appends (E.taken err.old) (E.taken err.new) (numbered name.now n word.now)) }
    ensures front { OnErr result (WroteFront (E.taken err.old) (E.taken err.new) (numbered name.now n word.now)) }
    ensures fault { CountsFailed (E.fault_count err.old) (E.fault_count err.new) result }
{
    let mut number = Buffer::new();
    write_both(err, name, number.format(n))?;
    write_both(err, ": ", word)?;
    Ok(())
}

/// Writes why a run ended.
fn write_cause<E: Sink>(err: &mut E, end: RunEnd) -> Result<(), Failed>
    ensures whole { OnOk result (Appends (E.taken err.old) (E.taken err.new) (cause_text end)) }
    ensures front { OnErr result (WroteFront (E.taken err.old) (E.taken err.new) (cause_text end)) }
    ensures fault { CountsFailed (E.fault_count err.old) (E.fault_count err.new) result }
{
    match end {
        RunEnd::Usage => write_text(err, "usage"),
        RunEnd::NoMemory => write_text(err, "no memory"),
        RunEnd::ReadFault => write_text(err, "read fault"),
        RunEnd::WriteFault => write_text(err, ""),
        RunEnd::BadLine { line, why } => write_numbered(err, "line ", line, line_word(why)),
        RunEnd::BadEvent { event, why } => write_numbered(err, "event ", event, event_word(why)),
        RunEnd::TooLong(what) => write_both(err, "too long: ", limit_word(what)),
        RunEnd::Rejected { line, law } => write_numbered(err, "line ", line, law_word(law)),
    }
}

/// Writes why a run ended, and the end of the line.
#[tactic(auto, using(crate::proofs::Fronts::then_whole, crate::proofs::Fronts::then_front, crate::proofs::Fronts::front_then))]
fn write_line<E: Sink>(err: &mut E, end: RunEnd) -> Result<(), Failed>
    ensures whole { OnOk result (Appends (E.taken err.old) (E.taken err.new) (cause_text end ++ 10 ∷ [])) }
    ensures front { OnErr result (WroteFront (E.taken err.old) (E.taken err.new) (cause_text end ++ 10 ∷ [])) }
    ensures fault { CountsFailed (E.fault_count err.old) (E.fault_count err.new) result }
{
    write_cause(err, end)?;
    write_text(err, "\n")?;
    Ok(())
}

/// Writes the whole line on an end: the program's name, why the run ended, and the end of the line.
#[tactic(auto, using(crate::proofs::Cited::write_legal_lemmas), unfolding(crate::specs::ErrText::error_line))]
fn write_end<E: Sink>(err: &mut E, end: RunEnd) -> Result<(), Failed>
    ensures whole { OnOk result (Appends (E.taken err.old) (E.taken err.new) (error_line (cause_text end))) }
    ensures front { OnErr result (WroteFront (E.taken err.old) (E.taken err.new) (error_line (cause_text end))) }
    ensures fault { CountsFailed (E.fault_count err.old) (E.fault_count err.new) result }
{
    write_text(err, "ftreplay: ")?;
    write_line(err, end)?;
    Ok(())
}

fn code(end: RunEnd) -> u8
    ensures { result ≡ code_of end }
{
    match end {
        RunEnd::Usage => 2,
        RunEnd::NoMemory => 3,
        RunEnd::ReadFault => 4,
        RunEnd::WriteFault => 5,
        RunEnd::BadLine { .. } => 6,
        RunEnd::BadEvent { .. } => 7,
        RunEnd::TooLong(_) => 8,
        RunEnd::Rejected { .. } => 9,
    }
}

/// Writes the text of an end and returns its exit status, or 5 if that write failed. Where the sink of the report failed, it writes nothing.
pub fn report_end<E: Sink>(err: &mut E, end: RunEnd) -> Status
    ensures reported { ((result.code ≡ code_of end) × Appends (E.taken err.old) (E.taken err.new) (text_of end)
        × (E.fault_count err.new ≡ E.fault_count err.old))
        ⊎ ((result.code ≡ 5) × Rose (E.fault_count err.old) (E.fault_count err.new)
        × WroteFront (E.taken err.old) (E.taken err.new) (text_of end)) }
    ensures unreported { end ≡ RunEnd.WriteFault → (err.new ≡ err.old) × (result.code ≡ 5) }
{
    if matches!(end, RunEnd::WriteFault) {
        return Status { code: 5 };
    }
    match write_end(err, end) {
        Ok(()) => Status { code: code(end) },
        Err(Failed) => Status { code: 5 },
    }
}
