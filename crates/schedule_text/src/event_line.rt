//! The lines of events, read from the words after the first. The number of words is tested first, and then each number in order.

ghost use Rattle.std.specs.Prelude.{◌≡◌, ◌-◌, ◌^◌, ◌≤◌, ℕ, List, [], ◌∷◌, IfOk, MatchResult};
ghost use Rattle.ft_model.specs.Words.{words_of};
ghost use Rattle.ft_model.specs.Grammar.{number, boot_number, packet_number, client_number, window, long_number, boot_line, bare_line, deliver_line, flip_line};
ghost use Rattle.ft_model.specs.Grammar.{client_and_window, send_line, client_alone, part_number, every_number, wait_number, silence_number};
ghost use Rattle.ft_model.specs.Grammar.{stop_line, event_line};

use crate::spelling::read_number;
use crate::words::next_word;
use ft_model::{Event, LineWhy, Verb};

/// Returns the next word and what follows it. Without a word, the reason is `Count`.
pub(crate) fn word_of(words: &[u8]) -> Result<(&[u8], &[u8]), LineWhy>
    ensures { MatchResult result (λ w. words_of words.now ≡ w.0.now ∷ words_of w.1.now) (λ e. (words_of words.now ≡ []) × (e ≡ LineWhy.Count)) }
{
    match next_word(words) {
        Some(cut) => Ok(cut),
        None => Err(LineWhy::Count),
    }
}

/// Tests that no further word follows.
pub(crate) fn end_of(words: &[u8]) -> Result<(), LineWhy>
    ensures { MatchResult result (λ _. words_of words.now ≡ [])
        (λ e. (first : List ℕ) × (more : List (List ℕ)) × (words_of words.now ≡ first ∷ more) × (e ≡ LineWhy.Count)) }
{
    match next_word(words) {
        Some(_) => Err(LineWhy::Count),
        None => Ok(()),
    }
}

fn number_in(word: &[u8], least: u64, most: u64) -> Result<u64, LineWhy>
    ensures value { result ≡ number least most word.now }
    ensures range { IfOk result (λ n. (least ≤ n) × (n ≤ most)) }
{
    match read_number(word, least, most) {
        Some(n) => Ok(n),
        None => Err(LineWhy::Number),
    }
}

fn read_boot_number(word: &[u8]) -> Result<u64, LineWhy>
    ensures { result ≡ boot_number word.now }
{
    number_in(word, 1, u64::MAX)
}

fn read_packet_number(word: &[u8]) -> Result<u32, LineWhy>
    ensures { result ≡ packet_number word.now }
{
    Ok(number_in(word, 1, u32::MAX as u64)? as u32)
}

pub(crate) fn read_client_number(word: &[u8]) -> Result<u8, LineWhy>
    ensures { result ≡ client_number word.now }
{
    Ok(number_in(word, 1, 16)? as u8)
}

/// Reads the number of one of two loggers: 1 is the head, 2 the tail.
fn read_part(word: &[u8]) -> Result<u8, LineWhy>
    ensures { result ≡ part_number word.now }
{
    Ok(number_in(word, 1, 2)? as u8)
}

/// Reads after how many reads a mark is due.
pub(crate) fn read_every(word: &[u8]) -> Result<u32, LineWhy>
    ensures { result ≡ every_number word.now }
{
    Ok(number_in(word, 1, 1_000)? as u32)
}

/// Reads for how many ticks a server that lasts keeps what is done.
pub(crate) fn read_wait(word: &[u8]) -> Result<u32, LineWhy>
    ensures { result ≡ wait_number word.now }
{
    Ok(number_in(word, 1, 100_000)? as u32)
}

/// Reads after how many ticks a server that lasts asks a silent client.
pub(crate) fn read_silence(word: &[u8]) -> Result<u32, LineWhy>
    ensures { result ≡ silence_number word.now }
{
    Ok(number_in(word, 0, 100_000)? as u32)
}

fn read_window(word: &[u8]) -> Result<u16, LineWhy>
    ensures { result ≡ window word.now }
{
    Ok(number_in(word, 0, 65_535)? as u16)
}

pub(crate) fn read_long_number(word: &[u8]) -> Result<u32, LineWhy>
    ensures { result ≡ long_number word.now }
{
    Ok(number_in(word, 0, u32::MAX as u64)? as u32)
}

#[tactic(auto, unfolding(ft_model::specs::Grammar::boot_line))]
fn read_boot(words: &[u8]) -> Result<Event, LineWhy>
    ensures { result ≡ boot_line (words_of words.now) }
{
    let (boot, rest) = word_of(words)?;
    let (isn, rest) = word_of(rest)?;
    end_of(rest)?;
    let boot = read_boot_number(boot)?;
    let isn = read_long_number(isn)?;
    Ok(Event::Boot { boot, isn })
}

#[tactic(auto, unfolding(ft_model::specs::Grammar::bare_line))]
fn read_bare(event: Event, words: &[u8]) -> Result<Event, LineWhy>
    ensures { result ≡ bare_line event (words_of words.now) }
{
    end_of(words)?;
    Ok(event)
}

#[tactic(auto, unfolding(ft_model::specs::Grammar::deliver_line))]
fn read_deliver(words: &[u8]) -> Result<Event, LineWhy>
    ensures { result ≡ deliver_line (words_of words.now) }
{
    let (packet, rest) = word_of(words)?;
    end_of(rest)?;
    let packet = read_packet_number(packet)?;
    Ok(Event::Deliver { packet })
}

#[tactic(auto, unfolding(ft_model::specs::Grammar::flip_line))]
fn read_flip(words: &[u8]) -> Result<Event, LineWhy>
    ensures { result ≡ flip_line (words_of words.now) }
{
    let (packet, rest) = word_of(words)?;
    let (bit, rest) = word_of(rest)?;
    end_of(rest)?;
    let packet = read_packet_number(packet)?;
    let bit = read_long_number(bit)?;
    Ok(Event::Flip { packet, bit })
}

#[tactic(auto, unfolding(ft_model::specs::Grammar::client_and_window))]
fn read_client_and_window(words: &[u8]) -> Result<(u8, u16), LineWhy>
    ensures { result ≡ client_and_window (words_of words.now) }
{
    let (client, rest) = word_of(words)?;
    let (room, rest) = word_of(rest)?;
    end_of(rest)?;
    let client = read_client_number(client)?;
    let window = read_window(room)?;
    Ok((client, window))
}

#[tactic(auto, unfolding(ft_model::specs::Grammar::send_line))]
fn read_send(words: &[u8]) -> Result<Event, LineWhy>
    ensures { result ≡ send_line (words_of words.now) }
{
    let (client, rest) = word_of(words)?;
    let (from, rest) = word_of(rest)?;
    let (len, rest) = word_of(rest)?;
    end_of(rest)?;
    let client = read_client_number(client)?;
    let from = read_long_number(from)?;
    let len = read_long_number(len)?;
    Ok(Event::Send { client, from, len })
}

#[tactic(auto, unfolding(ft_model::specs::Grammar::client_alone))]
fn read_client_alone(words: &[u8]) -> Result<u8, LineWhy>
    ensures { result ≡ client_alone (words_of words.now) }
{
    let (client, rest) = word_of(words)?;
    end_of(rest)?;
    read_client_number(client)
}

#[tactic(auto, unfolding(ft_model::specs::Grammar::stop_line))]
fn read_stop(words: &[u8]) -> Result<Event, LineWhy>
    ensures { result ≡ stop_line (words_of words.now) }
{
    let (part, rest) = word_of(words)?;
    end_of(rest)?;
    let part = read_part(part)?;
    Ok(Event::Stop { part })
}

/// Reads an event's line from the words after its first.
pub(crate) fn read_event(verb: Verb, words: &[u8]) -> Result<Event, LineWhy>
    ensures { result ≡ event_line verb (words_of words.now) }
{
    match verb {
        Verb::Boot => read_boot(words),
        Verb::Crash => read_bare(Event::Crash, words),
        Verb::Tick => read_bare(Event::Tick, words),
        Verb::Deliver => read_deliver(words),
        Verb::Flip => read_flip(words),
        Verb::Open => {
            let (client, window) = read_client_and_window(words)?;
            Ok(Event::Begin { client, window })
        }
        Verb::Send => read_send(words),
        Verb::Fin => Ok(Event::Fin {
            client: read_client_alone(words)?,
        }),
        Verb::Ack => {
            let (client, window) = read_client_and_window(words)?;
            Ok(Event::Ack { client, window })
        }
        Verb::Reset => Ok(Event::Reset {
            client: read_client_alone(words)?,
        }),
        Verb::Stop => read_stop(words),
    }
}
