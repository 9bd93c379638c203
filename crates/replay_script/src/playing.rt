//! The playing of one schedule by `ftreplay`, over sources and sinks in memory.

use ft_io::NoMemory;
use ft_system::{MemSink, MemSource};
use std::alloc::Global;
use test_data::Said;

/// The top call of `ftreplay`, which the program that plays the script passes.
pub trait Tool {
    /// Runs it with these words, over memory. Its exit status.
    fn replay(
        alloc: Global,
        words: &[String],
        input: &mut MemSource,
        report: &mut MemSink,
        err: &mut MemSink,
    ) -> u8;
}

/// What the last words of an order say: which call of the source, of the sink of the report and of that of the errors fails, 0 for none, and how many of the
/// report's last lines are printed, 0 for all.
#[derive(Clone, Copy)]
struct Ends {
    read: u32,
    wrote: u32,
    reported: u32,
    last: u32,
}

/// Plays a text as the order says, and says its name, its status, and what was written.
pub(crate) fn play<T: Tool>(
    alloc: Global,
    order: &[&str],
    text: &[u8],
    said: &mut Said,
) -> Result<(), NoMemory> {
    let [name, spoken, read, wrote, reported, last] = order else {
        said.line("no such order");
        return Ok(());
    };
    let ends = Ends {
        read: number(read),
        wrote: number(wrote),
        reported: number(reported),
        last: number(last),
    };
    let words = words_of(alloc, spoken)?;
    play_words::<T>(alloc, name, &words, ends, text, said)
}

/// The words of an order, joined there by `~`.
fn words_of(alloc: Global, spoken: &str) -> Result<Vec<String>, NoMemory> {
    let mut words = Vec::new(alloc);
    for word in spoken.split('~') {
        words.push(String::from_str(alloc, word)?)?;
    }
    Ok(words)
}

/// Plays a text with these words.
fn play_words<T: Tool>(
    alloc: Global,
    name: &str,
    words: &[String],
    ends: Ends,
    text: &[u8],
    said: &mut Said,
) -> Result<(), NoMemory> {
    let read_fails = failing(alloc, ends.read)?;
    let write_fails = failing(alloc, ends.wrote)?;
    let reported_fails = failing(alloc, ends.reported)?;
    let mut input = MemSource::new(text.to_vec(alloc)?, read_fails);
    let mut report = MemSink::new(alloc, write_fails);
    let mut err = MemSink::new(alloc, reported_fails);
    let status = T::replay(alloc, words, &mut input, &mut report, &mut err);
    write!(said, "{name}: status {status}\n");
    said.add(err.written());
    said.add(last_lines(report.written(), ends.last));
    Ok(())
}

/// Plays a text by `run`, and says what `check` says of its report.
pub(crate) fn play_checked<T: Tool>(
    alloc: Global,
    name: &str,
    text: &[u8],
    said: &mut Said,
) -> Result<(), NoMemory> {
    let words = words_of(alloc, "run")?;
    let mut input = MemSource::new(text.to_vec(alloc)?, Vec::new(alloc));
    let mut report = MemSink::new(alloc, Vec::new(alloc));
    let mut err = MemSink::new(alloc, Vec::new(alloc));
    T::replay(alloc, &words, &mut input, &mut report, &mut err);
    let order = [name, "check", "0", "0", "0", "0"];
    play::<T>(alloc, &order, report.written(), said)
}

/// A number of an order; 0 for what is none.
fn number(word: &str) -> u32 {
    match word.parse::<u32>() {
        Ok(n) => n,
        Err(_) => 0,
    }
}

/// The numbers of the calls that fail: this one, or none for 0.
fn failing(alloc: Global, number: u32) -> Result<Vec<u32>, NoMemory> {
    let mut fails = Vec::new(alloc);
    if number != 0 {
        fails.push(number)?;
    }
    Ok(fails)
}

/// The last lines of a text, this many of them, or all for 0.
fn last_lines(text: &[u8], count: u32) -> &[u8] {
    if count == 0 {
        return text;
    }
    let mut left = count;
    for start in (1..text.len()).rev() {
        if text[start - 1] == b'\n' {
            left = left.saturating_sub(1);
            if left == 0 {
                return &text[start..];
            }
        }
    }
    text
}
