//! A log in memory, as far as a restart asks for it.

use crate::peers::{CISN, SISN};
use crate::restarts::letters::{LOG, MARK, add_key, begin_letter, end_letter};
use ft_io::{Key, NoMemory};
use logger_wire::{Body, MarkBody, MarkMsg, Msg};
use reincarnate::AnyMsg;
use std::alloc::Global;

const ENTRY: u8 = 4;

const PART: u8 = 6;

const LENS: u8 = 8;

/// The kind of a Held, among the messages about marks.
const HELD: u8 = 4;

/// The size of segments in each entry.
const MSS: u16 = 536;

/// A mark, of no reads where there is none.
#[derive(Clone, Copy)]
pub(crate) struct Marked<'a> {
    pub reads: u32,
    pub length: u32,
    pub made: u32,
    pub state: &'a [u8],
}

pub(crate) const NO_MARK: Marked<'static> = Marked {
    reads: 0,
    length: 0,
    made: 0,
    state: b"",
};

/// An entry.
#[derive(Clone, Copy)]
pub(crate) struct Logged<'a> {
    pub key: Key,
    pub bytes: &'a [u8],
    pub fin: u8,
    pub done: u8,
    pub reads: &'a [u16],
    pub acked: u32,
    pub mark: Marked<'a>,
}

/// The log's answer to a question of either kind.
pub(crate) fn any_answer(
    alloc: Global,
    boot: u8,
    entries: &[Logged<'_>],
    question: &AnyMsg<'_>,
) -> Result<Vec<u8>, NoMemory> {
    match question {
        AnyMsg::Log(question) => answer(alloc, boot, entries, question),
        AnyMsg::Mark(
            MarkMsg {
                body: MarkBody::Ask { key },
                ..
            },
        ) => match entry_of(entries, *key) {
            Some(entry) => held_of(alloc, boot, *key, entry.mark),
            None => Ok(Vec::new(alloc)),
        },
        AnyMsg::Mark(_) => Ok(Vec::new(alloc)),
    }
}

/// The log's answer to a question, as bytes; none where it has no answer.
fn answer(
    alloc: Global,
    boot: u8,
    entries: &[Logged<'_>],
    question: &Msg<'_>,
) -> Result<Vec<u8>, NoMemory> {
    match question.body {
        Body::List { index } => match entries.get(usize::from(index)) {
            Some(entry) => head_of(alloc, boot, index, entry),
            None => Ok(Vec::new(alloc)),
        },
        Body::Bytes { key, offset } => match entry_of(entries, key) {
            Some(entry) => part_of(alloc, boot, entry, offset),
            None => Ok(Vec::new(alloc)),
        },
        Body::Cuts { key, first } => match entry_of(entries, key) {
            Some(entry) => lens_of(alloc, boot, entry, first),
            None => Ok(Vec::new(alloc)),
        },
        _ => Ok(Vec::new(alloc)),
    }
}

fn entry_of<'a, 'b>(entries: &'a [Logged<'b>], key: Key) -> Option<&'a Logged<'b>> {
    entries.iter().find(|entry| entry.key == key)
}

/// The entry's head. The initial sequence numbers are those of the worked runs.
pub(crate) fn head_of(
    alloc: Global,
    boot: u8,
    index: u16,
    entry: &Logged<'_>,
) -> Result<Vec<u8>, NoMemory> {
    let length = (entry.bytes.len() & 0xff_ffff) as u32;
    let reads = (entry.reads.len() & 0xff_ffff) as u32;
    let mut fields = begin_letter(alloc, LOG, ENTRY, boot);
    fields.add(&index.to_be_bytes());
    add_key(&mut fields, entry.key);
    fields.add(&CISN.0.to_be_bytes());
    fields.add(&SISN.0.to_be_bytes());
    fields.add(&MSS.to_be_bytes());
    fields.add(&length.to_be_bytes());
    fields.add(&[entry.fin, entry.done]);
    fields.add(&reads.to_be_bytes());
    fields.add(&entry.acked.to_be_bytes());
    end_letter(alloc, &fields)
}

/// At most 1,024 bytes from an offset on.
pub(crate) fn part_of(
    alloc: Global,
    boot: u8,
    entry: &Logged<'_>,
    offset: u32,
) -> Result<Vec<u8>, NoMemory> {
    let from = (offset as usize).min(entry.bytes.len());
    let rest = &entry.bytes[from..];
    let mut fields = begin_letter(alloc, LOG, PART, boot);
    add_key(&mut fields, entry.key);
    fields.add(&offset.to_be_bytes());
    fields.add(&rest[..rest.len().min(1_024)]);
    end_letter(alloc, &fields)
}

/// At most 512 lengths from one on.
pub(crate) fn lens_of(
    alloc: Global,
    boot: u8,
    entry: &Logged<'_>,
    first: u32,
) -> Result<Vec<u8>, NoMemory> {
    let mut fields = begin_letter(alloc, LOG, LENS, boot);
    add_key(&mut fields, entry.key);
    fields.add(&first.to_be_bytes());
    for length in entry.reads.iter().skip(first as usize).take(512) {
        fields.add(&(*length).to_be_bytes());
    }
    end_letter(alloc, &fields)
}

/// The mark of a connection.
pub(crate) fn held_of(
    alloc: Global,
    boot: u8,
    key: Key,
    mark: Marked<'_>,
) -> Result<Vec<u8>, NoMemory> {
    let mut fields = begin_letter(alloc, MARK, HELD, boot);
    add_key(&mut fields, key);
    fields.add(&mark.reads.to_be_bytes());
    fields.add(&mark.length.to_be_bytes());
    fields.add(&mark.made.to_be_bytes());
    fields.add(mark.state);
    end_letter(alloc, &fields)
}
