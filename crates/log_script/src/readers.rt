//! The lines that trim an entry of a log, and those that print what it keeps.

use logger_store::TrimStore;
use logger_wire::EntryHead;
use test_data::Said;

/// Two numbers, separated by a space.
pub(crate) fn two_numbers(text: &str) -> Option<(u32, u32)> {
    let (first, second) = text.split_once(' ')?;
    let (Ok(first), Ok(second)) = (first.parse::<u32>(), second.parse::<u32>()) else {
        return None;
    };
    Some((first, second))
}

/// The place of an entry and a number, separated by a space.
fn place_and_number(text: &str) -> Option<(u16, u32)> {
    let (place, number) = text.split_once(' ')?;
    let (Ok(place), Ok(number)) = (place.parse::<u16>(), number.parse::<u32>()) else {
        return None;
    };
    Some((place, number))
}

/// The entry at a place, as a line.
pub(crate) fn entry_at(log: &TrimStore, text: &str, said: &mut Said) {
    let Ok(place) = text.parse::<u16>() else {
        return said.add(b"no such line");
    };
    let Some(entry) = log.entry(place) else {
        return write!(said, "entry {place} none");
    };
    let EntryHead {
        cisn,
        sisn,
        mss,
        ..
    } = entry;
    write_key(place, &entry, said);
    write!(said, "cisn {cisn} sisn {sisn} mss {mss} ");
    write_extent(&entry, said);
}

/// Says an entry's place and its key, and a space.
pub(crate) fn write_key(place: u16, entry: &EntryHead, said: &mut Said) {
    let key = entry.key;
    write!(said, "entry {place} ip {} port {} ", key.ip, key.port);
}

/// Says what is logged of an entry behind its Open.
pub(crate) fn write_extent(entry: &EntryHead, said: &mut Said) {
    let EntryHead {
        length,
        reads,
        acked,
        ..
    } = *entry;
    let (fin, done) = (u8::from(entry.fin), u8::from(entry.done));
    write!(
        said,
        "length {length} fin {fin} done {done} reads {reads} acked {acked}"
    );
}

/// The byte at a place of an entry, as a line.
pub(crate) fn byte_at(log: &TrimStore, text: &str, said: &mut Said) {
    if let Some((place, at)) = place_and_number(text)
        && let Some(entry) = log.entry(place)
        && at < entry.length
        && log.trim_at(place).bytes <= at
    {
        let byte = log.byte(place, at);
        return write!(said, "byte {place} {at} is {byte}");
    }
    said.add(b"no such byte");
}

/// The length of a read of an entry, as a line.
pub(crate) fn length_at(log: &TrimStore, text: &str, said: &mut Said) {
    if let Some((place, at)) = place_and_number(text)
        && let Some(entry) = log.entry(place)
        && at < entry.reads
        && log.trim_at(place).reads <= at
    {
        let length = log.length(place, at);
        return write!(said, "length {place} {at} is {length}");
    }
    said.add(b"no such length");
}

/// How many bytes of an entry are kept, as a line.
pub(crate) fn kept_at(log: &TrimStore, text: &str, said: &mut Said) {
    match text.parse::<u16>() {
        Ok(place) if place < log.count() => {
            let kept = log.kept(place);
            write!(said, "kept {place} is {kept}");
        }
        _ => said.add(b"no such entry"),
    }
}

/// Trims an entry by its first reads, and says how many bytes they took. It refuses fewer reads than were trimmed before, and reads that aren't logged or
/// include a closing read.
pub(crate) fn trim_at(log: &mut TrimStore, text: &str, said: &mut Said) {
    if let Some((place, reads)) = place_and_number(text)
        && let Some(entry) = log.entry(place)
        && place < log.count()
        && reads <= entry.reads
        && log.trim_at(place).reads <= reads
        && let Some(bytes) = log.took(place, reads)
    {
        log.trim(place, bytes, reads);
        return write!(said, "trimmed {place} by {bytes} bytes in {reads} reads");
    }
    said.add(b"no such trim");
}
