//! A file in memory, and the log that is kept in it.

use crate::kept::datagrams::long_data;
use crate::kept::text::{
    call_count, write_beginning, write_calls, write_kept_entry, write_log, write_opening,
};
use crate::readers::two_numbers;
use disk::{Death, MemDesk, MemDisk};
use forget_store::{AnswerOut, Heeded, read_heeded};
use ft_io::{Failed, NoMemory};
use ft_system::MemLink;
use kept_log::{KeepEnd, KeptLog};
use logger_wire::Grammar;
use std::alloc::Global;
use test_data::{Said, bytes_of_hex};

/// Which calls fail of the files that are opened: their numbers, counted from 1; 0 for none.
#[derive(Clone, Copy)]
struct Fails {
    read: u32,
    call: u32,
}

#[derive(Drop)]
pub(crate) struct Bench {
    /// The bytes of the next file that is opened.
    file: Vec<u8>,
    fails: Fails,
    /// The grammar of the journals that are begun or opened.
    grammar: Grammar,
    desk: MemDesk,
    log: Option<KeptLog>,
    /// How many calls of the disk were printed.
    shown: usize,
}

/// The death of a line.
fn death_of(text: &str) -> Option<Death> {
    let (calls, rest) = text.split_once(' ')?;
    let (Ok(calls), Some((kept, put))) = (calls.parse::<u32>(), two_numbers(rest)) else {
        return None;
    };
    Some(Death {
        calls: calls as usize,
        kept: kept as usize,
        is_put: put == 1,
    })
}

/// A desk with this file, and with no datagrams.
fn desk_over(alloc: Global, disk: MemDisk) -> MemDesk {
    let link = MemLink::new(
        alloc,
        Vec::new(alloc),
        Vec::new(alloc),
        Vec::new(alloc),
        false,
    );
    MemDesk::new(
        alloc,
        link,
        disk,
        String::new(alloc),
        Vec::new(alloc),
        false,
    )
}

/// A file of these bytes, with the calls that fail.
fn desk_of(alloc: Global, bytes: &[u8], fails: Fails) -> Result<MemDesk, NoMemory> {
    let first = bytes.to_vec(alloc)?;
    let read_fails = vec![in alloc; fails.read]?;
    let call_fails = vec![in alloc; fails.call]?;
    let disk = MemDisk::new(alloc, first, read_fails, call_fails);
    Ok(desk_over(alloc, disk))
}

/// Writes what comes of an opening of a file of these bytes, with the calls on it.
fn write_outcome(
    alloc: Global,
    bytes: &[u8],
    fails: Fails,
    grammar: Grammar,
    said: &mut Said,
) -> Result<(), NoMemory> {
    let mut desk = desk_of(alloc, bytes, fails)?;
    let opened = KeptLog::open(alloc, heeded_in(grammar), &mut desk);
    write_opening(&opened, &desk, said)
}

/// Which messages a log of this grammar heeds: those about forgetting too.
fn heeded_in(grammar: Grammar) -> Heeded {
    Heeded {
        grammar,
        forgets: true,
    }
}

/// What became of a datagram.
#[derive(Clone, Copy)]
enum Given {
    /// It is no message.
    Refused,
    /// The round has no room for it.
    Full,
    Taken,
}

/// Gives a log a datagram.
fn deliver(
    alloc: Global,
    log: &mut KeptLog,
    datagram: &[u8],
    out: &mut AnswerOut,
) -> Result<Given, NoMemory> {
    let Some(any) = read_heeded(log.heeded(), datagram) else {
        return Ok(Given::Refused);
    };
    if log.is_full() {
        return Ok(Given::Full);
    }
    log.take(alloc, datagram, &any, out)?;
    Ok(Given::Taken)
}

impl Bench {
    pub(crate) fn new(alloc: Global) -> Bench {
        Bench {
            file: Vec::new(alloc),
            fails: Fails { read: 0, call: 0 },
            grammar: Grammar::Plain,
            desk: desk_over(
                alloc,
                MemDisk::new(alloc, Vec::new(alloc), Vec::new(alloc), Vec::new(alloc)),
            ),
            log: None,
            shown: 0,
        }
    }

    /// Plays a line on the file, and says what it prints.
    pub(crate) fn play(
        &mut self,
        alloc: Global,
        line: &str,
        said: &mut Said,
    ) -> Result<(), NoMemory> {
        let (word, rest) = line.split_once(' ').unwrap_or((line, ""));
        let played = match word {
            "file" => self.set_file(alloc, rest, said),
            "more" => self.lengthen(rest, said),
            "begin" => self.begin(alloc, rest, said),
            "open" => self.open(alloc, said),
            "cuts" => self.open_cuts(alloc, said),
            "flips" => self.open_flips(alloc, said),
            "in" => self.take(alloc, rest, said),
            "long" => self.take_long(alloc, rest, said),
            "commit" => self.commit(alloc, said),
            "compact" => self.compact(alloc, rest, said),
            "death" => self.die(rest, said),
            _ => {
                self.set_or_report(word, rest, said);
                Ok(())
            }
        };
        said.end_line();
        played
    }

    /// Plays a line that wants no memory.
    fn set_or_report(&mut self, word: &str, rest: &str, said: &mut Said) {
        match word {
            "fail" => match two_numbers(rest) {
                Some((read, call)) => {
                    self.fails = Fails { read, call };
                    write!(said, "fail {read} {call}");
                }
                None => said.add(b"no such line"),
            },
            "profile" => self.set_grammar(rest, said),
            "state" => match &self.log {
                Some(log) => write_log(log, said),
                None => said.add(b"no log"),
            },
            "entry" => match (&self.log, rest.parse::<u16>()) {
                (Some(log), Ok(place)) => write_kept_entry(log.log(), place, said),
                _ => said.add(b"no log"),
            },
            _ => said.add(b"no such line"),
        }
    }

    /// Sets the grammar of the journals that are begun or opened from now on.
    fn set_grammar(&mut self, profile: &str, said: &mut Said) {
        self.grammar = match profile {
            "plain" => Grammar::Plain,
            "wan" => Grammar::Wide,
            _ => return said.add(b"no such line"),
        };
        write!(said, "profile {profile}");
    }

    /// Says how long the next file is.
    fn write_file(&self, said: &mut Said) {
        let len = self.file.len();
        write!(said, "file {len}");
    }

    fn set_file(&mut self, alloc: Global, text: &str, said: &mut Said) -> Result<(), NoMemory> {
        match bytes_of_hex(alloc, text)? {
            Some(file) => {
                self.file = file;
                self.write_file(said);
            }
            None => said.add(b"no bytes"),
        }
        Ok(())
    }

    fn lengthen(&mut self, text: &str, said: &mut Said) -> Result<(), NoMemory> {
        let Some((count, byte)) = two_numbers(text) else {
            said.add(b"no such line");
            return Ok(());
        };
        for _ in 0..count {
            self.file.push((byte % 256) as u8)?;
        }
        self.write_file(said);
        Ok(())
    }

    fn open(&mut self, alloc: Global, said: &mut Said) -> Result<(), NoMemory> {
        said.add(b"open ");
        let mut desk = desk_of(alloc, &self.file, self.fails)?;
        let opened = KeptLog::open(alloc, heeded_in(self.grammar), &mut desk);
        let reported = write_opening(&opened, &desk, said);
        self.shown = call_count(&desk);
        self.desk = desk;
        self.log = opened.ok().map(|(log, _)| log);
        reported
    }

    fn begin(&mut self, alloc: Global, text: &str, said: &mut Said) -> Result<(), NoMemory> {
        let Ok(made) = text.parse::<u64>() else {
            said.add(b"no such line");
            return Ok(());
        };
        said.add(b"begin ");
        let mut desk = desk_of(alloc, &[], self.fails)?;
        let begun = KeptLog::begin(alloc, heeded_in(self.grammar), &mut desk, made);
        let reported = write_beginning(&begun, &desk, said);
        self.shown = call_count(&desk);
        self.desk = desk;
        self.log = begun.ok();
        reported
    }

    fn open_cuts(&self, alloc: Global, said: &mut Said) -> Result<(), NoMemory> {
        said.add(b"cuts");
        for len in 0..=self.file.len() {
            write!(said, "\n{len} ");
            write_outcome(alloc, &self.file[..len], self.fails, self.grammar, said)?;
        }
        Ok(())
    }

    /// Opens the file with each of its bits changed in turn.
    fn open_flips(&self, alloc: Global, said: &mut Said) -> Result<(), NoMemory> {
        said.add(b"flips");
        for at in 0..self.file.len() {
            for bit in 0..8u8 {
                write!(said, "\n{at} {bit} ");
                let mut bytes = self.file.as_slice().to_vec(alloc)?;
                if let Some(byte) = bytes.get_mut(at) {
                    *byte ^= 1u8.wrapping_shl(u32::from(bit));
                }
                write_outcome(alloc, &bytes, self.fails, self.grammar, said)?;
            }
        }
        Ok(())
    }

    fn take(&mut self, alloc: Global, text: &str, said: &mut Said) -> Result<(), NoMemory> {
        let (datagram, log) = match (bytes_of_hex(alloc, text)?, &mut self.log) {
            (Some(datagram), Some(log)) => (datagram, log),
            (None, _) => {
                said.add(b"no datagram");
                return Ok(());
            }
            _ => {
                said.add(b"no log");
                return Ok(());
            }
        };
        let mut out = AnswerOut::new();
        match deliver(alloc, log, datagram.as_slice(), &mut out)? {
            Given::Refused => said.add(b"no message"),
            Given::Full => said.add(b"full"),
            Given::Taken => {
                said.add(b"out ");
                said.digits(out.bytes());
            }
        }
        Ok(())
    }

    /// Gives the log long messages until its round is full, and at most as many as a line says. A second number is that of the first message; without it that
    /// is 0.
    fn take_long(&mut self, alloc: Global, text: &str, said: &mut Said) -> Result<(), NoMemory> {
        let (text, first) = text.split_once(' ').unwrap_or((text, "0"));
        let (Some(log), Ok(count), Ok(first)) = (
            &mut self.log,
            text.parse::<u32>(),
            first.parse::<u32>(),
        ) else {
            said.add(b"no log");
            return Ok(());
        };
        let mut out = AnswerOut::new();
        for piece in 0..count {
            let datagram = long_data(log.log().boot(), first.wrapping_add(piece));
            if let Given::Full = deliver(alloc, log, &datagram, &mut out)? {
                write!(said, "full behind {piece}");
                return Ok(());
            }
        }
        write!(said, "took {count}");
        Ok(())
    }

    fn commit(&mut self, alloc: Global, said: &mut Said) -> Result<(), NoMemory> {
        let Some(log) = &mut self.log else {
            said.add(b"no log");
            return Ok(());
        };
        let committed = log.commit(alloc, &mut self.desk);
        if committed.is_err() {
            self.log = None;
        }
        match committed {
            Ok(()) => said.add(b"commit"),
            Err(KeepEnd::Failed) => said.add(b"failed"),
            Err(KeepEnd::NoMemory) => return Err(NoMemory),
        }
        self.write_new_calls(said);
        Ok(())
    }

    /// Commits, and then puts a new file with the log in the place of the file.
    fn compact(&mut self, alloc: Global, text: &str, said: &mut Said) -> Result<(), NoMemory> {
        let (Some(log), Ok(made)) = (&mut self.log, text.parse::<u64>()) else {
            said.add(b"no log");
            return Ok(());
        };
        let compacted = match log.commit(alloc, &mut self.desk) {
            Ok(()) => log.compact(alloc, &mut self.desk, made),
            Err(KeepEnd::Failed) => Err(Failed),
            Err(KeepEnd::NoMemory) => return Err(NoMemory),
        };
        match compacted {
            Ok(true) => said.add(b"compact"),
            Ok(false) => said.add(b"stays"),
            Err(Failed) => {
                self.log = None;
                said.add(b"failed");
            }
        }
        self.write_new_calls(said);
        Ok(())
    }

    /// Says the calls that weren't printed yet.
    fn write_new_calls(&mut self, said: &mut Said) {
        write_calls(&self.desk, self.shown, said);
        self.shown = call_count(&self.desk);
    }

    fn die(&mut self, text: &str, said: &mut Said) -> Result<(), NoMemory> {
        let Some(death) = death_of(text) else {
            said.add(b"no such line");
            return Ok(());
        };
        self.file = self.desk.after_death(death)?;
        self.log = None;
        said.add(b"left ");
        said.brief(&self.file);
        Ok(())
    }
}
